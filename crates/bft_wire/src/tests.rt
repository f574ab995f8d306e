// The expected bytes and places were written by tools/wire_vectors.py, apart from this crate.
ghost use Rattle.std.specs.Prelude.{◌≡◌, ◌<◌, ◌^◌, length, IfOk};
ghost use Rattle.std.specs.List.{All};
ghost use Rattle.ord_types.specs.Lengths.{FitsBlock, FitsCert, FitsMeta, FitsReport, FitsRequest, FitsRequests, FitsSig};
ghost use Rattle.bft_wire.specs.Lengths.{FitsMessage, FitsSigned};

use crate::vectors::{BROKEN, VECTORS};
use crate::{
    BlockAsk, BlockReply, Commit, Forward, HeaderAsk, HeaderReply, HeartBeat, HeartBeatReply,
    Message, NewView, PrePrepare, Prepare, RaftAppend, RaftAppendReply, RaftBlock, RaftVote,
    RaftVoteReply, Signed, ViewChange, ViewData, decode, encode, encode_into, encoded_is_decoded,
    fronts_are_short, spellings_differ,
};
use ord_types::{
    Block, Bytes, Cert, Copied, Header, Last, List, Meta, NoMemory, ReadFault, Report, ReqId,
    ReqKind, Request, Sig, Vote, content_hash, meta_hash,
};
use std::alloc::Global;
use std::test::Fail;

fn sig_of(alloc: Global, signer: u32, first: u8) -> Result<Sig, NoMemory>
    ensures { IfOk result FitsSig }
{
    let bytes = Bytes::from_slice(alloc, &[first, 0xaa])?;
    Ok(Sig { signer, bytes })
}

fn cert_of(alloc: Global, view: u64, second: u8) -> Result<Cert, NoMemory>
    ensures { IfOk result FitsCert }
{
    let mut sigs = List::new(alloc);
    sigs.push(sig_of(alloc, 1, 1)?)?;
    sigs.push(sig_of(alloc, u32::from(second), second)?)?;
    Ok(Cert { view, sigs })
}

fn request_of_two_bytes(alloc: Global) -> Result<Request, NoMemory>
    ensures { IfOk result FitsRequest }
{
    Ok(Request {
        kind: ReqKind::Ordinary,
        id: ReqId {
            client: 5,
            serial: u64::MAX,
        },
        payload: Bytes::from_slice(alloc, b"\xaa\xbb")?,
    })
}

fn empty_change(alloc: Global) -> Request
    ensures { FitsRequest result }
{
    Request {
        kind: ReqKind::Change,
        id: ReqId {
            client: u32::MAX,
            serial: 0,
        },
        payload: Bytes::new(alloc),
    }
}

fn meta_of_five(alloc: Global) -> Result<Meta, NoMemory>
    ensures { IfOk result FitsMeta }
{
    let mut blacklist = List::new(alloc);
    blacklist.push(9)?;
    blacklist.push(4)?;
    let mut signers = List::new(alloc);
    signers.push(1)?;
    signers.push(2)?;
    signers.push(3)?;
    Ok(Meta {
        config: 11,
        view: 12,
        decided: 13,
        blacklist,
        signers,
    })
}

fn block_of_two(alloc: Global) -> Result<Block, NoMemory>
    ensures { IfOk result FitsBlock }
{
    let mut requests = List::new(alloc);
    requests.push(request_of_two_bytes(alloc)?)?;
    requests.push(empty_change(alloc))?;
    let meta = meta_of_five(alloc)?;
    let header = Header {
        number: 14,
        previous: [0xd1; 32],
        content: content_hash(&requests),
        meta: meta_hash(&meta),
    };
    Ok(Block {
        header,
        requests,
        meta,
    })
}

fn full_report(alloc: Global) -> Result<Report, NoMemory>
    ensures { IfOk result FitsReport }
{
    let mut accepted = List::new(alloc);
    accepted.push(Vote {
        view: 25,
        digest: [0xd4; 32],
    })?;
    accepted.push(Vote {
        view: 24,
        digest: [0xd5; 32],
    })?;
    Ok(Report {
        height: 21,
        last: Some(Last {
            hash: [0xd2; 32],
            cert: cert_of(alloc, 22, 3)?,
        }),
        prepared: Some(Vote {
            view: 23,
            digest: [0xd3; 32],
        }),
        accepted,
    })
}

fn signed_of(alloc: Global, report: Report, signer: u32, first: u8) -> Result<Signed, NoMemory>
    requires { FitsReport report }
    ensures { IfOk result FitsSigned }
{
    let sig = sig_of(alloc, signer, first)?;
    Ok(Signed { report, sig })
}

fn short_report(alloc: Global) -> Report
    ensures { FitsReport result }
{
    Report {
        height: 21,
        last: None,
        prepared: None,
        accepted: List::new(alloc),
    }
}

fn reports_of_two(alloc: Global) -> Result<List<Signed>, NoMemory>
    ensures count { IfOk result (λ reports. length reports < 2 ^ 8) }
    ensures reports { IfOk result (All FitsSigned) }
{
    let mut reports = List::new(alloc);
    reports.push(signed_of(alloc, short_report(alloc), 7, 7)?)?;
    reports.push(signed_of(alloc, full_report(alloc)?, 8, 8)?)?;
    Ok(reports)
}

fn headers_of_two(alloc: Global) -> Result<List<Header>, NoMemory>
    ensures { IfOk result (λ headers. length headers < 2 ^ 16) }
{
    let mut headers = List::new(alloc);
    headers.push(Header {
        number: 2,
        previous: [0xe1; 32],
        content: [0xe2; 32],
        meta: [0xe3; 32],
    })?;
    headers.push(Header {
        number: 1,
        previous: [0xe4; 32],
        content: [0xe5; 32],
        meta: [0xe6; 32],
    })?;
    Ok(headers)
}

// A message of views, from kind 1 to kind 8.
fn message_of_views(alloc: Global, kind: usize) -> Result<Message, NoMemory>
    ensures { IfOk result FitsMessage }
{
    Ok(match kind {
        1 => Message::PrePrepare(PrePrepare {
            config: 1,
            view: 2,
            number: 3,
            block: block_of_two(alloc)?,
            cert: Some(cert_of(alloc, 4, 2)?),
        }),
        2 => Message::Prepare(Prepare {
            config: 1,
            view: 2,
            number: 3,
            digest: [0xd6; 32],
        }),
        3 => Message::Commit(Commit {
            config: 1,
            view: 2,
            number: 3,
            digest: [0xd6; 32],
            sig: sig_of(alloc, 7, 7)?,
        }),
        4 => Message::ViewChange(ViewChange {
            config: 1,
            target: 2,
        }),
        5 => Message::ViewData(ViewData {
            config: 1,
            view: 2,
            report: full_report(alloc)?,
            sig: sig_of(alloc, 7, 7)?,
            block: Some(block_of_two(alloc)?),
        }),
        6 => Message::NewView(NewView {
            config: 1,
            view: 2,
            reports: reports_of_two(alloc)?,
            block: None,
        }),
        7 => Message::HeartBeat(HeartBeat {
            config: 1,
            view: 2,
            height: 3,
        }),
        _ => Message::HeartBeatReply(HeartBeatReply { config: 1, view: 2 }),
    })
}

// A message of kind 9 to 13, or of Raft.
fn message_of_blocks(alloc: Global, kind: usize) -> Result<Message, NoMemory>
    ensures { IfOk result FitsMessage }
{
    Ok(match kind {
        9 => Message::Forward(Forward {
            request: request_of_two_bytes(alloc)?,
        }),
        10 => Message::BlockAsk(BlockAsk { first: 1, count: 8 }),
        11 => Message::BlockReply(BlockReply {
            block: block_of_two(alloc)?,
            cert: cert_of(alloc, 4, 2)?,
        }),
        12 => Message::HeaderAsk(HeaderAsk { number: 1 }),
        13 => Message::HeaderReply(HeaderReply {
            headers: headers_of_two(alloc)?,
        }),
        14 => Message::RaftVote(RaftVote {
            term: 1,
            height: 2,
            tail_term: 3,
        }),
        15 => Message::RaftVoteReply(RaftVoteReply {
            term: 1,
            granted: true,
        }),
        16 => Message::RaftAppend(RaftAppend {
            term: 1,
            height: 2,
            last: [0xd7; 32],
            block: Some(block_of_two(alloc)?),
        }),
        17 => Message::RaftAppendReply(RaftAppendReply {
            term: 1,
            number: 2,
            digest: [0xd6; 32],
            taken: false,
        }),
        _ => Message::RaftBlock(RaftBlock {
            block: block_of_two(alloc)?,
        }),
    })
}

// The constants stand behind calls, so that no proof of a test looks into them.
fn vectors() -> &'static [&'static [u8]] {
    &VECTORS
}

fn broken() -> &'static [(usize, usize, u8, usize)] {
    &BROKEN
}

fn message_of(alloc: Global, kind: usize) -> Result<Message, NoMemory>
    ensures { IfOk result FitsMessage }
{
    if kind <= 8 {
        message_of_views(alloc, kind)
    } else {
        message_of_blocks(alloc, kind)
    }
}

// These take their message, so that no test lets one go in the midst of its own steps.
fn spelled(alloc: Global, message: Message) -> Result<Bytes, NoMemory>
    requires { FitsMessage message }
{
    let mut out = Bytes::new(alloc);
    let done = encode(&message, &mut out);
    drop(message);
    done?;
    Ok(out)
}

fn placed(message: Message, out: &mut [u8]) -> Option<usize>
    requires { FitsMessage message }
{
    let count = encode_into(&message, out);
    drop(message);
    count
}

fn copied(message: Message) -> Result<Message, NoMemory>
    requires { FitsMessage message }
    ensures { IfOk result FitsMessage }
{
    let copy = message.copy();
    drop(message);
    copy
}

#[test]
fn vectors_of_all_kinds(rt: HostRuntime) -> Result<(), Fail> {
    for (place, vector) in vectors().iter().enumerate() {
        let kind = place + 1;
        let out = spelled(rt.alloc(), message_of(rt.alloc(), kind)?)?;
        assert_eq!(rt; out.as_slice(), *vector, "kind {kind}");
        let out = spelled(rt.alloc(), copied(message_of(rt.alloc(), kind)?)?)?;
        assert_eq!(rt; out.as_slice(), *vector, "the copy of kind {kind}");
        let out = spelled(rt.alloc(), decode(rt.alloc(), vector)?)?;
        assert_eq!(rt; out.as_slice(), *vector, "decoded kind {kind}");
    }
    Ok(())
}

#[test]
fn vectors_into_a_buffer(rt: HostRuntime) -> Result<(), Fail> {
    for vector in vectors() {
        let mut buffer = [7; 2000];
        let count = placed(decode(rt.alloc(), vector)?, &mut buffer);
        assert_eq!(rt; count, Some(vector.len()));
        assert_eq!(rt; buffer.get(..vector.len()), Some(*vector));
        assert_eq!(rt; buffer.get(vector.len()), Some(&7));
    }
    let mut buffer = [7; 8];
    let message = Message::HeaderAsk(HeaderAsk { number: 1 });
    assert_eq!(rt; placed(message, &mut buffer), None);
    assert_eq!(rt; buffer, [7; 8]);
    encoded_is_decoded();
    spellings_differ();
    fronts_are_short();
    Ok(())
}

#[test]
fn cut_and_trailing(rt: HostRuntime) -> Result<(), Fail> {
    for vector in vectors() {
        for cut in 0..vector.len() {
            let read = decode(rt.alloc(), &vector[..cut]);
            assert_eq!(rt; read.err(), Some(ReadFault::Short(cut)));
        }
        let mut longer = Bytes::from_slice(rt.alloc(), vector)?;
        longer.push(0)?;
        let read = decode(rt.alloc(), longer.as_slice());
        assert_eq!(rt; read.err(), Some(ReadFault::Trailing(vector.len())));
    }
    Ok(())
}

#[test]
fn broken_fields(rt: HostRuntime) -> Result<(), Fail> {
    for (vector, at, byte, place) in broken() {
        let message = vectors().get(*vector).copied().ok_or("a vector")?;
        let mut bytes = message.to_vec(rt.alloc())?;
        *bytes.get_mut(*at).ok_or("a byte")? = *byte;
        let read = decode(rt.alloc(), bytes.as_slice());
        assert_eq!(rt;
            read.err(),
            Some(ReadFault::BadField(*place)),
            "vector {vector} at {at}"
        );
    }
    Ok(())
}
