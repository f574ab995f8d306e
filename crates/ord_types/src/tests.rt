// The expected bytes were written out by hand from the layouts, and the hashes taken of them by another
// program's SHA-256 (hashlib of Python).
ghost use Rattle.std.specs.Prelude.{◌≡◌, length, IfOk};
ghost use Rattle.ord_types.specs.Lengths.{FitsCert, FitsMeta};

use crate::{
    Batch, Block, Bytes, Cert, Config, Copied, Digest, Kind, List, MemSink, MemSource, Meta, Mode,
    NoMemory, Place, Proof, ReqId, ReqKind, Request, Sig, Sink, Source, block_hash, content_hash,
    fault_bound, genesis_block, majority, meta_hash, put_block, put_cert, put_config, put_header,
    put_meta, put_request, put_requests, put_sig, quorum,
};
use std::alloc::Global;
use std::test::Fail;

const CONTENT: Digest = [
    0x45, 0x44, 0xe7, 0x5b, 0x00, 0x9d, 0x97, 0xef, 0x52, 0xe4, 0x70, 0x34, 0xb7, 0xd1, 0x0c, 0x2f,
    0x1d, 0x92, 0x42, 0x3f, 0xf2, 0x51, 0x95, 0xe4, 0x2e, 0x2f, 0x20, 0xbf, 0x9d, 0x53, 0xb7, 0x1e,
];

const META: Digest = [
    0x65, 0x9d, 0x36, 0xca, 0x56, 0x3b, 0xa4, 0x62, 0x2d, 0xaa, 0xbb, 0x36, 0xa7, 0x1d, 0xaf, 0xaf,
    0x60, 0x60, 0xcd, 0xcb, 0xf8, 0x9b, 0xb1, 0x2e, 0x75, 0x42, 0x61, 0x98, 0x49, 0x6d, 0x27, 0x2c,
];

const BLOCK: Digest = [
    0x06, 0x51, 0xa9, 0xd8, 0x98, 0x80, 0x04, 0x63, 0x2c, 0x99, 0x46, 0x54, 0xb2, 0x43, 0xe2, 0xef,
    0x41, 0x76, 0x92, 0xac, 0x28, 0x6f, 0xe3, 0x73, 0xa9, 0xc5, 0x4f, 0xf4, 0xca, 0x2f, 0x8f, 0x75,
];

// Members 1, 2, 3 and 4, one request a block.
fn config_of_four(alloc: Global) -> Result<Config, NoMemory>
    ensures { IfOk result (λ c. length c.members ≡ 4) }
{
    let mut members = List::new(alloc);
    members.push(1)?;
    members.push(2)?;
    members.push(3)?;
    members.push(4)?;
    let batch = Batch {
        count: 1,
        preferred: 524288,
        absolute: 1048576,
        wait: 10,
    };
    Ok(Config {
        number: 0,
        kind: Kind::Bft,
        mode: Mode::Normal,
        members,
        batch,
        rotation: 0,
    })
}

fn sig_of(alloc: Global, signer: u32) -> Result<Sig, NoMemory>
    ensures { IfOk result (λ s. length s.bytes ≡ 2) }
{
    let bytes = Bytes::from_slice(alloc, b"\xaa\xbb")?;
    Ok(Sig { signer, bytes })
}

fn cert_of_two(alloc: Global) -> Result<Cert, NoMemory>
    ensures { IfOk result FitsCert }
{
    let mut sigs = List::new(alloc);
    sigs.push(sig_of(alloc, 7)?)?;
    sigs.push(sig_of(alloc, 8)?)?;
    Ok(Cert { view: 3, sigs })
}

fn request_of_two_bytes(alloc: Global) -> Result<Request, NoMemory>
    ensures { IfOk result (λ r. length r.payload ≡ 2) }
{
    let mut payload = Bytes::new(alloc);
    payload.push(0xaa)?;
    payload.push(0xbb)?;
    Ok(Request {
        kind: ReqKind::Ordinary,
        id: ReqId {
            client: 5,
            serial: 6,
        },
        payload,
    })
}

fn meta_of_five(alloc: Global) -> Result<Meta, NoMemory>
    ensures { IfOk result FitsMeta }
{
    let mut blacklist = List::new(alloc);
    blacklist.push(9)?;
    blacklist.push(4)?;
    let mut signers = List::new(alloc);
    signers.push(1)?;
    signers.push(2)?;
    signers.push(3)?;
    Ok(Meta {
        config: 1,
        view: 2,
        decided: 3,
        blacklist,
        signers,
    })
}

#[test]
fn counts_of_members(rt: HostRuntime) {
    for (n, faulty, enough) in [
        (1, 0, 1),
        (2, 0, 2),
        (3, 0, 2),
        (4, 1, 3),
        (5, 1, 4),
        (6, 1, 4),
        (7, 2, 5),
    ] {
        assert_eq!(rt; fault_bound(n), faulty, "of {n}");
        assert_eq!(rt; quorum(n), enough, "of {n}");
    }
    assert_eq!(rt; majority(4), 3);
}

#[test]
fn hashes_of_genesis(rt: HostRuntime) -> Result<(), Fail> {
    let config = config_of_four(rt.alloc())?;
    let block = genesis_block(rt.alloc(), &config)?;
    assert_eq!(rt; block.header.previous, [0; 32]);
    assert_eq!(rt; block.header.content, CONTENT);
    assert_eq!(rt; block.header.meta, META);
    assert_eq!(rt; content_hash(&block.requests), CONTENT);
    assert_eq!(rt; meta_hash(&block.meta), META);
    assert_eq!(rt; block_hash(&block.header), BLOCK);
    Ok(())
}

#[test]
fn spelled_genesis(rt: HostRuntime) -> Result<(), Fail> {
    let config = config_of_four(rt.alloc())?;
    let mut out = Bytes::new(rt.alloc());
    put_config(&mut out, &config)?;
    assert_eq!(rt;
        out.as_slice(),
        b"\x01\x00\x00\x00\x00\x00\x00\x00\x00\x02\x00\x04\x00\x00\x00\x01\x00\x00\x00\x02\x00\x00\x00\x03\x00\x00\x00\x04\x00\x00\x00\x01\x00\x08\x00\x00\x00\x10\x00\x00\x00\x00\x00\x0a\x00\x00\x00\x00".as_slice()
    );
    let block = genesis_block(rt.alloc(), &config)?;
    let mut whole = Bytes::new(rt.alloc());
    put_block(&mut whole, &block)?;
    let mut parts = Bytes::new(rt.alloc());
    put_header(&mut parts, &block.header)?;
    assert_eq!(rt; parts.len(), 104);
    put_requests(&mut parts, &block.requests)?;
    put_meta(&mut parts, &block.meta)?;
    assert_eq!(rt; whole.as_slice(), parts.as_slice());
    assert_eq!(rt; whole.len(), 205);
    Ok(())
}

#[test]
fn spelled_values(rt: HostRuntime) -> Result<(), Fail> {
    let mut out = Bytes::new(rt.alloc());
    put_sig(&mut out, &sig_of(rt.alloc(), 7)?)?;
    assert_eq!(rt;
        out.as_slice(),
        b"\x00\x00\x00\x07\x00\x02\xaa\xbb".as_slice()
    );
    out.clear();
    put_cert(&mut out, &cert_of_two(rt.alloc())?)?;
    assert_eq!(rt;
        out.as_slice(),
        b"\x00\x00\x00\x00\x00\x00\x00\x03\x02\x00\x00\x00\x07\x00\x02\xaa\xbb\x00\x00\x00\x08\x00\x02\xaa\xbb".as_slice()
    );
    out.clear();
    put_request(&mut out, &request_of_two_bytes(rt.alloc())?)?;
    assert_eq!(rt;
        out.as_slice(),
        b"\x01\x00\x00\x00\x05\x00\x00\x00\x00\x00\x00\x00\x06\x00\x00\x00\x02\xaa\xbb".as_slice()
    );
    out.clear();
    put_meta(&mut out, &meta_of_five(rt.alloc())?)?;
    assert_eq!(rt;
        out.as_slice(),
        b"\x00\x00\x00\x00\x00\x00\x00\x01\x00\x00\x00\x00\x00\x00\x00\x02\x00\x00\x00\x00\x00\x00\x00\x03\x02\x00\x00\x00\x09\x00\x00\x00\x04\x03\x00\x00\x00\x01\x00\x00\x00\x02\x00\x00\x00\x03".as_slice()
    );
    Ok(())
}

#[test]
fn copied_place(rt: HostRuntime) -> Result<(), Fail> {
    let place = Place {
        config: config_of_four(rt.alloc())?,
        start: 1,
        height: 9,
        last: BLOCK,
        last_meta: meta_of_five(rt.alloc())?,
        last_cert: Some(cert_of_two(rt.alloc())?),
    };
    let copy = place.copy()?;
    assert_eq!(rt; copy.config.members.as_slice(), [1, 2, 3, 4].as_slice());
    assert_eq!(rt; copy.last_meta.blacklist.as_slice(), [9, 4].as_slice());
    assert_eq!(rt; (copy.start, copy.height, copy.last), (1, 9, BLOCK));
    assert_eq!(rt; copy.last_cert.map(|cert| cert.sigs.len()), Some(2));
    Ok(())
}

#[test]
fn copied_block(rt: HostRuntime) -> Result<(), Fail> {
    let config = config_of_four(rt.alloc())?;
    let block = genesis_block(rt.alloc(), &config)?.copy()?;
    assert_eq!(rt; block.header.copy()?, block.header);
    assert_eq!(rt; block.requests.len(), 1);
    let proof = Proof::Bft(cert_of_two(rt.alloc())?);
    assert!(rt; matches!(proof.copy()?, Proof::Bft(_)));
    Ok(())
}

#[test]
fn through_memory(rt: HostRuntime) -> Result<(), Fail> {
    let mut fails = List::new(rt.alloc());
    fails.push(2)?;
    let mut sink = MemSink::new(rt.alloc(), fails)?;
    assert_eq!(rt; sink.write(b"ab").ok(), Some(2));
    assert!(rt; sink.write(b"c").is_err());
    let bytes = Bytes::from_slice(rt.alloc(), sink.bytes())?;
    let mut source = MemSource::new(bytes, List::new(rt.alloc()));
    let mut into = [0; 4];
    assert_eq!(rt; source.read(&mut into).ok(), Some(2));
    assert_eq!(rt; into, *b"ab\0\0");
    Ok(())
}
