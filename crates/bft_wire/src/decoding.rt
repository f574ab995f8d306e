//! Reads messages from the front of bytes.
ghost use Rattle.std.specs.Prelude.{◌≤◌};
ghost use Rattle.ord_types.specs.Faults.{Reads};
ghost use Rattle.bft_wire.specs.Reading.{
  block_ask_at,
  block_reply_at,
  body_at,
  commit_at,
  flag_at,
  forward_at,
  header_ask_at,
  header_reply_at,
  heart_beat_at,
  heart_beat_reply_at,
  message_at,
  new_view_at,
  prepare_at,
  preprepare_at,
  raft_append_at,
  raft_append_reply_at,
  raft_block_at,
  raft_vote_at,
  raft_vote_reply_at,
  signed_from_at,
  signed_reports_at,
  view_change_at,
  view_data_at,
};
ghost use Rattle.ord_types.specs.Reading.{header_at, list_at};

use crate::message::{
    BlockAsk, BlockReply, Commit, Forward, HeaderAsk, HeaderReply, HeartBeat, HeartBeatReply,
    Message, NewView, PrePrepare, Prepare, RaftAppend, RaftAppendReply, RaftBlock, RaftVote,
    RaftVoteReply, Signed, ViewChange, ViewData,
};
use ord_types::{Halt, Header, List, MOST_HEADERS, MOST_MEMBERS, Reader};
use std::alloc::Global;

#[tactic(auto, unfolding(crate::specs::Reading::flag_at))]
fn flag(reader: &mut Reader) -> Result<bool, Halt>
    ensures { Reads result reader.new (flag_at reader.old) }
{
    let flag = reader.u8_up_to(1)?;
    Ok(flag == 1)
}

#[tactic(auto, unfolding(crate::specs::Reading::preprepare_at))]
fn preprepare(reader: &mut Reader, alloc: Global) -> Result<Message, Halt>
    ensures { Reads result reader.new (preprepare_at reader.old) }
{
    Ok(Message::PrePrepare(PrePrepare {
        config: reader.number()?,
        view: reader.number()?,
        number: reader.number()?,
        block: reader.block(alloc)?,
        cert: reader.cert_or_none(alloc)?,
    }))
}

#[tactic(auto, unfolding(crate::specs::Reading::prepare_at))]
fn prepare(reader: &mut Reader) -> Result<Message, Halt>
    ensures { Reads result reader.new (prepare_at reader.old) }
{
    Ok(Message::Prepare(Prepare {
        config: reader.number()?,
        view: reader.number()?,
        number: reader.number()?,
        digest: reader.digest()?,
    }))
}

#[tactic(auto, unfolding(crate::specs::Reading::commit_at))]
fn commit(reader: &mut Reader, alloc: Global) -> Result<Message, Halt>
    ensures { Reads result reader.new (commit_at reader.old) }
{
    Ok(Message::Commit(Commit {
        config: reader.number()?,
        view: reader.number()?,
        number: reader.number()?,
        digest: reader.digest()?,
        sig: reader.sig(alloc)?,
    }))
}

#[tactic(auto, unfolding(crate::specs::Reading::view_change_at))]
fn view_change(reader: &mut Reader) -> Result<Message, Halt>
    ensures { Reads result reader.new (view_change_at reader.old) }
{
    Ok(Message::ViewChange(ViewChange {
        config: reader.number()?,
        target: reader.number()?,
    }))
}

#[tactic(auto, unfolding(crate::specs::Reading::view_data_at))]
fn view_data(reader: &mut Reader, alloc: Global) -> Result<Message, Halt>
    ensures { Reads result reader.new (view_data_at reader.old) }
{
    Ok(Message::ViewData(ViewData {
        config: reader.number()?,
        view: reader.number()?,
        report: reader.report(alloc)?,
        sig: reader.sig(alloc)?,
        block: reader.block_or_none(alloc)?,
    }))
}

// A report with a signature whose signer is at least this.
#[tactic(auto, unfolding(crate::specs::Reading::signed_from_at))]
fn signed_from(reader: &mut Reader, alloc: Global, least: u64) -> Result<Signed, Halt>
    ensures { Reads result reader.new (signed_from_at least reader.old) }
{
    Ok(Signed {
        report: reader.report(alloc)?,
        sig: reader.sig_from(alloc, least)?,
    })
}

// So many signed reports by strictly ascending signers.
fn signed_reports(reader: &mut Reader, alloc: Global, count: u8) -> Result<List<Signed>, Halt>
    ensures { Reads result reader.new (signed_reports_at 0 count reader.old) }
{
    let mut reports = List::new(alloc);
    let mut least: u64 = 0;
    for _ in 0..count {
        let signed = signed_from(reader, alloc, least)?;
        least = u64::from(signed.sig.signer) + 1;
        reports.push(signed)?;
    }
    Ok(reports)
}

#[tactic(auto, unfolding(crate::specs::Reading::new_view_at))]
fn new_view(reader: &mut Reader, alloc: Global) -> Result<Message, Halt>
    ensures { Reads result reader.new (new_view_at reader.old) }
{
    let config = reader.number()?;
    let view = reader.number()?;
    let count = reader.u8_up_to(MOST_MEMBERS as u8)?;
    let reports = signed_reports(reader, alloc, count)?;
    let block = reader.block_or_none(alloc)?;
    Ok(Message::NewView(NewView {
        config,
        view,
        reports,
        block,
    }))
}

#[tactic(auto, unfolding(crate::specs::Reading::heart_beat_at))]
fn heart_beat(reader: &mut Reader) -> Result<Message, Halt>
    ensures { Reads result reader.new (heart_beat_at reader.old) }
{
    Ok(Message::HeartBeat(HeartBeat {
        config: reader.number()?,
        view: reader.number()?,
        height: reader.number()?,
    }))
}

#[tactic(auto, unfolding(crate::specs::Reading::heart_beat_reply_at))]
fn heart_beat_reply(reader: &mut Reader) -> Result<Message, Halt>
    ensures { Reads result reader.new (heart_beat_reply_at reader.old) }
{
    Ok(Message::HeartBeatReply(HeartBeatReply {
        config: reader.number()?,
        view: reader.number()?,
    }))
}

#[tactic(auto, unfolding(crate::specs::Reading::forward_at))]
fn forward(reader: &mut Reader, alloc: Global) -> Result<Message, Halt>
    ensures { Reads result reader.new (forward_at reader.old) }
{
    Ok(Message::Forward(Forward {
        request: reader.request(alloc)?,
    }))
}

#[tactic(auto, unfolding(crate::specs::Reading::block_ask_at))]
fn block_ask(reader: &mut Reader) -> Result<Message, Halt>
    ensures { Reads result reader.new (block_ask_at reader.old) }
{
    Ok(Message::BlockAsk(BlockAsk {
        first: reader.number()?,
        count: reader.u8_within(1, 8)?,
    }))
}

#[tactic(auto, unfolding(crate::specs::Reading::block_reply_at))]
fn block_reply(reader: &mut Reader, alloc: Global) -> Result<Message, Halt>
    ensures { Reads result reader.new (block_reply_at reader.old) }
{
    Ok(Message::BlockReply(BlockReply {
        block: reader.block(alloc)?,
        cert: reader.cert(alloc)?,
    }))
}

#[tactic(auto, unfolding(crate::specs::Reading::header_ask_at))]
fn header_ask(reader: &mut Reader) -> Result<Message, Halt>
    ensures { Reads result reader.new (header_ask_at reader.old) }
{
    Ok(Message::HeaderAsk(HeaderAsk {
        number: reader.number()?,
    }))
}

// So many headers.
fn so_many_headers(reader: &mut Reader, alloc: Global, count: u16) -> Result<List<Header>, Halt>
    ensures { Reads result reader.new (list_at header_at count reader.old) }
{
    let mut headers = List::new(alloc);
    for _ in 0..count {
        headers.push(reader.header()?)?;
    }
    Ok(headers)
}

#[tactic(auto, unfolding(crate::specs::Reading::header_reply_at))]
fn header_reply(reader: &mut Reader, alloc: Global) -> Result<Message, Halt>
    ensures { Reads result reader.new (header_reply_at reader.old) }
{
    let count = reader.u16_up_to(MOST_HEADERS as u16)?;
    let headers = so_many_headers(reader, alloc, count)?;
    Ok(Message::HeaderReply(HeaderReply { headers }))
}

#[tactic(auto, unfolding(crate::specs::Reading::raft_vote_at))]
fn raft_vote(reader: &mut Reader) -> Result<Message, Halt>
    ensures { Reads result reader.new (raft_vote_at reader.old) }
{
    Ok(Message::RaftVote(RaftVote {
        term: reader.number()?,
        height: reader.number()?,
        tail_term: reader.number()?,
    }))
}

#[tactic(auto, unfolding(crate::specs::Reading::raft_vote_reply_at))]
fn raft_vote_reply(reader: &mut Reader) -> Result<Message, Halt>
    ensures { Reads result reader.new (raft_vote_reply_at reader.old) }
{
    Ok(Message::RaftVoteReply(RaftVoteReply {
        term: reader.number()?,
        granted: flag(reader)?,
    }))
}

#[tactic(auto, unfolding(crate::specs::Reading::raft_append_at))]
fn raft_append(reader: &mut Reader, alloc: Global) -> Result<Message, Halt>
    ensures { Reads result reader.new (raft_append_at reader.old) }
{
    Ok(Message::RaftAppend(RaftAppend {
        term: reader.number()?,
        height: reader.number()?,
        last: reader.digest()?,
        block: reader.block_or_none(alloc)?,
    }))
}

#[tactic(auto, unfolding(crate::specs::Reading::raft_append_reply_at))]
fn raft_append_reply(reader: &mut Reader) -> Result<Message, Halt>
    ensures { Reads result reader.new (raft_append_reply_at reader.old) }
{
    Ok(Message::RaftAppendReply(RaftAppendReply {
        term: reader.number()?,
        number: reader.number()?,
        digest: reader.digest()?,
        taken: flag(reader)?,
    }))
}

#[tactic(auto, unfolding(crate::specs::Reading::raft_block_at))]
fn raft_block(reader: &mut Reader, alloc: Global) -> Result<Message, Halt>
    ensures { Reads result reader.new (raft_block_at reader.old) }
{
    Ok(Message::RaftBlock(RaftBlock {
        block: reader.block(alloc)?,
    }))
}

// The body of a kind from 1 to 18.
#[tactic(auto, unfolding(crate::specs::Reading::body_at))]
fn body(reader: &mut Reader, alloc: Global, kind: u8) -> Result<Message, Halt>
    requires { (1 ≤ kind) × (kind ≤ 18) }
    ensures { Reads result reader.new (body_at kind reader.old) }
{
    match kind {
        1 => preprepare(reader, alloc),
        2 => prepare(reader),
        3 => commit(reader, alloc),
        4 => view_change(reader),
        5 => view_data(reader, alloc),
        6 => new_view(reader, alloc),
        7 => heart_beat(reader),
        8 => heart_beat_reply(reader),
        9 => forward(reader, alloc),
        10 => block_ask(reader),
        11 => block_reply(reader, alloc),
        12 => header_ask(reader),
        13 => header_reply(reader, alloc),
        14 => raft_vote(reader),
        15 => raft_vote_reply(reader),
        16 => raft_append(reader, alloc),
        17 => raft_append_reply(reader),
        18 => raft_block(reader, alloc),
        _ => unreachable!(),
    }
}

/// A message: its kind, and its body.
#[tactic(auto, unfolding(crate::specs::Reading::message_at))]
pub(crate) fn message(reader: &mut Reader, alloc: Global) -> Result<Message, Halt>
    ensures { Reads result reader.new (message_at reader.old) }
{
    let kind = reader.u8_within(1, 18)?;
    body(reader, alloc, kind)
}
