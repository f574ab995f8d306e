//! Writes the spelling of messages, piece by piece.
ghost use Rattle.std.specs.Prelude.{◌≡◌, ◌<◌, ◌^◌, length, IfSome};
ghost use Rattle.std.specs.List.{All, flat_map};
ghost use Rattle.ord_types.specs.Lengths.{FitsBlock, FitsCert, FitsRequest, FitsSig};
ghost use Rattle.ord_types.specs.Spelling.{block_text, cert_text, header_text, option_text};
ghost use Rattle.bft_wire.specs.Lengths.{FitsBlockReply, FitsMessage, FitsNewView, FitsPrePrepare, FitsSigned, FitsViewData};
ghost use Rattle.bft_wire.specs.Spelling.{flag_text, message_text, signed_text};

use crate::message::{
    BlockAsk, BlockReply, Commit, Forward, HeaderAsk, HeaderReply, HeartBeat, HeartBeatReply,
    Message, NewView, PrePrepare, Prepare, RaftAppend, RaftAppendReply, RaftBlock, RaftVote,
    RaftVoteReply, Signed, ViewChange, ViewData,
};
use ord_types::{
    Block, Cert, Header, List, Writer, write_block, write_cert, write_header, write_report,
    write_request, write_sig,
};

fn write_cert_or_none<W: Writer>(writer: &mut W, cert: &Option<Cert>)
    requires { IfSome cert.now FitsCert }
    ensures { W.took writer.old writer.new (option_text cert_text cert.now) }
{
    match cert {
        None => writer.put_u8(0),
        Some(cert) => {
            writer.put_u8(1);
            write_cert(writer, cert);
        }
    }
}

fn write_block_or_none<W: Writer>(writer: &mut W, block: &Option<Block>)
    requires { IfSome block.now FitsBlock }
    ensures { W.took writer.old writer.new (option_text block_text block.now) }
{
    match block {
        None => writer.put_u8(0),
        Some(block) => {
            writer.put_u8(1);
            write_block(writer, block);
        }
    }
}

fn write_signed<W: Writer>(writer: &mut W, signed: &Signed)
    requires { FitsSigned signed.now }
    ensures { W.took writer.old writer.new (signed_text signed.now) }
{
    write_report(writer, &signed.report);
    write_sig(writer, &signed.sig);
}

// Signed reports, one after the other.
fn write_signed_reports<W: Writer>(writer: &mut W, reports: &List<Signed>)
    requires { All FitsSigned reports.now }
    ensures { W.took writer.old writer.new (flat_map signed_text reports.now) }
{
    for signed in reports.as_slice() {
        write_signed(writer, signed);
    }
}

// Headers, one after the other.
fn write_headers<W: Writer>(writer: &mut W, headers: &List<Header>)
    ensures { W.took writer.old writer.new (flat_map header_text headers.now) }
{
    for header in headers.as_slice() {
        write_header(writer, header);
    }
}

fn write_flag<W: Writer>(writer: &mut W, set: bool)
    ensures { W.took writer.old writer.new (flag_text set) }
{
    writer.put_u8(u8::from(set));
}

fn write_preprepare<W: Writer>(writer: &mut W, message: &PrePrepare)
    requires { FitsPrePrepare message.now }
    ensures { W.took writer.old writer.new (message_text (Message.PrePrepare message.now)) }
{
    writer.put_u8(1);
    writer.put_u64(message.config);
    writer.put_u64(message.view);
    writer.put_u64(message.number);
    write_block(writer, &message.block);
    write_cert_or_none(writer, &message.cert);
}

fn write_prepare<W: Writer>(writer: &mut W, message: &Prepare)
    ensures { W.took writer.old writer.new (message_text (Message.Prepare message.now)) }
{
    writer.put_u8(2);
    writer.put_u64(message.config);
    writer.put_u64(message.view);
    writer.put_u64(message.number);
    writer.put(&message.digest);
}

fn write_commit<W: Writer>(writer: &mut W, message: &Commit)
    requires { FitsSig message.now.sig }
    ensures { W.took writer.old writer.new (message_text (Message.Commit message.now)) }
{
    writer.put_u8(3);
    writer.put_u64(message.config);
    writer.put_u64(message.view);
    writer.put_u64(message.number);
    writer.put(&message.digest);
    write_sig(writer, &message.sig);
}

fn write_view_change<W: Writer>(writer: &mut W, message: &ViewChange)
    ensures { W.took writer.old writer.new (message_text (Message.ViewChange message.now)) }
{
    writer.put_u8(4);
    writer.put_u64(message.config);
    writer.put_u64(message.target);
}

fn write_view_data<W: Writer>(writer: &mut W, message: &ViewData)
    requires { FitsViewData message.now }
    ensures { W.took writer.old writer.new (message_text (Message.ViewData message.now)) }
{
    writer.put_u8(5);
    writer.put_u64(message.config);
    writer.put_u64(message.view);
    write_report(writer, &message.report);
    write_sig(writer, &message.sig);
    write_block_or_none(writer, &message.block);
}

fn write_new_view<W: Writer>(writer: &mut W, message: &NewView)
    requires { FitsNewView message.now }
    ensures { W.took writer.old writer.new (message_text (Message.NewView message.now)) }
{
    let count = message.reports.len() as u8;
    writer.put_u8(6);
    writer.put_u64(message.config);
    writer.put_u64(message.view);
    writer.put_u8(count);
    write_signed_reports(writer, &message.reports);
    write_block_or_none(writer, &message.block);
}

fn write_heart_beat<W: Writer>(writer: &mut W, message: &HeartBeat)
    ensures { W.took writer.old writer.new (message_text (Message.HeartBeat message.now)) }
{
    writer.put_u8(7);
    writer.put_u64(message.config);
    writer.put_u64(message.view);
    writer.put_u64(message.height);
}

fn write_heart_beat_reply<W: Writer>(writer: &mut W, message: &HeartBeatReply)
    ensures { W.took writer.old writer.new (message_text (Message.HeartBeatReply message.now)) }
{
    writer.put_u8(8);
    writer.put_u64(message.config);
    writer.put_u64(message.view);
}

fn write_forward<W: Writer>(writer: &mut W, message: &Forward)
    requires { FitsRequest message.now.request }
    ensures { W.took writer.old writer.new (message_text (Message.Forward message.now)) }
{
    writer.put_u8(9);
    write_request(writer, &message.request);
}

fn write_block_ask<W: Writer>(writer: &mut W, message: &BlockAsk)
    ensures { W.took writer.old writer.new (message_text (Message.BlockAsk message.now)) }
{
    writer.put_u8(10);
    writer.put_u64(message.first);
    writer.put_u8(message.count);
}

fn write_block_reply<W: Writer>(writer: &mut W, message: &BlockReply)
    requires { FitsBlockReply message.now }
    ensures { W.took writer.old writer.new (message_text (Message.BlockReply message.now)) }
{
    writer.put_u8(11);
    write_block(writer, &message.block);
    write_cert(writer, &message.cert);
}

fn write_header_ask<W: Writer>(writer: &mut W, message: &HeaderAsk)
    ensures { W.took writer.old writer.new (message_text (Message.HeaderAsk message.now)) }
{
    writer.put_u8(12);
    writer.put_u64(message.number);
}

fn write_header_reply<W: Writer>(writer: &mut W, message: &HeaderReply)
    requires { length message.now.headers < 2 ^ 16 }
    ensures { W.took writer.old writer.new (message_text (Message.HeaderReply message.now)) }
{
    let count = message.headers.len() as u16;
    writer.put_u8(13);
    writer.put_u16(count);
    write_headers(writer, &message.headers);
}

fn write_raft_vote<W: Writer>(writer: &mut W, message: &RaftVote)
    ensures { W.took writer.old writer.new (message_text (Message.RaftVote message.now)) }
{
    writer.put_u8(14);
    writer.put_u64(message.term);
    writer.put_u64(message.height);
    writer.put_u64(message.tail_term);
}

fn write_raft_vote_reply<W: Writer>(writer: &mut W, message: &RaftVoteReply)
    ensures { W.took writer.old writer.new (message_text (Message.RaftVoteReply message.now)) }
{
    writer.put_u8(15);
    writer.put_u64(message.term);
    write_flag(writer, message.granted);
}

fn write_raft_append<W: Writer>(writer: &mut W, message: &RaftAppend)
    requires { IfSome message.now.block FitsBlock }
    ensures { W.took writer.old writer.new (message_text (Message.RaftAppend message.now)) }
{
    writer.put_u8(16);
    writer.put_u64(message.term);
    writer.put_u64(message.height);
    writer.put(&message.last);
    write_block_or_none(writer, &message.block);
}

fn write_raft_append_reply<W: Writer>(writer: &mut W, message: &RaftAppendReply)
    ensures { W.took writer.old writer.new (message_text (Message.RaftAppendReply message.now)) }
{
    writer.put_u8(17);
    writer.put_u64(message.term);
    writer.put_u64(message.number);
    writer.put(&message.digest);
    write_flag(writer, message.taken);
}

fn write_raft_block<W: Writer>(writer: &mut W, message: &RaftBlock)
    requires { FitsBlock message.now.block }
    ensures { W.took writer.old writer.new (message_text (Message.RaftBlock message.now)) }
{
    writer.put_u8(18);
    write_block(writer, &message.block);
}

/// The spelling of a message: its kind, and its body.
pub(crate) fn write_message<W: Writer>(writer: &mut W, message: &Message)
    requires { FitsMessage message.now }
    ensures { W.took writer.old writer.new (message_text message.now) }
{
    match message {
        Message::PrePrepare(message) => write_preprepare(writer, message),
        Message::Prepare(message) => write_prepare(writer, message),
        Message::Commit(message) => write_commit(writer, message),
        Message::ViewChange(message) => write_view_change(writer, message),
        Message::ViewData(message) => write_view_data(writer, message),
        Message::NewView(message) => write_new_view(writer, message),
        Message::HeartBeat(message) => write_heart_beat(writer, message),
        Message::HeartBeatReply(message) => write_heart_beat_reply(writer, message),
        Message::Forward(message) => write_forward(writer, message),
        Message::BlockAsk(message) => write_block_ask(writer, message),
        Message::BlockReply(message) => write_block_reply(writer, message),
        Message::HeaderAsk(message) => write_header_ask(writer, message),
        Message::HeaderReply(message) => write_header_reply(writer, message),
        Message::RaftVote(message) => write_raft_vote(writer, message),
        Message::RaftVoteReply(message) => write_raft_vote_reply(writer, message),
        Message::RaftAppend(message) => write_raft_append(writer, message),
        Message::RaftAppendReply(message) => write_raft_append_reply(writer, message),
        Message::RaftBlock(message) => write_raft_block(writer, message),
    }
}
