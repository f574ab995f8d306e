//! Writes the spelling of records, piece by piece.
ghost use Rattle.std.specs.Prelude.{ℕ};
ghost use Rattle.ord_types.specs.Lengths.{FitsBlock};
ghost use Rattle.ord_types.specs.Spelling.{option_text, vote_text};
ghost use Rattle.bft_wal.specs.Records.{FitsRecord, record_text};

use crate::record::WalRecord;
use ord_types::{Block, Digest, Vote, Writer, write_block};

fn write_carried<W: Writer>(writer: &mut W, carried: &Option<Vote>)
    ensures { W.took writer.old writer.new (option_text vote_text carried.now) }
{
    match carried {
        None => writer.put_u8(0),
        Some(vote) => {
            writer.put_u8(1);
            write_vote(writer, vote);
        }
    }
}

fn write_vote<W: Writer>(writer: &mut W, vote: &Vote)
    ensures { W.took writer.old writer.new (vote_text vote.now) }
{
    writer.put_u64(vote.view);
    writer.put(&vote.digest);
}

fn write_accepted<W: Writer>(writer: &mut W, config: u64, view: u64, number: u64, block: &Block)
    requires { FitsBlock block.now }
    ensures { W.took writer.old writer.new (record_text (WalRecord.Accepted config view number block.now)) }
{
    writer.put_u8(1);
    writer.put_u64(config);
    writer.put_u64(view);
    writer.put_u64(number);
    write_block(writer, block);
}

fn write_prepared<W: Writer>(writer: &mut W, config: u64, view: u64, number: u64, digest: &Digest)
    ensures { W.took writer.old writer.new (record_text (WalRecord.Prepared config view number digest.now)) }
{
    writer.put_u8(2);
    writer.put_u64(config);
    writer.put_u64(view);
    writer.put_u64(number);
    writer.put(digest);
}

fn write_left<W: Writer>(writer: &mut W, config: u64, view: u64)
    ensures { W.took writer.old writer.new (record_text (WalRecord.Left config view)) }
{
    writer.put_u8(3);
    writer.put_u64(config);
    writer.put_u64(view);
}

fn write_entered<W: Writer>(
    writer: &mut W,
    config: u64,
    view: u64,
    number: u64,
    carried: &Option<Vote>,
)
    ensures { W.took writer.old writer.new (record_text (WalRecord.Entered config view number carried.now)) }
{
    writer.put_u8(4);
    writer.put_u64(config);
    writer.put_u64(view);
    writer.put_u64(number);
    write_carried(writer, carried);
}

fn write_voted<W: Writer>(writer: &mut W, term: u64, candidate: u32)
    ensures { W.took writer.old writer.new (record_text (WalRecord.Voted term candidate)) }
{
    writer.put_u8(5);
    writer.put_u64(term);
    writer.put_u32(candidate);
}

fn write_tail<W: Writer>(writer: &mut W, term: u64, number: u64, block: &Block)
    requires { FitsBlock block.now }
    ensures { W.took writer.old writer.new (record_text (WalRecord.Tail term number block.now)) }
{
    writer.put_u8(6);
    writer.put_u64(term);
    writer.put_u64(number);
    write_block(writer, block);
}

/// The spelling of a record: its kind, and its body.
pub(crate) fn write_record<W: Writer>(writer: &mut W, entry: &WalRecord)
    requires { FitsRecord entry.now }
    ensures { W.took writer.old writer.new (record_text entry.now) }
{
    match entry {
        WalRecord::Accepted {
            config,
            view,
            number,
            block,
        } => write_accepted(writer, *config, *view, *number, block),
        WalRecord::Prepared {
            config,
            view,
            number,
            digest,
        } => write_prepared(writer, *config, *view, *number, digest),
        WalRecord::Left { config, view } => write_left(writer, *config, *view),
        WalRecord::Entered {
            config,
            view,
            number,
            carried,
        } => write_entered(writer, *config, *view, *number, carried),
        WalRecord::Voted { term, candidate } => write_voted(writer, *term, *candidate),
        WalRecord::Tail {
            term,
            number,
            block,
        } => write_tail(writer, *term, *number, block),
    }
}
