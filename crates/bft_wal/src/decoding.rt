//! Reads records from the front of bytes.
ghost use Rattle.std.specs.Prelude.{◌≤◌};
ghost use Rattle.ord_types.specs.Faults.{Reads};
ghost use Rattle.bft_wal.specs.Reading.{accepted_at, body_at, entered_at, left_at, prepared_at, record_at, tail_at, voted_at};

use crate::record::WalRecord;
use ord_types::{Halt, Reader};
use std::alloc::Global;

#[tactic(auto, unfolding(crate::specs::Reading::accepted_at))]
fn accepted(reader: &mut Reader, alloc: Global) -> Result<WalRecord, Halt>
    ensures { Reads result reader.new (accepted_at reader.old) }
{
    Ok(WalRecord::Accepted {
        config: reader.number()?,
        view: reader.number()?,
        number: reader.number()?,
        block: reader.block(alloc)?,
    })
}

#[tactic(auto, unfolding(crate::specs::Reading::prepared_at))]
fn prepared(reader: &mut Reader) -> Result<WalRecord, Halt>
    ensures { Reads result reader.new (prepared_at reader.old) }
{
    Ok(WalRecord::Prepared {
        config: reader.number()?,
        view: reader.number()?,
        number: reader.number()?,
        digest: reader.digest()?,
    })
}

#[tactic(auto, unfolding(crate::specs::Reading::left_at))]
fn left(reader: &mut Reader) -> Result<WalRecord, Halt>
    ensures { Reads result reader.new (left_at reader.old) }
{
    Ok(WalRecord::Left {
        config: reader.number()?,
        view: reader.number()?,
    })
}

#[tactic(auto, unfolding(crate::specs::Reading::entered_at))]
fn entered(reader: &mut Reader) -> Result<WalRecord, Halt>
    ensures { Reads result reader.new (entered_at reader.old) }
{
    Ok(WalRecord::Entered {
        config: reader.number()?,
        view: reader.number()?,
        number: reader.number()?,
        carried: reader.vote_or_none()?,
    })
}

#[tactic(auto, unfolding(crate::specs::Reading::voted_at))]
fn voted(reader: &mut Reader) -> Result<WalRecord, Halt>
    ensures { Reads result reader.new (voted_at reader.old) }
{
    Ok(WalRecord::Voted {
        term: reader.number()?,
        candidate: reader.u32_from(1)?,
    })
}

#[tactic(auto, unfolding(crate::specs::Reading::tail_at))]
fn tail(reader: &mut Reader, alloc: Global) -> Result<WalRecord, Halt>
    ensures { Reads result reader.new (tail_at reader.old) }
{
    Ok(WalRecord::Tail {
        term: reader.number()?,
        number: reader.number()?,
        block: reader.block(alloc)?,
    })
}

// The body of a kind from 1 to 6.
#[tactic(auto, unfolding(crate::specs::Reading::body_at))]
fn body(reader: &mut Reader, alloc: Global, kind: u8) -> Result<WalRecord, Halt>
    requires { (1 ≤ kind) × (kind ≤ 6) }
    ensures { Reads result reader.new (body_at kind reader.old) }
{
    match kind {
        1 => accepted(reader, alloc),
        2 => prepared(reader),
        3 => left(reader),
        4 => entered(reader),
        5 => voted(reader),
        6 => tail(reader, alloc),
        _ => unreachable!(),
    }
}

/// A record: its kind, and its body.
#[tactic(auto, unfolding(crate::specs::Reading::record_at))]
pub(crate) fn record(reader: &mut Reader, alloc: Global) -> Result<WalRecord, Halt>
    ensures { Reads result reader.new (record_at reader.old) }
{
    let kind = reader.u8_within(1, 6)?;
    body(reader, alloc, kind)
}
