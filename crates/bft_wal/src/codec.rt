//! Records as bytes, and back.
ghost use Rattle.std.specs.Prelude.{◌≡◌, ◌-◌, ◌^◌, [], length, min, IfOk, IsOk};
ghost use Rattle.std.specs.Option.{option_map};
ghost use Rattle.bft_wal.specs.Opening.{first_wrong as first_wrong_of};
ghost use Rattle.bft_wal.specs.Reading.{record_in};
ghost use Rattle.bft_wal.specs.Records.{FitsRecord, HasRecordSpelling, record_text};

use crate::counting::Counting;
use crate::decoding::record;
use crate::encoding::write_record;
use crate::record::WalRecord;
use ord_types::{Bytes, Growing, Halt, List, NoMemory, Reader};
use std::alloc::Global;

/// The record that all of the bytes spell, if they spell one.
#[tactic(auto, unfolding(crate::specs::Reading::record_in))]
pub(crate) fn decode(alloc: Global, bytes: &[u8]) -> Result<Option<WalRecord>, NoMemory>
    ensures { IfOk result (λ found. found ≡ record_in bytes.now) }
{
    let mut reader = Reader::new(bytes);
    match record(&mut reader, alloc) {
        Ok(_) if reader.left() > 0 => Ok(None),
        Ok(entry) => Ok(Some(entry)),
        Err(Halt::Flawed(_)) => Ok(None),
        Err(Halt::NoMemory) => Err(NoMemory),
    }
}

/// The spelling of a record.
pub(crate) fn encode(alloc: Global, entry: &WalRecord) -> Result<Bytes, NoMemory>
    requires { FitsRecord entry.now }
    ensures { IfOk result (λ bytes. bytes ≡ record_text entry.now) }
{
    let mut bytes = Bytes::new(alloc);
    let mut growing = Growing::of(&mut bytes);
    write_record(&mut growing, entry);
    growing.give(&mut bytes, 0)?;
    Ok(bytes)
}

/// How many bytes spell a record.
pub(crate) fn size_of(entry: &WalRecord) -> usize
    requires { HasRecordSpelling entry.now }
    ensures { result ≡ length (record_text entry.now) }
{
    let mut counting = Counting { count: 0 };
    write_record(&mut counting, entry);
    counting.count
}

/// The place of the gate of the first entry that isn't a record, where the first gate stands at 17. It stops at the last
/// value of a u64.
pub(crate) fn first_wrong(alloc: Global, entries: &List<Bytes>) -> Result<Option<u64>, NoMemory>
    ensures value { IfOk result (λ place. place ≡ option_map (λ at. min at (2 ^ 64 - 1)) (first_wrong_of 17 entries.now)) }
    ensures nothing { entries.now ≡ [] → IsOk result }
{
    let mut at: u64 = 17;
    for entry in entries.as_slice() {
        if decode(alloc, entry.as_slice())?.is_none() {
            return Ok(Some(at));
        }
        at = at.saturating_add(5).saturating_add(entry.len() as u64);
    }
    Ok(None)
}
