ghost use Rattle.std.specs.Prelude.{◌≡◌, ℕ, ◌≤◌, [], ◌∷◌, ◌++◌, length, Err, IsTrue, IfOk, OnOk};
ghost use Rattle.gate_log.specs.declared.reading.Reading.TheVariants.{Foreign};
ghost use Rattle.gate_log.specs.Format.{reading};
ghost use Rattle.gate_log.specs.Disk.{now, Synced};
ghost use Rattle.gate_log.specs.Runs.{Leaves};
ghost use Rattle.gate_log.specs.Settled.{AppendAnswers, GivesUp, OnRefusal, too_long as too_long_of};
ghost use Rattle.bft_wal.specs.Fold.{counted, durable_of, tally_of};
ghost use Rattle.bft_wal.specs.Opening.{IsSettled, IsWithOrWithout, OpenAnswers, OpensAsBefore, RecordsOpenTo, opens_as, records};
ghost use Rattle.bft_wal.specs.Reading.{record_in};
ghost use Rattle.bft_wal.specs.Records.{HasRecordSpelling, record_text};

use crate::codec::{decode, encode, first_wrong, size_of};
use crate::durable::Durable;
use crate::fold::fold;
use crate::record::WalRecord;
use crate::tally::Tally;
use gate_log::{Disk, GateLog, LogFault};
use ord_types::NoMemory;
use std::alloc::Global;

/// The write-ahead log of a member, in file 0 of its disk. Its entries are the records' bytes.
#[derive(Drop)]
pub struct Wal {
    pub(crate) log: GateLog,
}

impl Wal {
    /// Opens file 0 as a log of records. The file is synced first; an absent file is made new, with no record. `Foreign` tells
    /// the earliest wrong place: the file's first byte that is none of a log's, or the gate of the first entry that isn't a
    /// record.
    pub fn open<D: Disk>(alloc: Global, disk: &mut D) -> Result<Wal, LogFault>
        ensures settled { IsTrue (D.tells disk.old) → IfOk result (λ wal. IsSettled wal (now (D.moments disk.new))) }
        ensures value { IsTrue (D.tells disk.old) → RecordsOpenTo (opens_as (now (D.moments disk.old) 0).reads) result }

        // A crash at any moment of the call opens to what a crash before it could open to. No other file changes.
        ensures any_moment { IsTrue (D.tells disk.old) → Leaves 0
            (OpensAsBefore (now (D.moments disk.old) 0)) (D.moments disk.old) (D.moments disk.new) }

        // A refusal leaves the file as it was, but for the sync.
        ensures refused { IsTrue (D.tells disk.old) → OnRefusal result (Synced 0 (D.moments disk.old) (D.moments disk.new)) }
        ensures tells { D.tells disk.new ≡ D.tells disk.old }
        ensures later { D.faults disk.old ≤ D.faults disk.new }
        ensures cause { OpenAnswers (D.faults disk.old) (D.faults disk.new) result }
    {
        match GateLog::open(alloc, disk, 0) {
            Ok(log) => match first_wrong(alloc, log.entries())? {
                None => Ok(Wal { log }),
                Some(at) => Err(LogFault::Foreign(at)),
            },
            Err(fault) => match fault {
                LogFault::Foreign(at) => {
                    let place = earliest_wrong(alloc, disk, at)?;
                    Err(LogFault::Foreign(place))
                }
                other => Err(other),
            },
        }
    }

    /// Adds a record. At `Ok` it is acknowledged: until the file is written to again, each crash leaves a file that opens
    /// to the records with it. After `Failed` the log has to be opened again.
    pub fn append<D: Disk>(
        &mut self,
        alloc: Global,
        disk: &mut D,
        entry: &WalRecord,
    ) -> Result<(), LogFault>
        // the disk on which the log was opened, with file 0 as the last call left it
        requires settled { IsTrue (D.tells disk.old) → IsSettled self.old (now (D.moments disk.old)) }
        requires spelling { HasRecordSpelling entry.now }

        ensures settled { IsTrue (D.tells disk.old) → OnOk result (IsSettled self.new (now (D.moments disk.new))) }
        ensures added { OnOk result (records self.new ≡ records self.old ++ entry.now ∷ []) }

        // A crash at any moment of the call opens to the records with this one or without. No other file changes.
        ensures any_moment { IsTrue (D.tells disk.old) → Leaves 0
            (IsWithOrWithout (records self.old) entry.now) (D.moments disk.old) (D.moments disk.new) }

        // Want of memory and a length that is too great leave log and disk as they were.
        ensures refused { OnRefusal result ((self.new ≡ self.old) × (disk.new ≡ disk.old)) }
        ensures tells { D.tells disk.new ≡ D.tells disk.old }
        ensures later { D.faults disk.old ≤ D.faults disk.new }
        ensures cause { AppendAnswers (too_long_of self.old.log.gate (length (record_text entry.now))) (D.faults disk.old) (D.faults disk.new) result }
    {
        let size = size_of(entry);
        if let Some(length) = self.log.too_long_for(size as u64) {
            return Err(LogFault::TooLong(length));
        }
        let bytes = encode(alloc, entry)?;
        self.log.append(alloc, disk, bytes.as_slice())?;
        Ok(())
    }

    /// What the records leave for a configuration and a height, which is the number of the next block.
    pub fn durable(&self, alloc: Global, config: u64, height: u64) -> Result<Durable, NoMemory>
        ensures { IfOk result (λ durable. durable ≡ durable_of config height (records self.now)) }
    {
        let tally = self.tally(alloc, config, height)?;
        let durable = fold(alloc, tally)?;
        Ok(durable)
    }

    // What counts of the records.
    fn tally(&self, alloc: Global, config: u64, height: u64) -> Result<Tally, NoMemory>
        ensures { IfOk result (λ tally. tally ≡ tally_of config height (records self.now)) }
    {
        let mut tally = Tally::new(alloc, config, height);
        for entry in self.log.entries().as_slice() {
            count(alloc, &mut tally, entry.as_slice())?;
        }
        Ok(tally)
    }
}

// The first wrong place of a file that has a broken gate, or another first byte that is none of a log's, at this place: where
// an entry in front of it isn't a record, that entry's gate.
fn earliest_wrong<D: Disk>(alloc: Global, disk: &mut D, at: u64) -> Result<u64, LogFault>
    requires { IsTrue (D.tells disk.old) → reading (now (D.moments disk.old) 0).reads ≡ Foreign at }
    ensures value { IsTrue (D.tells disk.old) → IfOk result (λ place. opens_as (now (D.moments disk.old) 0).reads ≡ Err place) }
    ensures same { IsTrue (D.tells disk.old) → D.moments disk.new ≡ D.moments disk.old }
    ensures tells { D.tells disk.new ≡ D.tells disk.old }
    ensures later { D.faults disk.old ≤ D.faults disk.new }
    ensures cause { GivesUp (D.faults disk.old) (D.faults disk.new) result }
{
    let entries = GateLog::entries_before(alloc, disk, 0, at)?;
    match first_wrong(alloc, &entries)? {
        None => Ok(at),
        Some(earlier) => Ok(earlier),
    }
}

// Counts one more entry.
fn count(alloc: Global, tally: &mut Tally, entry: &[u8]) -> Result<(), NoMemory>
    ensures { OnOk result (tally.new ≡ counted tally.old (record_in entry.now)) }
{
    match decode(alloc, entry)? {
        None => Ok(()),
        Some(entry) => tally.add(entry),
    }
}
