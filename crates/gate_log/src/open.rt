ghost use Rattle.std.specs.Prelude.{◌≡◌, ◌≢◌, ℕ, ◌<◌, ◌≤◌, [], IsTrue, IfOk, OnOk};
ghost use Rattle.ord_types.specs.Causes.{HasCause};
ghost use Rattle.gate_log.specs.Disk.{now, Synced};
ghost use Rattle.gate_log.specs.Runs.{Leaves};
ghost use Rattle.gate_log.specs.Format.{reading, opened_as};
ghost use Rattle.gate_log.specs.Front.{IsReadOrNew};
ghost use Rattle.gate_log.specs.Settled.{IsSettled, OnRefusal};
ghost use Rattle.gate_log.specs.Opening.{OpensAsBefore, LogOpensTo, OpenAnswers};
ghost use Rattle.gate_log.specs.Renew.{IsSynced, CanClose, IsClosed};
ghost use Rattle.gate_log.specs.declared.reading.Reading.TheVariants.{Absent, Log};

use crate::head::{Head, head_of};
use crate::parse::read_log;
use crate::reading::Reading;
use crate::renew::{close_head, gate_behind, write_log};
use crate::whole::read_whole;
use crate::{Disk, GateLog, LogFault};
use ord_types::{Failed, List};
use std::alloc::Global;

impl GateLog {
    /// Opens a file as a log. The file is synced first, so that no write is pending behind what is read; an absent file
    /// is made new, with generation 1 and no entry.
    pub fn open<D: Disk>(alloc: Global, disk: &mut D, file: u8) -> Result<GateLog, LogFault>
        requires { file < 3 }

        ensures settled { IsTrue (D.tells disk.old) → IfOk result (λ log. IsSettled log (now (D.moments disk.new))) }
        ensures file { IfOk result (λ log. log.file ≡ file) }
        ensures value { IsTrue (D.tells disk.old) → LogOpensTo (reading (now (D.moments disk.old) file).reads) result }

        // A crash at any moment of the call opens to what a crash before it could open to. No other file changes.
        ensures any_moment { IsTrue (D.tells disk.old) → Leaves file
            (OpensAsBefore (now (D.moments disk.old) file)) (D.moments disk.old) (D.moments disk.new) }

        // At each moment a crash leaves what was read, or an absent file opens as a new one.
        ensures as_read { IsTrue (D.tells disk.old) → Leaves file
            (IsReadOrNew (now (D.moments disk.old) file).reads) (D.moments disk.old) (D.moments disk.new) }

        // A file that isn't absent is left as it was, but for the sync.
        ensures kept { IsTrue (D.tells disk.old) → reading (now (D.moments disk.old) file).reads ≢ Absent
            → OnOk result (Synced file (D.moments disk.old) (D.moments disk.new)) }

        // A refusal leaves the file as it was, but for the sync.
        ensures refused { IsTrue (D.tells disk.old) → OnRefusal result (Synced file (D.moments disk.old) (D.moments disk.new)) }
        ensures tells { D.tells disk.new ≡ D.tells disk.old }
        ensures later { D.faults disk.old ≤ D.faults disk.new }
        ensures cause { OpenAnswers (D.faults disk.old) (D.faults disk.new) result }
    {
        disk.sync(file)?;
        let bytes = read_whole(alloc, disk, file)?;
        match read_log(alloc, &bytes)? {
            Reading::Foreign(at) => Err(LogFault::Foreign(at)),
            Reading::Log {
                generation,
                entries,
            } => {
                let gate = gate_behind(&entries);
                Ok(GateLog {
                    file,
                    generation,
                    gate,
                    entries,
                })
            }
            Reading::Absent => {
                let log = make_new(alloc, disk, file, head_of(&bytes))?;
                Ok(log)
            }
        }
    }
}

// Makes an absent file a log of generation 1 with no entry.
fn make_new<D: Disk>(alloc: Global, disk: &mut D, file: u8, head: Head) -> Result<GateLog, Failed>
    requires file { file < 3 }
    requires synced { IsTrue (D.tells disk.old) → IsSynced (now (D.moments disk.old) file) }
    requires head { IsTrue (D.tells disk.old) → CanClose head (now (D.moments disk.old) file).reads }
    requires absent { IsTrue (D.tells disk.old) → reading (now (D.moments disk.old) file).reads ≡ Absent }
    ensures settled { IsTrue (D.tells disk.old) → IfOk result (λ log. IsSettled log (now (D.moments disk.new))) }
    ensures value { IfOk result (λ log. (log.file ≡ file) × (log.generation ≡ 1) × (log.entries ≡ [])) }
    ensures any_moment { IsTrue (D.tells disk.old) → Leaves file (λ c. opened_as (reading c) ≡ Log 1 []) (D.moments disk.old) (D.moments disk.new) }
    ensures tells { D.tells disk.new ≡ D.tells disk.old }
    ensures cause { HasCause (D.faults disk.old) (D.faults disk.new) result }
{
    begin_head(disk, file, head)?;
    let log = write_log(disk, file, 1, List::new(alloc), b"\0\0\0\0\0\0\0\x01\0")?;
    Ok(log)
}

// Closes the head of an absent file, unless it is closed already.
fn begin_head<D: Disk>(disk: &mut D, file: u8, head: Head) -> Result<(), Failed>
    requires file { file < 3 }
    requires synced { IsTrue (D.tells disk.old) → IsSynced (now (D.moments disk.old) file) }
    requires head { IsTrue (D.tells disk.old) → CanClose head (now (D.moments disk.old) file).reads }
    requires absent { IsTrue (D.tells disk.old) → reading (now (D.moments disk.old) file).reads ≡ Absent }
    ensures closed { IsTrue (D.tells disk.old) → OnOk result (IsClosed (now (D.moments disk.new) file)) }
    ensures any_moment { IsTrue (D.tells disk.old) → Leaves file (λ c. opened_as (reading c) ≡ Log 1 []) (D.moments disk.old) (D.moments disk.new) }
    ensures tells { D.tells disk.new ≡ D.tells disk.old }
    ensures cause { HasCause (D.faults disk.old) (D.faults disk.new) result }
{
    match head {
        Head::Begun => Ok(()),
        _ => close_head(disk, file, head, 1),
    }
}
