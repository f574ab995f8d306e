ghost use Rattle.std.specs.Prelude.{◌≡◌, ◌^◌, ◌<◌, ◌≤◌, IsTrue, IfOk};
ghost use Rattle.gate_log.specs.Disk.{now};
ghost use Rattle.gate_log.specs.Format.{gate_after, reading};
ghost use Rattle.gate_log.specs.Front.{entries_before as entries_before_of, entries_of as entries_of_reading};
ghost use Rattle.gate_log.specs.Settled.{GivesUp};

use crate::parse::read_log;
use crate::reading::Reading;
use crate::whole::read_whole;
use crate::{Disk, GateLog, LogFault};
use ord_types::{Bytes, List, NoMemory};
use std::alloc::Global;

impl GateLog {
    /// The whole entries of a file in front of a gate at this place, which may be a broken one. It reads the file as it
    /// stands, and changes nothing.
    pub fn entries_before<D: Disk>(
        alloc: Global,
        disk: &mut D,
        file: u8,
        at: u64,
    ) -> Result<List<Bytes>, LogFault>
        requires { file < 3 }
        ensures value { IsTrue (D.tells disk.old) → IfOk result (λ entries. entries ≡ entries_before_of at (now (D.moments disk.old) file).reads) }
        ensures small { IfOk result (λ entries. gate_after entries < 2 ^ 63) }
        ensures same { IsTrue (D.tells disk.old) → D.moments disk.new ≡ D.moments disk.old }
        ensures tells { D.tells disk.new ≡ D.tells disk.old }
        ensures later { D.faults disk.old ≤ D.faults disk.new }
        ensures cause { GivesUp (D.faults disk.old) (D.faults disk.new) result }
    {
        let mut bytes = read_whole(alloc, disk, file)?;
        bytes.truncate(at as usize);
        bytes.push(0)?;
        let entries = entries_of(alloc, &bytes)?;
        Ok(entries)
    }
}

// The entries of a log with these bytes.
fn entries_of(alloc: Global, bytes: &[u8]) -> Result<List<Bytes>, NoMemory>
    ensures value { IfOk result (λ entries. entries ≡ entries_of_reading (reading bytes.now)) }
    ensures small { IfOk result (λ entries. gate_after entries < 2 ^ 63) }
{
    match read_log(alloc, bytes)? {
        Reading::Log { entries, .. } => Ok(entries),
        _ => Ok(List::new(alloc)),
    }
}
