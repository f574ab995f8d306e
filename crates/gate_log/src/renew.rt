ghost use Rattle.std.specs.Prelude.{◌≡◌, ℕ, ◌+◌, ◌^◌, ◌<◌, ◌≤◌, List, IsTrue, OnOk, IfOk};
ghost use Rattle.ord_types.specs.Causes.{HasCause};
ghost use Rattle.gate_log.specs.Disk.{now};
ghost use Rattle.gate_log.specs.Runs.{Leaves};
ghost use Rattle.gate_log.specs.Format.{gate_after, body as body_of};
ghost use Rattle.gate_log.specs.Settled.{IsSettled};
ghost use Rattle.gate_log.specs.Renew.{IsSynced, CanClose, IsClosed, IsOldOrAbsent, IsNewOrAbsent, AreShort};

use crate::head::Head;
use crate::through::write_through;
use crate::{Disk, GateLog};
use ord_types::{Bytes, Failed, List};

// Closes the head gate, by one write and a sync.
pub fn close_head<D: Disk>(
    disk: &mut D,
    file: u8,
    head: Head,
    generation: u64,
) -> Result<(), Failed>
    requires file { file < 3 }
    requires synced { IsTrue (D.tells disk.old) → IsSynced (now (D.moments disk.old) file) }
    requires head { IsTrue (D.tells disk.old) → CanClose head (now (D.moments disk.old) file).reads }
    ensures closed { IsTrue (D.tells disk.old) → OnOk result (IsClosed (now (D.moments disk.new) file)) }
    ensures any_moment { IsTrue (D.tells disk.old) → Leaves file (IsOldOrAbsent (now (D.moments disk.old) file).reads) (D.moments disk.old) (D.moments disk.new) }
    ensures tells { D.tells disk.new ≡ D.tells disk.old }
    ensures cause { HasCause (D.faults disk.old) (D.faults disk.new) result }
{
    match head {
        Head::New => write_through(disk, file, 0, b"ORDLOG1\n\0"),
        Head::Begun => write_through(disk, file, 9, &generation.to_be_bytes()),
        Head::Open => write_through(disk, file, 8, &[0]),
    }
}

// Writes what stands behind the closed head gate, and opens it.
pub fn write_log<D: Disk>(
    disk: &mut D,
    file: u8,
    generation: u64,
    entries: List<Bytes>,
    body: &[u8],
) -> Result<GateLog, Failed>
    requires file { file < 3 }
    requires generation { (1 ≤ generation) × (generation < 2 ^ 62) }
    requires entries { AreShort entries × (gate_after entries < 2 ^ 63) }
    requires body { body.now ≡ body_of generation entries }
    requires head { IsTrue (D.tells disk.old) → IsClosed (now (D.moments disk.old) file) }
    ensures settled { IsTrue (D.tells disk.old) → IfOk result (λ log. IsSettled log (now (D.moments disk.new))) }
    ensures value { IfOk result (λ log. (log.file ≡ file) × (log.generation ≡ generation) × (log.entries ≡ entries)) }
    ensures any_moment { IsTrue (D.tells disk.old) → Leaves file (IsNewOrAbsent generation entries) (D.moments disk.old) (D.moments disk.new) }
    ensures tells { D.tells disk.new ≡ D.tells disk.old }
    ensures cause { HasCause (D.faults disk.old) (D.faults disk.new) result }
{
    write_through(disk, file, 9, body)?;
    write_through(disk, file, 8, &[1])?;
    let gate = gate_behind(&entries);
    Ok(GateLog {
        file,
        generation,
        gate,
        entries,
    })
}

// The place of the gate behind these entries.
pub fn gate_behind(entries: &List<Bytes>) -> u64
    requires { gate_after entries.now < 2 ^ 63 }
    ensures { result ≡ gate_after entries.now }
{
    let mut gate = 17;
    for entry in entries.as_slice() {
        gate += 5 + entry.len() as u64;
    }
    gate
}
