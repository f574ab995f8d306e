ghost use Rattle.std.specs.Prelude.{◌≡◌, ◌≢◌, ℕ, ◌+◌, ◌^◌, ◌<◌, ◌≤◌, List, [], ◌∷◌, ◌++◌, length, IsTrue, IfOk, OnOk};
ghost use Rattle.gate_log.specs.Disk.{now};
ghost use Rattle.gate_log.specs.Runs.{Leaves};
ghost use Rattle.gate_log.specs.Format.{reading, block, body as body_of};
ghost use Rattle.gate_log.specs.Settled.{IsSettled, OnRefusal};
ghost use Rattle.gate_log.specs.Renew.{IsOldOrNew, RestartAnswers, RefusesForeign, AreShort, list_too_long as list_too_long_of};

use crate::head::head_of;
use crate::log::{MAX_ENTRY, MAX_FILE};
use crate::parse::read_log;
use crate::reading::Reading;
use crate::renew::{close_head, write_log};
use crate::whole::read_whole;
use crate::{Disk, GateLog, LogFault};
use ord_types::{Bytes, Copied, List, NoMemory};
use std::alloc::Global;

impl GateLog {
    /// Begins a file anew with these entries. At `Ok` they are acknowledged: until the file is written to again, each
    /// crash leaves a file of this generation and these entries. After `Failed` the log has to be opened again.
    pub fn restart_with<D: Disk>(
        alloc: Global,
        disk: &mut D,
        file: u8,
        generation: u64,
        entries: &List<Bytes>,
    ) -> Result<GateLog, LogFault>
        requires file { file < 3 }
        requires generation { (1 ≤ generation) × (generation < 2 ^ 62) }
        // no write since the file's last successful sync is pending
        requires synced { IsTrue (D.tells disk.old) → (now (D.moments disk.old) file).pending ≡ [] }

        ensures settled { IsTrue (D.tells disk.old) → IfOk result (λ log. IsSettled log (now (D.moments disk.new))) }
        ensures value { IfOk result (λ log. (log.file ≡ file) × (log.generation ≡ generation) × (log.entries ≡ entries.now)) }

        // A crash at any moment of the call leaves the file absent, or as it was, or the new list. No other file changes.
        ensures any_moment { IsTrue (D.tells disk.old) → Leaves file
            (IsOldOrNew (now (D.moments disk.old) file).reads generation entries.now) (D.moments disk.old) (D.moments disk.new) }

        ensures refused { IsTrue (D.tells disk.old) → OnRefusal result (D.moments disk.new ≡ D.moments disk.old) }
        ensures foreign { IsTrue (D.tells disk.old) → RefusesForeign (reading (now (D.moments disk.old) file).reads) result }
        ensures tells { D.tells disk.new ≡ D.tells disk.old }
        ensures later { D.faults disk.old ≤ D.faults disk.new }
        ensures cause { RestartAnswers (list_too_long_of entries.now) (D.faults disk.old) (D.faults disk.new) result }
    {
        if let Some(length) = list_too_long(entries) {
            return Err(LogFault::TooLong(length));
        }
        let bytes = read_whole(alloc, disk, file)?;
        if let Reading::Foreign(at) = read_log(alloc, &bytes)? {
            return Err(LogFault::Foreign(at));
        }
        let body = body_bytes(alloc, generation, entries)?;
        let copy = entries.copy()?;
        close_head(disk, file, head_of(&bytes), generation)?;
        let log = write_log(disk, file, generation, copy, body.as_slice())?;
        Ok(log)
    }
}

// The length that a list of entries is too long for.
fn list_too_long(entries: &List<Bytes>) -> Option<u64>
    ensures { result ≡ list_too_long_of entries.now }
{
    let mut size: u64 = 18;
    for entry in entries.as_slice() {
        let length = entry.len() as u64;
        if length > MAX_ENTRY {
            return Some(length);
        }
        size = size.saturating_add(5 + length);
    }
    if size > MAX_FILE { Some(size) } else { None }
}

// What stands behind the head gate of a new log.
fn body_bytes(alloc: Global, generation: u64, entries: &List<Bytes>) -> Result<Bytes, NoMemory>
    requires { AreShort entries.now }
    ensures { IfOk result (λ bytes. bytes ≡ body_of generation entries.now) }
{
    let mut bytes = Bytes::from_slice(alloc, &generation.to_be_bytes())?;
    for entry in entries.as_slice() {
        put_entry(&mut bytes, entry)?;
    }
    bytes.push(0)?;
    Ok(bytes)
}

// Adds an entry behind an open gate.
fn put_entry(bytes: &mut Bytes, entry: &Bytes) -> Result<(), NoMemory>
    requires { length entry.now ≤ 4194304 }
    ensures { OnOk result (bytes.new ≡ bytes.old ++ 1 ∷ block entry.now) }
{
    bytes.push(1)?;
    bytes.extend_from_slice(&(entry.len() as u32).to_be_bytes())?;
    bytes.extend_from_slice(entry.as_slice())?;
    Ok(())
}
