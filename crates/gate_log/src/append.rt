ghost use Rattle.std.specs.Prelude.{◌≡◌, ℕ, ◌+◌, ◌^◌, ◌<◌, ◌≤◌, List, [], ◌∷◌, ◌++◌, length, IsTrue, IfOk, OnOk, OnErr};
ghost use Rattle.gate_log.specs.Disk.{now};
ghost use Rattle.gate_log.specs.Runs.{Leaves};
ghost use Rattle.gate_log.specs.Format.{block};
ghost use Rattle.gate_log.specs.Settled.{IsSettled, IsWithOrWithout, AppendAnswers, OnRefusal, too_long as too_long_of};

use crate::log::{MAX_ENTRY, MAX_FILE};
use crate::{Disk, GateLog, LogFault};
use ord_types::{Bytes, List};
use std::alloc::{AllocError, Global};

impl GateLog {
    pub fn entries(&self) -> &List<Bytes>
        ensures { result.now ≡ self.now.entries }
    {
        &self.entries
    }

    pub fn generation(&self) -> u64
        ensures { result ≡ self.now.generation }
    {
        self.generation
    }

    /// The length that an entry of so many bytes is too long for: its own, or the file's with it.
    pub fn too_long_for(&self, length: u64) -> Option<u64>
        ensures { result ≡ too_long_of self.now.gate length }
    {
        too_long(self.gate, length)
    }

    /// Adds an entry. At `Ok` it is acknowledged: until the file is written to again, each crash leaves a file
    /// that has it. After `Failed` the log has to be opened again.
    pub fn append<D: Disk>(
        &mut self,
        alloc: Global,
        disk: &mut D,
        entry: &[u8],
    ) -> Result<(), LogFault>
        // the disk on which the log was opened, with the log's file as its last call left it
        requires { IsTrue (D.tells disk.old) → IsSettled self.old (now (D.moments disk.old)) }

        ensures settled { IsTrue (D.tells disk.old) → OnOk result (IsSettled self.new (now (D.moments disk.new))) }
        ensures added { OnOk result (self.new.entries ≡ self.old.entries ++ entry.now ∷ []) }
        ensures same { (self.new.file ≡ self.old.file) × (self.new.generation ≡ self.old.generation) }

        // A crash at any moment of the call leaves the entries with this one or without. No other file changes.
        ensures any_moment { IsTrue (D.tells disk.old) → Leaves self.old.file
            (IsWithOrWithout self.old.generation self.old.entries entry.now) (D.moments disk.old) (D.moments disk.new) }

        // Want of memory and a length that is too great leave log and disk as they were.
        ensures refused { OnRefusal result ((self.new ≡ self.old) × (disk.new ≡ disk.old)) }
        ensures tells { D.tells disk.new ≡ D.tells disk.old }
        ensures later { D.faults disk.old ≤ D.faults disk.new }
        ensures cause { AppendAnswers (too_long_of self.old.gate (length entry.now)) (D.faults disk.old) (D.faults disk.new) result }
    {
        if let Some(length) = too_long(self.gate, entry.len() as u64) {
            return Err(LogFault::TooLong(length));
        }
        let bytes = block_bytes(alloc, entry)?;
        let copy = Bytes::from_slice(alloc, entry)?;
        self.entries.push(copy)?;
        disk.write_at(self.file, self.gate + 1, &bytes)?;
        disk.sync(self.file)?;
        disk.write_at(self.file, self.gate, &[1])?;
        disk.sync(self.file)?;
        self.gate += 5 + entry.len() as u64;
        Ok(())
    }
}

// The length that an entry behind this gate is too long for.
fn too_long(gate: u64, length: u64) -> Option<u64>
    requires { gate < 2 ^ 63 }
    ensures { result ≡ too_long_of gate length }
{
    if length > MAX_ENTRY {
        return Some(length);
    }
    let end = gate + 6 + length;
    if end > MAX_FILE { Some(end) } else { None }
}

// The entry behind its length, and a closed gate.
fn block_bytes(alloc: Global, entry: &[u8]) -> Result<Vec<u8>, AllocError>
    requires { length entry.now ≤ 4194304 }
    ensures { IfOk result (λ bytes. bytes.items ≡ block entry.now ++ 0 ∷ []) }
{
    let mut bytes = Vec::new(alloc);
    bytes.extend_from_slice(&(entry.len() as u32).to_be_bytes())?;
    bytes.extend_from_slice(entry)?;
    bytes.push(0)?;
    Ok(bytes)
}
