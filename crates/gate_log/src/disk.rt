ghost use Rattle.std.specs.Prelude.{◌≡◌, ℕ, ◌<◌, ◌≤◌, List, Bool, length, take, drop, IsTrue, IfOk, OnOk, OnErr};
ghost use Rattle.ord_types.specs.Causes.{HasCause};
ghost use Rattle.gate_log.specs.Disk.{State, now, MayLeave, Wrote, Synced, Tried};

use ord_types::Failed;

/// Three files, 0 to 2, whose writes are on the disk only after a sync.
pub trait Disk {
    /// Whether the disk tells what its files hold.
    ghost tells: { Self → Bool };

    /// The states that it told, the last first. A crash is at one of these moments.
    ghost moments: { Self → List State };

    /// How many calls failed so far. It stops at the last value of a u64.
    ghost faults: { Self → ℕ };

    /// The file's length in bytes.
    fn len(&mut self, file: u8) -> Result<u64, Failed>
        requires { file < 3 }
        ensures tells { tells self.new ≡ tells self.old }
        ensures same { IsTrue (tells self.old) → moments self.new ≡ moments self.old }
        ensures value { IsTrue (tells self.old) → IfOk result (λ n. n ≡ length (now (moments self.old) file).reads) }
        ensures cause { HasCause (faults self.old) (faults self.new) result };

    /// Reads some bytes from a place on into the front of `into`, at least one where there is room.
    fn read(&mut self, file: u8, at: u64, into: &mut [u8]) -> Result<usize, Failed>
        requires file { file < 3 }
        requires within { IsTrue (tells self.old) → at < length (now (moments self.old) file).reads }
        ensures tells { tells self.new ≡ tells self.old }
        ensures same { IsTrue (tells self.old) → moments self.new ≡ moments self.old }
        ensures bound { IfOk result (λ n. n ≤ length into.new) }
        ensures some { IfOk result (λ n. 0 < length into.new → 0 < n) }
        ensures bytes { IsTrue (tells self.old) → IfOk result (λ n. take n into.new ≡ take n (drop at (now (moments self.old) file).reads)) }
        ensures rest { IfOk result (λ n. drop n into.new ≡ drop n into.old) }
        ensures cause { HasCause (faults self.old) (faults self.new) result };

    /// Writes bytes at a place. Until a sync, a crash may leave any bytes there.
    fn write_at(&mut self, file: u8, at: u64, bytes: &[u8]) -> Result<(), Failed>
        requires { file < 3 }
        ensures tells { tells self.new ≡ tells self.old }
        ensures ok { IsTrue (tells self.old) → OnOk result (Wrote file at bytes.now (moments self.old) (moments self.new)) }
        ensures err { IsTrue (tells self.old) → OnErr result (Tried file at (length bytes.now) (moments self.old) (moments self.new)) }
        ensures cause { HasCause (faults self.old) (faults self.new) result };

    /// After it, a crash leaves what a read gives.
    fn sync(&mut self, file: u8) -> Result<(), Failed>
        requires { file < 3 }
        ensures tells { tells self.new ≡ tells self.old }
        ensures ok { IsTrue (tells self.old) → OnOk result (Synced file (moments self.old) (moments self.new)) }
        ensures err { IsTrue (tells self.old) → OnErr result (moments self.new ≡ moments self.old) }
        ensures cause { HasCause (faults self.old) (faults self.new) result };

    /// What a file reads as is one of the images that a crash may leave of it.
    ghost reads_is_left: { (disk : Self) (file : ℕ) → IsTrue (tells disk) → MayLeave (now (moments disk) file) (now (moments disk) file).reads };
}
