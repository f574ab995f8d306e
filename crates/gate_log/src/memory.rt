use crate::arm::Arm;
use crate::files::Files;
use crate::history::History;
use crate::{Disk, Image};
use ord_types::{Failed, List, NoMemory};
use std::alloc::Global;

/// A disk in memory. It keeps the list of its writes and syncs, from which it answers for every moment. A call for which
/// it finds no memory does nothing, raises the count of faults and fails.
#[derive(Drop)]
pub struct MemDisk {
    pub(crate) history: History,
    // the calls of every kind that fail, counted from 1
    pub(crate) fails: List<u64>,
    // how many calls were made
    pub(crate) made: u64,
    pub(crate) arm: Arm,
    pub(crate) faults: u64,
}

impl MemDisk {
    ghost use Rattle.std.specs.Prelude.{◌≡◌, ℕ, ◌<◌, ◌≤◌, ◌||◌, [], IfOk, is_err};
    ghost use Rattle.ord_types.specs.Causes.{HasCause, Rose};
    ghost use Rattle.gate_log.specs.Disk.{now, synced_file, MayLeave};
    ghost use Rattle.gate_log.specs.Calls.{left_by};
    ghost use Rattle.gate_log.specs.History.{states};
    ghost use Rattle.gate_log.specs.Arms.{armed, is_reached, image_in_force};
    ghost use Rattle.gate_log.specs.Memory.{one_more, fails_next, IsEmptyDisk, IsCalled, IsUncounted};
    ghost use Rattle.gate_log.specs.declared.arm.Arm.TheVariants.{Never};

    /// An empty disk on which no call fails.
    pub fn new(alloc: Global) -> Result<MemDisk, NoMemory>
        ensures { IfOk result (IsEmptyDisk []) }
    {
        MemDisk::failing(alloc, List::new(alloc))
    }

    /// An empty disk whose calls of these numbers fail. Its calls of every kind are counted from 1. A write that fails is
    /// made all the same, and a sync that fails isn't.
    pub fn failing(alloc: Global, calls: List<u64>) -> Result<MemDisk, NoMemory>
        ensures { IfOk result (IsEmptyDisk calls) }
    {
        let empty = Files {
            first: Vec::new(alloc),
            second: Vec::new(alloc),
            third: Vec::new(alloc),
        };
        Ok(MemDisk {
            history: History::new(alloc, empty)?,
            fails: calls,
            made: 0,
            arm: Arm::Never,
            faults: 0,
        })
    }

    /// Stops the disk at this counted call from here, from 1 on; writes and syncs count. It takes the place of an earlier
    /// arm; a disk that has stopped stays stopped. The write that it stops at is made, and leaves this image.
    pub fn arm(&mut self, call: u32, image: Image)
        ensures { self.new ≡ record self.old { arm = armed call image self.old.arm } }
    {
        self.arm = self.arm.armed(call, image);
    }

    /// Whether the armed call was reached.
    pub fn stopped(&self) -> bool
        ensures { result ≡ is_reached self.now.arm }
    {
        self.arm.is_reached()
    }

    /// The disk after a crash that leaves this image, or the armed one where the disk has stopped. It isn't armed, and
    /// none of its calls fails.
    pub fn crash(self, image: Image) -> Result<MemDisk, NoMemory>
        ensures image { IfOk result (λ disk. (f : ℕ) → f < 3 →
            now (states disk.history) f ≡ synced_file (left_by (image_in_force self.arm image) (now (states self.history) f))) }
        ensures left { IfOk result (λ disk. (f : ℕ) → f < 3 → MayLeave (now (states self.history) f) (now (states disk.history) f).reads) }
        ensures unarmed { IfOk result (λ disk. (disk.arm ≡ Never) × (disk.fails ≡ []) × (disk.made ≡ 0) × (disk.faults ≡ 0)) }
    {
        let image = self.arm.image(image);
        let files = Files {
            first: self.history.image(0, image)?,
            second: self.history.image(1, image)?,
            third: self.history.image(2, image)?,
        };
        let alloc = *files.first.allocator();
        Ok(MemDisk {
            history: History::new(alloc, files)?,
            fails: List::new(alloc),
            made: 0,
            arm: Arm::Never,
            faults: 0,
        })
    }

    // Counts a call, and tells whether it is one of those that fail.
    fn count_call(&mut self) -> bool
        ensures listed { result ≡ fails_next self.old }
        ensures made { self.new ≡ record self.old { made = one_more self.old.made } }
    {
        self.made = self.made.saturating_add(1);
        self.fails.as_slice().contains(&self.made)
    }

    // Counts a fault.
    fn fault(&mut self) -> Failed
        ensures counted { self.new ≡ record self.old { faults = one_more self.old.faults } }
        ensures cause { (self.old.faults ≤ self.new.faults) × Rose self.old.faults self.new.faults }
    {
        self.faults = self.faults.saturating_add(1);
        Failed
    }

    // Counts a call that can't stop the disk. It fails where it is listed, and once the disk has stopped.
    fn call_uncounted(&mut self) -> Result<(), Failed>
        ensures answer { is_err result ≡ (is_reached self.old.arm || fails_next self.old) }
        ensures called { IsCalled self.old self.new }
        ensures same { IsUncounted self.old self.new }
        ensures history { self.new.history ≡ self.old.history }
        ensures cause { HasCause self.old.faults self.new.faults result }
    {
        let listed = self.count_call();
        if self.arm.is_reached() {
            return Err(self.fault());
        }
        if listed {
            return Err(self.fault());
        }
        Ok(())
    }
}

impl Disk for MemDisk {
    ghost use Rattle.std.specs.Prelude.{◌≡◌, ◌<◌, ◌≤◌, ◌||◌, [], ◌∷◌, true, IsTrue, IfOk, OnOk, OnErr, MatchResult, length, take, drop, is_err};
    ghost use Rattle.ord_types.specs.Causes.{HasCause};
    ghost use Rattle.gate_log.specs.Disk.{now, Wrote, Synced, Tried};
    ghost use Rattle.gate_log.specs.Calls.{start, states_fine, start_fine};
    ghost use Rattle.gate_log.specs.History.{states};
    ghost use Rattle.gate_log.specs.Arms.{is_reached};
    ghost use Rattle.gate_log.specs.Memory.{fails_next, IsCalled, IsUncounted, CountedCall};

    ghost tells = { λ _. true };

    ghost moments = { λ disk. states disk.history };

    ghost faults = { λ disk. disk.faults };

    fn len(&mut self, file: u8) -> Result<u64, Failed>
        requires { file < 3 }
        ensures value { IfOk result (λ n. n ≡ length (now (states self.old.history) file).reads) }
        ensures answer { is_err result ≡ (is_reached self.old.arm || fails_next self.old) }
        ensures called { IsCalled self.old self.new }
        ensures same { IsUncounted self.old self.new }
        ensures cause { HasCause self.old.faults self.new.faults result }
    {
        self.call_uncounted()?;
        Ok(self.history.reads(file).len() as u64)
    }

    fn read(&mut self, file: u8, at: u64, into: &mut [u8]) -> Result<usize, Failed>
        requires file { file < 3 }
        requires within { at < length (now (states self.old.history) file).reads }
        ensures bound { IfOk result (λ n. n ≤ length into.new) }
        ensures some { IfOk result (λ n. 0 < length into.new → 0 < n) }
        ensures bytes { IfOk result (λ n. take n into.new ≡ take n (drop at (now (states self.old.history) file).reads)) }
        ensures rest { IfOk result (λ n. drop n into.new ≡ drop n into.old) }
        ensures answer { is_err result ≡ (is_reached self.old.arm || fails_next self.old) }
        ensures called { IsCalled self.old self.new }
        ensures same { IsUncounted self.old self.new }
        ensures cause { HasCause self.old.faults self.new.faults result }
    {
        self.call_uncounted()?;
        let rest = &self.history.reads(file)[at as usize..];
        let count = into.len().min(rest.len());
        into[..count].copy_from_slice(&rest[..count]);
        Ok(count)
    }

    fn write_at(&mut self, file: u8, at: u64, bytes: &[u8]) -> Result<(), Failed>
        requires { file < 3 }
        ensures ok { OnOk result (Wrote file at bytes.now (states self.old.history) (states self.new.history)) }
        ensures err { OnErr result (Tried file at (length bytes.now) (states self.old.history) (states self.new.history)) }
        ensures counted { CountedCall (Wrote file at bytes.now (states self.old.history) (states self.new.history)) self.old self.new (is_err result) }
        ensures called { IsCalled self.old self.new }
        ensures cause { HasCause self.old.faults self.new.faults result }
    {
        let listed = self.count_call();
        if self.arm.is_reached() {
            return Err(self.fault());
        }
        if self.history.write_at(file, at, bytes).is_err() {
            return Err(self.fault());
        }
        self.arm = self.arm.counted();
        if listed {
            return Err(self.fault());
        }
        if self.arm.is_reached() {
            return Err(self.fault());
        }
        Ok(())
    }

    fn sync(&mut self, file: u8) -> Result<(), Failed>
        requires { file < 3 }
        ensures ok { OnOk result (Synced file (states self.old.history) (states self.new.history)) }
        ensures err { OnErr result (states self.new.history ≡ states self.old.history) }
        ensures counted { CountedCall (MatchResult result (λ _. Synced file (states self.old.history) (states self.new.history))
            (λ _. states self.new.history ≡ states self.old.history)) self.old self.new (is_err result) }
        ensures called { IsCalled self.old self.new }
        ensures cause { HasCause self.old.faults self.new.faults result }
    {
        let listed = self.count_call();
        if self.arm.is_reached() {
            return Err(self.fault());
        }
        let arm = self.arm.counted();
        if listed {
            self.arm = arm;
            return Err(self.fault());
        }
        if arm.is_reached() {
            self.arm = arm;
            return Err(self.fault());
        }
        if self.history.sync(file).is_err() {
            return Err(self.fault());
        }
        self.arm = arm;
        Ok(())
    }

    ghost reads_is_left = { λ disk file told. states_fine (start disk.history.began ∷ []) disk.history.calls.items (start_fine disk.history.began) file };
}
