ghost use Rattle.std.specs.Prelude.{◌≡◌, ℕ, ◌<◌, ◌≤◌, List, length, IfOk, Option};
ghost use Rattle.std.specs.Io.{ReadsAtMost, WritesAtMost};
ghost use Rattle.std.specs.Io.KnownBytes.{ReadConsumes, WriteAppends};
ghost use Rattle.ord_types.specs.Causes.{HasCause};

/// A call failed. The object's count of faults says so too.
#[derive(Clone, Copy, Debug, PartialEq, Eq)]
pub struct Failed;

/// Bytes to be read.
pub trait Source {
    /// The bytes left, where they are told.
    ghost left: { Self → Option (List ℕ) };

    /// How many calls failed so far. It stops at the last value of a u64.
    ghost faults: { Self → ℕ };

    /// Reads some bytes into the front of `into`. 0 for a buffer that isn't empty is the end.
    fn read(&mut self, into: &mut [u8]) -> Result<usize, Failed>
        ensures bound { ReadsAtMost result into.new }
        ensures bytes { ReadConsumes (left self.old) (left self.new) result into.new }
        ensures cause { HasCause (faults self.old) (faults self.new) result };
}

/// A place that takes bytes.
pub trait Sink {
    /// The bytes taken so far, where they are told.
    ghost content: { Self → Option (List ℕ) };

    /// How many calls failed so far. It stops at the last value of a u64.
    ghost faults: { Self → ℕ };

    /// Takes some bytes from the front of `bytes`, at least one if there is one. A failed call takes none.
    fn write(&mut self, bytes: &[u8]) -> Result<usize, Failed>
        ensures bound { WritesAtMost result bytes.now }
        ensures some { IfOk result (λ count. 0 < length bytes.now → 0 < count) }
        ensures bytes { WriteAppends (content self.old) (content self.new) result bytes.now }
        ensures cause { HasCause (faults self.old) (faults self.new) result };
}
