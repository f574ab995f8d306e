ghost use Rattle.std.specs.Prelude.{◌≡◌};
ghost use Rattle.ord_types.specs.declared.fault.Halt.TheVariants.{NoMemory as OutOfMemory};

use crate::lists::NoMemory;
use std::alloc::{AllocError, AllocFailed};

/// Why bytes are no value: the first field from the left that isn't there whole, or breaks its rule.
#[derive(Clone, Copy, Debug, PartialEq, Eq)]
pub enum Flaw {
    /// The bytes end inside the field.
    Short,
    /// The field breaks its rule; so many bytes were left at its first one.
    Bad(usize),
}

/// What ends the reading of a value.
#[derive(Clone, Copy, Debug, PartialEq, Eq)]
pub enum Halt {
    Flawed(Flaw),
    NoMemory,
}

impl From<NoMemory> for Halt {
    ghost from_gives = { λ _ halt. halt ≡ OutOfMemory };

    fn from(_error: NoMemory) -> Halt {
        Halt::NoMemory
    }
}

impl From<AllocError> for Halt {
    ghost from_gives = { λ _ halt. halt ≡ OutOfMemory };

    fn from(_error: AllocError) -> Halt {
        Halt::NoMemory
    }
}

impl<T: Drop> From<AllocFailed<T>> for Halt {
    ghost from_gives = { λ _ halt. halt ≡ OutOfMemory };

    fn from(_error: AllocFailed<T>) -> Halt {
        Halt::NoMemory
    }
}

/// Why bytes are no value, by the place: `Short` carries the length of the bytes, which end inside the value;
/// `BadField` the first byte of the first field that breaks its rule; `Trailing` the place after a whole value.
#[derive(Clone, Copy, Debug, PartialEq, Eq)]
pub enum ReadFault {
    Short(usize),
    BadField(usize),
    Trailing(usize),
    NoMemory,
}
