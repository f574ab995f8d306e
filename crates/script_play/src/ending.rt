ghost use Rattle.std.specs.Prelude.{◌≡◌};
ghost use Rattle.script_play.specs.declared.ending.Fault.TheVariants.{ReadFault, WriteFault, OutOfMemory};
ghost use Rattle.script_play.specs.Faults.{fault_of};

use line_flow::LineFault;
use ord_types::{Failed, NoMemory};
use std::alloc::AllocError;

/// How a script ends a run.
#[derive(Clone, Copy, Debug, PartialEq, Eq)]
pub enum Ending {
    /// The script was played to its end.
    Done,
    /// The number of the line, and the place in it.
    MalformedLine(u64, usize),
    /// The number of a line that belongs to a later part.
    LaterLine(u64),
    /// The limit that was reached.
    Limit(u64),
    /// A configuration came into force with more Byzantine members than its bound.
    TooManyFaulty {
        /// The number of the line.
        number: u64,
        /// The number of the configuration.
        config: u64,
        /// How many of its members are Byzantine.
        count: u32,
        /// How many may be.
        bound: u32,
    },
}

/// What else ends a run.
#[derive(Clone, Copy, Debug, PartialEq, Eq)]
pub enum Fault {
    /// A read of the source failed.
    ReadFault,
    /// A write to the sink failed.
    WriteFault,
    /// No memory was found.
    OutOfMemory,
}

impl From<Failed> for Fault {
    ghost from_gives = { λ _ fault. fault ≡ WriteFault };

    fn from(_failed: Failed) -> Fault {
        Fault::WriteFault
    }
}

impl From<AllocError> for Fault {
    ghost from_gives = { λ _ fault. fault ≡ OutOfMemory };

    fn from(_error: AllocError) -> Fault {
        Fault::OutOfMemory
    }
}

impl From<NoMemory> for Fault {
    ghost from_gives = { λ _ fault. fault ≡ OutOfMemory };

    fn from(_error: NoMemory) -> Fault {
        Fault::OutOfMemory
    }
}

impl From<LineFault> for Fault {
    ghost from_gives = { λ line fault. fault ≡ fault_of line };

    fn from(fault: LineFault) -> Fault {
        match fault {
            LineFault::ReadFault => Fault::ReadFault,
            LineFault::NoMemory => Fault::OutOfMemory,
        }
    }
}
