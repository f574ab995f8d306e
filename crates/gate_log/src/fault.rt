ghost use Rattle.std.specs.Prelude.{◌≡◌};
ghost use Rattle.gate_log.specs.declared.fault.LogFault.TheVariants.{NoMemory as NoMemoryFault, Failed as FailedFault};

use ord_types::{Failed, NoMemory};
use std::alloc::{AllocError, AllocFailed};

/// Why a call of a log gave up.
#[derive(Clone, Copy, Debug, PartialEq, Eq)]
pub enum LogFault {
    /// The entry would have this length, or the file.
    TooLong(u64),
    /// The file is no log; its first wrong byte is at this place.
    Foreign(u64),
    NoMemory,
    /// The disk failed. The log has to be opened again.
    Failed,
}

impl From<AllocError> for LogFault {
    ghost from_gives = { λ _ e. e ≡ NoMemoryFault };

    fn from(_: AllocError) -> Self {
        LogFault::NoMemory
    }
}

impl<T: Drop> From<AllocFailed<T>> for LogFault {
    ghost from_gives = { λ _ e. e ≡ NoMemoryFault };

    fn from(_: AllocFailed<T>) -> Self {
        LogFault::NoMemory
    }
}

impl From<NoMemory> for LogFault {
    ghost from_gives = { λ _ e. e ≡ NoMemoryFault };

    fn from(_: NoMemory) -> Self {
        LogFault::NoMemory
    }
}

impl From<Failed> for LogFault {
    ghost from_gives = { λ _ e. e ≡ FailedFault };

    fn from(_: Failed) -> Self {
        LogFault::Failed
    }
}
