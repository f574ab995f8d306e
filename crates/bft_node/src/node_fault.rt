ghost use Rattle.std.specs.Prelude.{◌≡◌};

use crate::StoreFault;
use ord_types::NoMemory;
use signer_edge::SignFault;

/// No number, view or term is above this one.
pub(crate) const MOST_NUMBER: u64 = (1 << 62) - 1;

/// How many bytes a file may have.
const MOST_BYTES: u64 = 1 << 62;

/// Why a step wasn't done. The node is closed, and has to be opened again.
#[derive(Clone, Copy, Debug, PartialEq, Eq)]
pub enum NodeFault {
    /// An earlier call failed.
    Closed,
    /// The step needs a number above this one, 2^62 - 1, or a file longer than so many bytes, 2^62.
    Limit(u64),
    NoMemory,
    /// The disk failed.
    Disk,
    /// The signer failed.
    Sign,
}

impl From<NoMemory> for NodeFault {
    ghost use Rattle.std.specs.Prelude.{◌≡◌};
    ghost use Rattle.bft_node.specs.declared.node_fault.NodeFault.TheVariants.{NoMemory};

    ghost from_gives = { λ _ fault. fault ≡ NoMemory };

    fn from(_error: NoMemory) -> NodeFault {
        NodeFault::NoMemory
    }
}

impl From<SignFault> for NodeFault {
    ghost use Rattle.std.specs.Prelude.{◌≡◌};
    ghost use Rattle.bft_node.specs.NodeFaults.{sign_fault};

    ghost from_gives = { λ old fault. fault ≡ sign_fault old };

    fn from(error: SignFault) -> NodeFault {
        match error {
            SignFault::Failed => NodeFault::Sign,
            SignFault::NoMemory => NodeFault::NoMemory,
        }
    }
}

impl From<StoreFault> for NodeFault {
    ghost use Rattle.std.specs.Prelude.{◌≡◌};
    ghost use Rattle.bft_node.specs.NodeFaults.{store_fault};

    ghost from_gives = { λ old fault. fault ≡ store_fault old };

    fn from(error: StoreFault) -> NodeFault {
        match error {
            StoreFault::Limit(_length) => NodeFault::Limit(MOST_BYTES),
            StoreFault::NoMemory => NodeFault::NoMemory,
            StoreFault::Disk => NodeFault::Disk,
        }
    }
}
