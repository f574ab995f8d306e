ghost use Rattle.std.specs.Prelude.{◌≡◌};
ghost use Rattle.script_play.specs.Statuses.{status_of, IsOwn, fault_number};

use crate::ending::{Ending, Fault};

/// The exit status of a run that the script ended.
pub fn status(ending: Ending) -> u8
    ensures value { result ≡ status_of ending }
    ensures own { IsOwn result }
{
    match ending {
        Ending::Done => 0,
        Ending::MalformedLine(..) => 3,
        Ending::TooManyFaulty { .. } => 5,
        Ending::Limit(_) => 9,
        Ending::LaterLine(_) => 17,
    }
}

/// The exit status of a run that a fault ended.
pub fn fault_status(fault: Fault) -> u8
    ensures { result ≡ fault_number fault }
{
    match fault {
        Fault::ReadFault => 6,
        Fault::WriteFault => 7,
        Fault::OutOfMemory => 8,
    }
}
