ghost use Rattle.std.specs.Prelude.{◌≡◌};
ghost use Rattle.gate_log.specs.Arms.{after_counted, is_reached as is_reached_of, armed as armed_of, image_in_force};

use crate::Image;

/// Where a disk in memory stops.
#[derive(Clone, Copy, Debug, PartialEq, Eq)]
pub enum Arm {
    Never,
    /// At the counted call of this number from here, from 1 on.
    Waiting { calls: u32, image: Image },
    /// It has stopped.
    Reached { image: Image },
}

impl Arm {
    /// What one more counted call makes of it.
    pub fn counted(self) -> Arm
        ensures { result ≡ after_counted self }
    {
        match self {
            Arm::Waiting { calls: 1, image } => Arm::Reached { image },
            Arm::Waiting { calls, image } => Arm::Waiting {
                calls: calls.saturating_sub(1),
                image,
            },
            other => other,
        }
    }

    /// Whether the disk has stopped.
    pub fn is_reached(self) -> bool
        ensures { result ≡ is_reached_of self }
    {
        matches!(self, Arm::Reached { .. })
    }

    /// An arm at this counted call from here in its place. A disk that has stopped stays stopped.
    pub fn armed(self, calls: u32, image: Image) -> Arm
        ensures { result ≡ armed_of calls image self }
    {
        match self {
            Arm::Reached { .. } => self,
            _ => Arm::Waiting { calls, image },
        }
    }

    /// The image that a crash leaves: where the disk has stopped, the one that was armed.
    pub fn image(self, image: Image) -> Image
        ensures { result ≡ image_in_force self image }
    {
        match self {
            Arm::Reached { image: armed } => armed,
            _ => image,
        }
    }
}
