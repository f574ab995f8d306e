ghost use Rattle.std.specs.Prelude.{◌≡◌, false};
ghost use Rattle.bft_node.specs.Running.{IsSound};

use crate::live::Running;

/// A node of a chain. After a call that failed it is closed, and has to be opened again.
#[derive(Drop)]
pub struct Node {
    pub(crate) running: Running,
    pub(crate) closed: bool,
    ghost sound: { closed ≡ false → IsSound running },
}
