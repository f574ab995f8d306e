//! The messages that were sent.
ghost use Rattle.std.specs.Prelude.{◌≡◌, ◌++◌, ℕ, OnOk, map, take};
ghost use Rattle.bft_node.specs.Making.{sent_of};
ghost use Rattle.world_run.specs.Entries.{entry_of, posted};

use bft_node::Post;
use ord_types::{Bytes, NoMemory};
use std::rc::Rc;

/// The bytes of a message that was sent, and whether they have come to their receiver yet. A message to
/// several receivers stands in memory once.
#[derive(Drop)]
pub(crate) struct Entry {
    pub(crate) from: u32,
    pub(crate) to: u32,
    pub(crate) bytes: Rc<Bytes>,
    pub(crate) came: bool,
}

/// Adds what a step of a node sends. Where there is no memory, some of it is added.
pub(crate) fn add_sends(network: &mut Vec<Entry>, from: u32, sends: &[Post]) -> Result<(), NoMemory>
    ensures all { OnOk result (map entry_of network.new.items ≡ map entry_of network.old.items ++ posted from
        (map sent_of sends.now)) }
    ensures front { (count : ℕ) × (map entry_of network.new.items ≡ map entry_of network.old.items ++ posted
        from (map sent_of (take count sends.now))) }
{
    for post in sends {
        let bytes = post.message.clone()?;
        network.push(Entry {
            from,
            to: post.to,
            bytes,
            came: false,
        })?;
    }
    Ok(())
}
