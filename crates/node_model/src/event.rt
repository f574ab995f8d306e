use ord_types::{Bytes, List, Request};

/// What comes to a node: one step each.
#[derive(Drop)]
pub enum Event {
    /// A tick, with what the pool offers for the next block.
    Tick { offer: List<Request> },
    /// The bytes of a message, and the id of its sender. In the node's own name they spell nothing.
    FromMember { from: u32, bytes: Bytes },
}
