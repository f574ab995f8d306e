//! A node of the world, and what lies outside it.
use crate::network::Entry;
use ord_types::Request;
use signer_edge::SealSeat;
use std::alloc::Global;

/// A node: its waiting requests, whether it runs, and whether its disk is armed: a call of it will stop the
/// node. What the node itself holds stands among the nodes; a stopped one stands there as its disk opened
/// after the crash.
#[derive(Drop)]
pub(crate) struct Member {
    pub(crate) id: u32,
    pub(crate) pool: Vec<Request>,
    pub(crate) runs: bool,
    pub(crate) armed: bool,
}

/// What stands outside the nodes: the box of seals, the network, and the line of the script with its text.
#[derive(Drop)]
pub(crate) struct Outside {
    pub(crate) alloc: Global,
    pub(crate) seat: SealSeat,
    pub(crate) network: Vec<Entry>,
    pub(crate) number: u64,
    pub(crate) text: String,
}
