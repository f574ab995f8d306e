//! A node: what it holds durable, its ledger and its log over one disk, what an opening makes of them, and
//! its steps.
#![tactic(auto)]

mod acts;
mod events;
mod fault;
#[cfg(test)]
mod fixtures;
mod keeping;
mod laws;
mod live;
mod lodged;
mod member;
mod node;
mod node_fault;
#[cfg(test)]
mod node_tests;
mod nodes;
mod open;
mod own_nodes;
mod repeats;
mod resume;
mod sending;
mod spelled;
mod store;
#[cfg(test)]
mod tests;
mod write;

pub use fault::{OpenFault, StoreFault};
pub use laws::{deeds_are_found, nodes_are_found, stored_deeds_stand};
pub use live::{Done, Out, Post, Setup};
pub use member::Node;
pub use node_fault::NodeFault;
pub use node_model::Event;
pub use nodes::Nodes;
pub use own_nodes::OwnNodes;
pub use store::Store;
