//! The chain of blocks with their proofs, over a disk that may crash at any moment.
#![tactic(auto)]

mod append;
mod blocks;
mod chain;
mod entry;
mod fault;
#[cfg(test)]
mod fixtures;
mod judge;
mod laws;
mod ledger;
mod open;
mod reads;
#[cfg(test)]
mod tests;

pub use fault::{LedgerFault, StoredWhy};
pub use laws::{chains_are_told, kept_ledger_stands, places_move};
pub use ledger::Ledger;
