//! The write-ahead log of a member: what it accepted, prepared, left, entered and voted, over a disk that may crash.
#![tactic(auto)]

mod codec;
mod counting;
mod decoding;
mod durable;
mod encoding;
mod fold;
#[cfg(test)]
mod fold_tests;
mod laws;
mod record;
mod tally;
#[cfg(test)]
mod tests;
#[cfg(test)]
mod vectors;
mod wal;

pub use durable::Durable;
pub use laws::{one_record_more, records_are_read, settled_wal_stands};
pub use record::WalRecord;
pub use wal::Wal;
