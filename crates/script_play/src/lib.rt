//! Plays a script.
#![tactic(auto)]

mod ending;
mod machine;
mod player;
mod statuses;
#[cfg(test)]
mod tests;
mod texts;

pub use ending::{Ending, Fault};
pub use machine::Machine;
pub use player::play;
pub use statuses::{fault_status, status};
pub use texts::put_too_many_faulty;
