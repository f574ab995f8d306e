//! The lines of a script.
#![tactic(auto)]

mod byzantine;
mod command;
mod fields;
mod later;
mod laws;
mod lines;
mod stopping;
#[cfg(test)]
mod stopping_tests;
#[cfg(test)]
mod tests;
mod words;

pub use command::{Command, Image, Meaning, Range, Stop, VoteKind};
pub use fields::number;
pub use laws::commands_are_well_formed;
pub use lines::meaning;
