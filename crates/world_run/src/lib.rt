//! Plays the lines of a script on a simulated network.
#![tactic(auto)]

mod delivering;
mod events;
mod liars;
mod member;
mod network;
mod pieces;
mod pool;
mod runner;
mod showing;
mod texts;
mod world;

pub use runner::Runner;
