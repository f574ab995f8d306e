//! How a node changes its view: the definitions that the code and the node of the model share.
#![tactic(auto)]

mod act;
mod known;
mod laws;
mod pasts;

pub use act::ChangeAct;
pub use known::{KeptReport, Known, Own, Waiting};
pub use laws::{
    ascending_are_different, choice_is_the_rule, choices_are_supported, reasons_say_valid,
    reports_are_their_members,
};
pub use pasts::pasts_agree;
