//! What a member does in one view: it keeps vote messages, and accepts, prepares and delivers blocks
//! (SmartBFT).
#![tactic(auto)]

mod blocks;
mod calls;
mod counts;
mod dues;
mod held;
mod keeping;
mod proposals;
mod readers;
mod resume;
#[cfg(test)]
mod tests;

pub use held::ViewState;
pub use proposals::proposal;
pub use resume::Held;
pub use view_model::Act;
