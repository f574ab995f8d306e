use ord_types::{Block, Choice, List, Vote};

/// What the records of a log leave for one configuration and height.
#[derive(Drop)]
pub struct Durable {
    pub config: u64,
    pub height: u64,
    /// The greatest view that was entered, 0 if none.
    pub view: u64,
    /// The greatest view that was left for, 0 if none.
    pub left: u64,
    /// Where the last view was entered: its number and its choice.
    pub bound: Option<(u64, Choice)>,
    /// What was accepted at this height, by falling views, at most the 32 newest.
    pub accepted: List<Vote>,
    /// The block of the first of these.
    pub block: Option<Block>,
    /// The preparation of the greatest view at this height whose block was accepted there, and that block.
    pub prepared: Option<(Vote, Block)>,
    /// The term of the last vote, 0 if none.
    pub term: u64,
    /// The candidate of the last vote, 0 if none.
    pub voted: u32,
    /// The last tail at this height: its term and its block.
    pub tail: Option<(u64, Block)>,
}
