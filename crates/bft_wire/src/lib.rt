//! The messages between members, and the reasons for which one brings nothing.
#![tactic(auto)]

mod codec;
mod decoding;
mod encoding;
mod laws;
mod message;
mod placing;
mod reason;
#[cfg(test)]
mod tests;
#[cfg(test)]
mod vectors;

pub use codec::{decode, encode, encode_into};
pub use laws::{encoded_is_decoded, fronts_are_short, spellings_differ};
pub use message::{
    BlockAsk, BlockReply, Commit, Forward, HeaderAsk, HeaderReply, HeartBeat, HeartBeatReply,
    Message, NewView, PrePrepare, Prepare, RaftAppend, RaftAppendReply, RaftBlock, RaftVote,
    RaftVoteReply, Signed, ViewChange, ViewData,
};
pub use reason::Reason;
