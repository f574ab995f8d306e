use ord_types::{Block, Digest, Vote};

/// What a member makes durable before a message rests on it. Numbers, views, terms and numbers of configurations are
/// below 2^62.
#[derive(Drop)]
pub enum WalRecord {
    /// It accepted a block in a view, at this number.
    Accepted {
        config: u64,
        view: u64,
        number: u64,
        block: Block,
    },
    /// It prepared the block of this hash in a view, at this number.
    Prepared {
        config: u64,
        view: u64,
        number: u64,
        digest: Digest,
    },
    /// It left its view for this one.
    Left {
        config: u64,
        view: u64,
    },
    /// It entered a view at this number, with a carried vote or with a free choice.
    Entered {
        config: u64,
        view: u64,
        number: u64,
        carried: Option<Vote>,
    },
    /// It voted for a candidate in a term of Raft. The candidate is an id, at least 1.
    Voted {
        term: u64,
        candidate: u32,
    },
    /// It took a block of a term of Raft as its tail, at this number.
    Tail {
        term: u64,
        number: u64,
        block: Block,
    },
}
