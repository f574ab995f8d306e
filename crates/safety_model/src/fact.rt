use ord_types::{Block, Choice, Digest, Proof, Report, Vote};

/// One act of a node that was correct at that moment.
#[derive(Drop)]
pub enum Fact {
    /// The member took the leader's proposal: the first of its configuration, view and number.
    Accepted {
        member: u32,
        config: u64,
        view: u64,
        number: u64,
        digest: Digest,
    },
    /// The member saw that a quorum accepted the proposal.
    Prepared {
        member: u32,
        config: u64,
        view: u64,
        number: u64,
        digest: Digest,
    },
    /// The member left its view, and wants to enter this one.
    Left {
        member: u32,
        config: u64,
        view: u64,
    },
    /// The member, which left for the view, signed a report of its last block, preparation and acceptances.
    Reported {
        member: u32,
        config: u64,
        view: u64,
        report: Report,
    },
    /// The node, a member or not, entered the view. `number` is the greatest height that the reports told, and
    /// `choice` what they chose for it.
    Entered {
        member: u32,
        config: u64,
        view: u64,
        number: u64,
        choice: Choice,
    },
    /// The node, a member or not, added the block to its ledger.
    Delivered {
        member: u32,
        block: Block,
        proof: Proof,
    },
}

/// Something that a report may tell.
#[derive(Clone, Copy)]
pub enum Telling {
    /// No preparation.
    None,
    /// No preparation, one of a lower view, or this one.
    AtMost(Vote),
    /// An acceptance of the digest in this view or above.
    Accepted(Vote),
}

/// A kind of fact of a member to look for.
#[derive(Clone, Copy)]
pub enum Query {
    Accepted {
        config: u64,
        view: u64,
        number: u64,
        digest: Digest,
    },
    /// With whatever digest.
    AcceptedAt {
        config: u64,
        view: u64,
        number: u64,
    },
    Prepared {
        config: u64,
        view: u64,
        number: u64,
        digest: Digest,
    },
    /// An entry into the view at the number that carries another digest.
    Against {
        config: u64,
        view: u64,
        number: u64,
        digest: Digest,
    },
    /// A report for the view at the height that tells it.
    Told {
        config: u64,
        view: u64,
        height: u64,
        telling: Telling,
    },
}
