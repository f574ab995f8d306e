/// Why a message, or a call, brought no act: the first of these that holds.
#[derive(Clone, Copy, Debug, PartialEq, Eq)]
pub enum Reason {
    /// The sender isn't a member, or without a message the node isn't.
    NotMember,
    /// The message's configuration isn't the one in force, or the configuration orders by Raft.
    OtherConfig,
    /// The message's view isn't the entered one.
    OtherView,
    /// The node has left its view.
    Leaving,
    /// The message's number is below the height.
    OldNumber,
    /// The message's number is above the height plus 1.
    FarNumber,
    /// The sender of a proposal, or the node that is to propose, isn't the leader.
    NotLeader,
    /// A block is accepted in this view at this height.
    Accepted,
    /// The proposed block isn't the next one at the place in this view.
    BadBlock,
    /// The carried certificate isn't good, or one is missing or not wanted.
    BadCert,
    /// A signature isn't accepted, or isn't the sender's.
    BadSignature,
    /// It isn't newer than what is kept of this member and kind.
    Repeat,
    /// Too few votes, or nothing on which an act rests.
    NotYet,
}
