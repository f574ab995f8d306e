use ord_types::{Block, Cert, Copied, Digest, Header, List, NoMemory, Report, Request, Sig};

/// The leader's block for a number, with the certificate of the block before it.
#[derive(Drop)]
pub struct PrePrepare {
    pub config: u64,
    pub view: u64,
    pub number: u64,
    pub block: Block,
    pub cert: Option<Cert>,
}

/// A member accepted the block of this digest.
#[derive(Clone, Copy, Debug, PartialEq, Eq)]
pub struct Prepare {
    pub config: u64,
    pub view: u64,
    pub number: u64,
    pub digest: Digest,
}

/// A member knows that a quorum accepted the block of this digest, and signs for it.
#[derive(Drop)]
pub struct Commit {
    pub config: u64,
    pub view: u64,
    pub number: u64,
    pub digest: Digest,
    pub sig: Sig,
}

/// A member left its view for this one.
#[derive(Clone, Copy, Debug, PartialEq, Eq)]
pub struct ViewChange {
    pub config: u64,
    pub target: u64,
}

/// A member's signed report to the collector of a view, with the block that it prepared, where the report
/// tells a preparation.
#[derive(Drop)]
pub struct ViewData {
    pub config: u64,
    pub view: u64,
    pub report: Report,
    pub sig: Sig,
    pub block: Option<Block>,
}

/// A report with its member's signature.
#[derive(Drop)]
pub struct Signed {
    pub report: Report,
    pub sig: Sig,
}

/// The collector's reports by strictly ascending signers, at most 31, with the block that is carried into
/// the view, where one is.
#[derive(Drop)]
pub struct NewView {
    pub config: u64,
    pub view: u64,
    pub reports: List<Signed>,
    pub block: Option<Block>,
}

/// A leader's sign of life.
#[derive(Clone, Copy, Debug, PartialEq, Eq)]
pub struct HeartBeat {
    pub config: u64,
    pub view: u64,
    pub height: u64,
}

/// A member tells a leader of a lower view its own.
#[derive(Clone, Copy, Debug, PartialEq, Eq)]
pub struct HeartBeatReply {
    pub config: u64,
    pub view: u64,
}

/// A request for the leader.
#[derive(Drop)]
pub struct Forward {
    pub request: Request,
}

/// Asks for 1 to 8 blocks from a number on.
#[derive(Clone, Copy, Debug, PartialEq, Eq)]
pub struct BlockAsk {
    pub first: u64,
    pub count: u8,
}

/// A block that was ordered under BFT.
#[derive(Drop)]
pub struct BlockReply {
    pub block: Block,
    pub cert: Cert,
}

/// Asks for headers from a number downwards.
#[derive(Clone, Copy, Debug, PartialEq, Eq)]
pub struct HeaderAsk {
    pub number: u64,
}

/// Headers from the asked one downwards, at most 1,000.
#[derive(Drop)]
pub struct HeaderReply {
    pub headers: List<Header>,
}

/// A candidate of a term asks for a vote, and tells its height and the term of its tail.
#[derive(Clone, Copy, Debug, PartialEq, Eq)]
pub struct RaftVote {
    pub term: u64,
    pub height: u64,
    pub tail_term: u64,
}

/// Whether the vote was granted, with the sender's own term.
#[derive(Clone, Copy, Debug, PartialEq, Eq)]
pub struct RaftVoteReply {
    pub term: u64,
    pub granted: bool,
}

/// The leader of a term tells its height and the hash of its last block, with its tail where it has one.
#[derive(Drop)]
pub struct RaftAppend {
    pub term: u64,
    pub height: u64,
    pub last: Digest,
    pub block: Option<Block>,
}

/// Whether the block of this digest was taken as the tail at this number, with the sender's own term.
#[derive(Clone, Copy, Debug, PartialEq, Eq)]
pub struct RaftAppendReply {
    pub term: u64,
    pub number: u64,
    pub digest: Digest,
    pub taken: bool,
}

/// A block that was ordered under Raft.
#[derive(Drop)]
pub struct RaftBlock {
    pub block: Block,
}

/// A message between members.
#[derive(Drop)]
pub enum Message {
    PrePrepare(PrePrepare),
    Prepare(Prepare),
    Commit(Commit),
    ViewChange(ViewChange),
    ViewData(ViewData),
    NewView(NewView),
    HeartBeat(HeartBeat),
    HeartBeatReply(HeartBeatReply),
    Forward(Forward),
    BlockAsk(BlockAsk),
    BlockReply(BlockReply),
    HeaderAsk(HeaderAsk),
    HeaderReply(HeaderReply),
    RaftVote(RaftVote),
    RaftVoteReply(RaftVoteReply),
    RaftAppend(RaftAppend),
    RaftAppendReply(RaftAppendReply),
    RaftBlock(RaftBlock),
}

impl Copied for PrePrepare {
    fn copy(&self) -> Result<PrePrepare, NoMemory> {
        Ok(PrePrepare {
            config: self.config,
            view: self.view,
            number: self.number,
            block: self.block.copy()?,
            cert: self.cert.copy()?,
        })
    }
}

impl Copied for Commit {
    fn copy(&self) -> Result<Commit, NoMemory> {
        Ok(Commit {
            config: self.config,
            view: self.view,
            number: self.number,
            digest: self.digest,
            sig: self.sig.copy()?,
        })
    }
}

impl Copied for ViewData {
    fn copy(&self) -> Result<ViewData, NoMemory> {
        Ok(ViewData {
            config: self.config,
            view: self.view,
            report: self.report.copy()?,
            sig: self.sig.copy()?,
            block: self.block.copy()?,
        })
    }
}

impl Copied for Signed {
    fn copy(&self) -> Result<Signed, NoMemory> {
        Ok(Signed {
            report: self.report.copy()?,
            sig: self.sig.copy()?,
        })
    }
}

impl Copied for NewView {
    fn copy(&self) -> Result<NewView, NoMemory> {
        Ok(NewView {
            config: self.config,
            view: self.view,
            reports: self.reports.copy()?,
            block: self.block.copy()?,
        })
    }
}

impl Copied for Forward {
    fn copy(&self) -> Result<Forward, NoMemory> {
        Ok(Forward {
            request: self.request.copy()?,
        })
    }
}

impl Copied for BlockReply {
    fn copy(&self) -> Result<BlockReply, NoMemory> {
        Ok(BlockReply {
            block: self.block.copy()?,
            cert: self.cert.copy()?,
        })
    }
}

impl Copied for HeaderReply {
    fn copy(&self) -> Result<HeaderReply, NoMemory> {
        Ok(HeaderReply {
            headers: self.headers.copy()?,
        })
    }
}

impl Copied for RaftAppend {
    fn copy(&self) -> Result<RaftAppend, NoMemory> {
        Ok(RaftAppend {
            term: self.term,
            height: self.height,
            last: self.last,
            block: self.block.copy()?,
        })
    }
}

impl Copied for RaftBlock {
    fn copy(&self) -> Result<RaftBlock, NoMemory> {
        Ok(RaftBlock {
            block: self.block.copy()?,
        })
    }
}

impl Copied for Message {
    fn copy(&self) -> Result<Message, NoMemory> {
        Ok(match self {
            Message::PrePrepare(message) => Message::PrePrepare(message.copy()?),
            Message::Prepare(message) => Message::Prepare(*message),
            Message::Commit(message) => Message::Commit(message.copy()?),
            Message::ViewChange(message) => Message::ViewChange(*message),
            Message::ViewData(message) => Message::ViewData(message.copy()?),
            Message::NewView(message) => Message::NewView(message.copy()?),
            Message::HeartBeat(message) => Message::HeartBeat(*message),
            Message::HeartBeatReply(message) => Message::HeartBeatReply(*message),
            Message::Forward(message) => Message::Forward(message.copy()?),
            Message::BlockAsk(message) => Message::BlockAsk(*message),
            Message::BlockReply(message) => Message::BlockReply(message.copy()?),
            Message::HeaderAsk(message) => Message::HeaderAsk(*message),
            Message::HeaderReply(message) => Message::HeaderReply(message.copy()?),
            Message::RaftVote(message) => Message::RaftVote(*message),
            Message::RaftVoteReply(message) => Message::RaftVoteReply(*message),
            Message::RaftAppend(message) => Message::RaftAppend(message.copy()?),
            Message::RaftAppendReply(message) => Message::RaftAppendReply(*message),
            Message::RaftBlock(message) => Message::RaftBlock(message.copy()?),
        })
    }
}
