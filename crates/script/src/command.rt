ghost use Rattle.std.specs.Prelude.{◌≡◌};
ghost use Rattle.script.specs.declared.command.Halt.TheVariants.{NoMemory as OutOfMemory};

use ord_types::{Bytes, List, NoMemory};

/// The numbers from `first` to `last`, both among them.
#[derive(Clone, Copy, Debug, PartialEq, Eq)]
pub struct Range {
    pub first: u64,
    pub last: u64,
}

/// Which vote a member gives.
#[derive(Clone, Copy, Debug, PartialEq, Eq)]
pub enum VoteKind {
    Prepare,
    Commit,
}

/// What the disk of a stopped node holds of what was written since the last successful sync: the
/// crash images of a device that loses power.
#[derive(Clone, Copy, Debug, PartialEq, Eq)]
pub enum Image {
    /// What was written: `keep`.
    Keep,
    /// What stood before: `drop`.
    Undo,
    /// This byte at every place that was written: `fill=HH`, in two hex digits.
    Fill(u8),
}

/// What a line asks for.
#[derive(Drop)]
pub enum Command {
    /// A world of these members, with batches of one request. These ids are Byzantine; some may be
    /// no members.
    Genesis {
        members: List<u32>,
        byzantine: List<u32>,
    },
    /// An ordinary request for the pool of a node.
    Submit {
        node: u32,
        client: u32,
        serial: u64,
        payload: Bytes,
    },
    /// Bytes for the pool of a node, as they are.
    Raw {
        node: u32,
        bytes: Bytes,
    },
    /// So many ticks of a node.
    Tick {
        node: u32,
        count: u32,
    },
    /// The entries of the network with these numbers, in this order.
    Deliver {
        ranges: List<Range>,
    },
    /// All entries that are not delivered, or those between these ids alone.
    Flush {
        only: Option<List<u32>>,
    },
    /// A block of the ledger of a node.
    Show {
        node: u32,
        number: u64,
    },
    /// A proposal by a Byzantine member of an ordinary request, whose payload has at most 65,536
    /// bytes.
    Propose {
        from: u32,
        to: u32,
        view: u64,
        client: u32,
        serial: u64,
        payload: Bytes,
    },
    /// A vote by a Byzantine member for the block that is proposed in this entry of the network.
    Vote {
        from: u32,
        to: u32,
        kind: VoteKind,
        view: u64,
        entry: u64,
    },
    /// Bytes that a Byzantine member sends.
    Lie {
        from: u32,
        to: u32,
        bytes: Bytes,
    },
    /// A signature of an id, or of 0, on these bytes.
    Seal {
        id: u32,
        bytes: Bytes,
    },
    /// The node stops now, and its disk is left as this image.
    Stop {
        node: u32,
        image: Image,
    },
    /// The node stops at this device call of its disk, counted from 1 and from here on: 1 to
    /// 1,000,000. The disk is left as this image then.
    StopAt {
        node: u32,
        call: u32,
        image: Image,
    },
    /// A stopped node opens on what its disk was left with.
    Start {
        node: u32,
    },
}

/// The options of a `genesis` line. Each may be left out, and they stand in this order.
#[derive(Drop)]
pub struct Options {
    /// How many requests a batch has, 1 to 1,000: `batch=N`.
    pub batch: Option<u32>,
    /// The ids that are Byzantine, none where they aren't given: `byz=IDS`.
    pub byzantine: List<u32>,
}

/// Why a line isn't read.
#[derive(Clone, Copy, Debug, PartialEq, Eq)]
pub enum Stop {
    /// The byte at this place, counted from 1, isn't in the grammar.
    Malformed(usize),
    /// The line belongs to a later part.
    NotBuilt,
}

/// What ends the reading of a line.
#[derive(Clone, Copy, Debug, PartialEq, Eq)]
pub enum Halt {
    Stopped(Stop),
    NoMemory,
}

/// The byte at this place isn't in the grammar.
pub fn malformed(place: usize) -> Halt
    ensures { result ≡ Halt.Stopped (Stop.Malformed place) }
{
    Halt::Stopped(Stop::Malformed(place))
}

/// What a line says.
#[derive(Drop)]
pub enum Meaning {
    /// An empty line or a comment.
    Nothing,
    Means(Command),
    Wrong(Stop),
}

impl From<NoMemory> for Halt {
    ghost from_gives = { λ _ halt. halt ≡ OutOfMemory };

    fn from(_error: NoMemory) -> Halt {
        Halt::NoMemory
    }
}
