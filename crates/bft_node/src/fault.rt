use block_ledger::StoredWhy;

/// Why a node isn't opened.
#[derive(Clone, Copy, Debug, PartialEq, Eq)]
pub enum OpenFault {
    /// A file is neither absent nor of this format: its number, and its first wrong place in bytes.
    Foreign(u8, u64),
    /// The number of the first stored block that breaks the rules, and which one.
    Stored(u64, StoredWhy),
    /// The ledger's file would get this length in bytes, above 2^62.
    Limit(u64),
    NoMemory,
    /// The disk failed.
    Disk,
}

/// Why a deed isn't made durable.
#[derive(Clone, Copy, Debug, PartialEq, Eq)]
pub enum StoreFault {
    /// The record would have this length in bytes, above 4,194,304, or a file, above 2^62.
    Limit(u64),
    NoMemory,
    /// The disk failed. The store has to be opened again.
    Disk,
}
