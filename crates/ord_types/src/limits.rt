//! The limits of values and of their formats, each in this one place.

/// The greatest number of a block or of a configuration, and the greatest view and term: all are below 2^62.
pub const MOST_NUMBER: u64 = (1 << 62) - 1;

/// The most members of a configuration, and the most ids in each list of a block's meta.
pub const MOST_MEMBERS: usize = 31;

/// The most requests of a block.
pub const MOST_REQUESTS: usize = 1_000;

/// The most headers of one reply to a question for headers.
pub const MOST_HEADERS: usize = 1_000;

/// The most bytes of a request's payload.
pub const MOST_PAYLOAD: usize = 65_536;
