ghost use Rattle.std.specs.Prelude.{◌≡◌, Ok, Err, MatchResult, Option, Some, None, slice_get};

use crate::blocks::Blocks;
use gate_log::GateLog;

/// The file of the disk that a ledger is.
pub(crate) const LEDGER_FILE: u8 = 2;

/// The chain of blocks with their proofs, in file 2 of a disk.
#[derive(Drop)]
pub struct Ledger {
    pub(crate) log: GateLog,
    pub(crate) blocks: Blocks,
    ghost file: { log.file ≡ 2 },
}
