ghost use Rattle.std.specs.Prelude.{◌≡◌};

use bft_wal::Wal;
use block_ledger::Ledger;

/// A ledger and a write-ahead log, in files 2 and 0 of one disk.
#[derive(Drop)]
pub struct Store {
    pub(crate) ledger: Ledger,
    pub(crate) wal: Wal,
}

impl Store {
    /// The chain of blocks with their proofs.
    pub fn ledger(&self) -> &Ledger
        ensures { result.now ≡ self.now.ledger }
    {
        &self.ledger
    }

    /// What was accepted and prepared, left and entered.
    pub fn wal(&self) -> &Wal
        ensures { result.now ≡ self.now.wal }
    {
        &self.wal
    }
}
