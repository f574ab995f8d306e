ghost use Rattle.std.specs.Prelude.{◌≡◌};
ghost use Rattle.block_ledger.specs.Answers.{log_fault};
ghost use Rattle.block_ledger.specs.declared.fault.LedgerFault.TheVariants.{NoMemory as OutOfMemory};

use chan_config::BlockRefusal;
use gate_log::LogFault;
use ord_types::{Digest, NoMemory};
use signer_edge::CertRefusal;

/// Why a call of a ledger gave up.
#[derive(Clone, Copy, Debug, PartialEq, Eq)]
pub enum LedgerFault {
    /// The block's number. It isn't the one that comes next, or no number reaches it.
    WrongNumber(u64),
    /// The hash of a block before that it names, and the real one.
    WrongPrevious(Digest, Digest),
    /// What else is wrong with the block.
    BadBlock(BlockRefusal),
    /// What is wrong with the certificate.
    BadCert(CertRefusal),
    /// The proof is of the other kind than the configuration's.
    BadProof,
    /// The file is no log; its first wrong byte is at this place.
    Foreign(u64),
    /// The number of the first stored block that breaks the rules, and which one.
    Stored(u64, StoredWhy),
    /// The file would get this length in bytes, above 2^62.
    Limit(u64),
    NoMemory,
    /// The disk failed. The ledger has to be opened again.
    Failed,
}

/// Which rule a stored block breaks.
#[derive(Clone, Copy, Debug, PartialEq, Eq)]
pub enum StoredWhy {
    /// The entry isn't a block and its proof; the place in the entry, in bytes.
    Grammar(usize),
    /// Block 0 isn't the genesis block: its hash, and that of the genesis block. They may be alike, where only the requests differ.
    Other(Digest, Digest),
    /// The block may not come next.
    Block(BlockRefusal),
    /// What is wrong with the certificate.
    Cert(CertRefusal),
    /// The proof is of another kind than the configuration's, or block 0 has a certificate.
    Proof,
}

/// Why a block with its proof may not come next.
#[derive(Clone, Copy)]
pub enum NextRefusal {
    Block(BlockRefusal),
    /// The proof is of the other kind than the configuration's.
    Proof,
    Cert(CertRefusal),
}

impl From<NoMemory> for LedgerFault {
    ghost from_gives = { λ _ fault. fault ≡ OutOfMemory };

    fn from(_error: NoMemory) -> LedgerFault {
        LedgerFault::NoMemory
    }
}

impl From<LogFault> for LedgerFault {
    ghost from_gives = { λ old fault. fault ≡ log_fault old };

    fn from(error: LogFault) -> LedgerFault {
        match error {
            LogFault::TooLong(length) => LedgerFault::Limit(length),
            LogFault::Foreign(at) => LedgerFault::Foreign(at),
            LogFault::NoMemory => LedgerFault::NoMemory,
            LogFault::Failed => LedgerFault::Failed,
        }
    }
}
