ghost use Rattle.std.specs.Prelude.{◌≡◌, ◌≤◌, IsTrue, IfOk};
ghost use Rattle.ord_types.specs.declared.values.Config.{Config as FirstConfig};
ghost use Rattle.gate_log.specs.Disk.{now};
ghost use Rattle.gate_log.specs.Runs.{Throughout};
ghost use Rattle.block_ledger.specs.Chains.{IsChain, IsGenesisBlock, IsSomeGenesis};
ghost use Rattle.bft_node.specs.Openings.{ledger_fault, log_fault};
ghost use Rattle.bft_node.specs.Stores.{IsKept, OpenAnswers, StoreOpensTo, StaysOpen, config_of, held_of};

use crate::{OpenFault, Store};
use bft_wal::Wal;
use block_ledger::{Ledger, LedgerFault};
use gate_log::{Disk, LogFault};
use ord_types::Block;
use signer_edge::Verifier;
use std::alloc::Global;

impl From<LedgerFault> for OpenFault {
    ghost use Rattle.std.specs.Prelude.{◌≡◌};
    ghost use Rattle.bft_node.specs.Openings.{ledger_fault};

    ghost from_gives = { λ old fault. fault ≡ ledger_fault old };

    fn from(error: LedgerFault) -> OpenFault {
        match error {
            LedgerFault::Foreign(at) => OpenFault::Foreign(2, at),
            LedgerFault::Stored(number, why) => OpenFault::Stored(number, why),
            LedgerFault::Limit(length) => OpenFault::Limit(length),
            LedgerFault::Failed => OpenFault::Disk,
            // an opening of a ledger answers no other
            _ => OpenFault::NoMemory,
        }
    }
}

impl From<LogFault> for OpenFault {
    ghost use Rattle.std.specs.Prelude.{◌≡◌};
    ghost use Rattle.bft_node.specs.Openings.{log_fault};

    ghost from_gives = { λ old fault. fault ≡ log_fault old };

    fn from(error: LogFault) -> OpenFault {
        match error {
            LogFault::Foreign(at) => OpenFault::Foreign(0, at),
            LogFault::TooLong(length) => OpenFault::Limit(length),
            LogFault::NoMemory => OpenFault::NoMemory,
            LogFault::Failed => OpenFault::Disk,
        }
    }
}

impl Store {
    /// Opens the ledger of the chain that begins with this genesis block, and then the log. An absent or
    /// empty ledger gets the genesis block, an absent log is made new.
    pub fn open<D: Disk, V: Verifier>(
        alloc: Global,
        disk: &mut D,
        genesis: &Block,
        verifier: &V,
    ) -> Result<Store, OpenFault>
        requires { IsSomeGenesis genesis.now }

        ensures kept { IsTrue (D.tells disk.old)
            → IfOk result (λ store. IsKept store (now (D.moments disk.new))) }
        ensures config { IfOk result (λ store. IsGenesisBlock (config_of store) genesis.now) }
        ensures chain { IfOk result (λ store.
            IsChain (V.accepts verifier.now) (config_of store) (held_of store).blocks) }

        // Of the ledger's faults the first is told, and the log's only where the ledger has none.
        ensures value { (c : FirstConfig) → IsGenesisBlock c genesis.now → IsTrue (D.tells disk.old)
            → StoreOpensTo (V.accepts verifier.now) c (now (D.moments disk.old)) result }

        // A crash at any moment of the call opens to what a crash before it could open to.
        ensures any_moment { (c : FirstConfig) → IsGenesisBlock c genesis.now → IsTrue (D.tells disk.old)
            → Throughout (StaysOpen (V.accepts verifier.now) c (now (D.moments disk.old))) (D.moments disk.old)
            (D.moments disk.new) }
        ensures tells { D.tells disk.new ≡ D.tells disk.old }
        ensures later { D.faults disk.old ≤ D.faults disk.new }
        ensures cause { OpenAnswers (D.tells disk.old) (D.faults disk.old) (D.faults disk.new) result }
    {
        let ledger = Ledger::open(alloc, disk, genesis, verifier)?;
        let wal = Wal::open(alloc, disk)?;
        Ok(Store { ledger, wal })
    }
}
