//! The calls that make a deed durable.
ghost use Rattle.std.specs.Prelude.{◌≡◌, ℕ, ◌≤◌, [], ◌∷◌, ◌++◌, IsTrue, OnOk, OnErr, None};
ghost use Rattle.ord_types.specs.Grammar.{HasBlockSpelling, IsDigest, IsNumber};
ghost use Rattle.ord_types.specs.declared.values.Proof.TheVariants.{Bft};
ghost use Rattle.gate_log.specs.Disk.{now};
ghost use Rattle.gate_log.specs.Runs.{Throughout};
ghost use Rattle.signer_edge.specs.Accepts.{Accepts as SomeAccepts};
ghost use Rattle.signer_edge.specs.Signing.{KeepsAccepted};
ghost use Rattle.bft_wal.specs.Records.{HasRecordSpelling};
ghost use Rattle.block_ledger.specs.Chains.{IsChain};
ghost use Rattle.block_ledger.specs.Entries.{HasEntrySpelling};
ghost use Rattle.block_ledger.specs.Judging.{next_refusal};
ghost use Rattle.block_ledger.specs.Places.{place_after};
ghost use Rattle.node_model.specs.Entries.{
  Accepts as Accepting,
  Prepares as Preparing,
  Delivers as Delivering,
  Deed as SomeDeed,
};
ghost use Rattle.bft_node.specs.Held.{with_deed};
ghost use Rattle.bft_node.specs.Stores.{
  IsKept,
  IsStoredAs,
  OnRefusal,
  OthersStay,
  WriteAnswers,
  WritesWithin,
  config_of,
  held_of,
  ledger_limit,
  log_limit,
  ledger_write_fault,
  log_write_fault,
};

use crate::{Store, StoreFault};
use bft_wal::WalRecord;
use block_ledger::LedgerFault;
use gate_log::{Disk, LogFault};
use ord_types::{Block, Cert, Digest, Proof};
use signer_edge::Verifier;
use std::alloc::Global;

// What is told of a fault of the log. An append tells no foreign file.
fn log_write_fault(fault: LogFault) -> StoreFault
    ensures { result ≡ log_write_fault fault }
{
    match fault {
        LogFault::TooLong(length) => StoreFault::Limit(length),
        LogFault::Failed => StoreFault::Disk,
        _ => StoreFault::NoMemory,
    }
}

// What is told of a fault of the ledger. An append of a block that is to come next refuses nothing else.
fn ledger_write_fault(fault: LedgerFault) -> StoreFault
    ensures { result ≡ ledger_write_fault fault }
{
    match fault {
        LedgerFault::Limit(length) => StoreFault::Limit(length),
        LedgerFault::Failed => StoreFault::Disk,
        _ => StoreFault::NoMemory,
    }
}

impl Store {
    // Adds a record to the log.
    fn append_record<D: Disk>(
        &mut self,
        alloc: Global,
        disk: &mut D,
        entry: &WalRecord,
    ) -> Result<(), StoreFault>
        requires kept { IsTrue (D.tells disk.old) → IsKept self.old (now (D.moments disk.old)) }
        requires spelled { HasRecordSpelling entry.now }

        ensures kept { IsTrue (D.tells disk.old) → OnOk result (IsKept self.new (now (D.moments disk.new))) }
        ensures added { (deed : SomeDeed) → IsStoredAs deed entry.now
            → OnOk result (held_of self.new ≡ with_deed deed (held_of self.old)) }
        ensures ledger { self.new.ledger ≡ self.old.ledger }
        ensures any_moment { (deed : SomeDeed) (accepts : SomeAccepts) → IsStoredAs deed entry.now
            → IsTrue (D.tells disk.old) → IsChain accepts (config_of self.old) (held_of self.old).blocks
            → WritesWithin self.old deed accepts (D.moments disk.old) (D.moments disk.new) }
        ensures others { IsTrue (D.tells disk.old) → Throughout (OthersStay (now (D.moments disk.old)))
            (D.moments disk.old) (D.moments disk.new) }
        ensures refused { OnRefusal result ((self.new ≡ self.old) × (disk.new ≡ disk.old)) }
        ensures tells { D.tells disk.new ≡ D.tells disk.old }
        ensures later { D.faults disk.old ≤ D.faults disk.new }
        ensures cause { WriteAnswers (log_limit self.old entry.now)
            (D.faults disk.old) (D.faults disk.new) result }
    {
        match self.wal.append(alloc, disk, entry) {
            Ok(()) => Ok(()),
            Err(fault) => Err(log_write_fault(fault)),
        }
    }

    /// Makes an acceptance durable: of a block, in a view, at a number, under the configuration of this
    /// number. After `Disk` the store has to be opened again.
    pub fn accept<D: Disk>(
        &mut self,
        alloc: Global,
        disk: &mut D,
        config: u64,
        view: u64,
        number: u64,
        block: Block,
    ) -> Result<(), StoreFault>
        // the disk on which the store was opened, with its files as the last call left them
        requires kept { IsTrue (D.tells disk.old) → IsKept self.old (now (D.moments disk.old)) }
        requires numbers { IsNumber config × IsNumber view × IsNumber number }
        requires block { HasBlockSpelling block }

        ensures kept { IsTrue (D.tells disk.old) → OnOk result (IsKept self.new (now (D.moments disk.new))) }
        ensures added { (id : ℕ) → OnOk result
            (held_of self.new ≡ with_deed (Accepting id config view number block) (held_of self.old)) }
        ensures ledger { self.new.ledger ≡ self.old.ledger }

        // A crash at any moment of the call opens to what was held with this deed or without. No other file
        // changes.
        ensures any_moment { (id : ℕ) (accepts : SomeAccepts) → IsTrue (D.tells disk.old)
            → IsChain accepts (config_of self.old) (held_of self.old).blocks
            → WritesWithin self.old (Accepting id config view number block) accepts
            (D.moments disk.old) (D.moments disk.new) }
        ensures others { IsTrue (D.tells disk.old) → Throughout (OthersStay (now (D.moments disk.old)))
            (D.moments disk.old) (D.moments disk.new) }

        // Want of memory and a length that is too great leave store and disk as they were.
        ensures refused { OnRefusal result ((self.new ≡ self.old) × (disk.new ≡ disk.old)) }
        ensures tells { D.tells disk.new ≡ D.tells disk.old }
        ensures later { D.faults disk.old ≤ D.faults disk.new }
        ensures cause { WriteAnswers (log_limit self.old (WalRecord.Accepted config view number block))
            (D.faults disk.old) (D.faults disk.new) result }
    {
        let entry = WalRecord::Accepted {
            config,
            view,
            number,
            block,
        };
        self.append_record(alloc, disk, &entry)
    }

    /// Makes a preparation durable, of the block of this hash. All else is as of `accept`.
    pub fn prepare<D: Disk>(
        &mut self,
        alloc: Global,
        disk: &mut D,
        config: u64,
        view: u64,
        number: u64,
        digest: Digest,
    ) -> Result<(), StoreFault>
        requires kept { IsTrue (D.tells disk.old) → IsKept self.old (now (D.moments disk.old)) }
        requires numbers { IsNumber config × IsNumber view × IsNumber number }

        ensures kept { IsTrue (D.tells disk.old) → OnOk result (IsKept self.new (now (D.moments disk.new))) }
        ensures added { (id : ℕ) → OnOk result
            (held_of self.new ≡ with_deed (Preparing id config view number digest) (held_of self.old)) }
        ensures ledger { self.new.ledger ≡ self.old.ledger }
        ensures any_moment { (id : ℕ) (accepts : SomeAccepts) → IsTrue (D.tells disk.old)
            → IsChain accepts (config_of self.old) (held_of self.old).blocks
            → WritesWithin self.old (Preparing id config view number digest) accepts
            (D.moments disk.old) (D.moments disk.new) }
        ensures others { IsTrue (D.tells disk.old) → Throughout (OthersStay (now (D.moments disk.old)))
            (D.moments disk.old) (D.moments disk.new) }
        ensures refused { OnRefusal result ((self.new ≡ self.old) × (disk.new ≡ disk.old)) }
        ensures tells { D.tells disk.new ≡ D.tells disk.old }
        ensures later { D.faults disk.old ≤ D.faults disk.new }
        ensures cause { WriteAnswers (log_limit self.old (WalRecord.Prepared config view number digest))
            (D.faults disk.old) (D.faults disk.new) result }
    {
        let entry = WalRecord::Prepared {
            config,
            view,
            number,
            digest,
        };
        self.append_record(alloc, disk, &entry)
    }

    /// Makes a delivery durable: of a block that may come next, with its certificate. All else is as of
    /// `accept`.
    pub fn deliver<D: Disk, V: Verifier>(
        &mut self,
        alloc: Global,
        disk: &mut D,
        block: Block,
        cert: Cert,
        verifier: &V,
    ) -> Result<(), StoreFault>
        requires kept { IsTrue (D.tells disk.old) → IsKept self.old (now (D.moments disk.old)) }
        requires spelled { HasEntrySpelling (block, Bft cert) }
        requires next { next_refusal (V.accepts verifier.now)
            (place_after (config_of self.old) (held_of self.old).blocks) (block, Bft cert) ≡ None }

        ensures kept { IsTrue (D.tells disk.old) → OnOk result (IsKept self.new (now (D.moments disk.new))) }
        ensures added { (id : ℕ) → OnOk result (held_of self.new ≡ with_deed (Delivering id block (Bft cert))
            (held_of self.old)) }
        ensures config { config_of self.new ≡ config_of self.old }
        ensures log { self.new.wal ≡ self.old.wal }
        ensures same { OnErr result ((held_of self.new).blocks ≡ (held_of self.old).blocks) }
        ensures chain { OnOk result
            (IsChain (V.accepts verifier.now) (config_of self.old) (held_of self.old).blocks
            → IsChain (V.accepts verifier.now) (config_of self.old) (held_of self.new).blocks) }

        // So it is for all that the verifier accepts, and where more is accepted.
        ensures any_moment { (id : ℕ) (accepts : SomeAccepts) → IsTrue (D.tells disk.old)
            → KeepsAccepted (V.accepts verifier.now) accepts
            → IsChain (V.accepts verifier.now) (config_of self.old) (held_of self.old).blocks
            → WritesWithin self.old (Delivering id block (Bft cert)) accepts
            (D.moments disk.old) (D.moments disk.new) }
        ensures others { IsTrue (D.tells disk.old) → Throughout (OthersStay (now (D.moments disk.old)))
            (D.moments disk.old) (D.moments disk.new) }
        ensures refused { OnRefusal result ((self.new ≡ self.old) × (disk.new ≡ disk.old)) }
        ensures tells { D.tells disk.new ≡ D.tells disk.old }
        ensures later { D.faults disk.old ≤ D.faults disk.new }
        ensures cause { WriteAnswers (ledger_limit self.old (block, Bft cert))
            (D.faults disk.old) (D.faults disk.new) result }
    {
        match self
            .ledger
            .append(alloc, disk, block, Proof::Bft(cert), verifier)
        {
            Ok(()) => Ok(()),
            Err(fault) => Err(ledger_write_fault(fault)),
        }
    }
}
