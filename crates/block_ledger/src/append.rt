ghost use Rattle.std.specs.Prelude.{◌≡◌, ℕ, ◌+◌, ◌≤◌, List, [], ◌∷◌, ◌++◌, length, IsTrue, IfOk, OnOk, OnErr, true, None};
ghost use Rattle.gate_log.specs.Disk.{now};
ghost use Rattle.gate_log.specs.Runs.{Leaves};
ghost use Rattle.block_ledger.specs.Answers.{AppendAnswers, ChecksNext, OnRefusal, append_fault, block_fault, next_fault};
ghost use Rattle.block_ledger.specs.Chains.{IsChain};
ghost use Rattle.block_ledger.specs.Entries.{HasEntrySpelling};
ghost use Rattle.block_ledger.specs.Judging.{next_refusal};
ghost use Rattle.block_ledger.specs.Ledgers.{IsKept, IsWithOrWithout, blocks_of, end_of, first_config};
ghost use Rattle.block_ledger.specs.Orders.{IsBounded};
ghost use Rattle.block_ledger.specs.Places.{place_after};

use crate::entry::entry_bytes;
use crate::fault::NextRefusal;
use crate::judge::next_refusal;
use crate::{Ledger, LedgerFault};
use chan_config::BlockRefusal;
use gate_log::Disk;
use ord_types::{Block, Place, Proof};
use signer_edge::Verifier;
use std::alloc::Global;

// What an append answers for a block that may not come next.
fn next_fault(refusal: NextRefusal) -> LedgerFault
    ensures { result ≡ next_fault refusal }
{
    match refusal {
        NextRefusal::Block(refusal) => block_fault(refusal),
        NextRefusal::Proof => LedgerFault::BadProof,
        NextRefusal::Cert(refusal) => LedgerFault::BadCert(refusal),
    }
}

fn block_fault(refusal: BlockRefusal) -> LedgerFault
    ensures { result ≡ block_fault refusal }
{
    match refusal {
        BlockRefusal::WrongNumber(number) => LedgerFault::WrongNumber(number),
        BlockRefusal::WrongPrevious(named, real) => LedgerFault::WrongPrevious(named, real),
        BlockRefusal::NoMemory => LedgerFault::NoMemory,
        refusal => LedgerFault::BadBlock(refusal),
    }
}

// Whether a block with its proof may come next at a place.
fn check_next<V: Verifier>(
    alloc: Global,
    place: &Place,
    block: &Block,
    proof: &Proof,
    verifier: &V,
) -> Result<(), LedgerFault>
    requires { IsBounded place.now.config }
    ensures { ChecksNext (next_refusal (V.accepts verifier.now) place.now (block.now, proof.now)) result }
{
    match next_refusal(alloc, place, block, proof, verifier) {
        Ok(None) => Ok(()),
        Ok(Some(refusal)) => Err(next_fault(refusal)),
        Err(_) => Err(LedgerFault::NoMemory),
    }
}

impl Ledger {
    /// Adds a block with its proof. At `Ok` it is acknowledged: until the file is written to again, each crash leaves a
    /// file that stands for the chain with it. After `Failed` the ledger has to be opened again.
    pub fn append<D: Disk, V: Verifier>(
        &mut self,
        alloc: Global,
        disk: &mut D,
        block: Block,
        proof: Proof,
        verifier: &V,
    ) -> Result<(), LedgerFault>
        // the disk on which the ledger was opened, with its file as its last call left it
        requires kept { IsTrue (D.tells disk.old) → IsKept self.old (now (D.moments disk.old)) }
        requires spelled { HasEntrySpelling (block, proof) }

        ensures kept { IsTrue (D.tells disk.old) → OnOk result (IsKept self.new (now (D.moments disk.new))) }
        ensures added { OnOk result (blocks_of self.new ≡ blocks_of self.old ++ (block, proof) ∷ []) }
        ensures chain { OnOk result (IsChain (V.accepts verifier.now) (first_config self.old) (blocks_of self.old)
            → IsChain (V.accepts verifier.now) (first_config self.old) (blocks_of self.new)) }

        // A crash at any moment of the call leaves the chain with this block or without. No other file changes.
        ensures any_moment { IsTrue (D.tells disk.old) → Leaves 2
            (IsWithOrWithout (V.accepts verifier.now) (first_config self.old) (blocks_of self.old) (block, proof)) (D.moments disk.old) (D.moments disk.new) }

        // A refusal leaves ledger and disk as they were. A fault of the disk leaves what the ledger tells of its blocks.
        ensures refused { OnRefusal result ((self.new ≡ self.old) × (disk.new ≡ disk.old)) }
        ensures same { OnErr result (blocks_of self.new ≡ blocks_of self.old) }
        ensures config { first_config self.new ≡ first_config self.old }
        ensures tells { D.tells disk.new ≡ D.tells disk.old }
        ensures later { D.faults disk.old ≤ D.faults disk.new }
        ensures cause { let place = place_after (first_config self.old) (blocks_of self.old) in
            AppendAnswers (next_refusal (V.accepts verifier.now) place (block, proof)) (append_fault (V.accepts verifier.now) place (end_of self.old) (block, proof))
            (D.faults disk.old) (D.faults disk.new) result }
    {
        check_next(alloc, &self.blocks.place, &block, &proof, verifier)?;
        let bytes = entry_bytes(alloc, &block, &proof)?;
        let before = self.blocks.add(block, proof)?;
        match self.log.append(alloc, disk, bytes.as_slice()) {
            Ok(()) => Ok(()),
            Err(fault) => {
                self.blocks.drop_last(before);
                Err(LedgerFault::from(fault))
            }
        }
    }
}
