//! The deeds of a step, each made durable and told before anything rests on it.
ghost use Rattle.std.specs.Prelude.{◌≡◌, ◌≤◌, ◌<◌, ◌^◌, IsTrue, OnOk, IfErr, IfOk, map, None};
ghost use Rattle.ord_types.specs.Grammar.{HasBlockSpelling, IsDigest};
ghost use Rattle.ord_types.specs.declared.values.Proof.TheVariants.{Bft};
ghost use Rattle.block_ledger.specs.Entries.{HasEntrySpelling};
ghost use Rattle.block_ledger.specs.Judging.{next_refusal};
ghost use Rattle.signer_edge.specs.Accepts.{Accepts as SomeAccepts};
ghost use Rattle.node_model.specs.Entries.{Delivers};
ghost use Rattle.node_model.specs.Steps.{acceptance, preparation};
ghost use Rattle.bft_node.specs.Keeping.{Keeps, KeepsWithin};
ghost use Rattle.bft_node.specs.NodeFaults.{HasNodeCause, NeedsLimit, counts};
ghost use Rattle.bft_node.specs.Running.{IsReady, place_of};
ghost use Rattle.bft_node.specs.Stores.{IsKept, config_of, held_of};
ghost use Rattle.block_ledger.specs.Chains.{IsChain};
ghost use Rattle.gate_log.specs.Disk.{now};
ghost use Rattle.view_core.specs.Places.{IsPlace};

use crate::NodeFault;
use crate::live::{Done, Out, Running};
use crate::node_fault::MOST_NUMBER;
use crate::spelled::{is_block, is_cert};
use chan_config::check_block;
use gate_log::Disk;
use ord_types::{
    Block, Cert, Copied, Digest, Kind, List, NoMemory, Place, Proof, ReqId, block_hash,
};
use safety_model::Fact;
use signer_edge::{Verifier, check_cert};
use std::alloc::Global;

// The ids of a block's requests.
fn ids_in(alloc: Global, block: &Block) -> Result<List<ReqId>, NoMemory>
    ensures { IfOk result (λ ids. ids ≡ map (λ r. r.id) block.now.requests) }
{
    let mut ids = List::new(alloc);
    for request in block.requests.as_slice() {
        ids.push(request.id)?;
    }
    Ok(ids)
}

// Whether a block with its certificate has a spelling and may come next.
fn may_come_next<V: Verifier>(
    alloc: Global,
    place: &Place,
    block: &Block,
    cert: &Cert,
    keys: &V,
) -> bool
    requires { IsPlace place.now }
    ensures spelled { IsTrue result → HasEntrySpelling (block.now, Bft cert.now) }
    ensures next { IsTrue result
        → next_refusal (V.accepts keys.now) place.now (block.now, Bft cert.now) ≡ None }
{
    let is_bft = match place.config.kind {
        Kind::Bft => true,
        Kind::Raft => false,
    };
    if !is_bft || !is_block(block) || !is_cert(cert) {
        return false;
    }
    if check_block(alloc, place, block, keys).is_err() {
        return false;
    }
    let hash = block_hash(&block.header);
    check_cert(&place.config, block.header.number, &hash, cert, keys).is_ok()
}

impl Running {
    /// Accepts a block where the node stands.
    pub(crate) fn keep_acceptance<D: Disk>(
        &mut self,
        block: Block,
        disk: &mut D,
        out: &mut Out,
    ) -> Result<(), NodeFault>
        requires { IsReady (D.tells disk.old) (D.moments disk.old) self.old }
        ensures ready { OnOk result (IsReady (D.tells disk.new) (D.moments disk.new) self.new) }
        ensures keeps { OnOk result (Keeps (acceptance (place_of self.old) self.old.view block)
            self.old self.new out.old out.new) }
        ensures any_moment { (accepts : SomeAccepts)
            → KeepsWithin (acceptance (place_of self.old) self.old.view block) self.old accepts
            (D.tells disk.old) (D.moments disk.old) (D.moments disk.new) }
        ensures limit { IfErr result (NeedsLimit (D.tells disk.old)
            (acceptance (place_of self.old) self.old.view block) (held_of self.old.store)) }
        ensures tells { D.tells disk.new ≡ D.tells disk.old }
        ensures later { D.faults disk.old ≤ D.faults disk.new }
        ensures cause { HasNodeCause (counts (D.faults disk.old) 0) (counts (D.faults disk.new) 0) result }
    {
        // what is accepted was read from bytes, or made of what was
        if !is_block(&block) {
            return Err(NodeFault::NoMemory);
        }
        let place = self.store.ledger.place();
        let config = place.config.number;
        let number = place.height;
        let view = self.view.view();
        let digest = block_hash(&block.header);
        self.store
            .accept(self.alloc, disk, config, view, number, block)?;
        out.facts.push(Fact::Accepted {
            member: self.id,
            config,
            view,
            number,
            digest,
        })?;
        Ok(())
    }

    /// Prepares the block of this hash where the node stands.
    pub(crate) fn keep_preparation<D: Disk>(
        &mut self,
        digest: Digest,
        disk: &mut D,
        out: &mut Out,
    ) -> Result<(), NodeFault>
        requires { IsReady (D.tells disk.old) (D.moments disk.old) self.old }
        ensures ready { OnOk result (IsReady (D.tells disk.new) (D.moments disk.new) self.new) }
        ensures keeps { OnOk result (Keeps (preparation (place_of self.old) self.old.view digest)
            self.old self.new out.old out.new) }
        ensures any_moment { (accepts : SomeAccepts)
            → KeepsWithin (preparation (place_of self.old) self.old.view digest) self.old accepts
            (D.tells disk.old) (D.moments disk.old) (D.moments disk.new) }
        ensures limit { IfErr result (NeedsLimit (D.tells disk.old)
            (preparation (place_of self.old) self.old.view digest) (held_of self.old.store)) }
        ensures tells { D.tells disk.new ≡ D.tells disk.old }
        ensures later { D.faults disk.old ≤ D.faults disk.new }
        ensures cause { HasNodeCause (counts (D.faults disk.old) 0) (counts (D.faults disk.new) 0) result }
    {
        let place = self.store.ledger.place();
        let config = place.config.number;
        let number = place.height;
        let view = self.view.view();
        self.store
            .prepare(self.alloc, disk, config, view, number, digest)?;
        out.facts.push(Fact::Prepared {
            member: self.id,
            config,
            view,
            number,
            digest,
        })?;
        Ok(())
    }

    /// Delivers a block that may come next, with its certificate. The view goes to the next place.
    pub(crate) fn keep_delivery<D: Disk, V: Verifier>(
        &mut self,
        block: Block,
        cert: Cert,
        disk: &mut D,
        keys: &V,
        out: &mut Out,
    ) -> Result<(), NodeFault>
        requires { IsReady (D.tells disk.old) (D.moments disk.old) self.old }
        ensures kept { IsTrue (D.tells disk.new)
            → OnOk result (IsKept self.new.store (now (D.moments disk.new))) }
        ensures chain { OnOk result
            (IsChain (V.accepts keys.now) (config_of self.old.store) (held_of self.old.store).blocks
            → IsChain (V.accepts keys.now) (config_of self.old.store) (held_of self.new.store).blocks) }
        ensures place { OnOk result (IsPlace (place_of self.new)) }
        ensures keeps { OnOk result (Keeps (Delivers self.old.view.me block (Bft cert))
            self.old self.new out.old out.new) }
        ensures any_moment { KeepsWithin (Delivers self.old.view.me block (Bft cert))
            self.old (V.accepts keys.now) (D.tells disk.old) (D.moments disk.old) (D.moments disk.new) }
        ensures limit { IfErr result (NeedsLimit (D.tells disk.old)
            (Delivers self.old.view.me block (Bft cert)) (held_of self.old.store)) }
        ensures tells { D.tells disk.new ≡ D.tells disk.old }
        ensures later { D.faults disk.old ≤ D.faults disk.new }
        ensures cause { HasNodeCause (counts (D.faults disk.old) 0) (counts (D.faults disk.new) 0) result }
    {
        if self.store.ledger.height() >= MOST_NUMBER {
            return Err(NodeFault::Limit(MOST_NUMBER));
        }
        // the accepted block and its kept Commits were looked at when they came
        if !may_come_next(self.alloc, self.store.ledger.place(), &block, &cert, keys) {
            return Err(NodeFault::NoMemory);
        }
        let ids = ids_in(self.alloc, &block)?;
        let fact = Fact::Delivered {
            member: self.id,
            block: block.copy()?,
            proof: Proof::Bft(cert.copy()?),
        };
        self.store.deliver(self.alloc, disk, block, cert, keys)?;
        out.facts.push(fact)?;
        out.done.push(Done { ids, next: None })?;
        Ok(())
    }
}
