//! What a node sends again at the first tick after its opening.
ghost use Rattle.std.specs.Prelude.{◌≡◌, ◌≤◌, ◌==◌, Bool, IfErr, List as Items, ◌++◌, OnOk, Some, None, map};
ghost use Rattle.ord_types.specs.Lengths.{FitsBlock};
ghost use Rattle.ord_types.specs.Hashes.{block_hash};
ghost use Rattle.gate_log.specs.Disk.{State};
ghost use Rattle.view_model.specs.Leading.{leader};
ghost use Rattle.node_model.specs.Cores.{Found as FoundOnce};
ghost use Rattle.node_model.specs.Steps.{commits, is_current, repeated_votes};
ghost use Rattle.bft_node.specs.Calls.{MakesUnwritten, repeats_current};
ghost use Rattle.bft_node.specs.Making.{sent_of, sent_to_others};
ghost use Rattle.bft_node.specs.NodeFaults.{HasNodeCause, TouchesNoDisk, counts};
ghost use Rattle.bft_node.specs.Outcomes.{StaysSound};
ghost use Rattle.bft_node.specs.Running.{IsReady, IsSame, IsSound, as_found, place_of};
ghost use Rattle.bft_node.specs.Signings.{Signs};

use crate::NodeFault;
use crate::live::{Found, Out, Running};
use crate::spelled::is_block;
use ord_types::{Block, Digest, Kind, NoMemory, block_hash};
use signer_edge::{Signer, Verifier};
use std::mem;
use view_core::Act;

impl Running {
    /// Whether the node is a member of a BFT configuration, inside its view, and stands where it was found.
    fn is_current(&self, found: &Found) -> bool
        requires { IsSound self.now }
        ensures { (f : FoundOnce) → as_found (Some found.now) ≡ Some f
            → result ≡ is_current (place_of self.now) self.now.view f }
    {
        let place = self.store.ledger.place();
        let is_bft = match place.config.kind {
            Kind::Bft => true,
            Kind::Raft => false,
        };
        is_bft
            && place.config.members.as_slice().contains(&self.id)
            && self.view.left() <= self.view.view()
            && found.config == place.config.number
            && found.view == self.view.view()
            && found.height == place.height
    }

    /// Whether the node leads its view.
    fn is_leader(&self) -> bool
        requires { IsSound self.now }
        ensures { result ≡ (leader (place_of self.now) self.now.view.view == self.now.view.me) }
    {
        let members = self.store.ledger.place().config.members.as_slice();
        members[(self.view.view() % members.len() as u64) as usize] == self.id
    }

    /// The proposal by the leader, and the Prepare.
    fn repeat_votes(&self, block: &Block, out: &mut Out) -> Result<(), NoMemory>
        requires sound { IsSound self.now }
        requires fits { FitsBlock block.now }
        ensures sent { OnOk result (map sent_of out.new.sends ≡ map sent_of out.old.sends
            ++ sent_to_others self.now (repeated_votes (place_of self.now) self.now.view block.now)) }
        ensures facts { out.new.facts ≡ out.old.facts }
        ensures done { out.new.done ≡ out.old.done }
    {
        if self.is_leader() {
            self.send_proposal(block, out)
        } else {
            self.send_prepare(block, out)
        }
    }

    /// What was found is sent again where it is current.
    fn repeat_found<K: Signer + Verifier>(
        &mut self,
        found: &Found,
        keys: &mut K,
        out: &mut Out,
    ) -> Result<(), NodeFault>
        requires { IsSound self.old }
        ensures stays { StaysSound self.old self.new }
        ensures makes { Signs K.sign_gives result keys.old keys.new (MakesUnwritten K.accepts
            (repeats_current (as_found (Some found.now))) result self.old keys.old out.old
            self.new keys.new out.new) }
        ensures later { K.faults keys.old ≤ K.faults keys.new }
        ensures no_disk { IfErr result TouchesNoDisk }
        ensures cause { HasNodeCause (counts 0 (K.faults keys.old)) (counts 0 (K.faults keys.new)) result }
    {
        if !self.is_current(found) {
            return Ok(());
        }
        // it was read from bytes
        if !is_block(&found.block) {
            return Err(NodeFault::NoMemory);
        }
        self.repeat_votes(&found.block, out)?;
        if found.is_prepared {
            return self.repeat_commit(block_hash(&found.block.header), keys, out);
        }
        Ok(())
    }

    /// The Commit is signed and sent again. What it tells is told again when all that is due is done.
    fn repeat_commit<K: Signer + Verifier>(
        &mut self,
        digest: Digest,
        keys: &mut K,
        out: &mut Out,
    ) -> Result<(), NodeFault>
        requires { IsSound self.old }
        ensures stays { StaysSound self.old self.new }
        ensures makes { Signs K.sign_gives result keys.old keys.new (MakesUnwritten K.accepts
            (λ keys signed c. commits keys signed c digest) result self.old keys.old out.old
            self.new keys.new out.new) }
        ensures later { K.faults keys.old ≤ K.faults keys.new }
        ensures no_disk { IfErr result TouchesNoDisk }
        ensures cause { HasNodeCause (counts 0 (K.faults keys.old)) (counts 0 (K.faults keys.new)) result }
    {
        match self.commit(digest, keys, out)? {
            // what was found is accepted and prepared, so no vote is due
            Act::Accept(_) | Act::Prepare(_) => Err(NodeFault::NoMemory),
            _ => Ok(()),
        }
    }

    /// A tick takes what the opening found.
    pub(crate) fn repeat<K: Signer + Verifier>(
        &mut self,
        keys: &mut K,
        out: &mut Out,
    ) -> Result<(), NodeFault>
        requires { IsSound self.old }
        ensures stays { StaysSound self.old self.new }
        ensures makes { Signs K.sign_gives result keys.old keys.new (MakesUnwritten K.accepts
            (repeats_current (as_found self.old.found)) result (record self.old { found = None })
            keys.old out.old self.new keys.new out.new) }
        ensures later { K.faults keys.old ≤ K.faults keys.new }
        ensures no_disk { IfErr result TouchesNoDisk }
        ensures cause { HasNodeCause (counts 0 (K.faults keys.old)) (counts 0 (K.faults keys.new)) result }
    {
        match mem::replace(&mut self.found, None) {
            None => Ok(()),
            Some(found) => self.repeat_found(&found, keys, out),
        }
    }
}
