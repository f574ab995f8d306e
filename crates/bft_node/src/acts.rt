//! What a running node does: the acts that are due, one after another.
ghost use Rattle.std.specs.Prelude.{◌≡◌, ◌≤◌, ◌<◌, Bool, List as Items, [], ◌∷◌, IfErr, IfOk, IsTrue, OnOk};
ghost use Rattle.ord_types.specs.Lengths.{FitsSig};
ghost use Rattle.gate_log.specs.Disk.{State};
ghost use Rattle.view_model.specs.declared.act.Act.TheVariants as act_of;
ghost use Rattle.node_model.specs.Steps.{all_due};
ghost use Rattle.node_model.specs.Steps as duty_of;
ghost use Rattle.view_core.specs.Fits.{FitsAct};
ghost use Rattle.bft_node.specs.Calls.{
  AddsRule,
  DoesDuty,
  IsToldDue,
  MakesRule,
  Quiet,
  Taken,
  Telling,
  TellsDue,
  does_act,
  does_duty,
  stage,
  still_with,
  tells_act,
};
ghost use Rattle.bft_node.specs.Commits.{Commits, SignsAtMost, commit_at, statement_at};
ghost use Rattle.bft_node.specs.Making.{GoesOn};
ghost use Rattle.bft_node.specs.NodeFaults.{HasNodeCause, TouchesNoDisk, counts};
ghost use Rattle.bft_node.specs.Outcomes.{KeepsRunning, StaysSound, devices};
ghost use Rattle.bft_node.specs.Running.{IsReady, IsSame, IsSound, state_of};
ghost use Rattle.bft_node.specs.Signings.{Signs, signing};

use crate::NodeFault;
use crate::live::{Out, Running};
use bft_wire::{Commit, Message};
use gate_log::Disk;
use ord_types::{Block, Cert, Copied, Digest, NoMemory};
use signer_edge::{Signer, Verifier, commit_statement};
use view_core::Act;

impl Running {
    /// The act that is due now.
    pub(crate) fn told<V: Verifier>(&mut self, keys: &V) -> Result<Act, NoMemory>
        requires { IsSound self.old }
        ensures stays { StaysSound self.old self.new }
        ensures fits { IfOk result FitsAct }
        ensures told { IfOk result
            (λ told. TellsDue (V.accepts keys.now) (state_of self.old) told self.old self.new) }
    {
        self.view.due(self.store.ledger.place(), keys)
    }

    /// An acceptance that is due: it is made durable, and a Prepare goes to all. The answer is the next act.
    fn accept<D: Disk, V: Verifier>(
        &mut self,
        block: Block,
        disk: &mut D,
        keys: &V,
        out: &mut Out,
    ) -> Result<Act, NodeFault>
        requires { IsReady (D.tells disk.old) (D.moments disk.old) self.old }
        ensures runs { KeepsRunning result self.old self.new
            (devices (D.tells disk.old) (D.moments disk.old) (D.faults disk.old) 0)
            (devices (D.tells disk.new) (D.moments disk.new) (D.faults disk.new) 0) }
        ensures fits { IfOk result FitsAct }
        ensures makes { AddsRule (V.accepts keys.now) (does_duty (duty_of.Accept block)) result
            (Taken (act_of.Accept block)) Telling
            (stage self.old tt (D.tells disk.old) (D.moments disk.old) out.old)
            (stage self.new tt (D.tells disk.new) (D.moments disk.new) out.new) }
        ensures next { IfOk result (λ next. DoesDuty (V.accepts keys.now) (duty_of.Accept block)
            (act_of.Accept block) next self.old self.new) }
    {
        let accepted = block.copy()?;
        self.keep_acceptance(accepted, disk, out)?;
        self.send_prepare(&block, out)?;
        Ok(self.told(keys)?)
    }

    /// Signs the Commit of the digest where the node stands.
    fn signed_commit<K: Signer>(&self, digest: Digest, keys: &mut K) -> Result<Commit, NodeFault>
        ensures fits { IfOk result (λ commit. FitsSig commit.sig) }
        ensures signs { Signs K.sign_gives result keys.old keys.new (λ signings. GoesOn result
            (λ commit. (commit ≡ commit_at self.now digest commit.sig)
            × (signings ≡ signing (statement_at self.now digest) commit.sig keys.new ∷ []))
            (λ _. signings ≡ [])) }
        ensures later { K.faults keys.old ≤ K.faults keys.new }
        ensures no_disk { IfErr result TouchesNoDisk }
        ensures cause { HasNodeCause (counts 0 (K.faults keys.old)) (counts 0 (K.faults keys.new)) result }
    {
        let place = self.store.ledger.place();
        let config = place.config.number;
        let number = place.height;
        let view = self.view.view();
        let statement = commit_statement(config, view, number, &digest);
        let sig = keys.sign(&statement)?;
        Ok(Commit {
            config,
            view,
            number,
            digest,
            sig,
        })
    }

    /// Signs a Commit of the digest and sends it to all; the own one counts as any other. The answer is the
    /// act that is due then.
    pub(crate) fn commit<K: Signer + Verifier>(
        &mut self,
        digest: Digest,
        keys: &mut K,
        out: &mut Out,
    ) -> Result<Act, NodeFault>
        requires { IsSound self.old }
        ensures stays { StaysSound self.old self.new }
        ensures fits { IfOk result FitsAct }
        ensures signs { Signs K.sign_gives result keys.old keys.new (λ signings. GoesOn result
            (λ told. Commits digest told self.old self.new (K.accepts keys.new) keys.new signings out.old
            out.new)
            (λ _. SignsAtMost (statement_at self.old digest) signings)) }
        ensures later { K.faults keys.old ≤ K.faults keys.new }
        ensures no_disk { IfErr result TouchesNoDisk }
        ensures cause { HasNodeCause (counts 0 (K.faults keys.old)) (counts 0 (K.faults keys.new)) result }
    {
        let commit = self.signed_commit(digest, keys)?;
        self.send(&Message::Commit(commit.copy()?), out)?;
        let told = self
            .view
            .on_commit(self.store.ledger.place(), self.id, commit, keys)?;
        Ok(told)
    }

    /// A preparation that is due: it is made durable before the Commit is signed. The answer is the next act.
    fn prepare<D: Disk, K: Signer + Verifier>(
        &mut self,
        digest: Digest,
        disk: &mut D,
        keys: &mut K,
        out: &mut Out,
    ) -> Result<Act, NodeFault>
        requires { IsReady (D.tells disk.old) (D.moments disk.old) self.old }
        ensures runs { KeepsRunning result self.old self.new
            (devices (D.tells disk.old) (D.moments disk.old) (D.faults disk.old) (K.faults keys.old))
            (devices (D.tells disk.new) (D.moments disk.new) (D.faults disk.new) (K.faults keys.new)) }
        ensures fits { IfOk result FitsAct }
        ensures makes { Signs K.sign_gives result keys.old keys.new (MakesRule K.accepts
            (does_duty (duty_of.Prepare digest)) result (Taken (act_of.Prepare digest)) Telling
            (stage self.old keys.old (D.tells disk.old) (D.moments disk.old) out.old)
            (stage self.new keys.new (D.tells disk.new) (D.moments disk.new) out.new)) }
        ensures next { IfOk result (λ next. DoesDuty (K.accepts keys.new) (duty_of.Prepare digest)
            (act_of.Prepare digest) next self.old self.new) }
    {
        self.keep_preparation(digest, disk, out)?;
        self.commit(digest, keys, out)
    }

    /// A delivery that is due, and the next place. The answer is the act that is due there.
    fn deliver<D: Disk, V: Verifier>(
        &mut self,
        block: Block,
        cert: Cert,
        disk: &mut D,
        keys: &V,
        out: &mut Out,
    ) -> Result<Act, NodeFault>
        requires { IsReady (D.tells disk.old) (D.moments disk.old) self.old }
        ensures runs { KeepsRunning result self.old self.new
            (devices (D.tells disk.old) (D.moments disk.old) (D.faults disk.old) 0)
            (devices (D.tells disk.new) (D.moments disk.new) (D.faults disk.new) 0) }
        ensures fits { IfOk result FitsAct }
        ensures makes { AddsRule (V.accepts keys.now) (does_duty (duty_of.Deliver block cert)) result
            (Taken (act_of.Deliver block cert)) Telling
            (stage self.old tt (D.tells disk.old) (D.moments disk.old) out.old)
            (stage self.new tt (D.tells disk.new) (D.moments disk.new) out.new) }
        ensures next { IfOk result (λ next. DoesDuty (V.accepts keys.now) (duty_of.Deliver block cert)
            (act_of.Deliver block cert) next self.old self.new) }
    {
        self.keep_delivery(block, cert, disk, keys, out)?;
        self.view.go_to(self.store.ledger.place());
        Ok(self.told(keys)?)
    }

    /// Does the told act, if it is one. The answer is the next act that is due.
    fn act<D: Disk, K: Signer + Verifier>(
        &mut self,
        told: Act,
        disk: &mut D,
        keys: &mut K,
        out: &mut Out,
    ) -> Result<Act, NodeFault>
        requires ready { IsReady (D.tells disk.old) (D.moments disk.old) self.old }
        requires fits { FitsAct told }
        requires due { IsToldDue (K.accepts keys.old) told self.old }
        ensures runs { KeepsRunning result self.old self.new
            (devices (D.tells disk.old) (D.moments disk.old) (D.faults disk.old) (K.faults keys.old))
            (devices (D.tells disk.new) (D.moments disk.new) (D.faults disk.new) (K.faults keys.new)) }
        ensures fits { IfOk result FitsAct }
        ensures makes { Signs K.sign_gives result keys.old keys.new (MakesRule K.accepts
            (does_act told) result (Telling told) Telling
            (stage self.old keys.old (D.tells disk.old) (D.moments disk.old) out.old)
            (stage self.new keys.new (D.tells disk.new) (D.moments disk.new) out.new)) }
        ensures due { IfOk result (λ next. IsToldDue (K.accepts keys.new) next self.new) }
        ensures fewer { IfOk result
            (λ next. IsTrue (tells_act told) → still_with next self.new < still_with told self.old) }
    {
        match told {
            Act::Accept(block) => self.accept(block, disk, keys, out),
            Act::Prepare(digest) => self.prepare(digest, disk, keys, out),
            Act::Deliver(block, cert) => self.deliver(block, cert, disk, keys, out),
            told => Ok(told),
        }
    }

    /// Does acts until none is due, from a told act on.
    pub(crate) fn acts<D: Disk, K: Signer + Verifier>(
        &mut self,
        told: Act,
        disk: &mut D,
        keys: &mut K,
        out: &mut Out,
    ) -> Result<(), NodeFault>
        requires ready { IsReady (D.tells disk.old) (D.moments disk.old) self.old }
        requires fits { FitsAct told }
        requires due { IsToldDue (K.accepts keys.old) told self.old }
        ensures runs { KeepsRunning result self.old self.new
            (devices (D.tells disk.old) (D.moments disk.old) (D.faults disk.old) (K.faults keys.old))
            (devices (D.tells disk.new) (D.moments disk.new) (D.faults disk.new) (K.faults keys.new)) }
        ensures makes { Signs K.sign_gives result keys.old keys.new (MakesRule K.accepts
            all_due result (Telling told) (λ _. Quiet)
            (stage self.old keys.old (D.tells disk.old) (D.moments disk.old) out.old)
            (stage self.new keys.new (D.tells disk.new) (D.moments disk.new) out.new)) }
    {
        if !is_act(&told) {
            return Ok(());
        }
        let next = self.act(told, disk, keys, out)?;
        self.acts(next, disk, keys, out)
    }
}

/// Whether an answer tells an act that is to be done.
fn is_act(told: &Act) -> bool
    ensures { result ≡ tells_act told.now }
{
    match told {
        Act::Kept | Act::Nothing(_) => false,
        _ => true,
    }
}
