//! What an event brings a running node.
ghost use Rattle.std.specs.Prelude.{◌≡◌, ◌≢◌, ◌≤◌, ℕ, Bool, List as Items, IfOk, IfSome, OnOk, Some};
ghost use Rattle.ord_types.specs.Lengths.{FitsBlock};
ghost use Rattle.gate_log.specs.Disk.{State};
ghost use Rattle.signer_edge.specs.Accepts.{Accepts as SomeAccepts};
ghost use Rattle.bft_wire.specs.Lengths.{FitsMessage};
ghost use Rattle.bft_wire.specs.Reading.{message_in};
ghost use Rattle.bft_wire.specs.declared.message.Message.TheVariants as message_of;
ghost use Rattle.view_model.specs.declared.act.Act.TheVariants as act_of;
ghost use Rattle.node_model.specs.Cores.{after_event};
ghost use Rattle.node_model.specs.declared.event.Event.TheVariants.{FromMember, Tick};
ghost use Rattle.node_model.specs.Steps.{own_rule, proposes};
ghost use Rattle.view_core.specs.Fits.{FitsAct};
ghost use Rattle.bft_node.specs.Calls.{AddsRule, MakesStep, Quiet, Taken, TellsDue, stage};
ghost use Rattle.bft_node.specs.NodeFaults.{HasNodeCause, counts};
ghost use Rattle.bft_node.specs.Outcomes.{KeepsRunning, StaysSound, devices};
ghost use Rattle.bft_node.specs.Running.{IsReady, IsSame, IsSound, state_of};
ghost use Rattle.bft_node.specs.Signings.{Signs};

use crate::NodeFault;
use crate::live::{Out, Running};
use bft_wire::{Message, Prepare, decode};
use gate_log::Disk;
use node_model::Event;
use ord_types::{Block, Copied, List, NoMemory, ReadFault, Request};
use signer_edge::{Signer, Verifier};
use std::alloc::Global;
use view_core::Act;

/// The message that bytes spell, if they spell one.
fn spelled(alloc: Global, bytes: &[u8]) -> Result<Option<Message>, NoMemory>
    ensures message { IfOk result (λ message. message ≡ message_in bytes.now) }
    ensures fits { IfOk result (λ message. IfSome message FitsMessage) }
{
    match decode(alloc, bytes) {
        Ok(message) => Ok(Some(message)),
        Err(ReadFault::NoMemory) => Err(NoMemory),
        Err(ReadFault::Short(_at)) => Ok(None),
        Err(ReadFault::BadField(_at)) => Ok(None),
        Err(ReadFault::Trailing(_at)) => Ok(None),
    }
}

impl Running {
    /// An acceptance of the own proposal: it is made durable, and the proposal and a Prepare go to all.
    fn accept_own<D: Disk>(
        &mut self,
        block: Block,
        disk: &mut D,
        out: &mut Out,
    ) -> Result<(), NodeFault>
        requires ready { IsReady (D.tells disk.old) (D.moments disk.old) self.old }
        requires fits { FitsBlock block }
        ensures runs { KeepsRunning result self.old self.new
            (devices (D.tells disk.old) (D.moments disk.old) (D.faults disk.old) 0)
            (devices (D.tells disk.new) (D.moments disk.new) (D.faults disk.new) 0) }
        ensures makes { (accepts : SomeAccepts)
            → AddsRule accepts (λ _ _ c. proposes (Some block) c) result (Taken (act_of.Accept block))
            (λ _. Quiet)
            (stage self.old tt (D.tells disk.old) (D.moments disk.old) out.old)
            (stage self.new tt (D.tells disk.new) (D.moments disk.new) out.new) }
    {
        let accepted = block.copy()?;
        self.keep_acceptance(accepted, disk, out)?;
        self.send_proposal(&block, out)?;
        Ok(())
    }

    /// The leader proposes what its pool offers.
    fn propose<D: Disk, V: Verifier>(
        &mut self,
        offer: List<Request>,
        disk: &mut D,
        keys: &V,
        out: &mut Out,
    ) -> Result<(), NodeFault>
        requires { IsReady (D.tells disk.old) (D.moments disk.old) self.old }
        ensures runs { KeepsRunning result self.old self.new
            (devices (D.tells disk.old) (D.moments disk.old) (D.faults disk.old) 0)
            (devices (D.tells disk.new) (D.moments disk.new) (D.faults disk.new) 0) }
        ensures makes { AddsRule (V.accepts keys.now) (λ _. own_rule (Tick offer)) result Quiet (λ _. Quiet)
            (stage self.old tt (D.tells disk.old) (D.moments disk.old) out.old)
            (stage self.new tt (D.tells disk.new) (D.moments disk.new) out.new) }
    {
        match self.view.propose(self.store.ledger.place(), offer, keys)? {
            Act::Accept(block) => self.accept_own(block, disk, out),
            _ => Ok(()),
        }
    }

    /// A tick: what the opening found is sent again, and the leader proposes what its pool offers.
    fn tick<D: Disk, K: Signer + Verifier>(
        &mut self,
        offer: List<Request>,
        disk: &mut D,
        keys: &mut K,
        out: &mut Out,
    ) -> Result<(), NodeFault>
        requires { IsReady (D.tells disk.old) (D.moments disk.old) self.old }
        ensures runs { KeepsRunning result self.old self.new
            (devices (D.tells disk.old) (D.moments disk.old) (D.faults disk.old) (K.faults keys.old))
            (devices (D.tells disk.new) (D.moments disk.new) (D.faults disk.new) (K.faults keys.new)) }
        ensures makes { Signs K.sign_gives result keys.old keys.new (MakesStep K.accepts (Tick offer) result
            (stage self.old keys.old (D.tells disk.old) (D.moments disk.old) out.old)
            (stage self.new keys.new (D.tells disk.new) (D.moments disk.new) out.new)) }
    {
        self.repeat(keys, out)?;
        self.propose(offer, disk, keys, out)?;
        let told = self.told(keys)?;
        self.acts(told, disk, keys, out)
    }

    /// What a Prepare brings: the act that is due with it.
    fn on_prepare<V: Verifier>(
        &mut self,
        from: u32,
        message: &Prepare,
        keys: &V,
    ) -> Result<Act, NoMemory>
        requires sound { IsSound self.old }
        requires other { from ≢ self.old.id }
        ensures stays { StaysSound self.old self.new }
        ensures fits { IfOk result FitsAct }
        ensures told { IfOk result (λ told. (bytes : Items ℕ)
            → message_in bytes ≡ Some (message_of.Prepare message.now)
            → TellsDue (V.accepts keys.now)
            (after_event (FromMember from bytes) (V.accepts keys.now) (state_of self.old))
            told self.old self.new) }
    {
        let told = self
            .view
            .on_prepare(self.store.ledger.place(), from, message);
        if let Act::Prepare(digest) = told {
            return Ok(Act::Prepare(digest));
        }
        self.told(keys)
    }

    /// What a message of another member brings: the act that is due with it. One of a kind that has no rule
    /// brings nothing.
    fn hears<V: Verifier>(&mut self, from: u32, message: Message, keys: &V) -> Result<Act, NoMemory>
        requires sound { IsSound self.old }
        requires fits { FitsMessage message }
        ensures stays { StaysSound self.old self.new }
        ensures fits { IfOk result FitsAct }
        ensures told { IfOk result (λ told. (bytes : Items ℕ) → message_in bytes ≡ Some message
            → TellsDue (V.accepts keys.now)
            (after_event (FromMember from bytes) (V.accepts keys.now) (state_of self.old))
            told self.old self.new) }
    {
        if from == self.id {
            return self.told(keys);
        }
        match message {
            Message::PrePrepare(message) => {
                self.view
                    .on_preprepare(self.store.ledger.place(), from, message, keys)
            }
            Message::Prepare(message) => self.on_prepare(from, &message, keys),
            Message::Commit(message) => {
                self.view
                    .on_commit(self.store.ledger.place(), from, message, keys)
            }
            _ => self.told(keys),
        }
    }

    /// What bytes bring: the act that is due with the message that they spell. Bytes that spell none bring
    /// nothing.
    fn comes<V: Verifier>(&mut self, from: u32, bytes: &[u8], keys: &V) -> Result<Act, NoMemory>
        requires { IsSound self.old }
        ensures stays { StaysSound self.old self.new }
        ensures fits { IfOk result FitsAct }
        ensures told { IfOk result (λ told. TellsDue (V.accepts keys.now)
            (after_event (FromMember from bytes.now) (V.accepts keys.now) (state_of self.old))
            told self.old self.new) }
    {
        let message = spelled(self.alloc, bytes)?;
        match message {
            Some(message) => self.hears(from, message, keys),
            None => self.told(keys),
        }
    }

    /// The bytes of a message come.
    fn take<D: Disk, K: Signer + Verifier>(
        &mut self,
        from: u32,
        bytes: &[u8],
        disk: &mut D,
        keys: &mut K,
        out: &mut Out,
    ) -> Result<(), NodeFault>
        requires { IsReady (D.tells disk.old) (D.moments disk.old) self.old }
        ensures runs { KeepsRunning result self.old self.new
            (devices (D.tells disk.old) (D.moments disk.old) (D.faults disk.old) (K.faults keys.old))
            (devices (D.tells disk.new) (D.moments disk.new) (D.faults disk.new) (K.faults keys.new)) }
        ensures makes { Signs K.sign_gives result keys.old keys.new (MakesStep K.accepts
            (FromMember from bytes.now) result
            (stage self.old keys.old (D.tells disk.old) (D.moments disk.old) out.old)
            (stage self.new keys.new (D.tells disk.new) (D.moments disk.new) out.new)) }
    {
        let told = self.comes(from, bytes, keys)?;
        self.acts(told, disk, keys, out)
    }

    /// One event.
    pub(crate) fn step<D: Disk, K: Signer + Verifier>(
        &mut self,
        event: Event,
        disk: &mut D,
        keys: &mut K,
        out: &mut Out,
    ) -> Result<(), NodeFault>
        requires { IsReady (D.tells disk.old) (D.moments disk.old) self.old }
        ensures runs { KeepsRunning result self.old self.new
            (devices (D.tells disk.old) (D.moments disk.old) (D.faults disk.old) (K.faults keys.old))
            (devices (D.tells disk.new) (D.moments disk.new) (D.faults disk.new) (K.faults keys.new)) }
        ensures makes { Signs K.sign_gives result keys.old keys.new (MakesStep K.accepts (event) result
            (stage self.old keys.old (D.tells disk.old) (D.moments disk.old) out.old)
            (stage self.new keys.new (D.tells disk.new) (D.moments disk.new) out.new)) }
    {
        match event {
            Event::Tick { offer } => self.tick(offer, disk, keys, out),
            Event::FromMember { from, bytes } => {
                self.take(from, bytes.as_slice(), disk, keys, out)
            }
        }
    }
}
