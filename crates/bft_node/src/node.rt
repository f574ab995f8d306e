//! A node over a disk and its keys.
ghost use Rattle.std.specs.Prelude.{
  ◌≡◌,
  ◌≤◌,
  ◌↔◌,
  ℕ,
  true,
  false,
  is_err,
  IfOk,
  IsTrue,
  OnOk,
  Option,
  None,
  Err,
  if◌then◌else◌,
};
ghost use Rattle.std.specs.Option.{ForSome};
ghost use Rattle.ord_types.specs.Lengths.{FitsCert};
ghost use Rattle.ord_types.specs.Genesis.{IsGenesisConfig};
ghost use Rattle.ord_types.specs.Grammar.{IsNumber};
ghost use Rattle.ord_types.specs.declared.values.Block.{Block as SomeBlock};
ghost use Rattle.gate_log.specs.Disk.{now};
ghost use Rattle.gate_log.specs.Runs.{Throughout};
ghost use Rattle.bft_wal.specs.Fold.{durable_of};
ghost use Rattle.block_ledger.specs.Chains.{IsChain};
ghost use Rattle.view_model.specs.Acts.{may_propose};
ghost use Rattle.node_model.specs.Cores.{found_in};
ghost use Rattle.view_core.specs.Places.{IsPlace};
ghost use Rattle.bft_node.specs.NodeFaults.{HasNodeCause, counts};
ghost use Rattle.bft_node.specs.NodeOpenings.{FindsAgain, NodeOpens};
ghost use Rattle.bft_node.specs.NodeSteps.{TakesBy};
ghost use Rattle.bft_node.specs.Returning.{accepted_in, is_prepared_in, opened, view_at};
ghost use Rattle.bft_node.specs.Running.{IsReady, IsSound, as_found, chain_of, place_of, state_of};
ghost use Rattle.bft_node.specs.Signings.{Signs};
ghost use Rattle.bft_node.specs.Stores.{IsKept, OpenAnswers, StaysOpen, config_of, held_of};

use crate::live::{Found, Out, Running, Setup};
use crate::member::Node;
use crate::node_fault::MOST_NUMBER;
use crate::spelled::is_cert;
use crate::{NodeFault, OpenFault, Store};
use bft_wal::Durable;
use block_ledger::Ledger;
use gate_log::Disk;
use node_model::Event;
use ord_types::{Block, Cert, List, NoMemory, Place, Vote, genesis_block};
use signer_edge::{Signer, Verifier};
use std::alloc::Global;
use view_core::ViewState;

impl From<NoMemory> for OpenFault {
    ghost use Rattle.std.specs.Prelude.{◌≡◌};
    ghost use Rattle.bft_node.specs.declared.fault.OpenFault.TheVariants.{NoMemory};

    ghost from_gives = { λ _ fault. fault ≡ NoMemory };

    fn from(_error: NoMemory) -> OpenFault {
        OpenFault::NoMemory
    }
}

// The block that was accepted in the view, and whether it was prepared there.
fn found_in(place: &Place, durable: Durable) -> Option<Found>
    ensures { (me : ℕ) → as_found result ≡ found_in place.now (view_at me place.now durable) }
{
    let view = durable.view;
    let is_prepared = is_prepared_in(view, &durable.prepared);
    let is_accepted = is_accepted_in(view, &durable.accepted);
    let found = durable.block;
    match found {
        None => None,
        Some(block) => {
            if !is_accepted {
                return None;
            }
            Some(Found {
                config: place.config.number,
                view,
                height: place.height,
                block,
                is_prepared,
            })
        }
    }
}

// The newest acceptance is of this view.
fn is_accepted_in(view: u64, votes: &List<Vote>) -> bool
    ensures { (block : Option SomeBlock)
        → accepted_in view votes.now block ≡ (if result then block else None) }
{
    let votes = votes.as_slice();
    !votes.is_empty() && votes[0].view == view
}

// The newest preparation is of this view.
fn is_prepared_in(view: u64, prepared: &Option<(Vote, Block)>) -> bool
    ensures { result ≡ is_prepared_in view prepared.now }
{
    match prepared {
        None => false,
        Some((vote, _)) => vote.view == view,
    }
}

// The last certificate has a spelling, if there is one.
fn has_short_cert(cert: &Option<Cert>) -> bool
    ensures { IsTrue result → ForSome cert.now FitsCert }
{
    match cert {
        None => true,
        Some(cert) => is_cert(cert),
    }
}

// Whether a chain stands there, and the numbers and the certificate of a node there have a spelling.
fn is_place(place: &Place, view: u64) -> bool
    ensures place { IsTrue result → IsPlace place.now }
    ensures numbers { IsTrue result → IsNumber place.now.config.number × IsNumber view }
{
    let members = place.config.members.len();
    if members < 1 || members > 31 || place.height < 1 || place.height > MOST_NUMBER {
        return false;
    }
    if place.last_meta.decided > MOST_NUMBER {
        return false;
    }
    if place.config.number > MOST_NUMBER || view > MOST_NUMBER {
        return false;
    }
    has_short_cert(&place.last_cert)
}

impl Running {
    // What a node of this id finds in a store.
    fn of(alloc: Global, id: u32, store: Store) -> Result<Running, NoMemory>
        ensures id { IfOk result (λ r. r.id ≡ id) }
        ensures store { IfOk result (λ r. r.store ≡ store) }
        ensures sound { IfOk result IsSound }
        ensures state { IfOk result (λ r. state_of r ≡ opened (config_of store) id (held_of store)) }
    {
        let place = store.ledger.place();
        let durable = store.wal.durable(alloc, place.config.number, place.height)?;
        // no file has a chain or a view that is refused here
        if !is_place(place, durable.view) {
            return Err(NoMemory);
        }
        let found = found_in(place, durable);
        let view = store.resumed(alloc, id)?;
        Ok(Running {
            alloc,
            id,
            store,
            view,
            found,
        })
    }
}

impl Node {
    /// Opens a node on what its disk holds: the ledger first, then the log. Nothing is signed.
    pub fn open<D: Disk, K: Signer + Verifier>(
        alloc: Global,
        setup: &Setup,
        disk: &mut D,
        keys: &mut K,
    ) -> Result<Node, OpenFault>
        requires { IsGenesisConfig setup.now.genesis }

        ensures ready { IfOk result (λ node. IsReady (D.tells disk.new) (D.moments disk.new) node.running) }
        ensures open { IfOk result (λ node. node.closed ≡ false) }
        ensures config { IfOk result (λ node. config_of node.running.store ≡ setup.now.genesis) }
        ensures id { IfOk result (λ node. node.running.id ≡ setup.now.me) }
        ensures chain { IfOk result (λ node.
            IsChain (K.accepts keys.old) setup.now.genesis (chain_of node.running)) }

        // The node is what an opening makes of what the files stand for; or the first fault is told, of the
        // ledger's file before the log's.
        ensures state { IfOk result (λ node.
            state_of node.running ≡ opened setup.now.genesis setup.now.me (held_of node.running.store)) }
        ensures value { IsTrue (D.tells disk.old)
            → NodeOpens (K.accepts keys.old) setup.now.genesis (now (D.moments disk.old)) result }

        // What the files keep of a node is found again, and held.
        ensures finds { IsTrue (D.tells disk.old)
            → FindsAgain (K.accepts keys.old) setup.now.genesis setup.now.me (now (D.moments disk.old))
            (now (D.moments disk.new)) result }

        // A crash at any moment of the call opens to what a crash before it could open to.
        ensures any_moment { IsTrue (D.tells disk.old)
            → Throughout (StaysOpen (K.accepts keys.old) setup.now.genesis (now (D.moments disk.old)))
            (D.moments disk.old) (D.moments disk.new) }
        ensures keys { keys.new ≡ keys.old }
        ensures tells { D.tells disk.new ≡ D.tells disk.old }
        ensures later { D.faults disk.old ≤ D.faults disk.new }
        ensures cause { OpenAnswers (D.tells disk.old) (D.faults disk.old) (D.faults disk.new) result }
    {
        let genesis = genesis_block(alloc, &setup.genesis)?;
        let store = Store::open(alloc, disk, &genesis, keys)?;
        let running = Running::of(alloc, setup.me, store)?;
        Ok(Node {
            running,
            closed: false,
        })
    }

    /// Takes an event, and does all that is due. At `Ok` all that the step did is durable. A step that fails
    /// sends nothing, and closes the node.
    pub fn step<D: Disk, K: Signer + Verifier>(
        &mut self,
        event: Event,
        disk: &mut D,
        keys: &mut K,
    ) -> Result<Out, NodeFault>
        // the disk on which the node was opened, as its last call left it
        requires { IsTrue (D.tells disk.old) → self.old.closed ≡ false
            → IsKept self.old.running.store (now (D.moments disk.old)) }

        ensures kept { IsTrue (D.tells disk.new)
            → OnOk result (IsKept self.new.running.store (now (D.moments disk.new))) }

        // By keys of the definition that say what these did and answered. What the keys signed is a list of
        // signings.
        ensures step { self.old.closed ≡ false → Signs K.sign_gives result keys.old keys.new
            (TakesBy K.accepts keys.old self.old.running self.new.running event result (D.tells disk.old)
            (D.moments disk.old) (D.moments disk.new)) }

        // Closed is answered by a closed node, which does nothing; any failure closes it.
        ensures closed { (result ≡ Err NodeFault.Closed) ↔ (self.old.closed ≡ true) }
        ensures nothing { self.old.closed ≡ true → (disk.new ≡ disk.old) × (keys.new ≡ keys.old) }
        ensures closes { self.new.closed ≡ is_err result }
        ensures config { OnOk result (config_of self.new.running.store ≡ config_of self.old.running.store) }
        ensures id { OnOk result (self.new.running.id ≡ self.old.running.id) }
        ensures tells { D.tells disk.new ≡ D.tells disk.old }
        ensures later { (D.faults disk.old ≤ D.faults disk.new) × (K.faults keys.old ≤ K.faults keys.new) }
        ensures cause { self.old.closed ≡ false
            → HasNodeCause (counts (D.faults disk.old) (K.faults keys.old))
            (counts (D.faults disk.new) (K.faults keys.new)) result }
    {
        if self.closed {
            return Err(NodeFault::Closed);
        }
        self.closed = true;
        let mut out = Out::new(self.running.alloc);
        self.running.step(event, disk, keys, &mut out)?;
        self.closed = false;
        Ok(out)
    }

    /// Whether it may propose now, whatever is offered.
    pub fn may_propose(&self) -> bool
        ensures { IsTrue result
            ↔ ((self.now.closed ≡ false)
            × IsTrue (may_propose (place_of self.now.running) self.now.running.view)) }
    {
        !self.closed
            && self
                .running
                .view
                .may_propose(self.running.store.ledger.place())
    }

    /// Its chain of blocks.
    pub fn ledger(&self) -> &Ledger
        ensures { result.now ≡ self.now.running.store.ledger }
    {
        &self.running.store.ledger
    }

    /// What its log leaves at the ledger's place.
    pub fn durable(&self) -> Result<Durable, NoMemory>
        ensures { let place = place_of self.now.running in
            IfOk result (λ durable.
            durable ≡ durable_of place.config.number place.height (held_of self.now.running.store).records) }
    {
        let place = self.running.store.ledger.place();
        self.running
            .store
            .wal
            .durable(self.running.alloc, place.config.number, place.height)
    }

    /// What it holds of its view.
    pub fn view(&self) -> &ViewState
        ensures { result.now ≡ self.now.running.view }
    {
        &self.running.view
    }
}
