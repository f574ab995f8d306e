//! What an opening makes of what is held.
ghost use Rattle.std.specs.Prelude.{◌≡◌, IfOk};
ghost use Rattle.view_core.specs.Places.{IsPlace};
ghost use Rattle.view_core.specs.Resuming.{block_of_view, is_of_view, resumed};
ghost use Rattle.block_ledger.specs.Places.{place_after};
ghost use Rattle.bft_node.specs.Returning.{accepted_in, is_prepared_in, opened};
ghost use Rattle.bft_node.specs.Stores.{config_of, held_of};
ghost use Rattle.std.specs.Prelude.{ℕ};

use crate::Store;
use bft_wal::Durable;
use ord_types::{Block, List, NoMemory, Vote};
use std::alloc::Global;
use view_core::{Held, ViewState};

// The newest acceptance, and the block.
fn newest_accepted(votes: &List<Vote>, block: Option<Block>) -> Option<(Vote, Block)>
    ensures { (view : ℕ) → block_of_view view result ≡ accepted_in view votes.now block }
{
    let votes = votes.as_slice();
    if votes.is_empty() {
        return None;
    }
    match block {
        None => None,
        Some(block) => Some((votes[0], block)),
    }
}

// The newest preparation.
fn newest_prepared(prepared: Option<(Vote, Block)>) -> Option<Vote>
    ensures { (view : ℕ) → is_of_view view result ≡ is_prepared_in view prepared }
{
    match prepared {
        None => None,
        Some((vote, _)) => Some(vote),
    }
}

// What is durable of a view, of what the records leave.
fn held_in(durable: Durable) -> Held
    ensures view { result.view ≡ durable.view }
    ensures left { result.left ≡ durable.left }
    ensures accepted { (view : ℕ) → block_of_view view result.accepted
        ≡ accepted_in view durable.accepted durable.block }
    ensures prepared { (view : ℕ) → is_of_view view result.prepared ≡ is_prepared_in view durable.prepared }
{
    let block = durable.block;
    let prepared = newest_prepared(durable.prepared);
    let accepted = newest_accepted(&durable.accepted, block);
    Held {
        view: durable.view,
        left: durable.left,
        accepted,
        prepared,
    }
}

impl Store {
    // What is durable of a view at the ledger's place.
    fn found(&self, alloc: Global) -> Result<Held, NoMemory>
        ensures { IfOk result (λ held. (me : ℕ)
            → resumed me (place_after (config_of self.now) (held_of self.now).blocks) held
            ≡ (opened (config_of self.now) me (held_of self.now)).view) }
    {
        let place = self.ledger.place();
        let durable = self.wal.durable(alloc, place.config.number, place.height)?;
        Ok(held_in(durable))
    }

    /// The view of a member of this id that is opened on what the store holds.
    pub fn resumed(&self, alloc: Global, me: u32) -> Result<ViewState, NoMemory>
        requires { IsPlace (place_after (config_of self.now) (held_of self.now).blocks) }
        ensures { IfOk result (λ view. view ≡ (opened (config_of self.now) me (held_of self.now)).view) }
    {
        let place = self.ledger.place();
        let held = self.found(alloc)?;
        let mut view = ViewState::new(alloc, me)?;
        view.resume(place, held);
        Ok(view)
    }
}
