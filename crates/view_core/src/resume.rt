//! What an opening found of a member's view.
ghost use Rattle.std.specs.Prelude.{◌≡◌};
ghost use Rattle.std.specs.Option.{option_map};
ghost use Rattle.view_core.specs.Places.{IsPlace};
ghost use Rattle.view_core.specs.Resuming.{block_of_view, is_of_view, resumed};

use crate::held::{Accepted, ViewState};
use ord_types::{Block, Place, Vote, block_hash};

/// What is durable of a member's view at its place.
#[derive(Drop)]
pub struct Held {
    /// The view that it entered, and the greatest that it left for, or 0.
    pub view: u64,
    pub left: u64,
    /// Its newest acceptance at the height, and the block.
    pub accepted: Option<(Vote, Block)>,
    /// Its newest preparation at the height.
    pub prepared: Option<Vote>,
}

// The block, where it was accepted in this view.
fn block_of_view(view: u64, accepted: Option<(Vote, Block)>) -> Option<Accepted>
    ensures { option_map (λ a. a.block) result ≡ block_of_view view accepted }
{
    match accepted {
        None => None,
        Some((vote, block)) => {
            if vote.view == view {
                let digest = block_hash(&block.header);
                Some(Accepted { block, digest })
            } else {
                None
            }
        }
    }
}

// Whether it is of this view.
fn is_of_view(view: u64, prepared: Option<Vote>) -> bool
    ensures { result ≡ is_of_view view prepared }
{
    match prepared {
        None => false,
        Some(vote) => vote.view == view,
    }
}

impl ViewState {
    /// Takes up what an opening found at the place. What was accepted or prepared in an earlier view is not
    /// of this one. No vote message is kept.
    pub fn resume(&mut self, place: &Place, held: Held)
        requires { IsPlace place.now }
        ensures { self.new ≡ resumed self.old.me place.now held }
    {
        self.begin(place);
        self.view = held.view;
        self.left = held.left;
        self.is_prepared = is_of_view(held.view, held.prepared);
        self.accepted = block_of_view(held.view, held.accepted);
    }
}
