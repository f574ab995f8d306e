//! What a member holds of one configuration, view and height.
ghost use Rattle.std.specs.Prelude.{◌≡◌, ◌≤◌, IfOk, vec_capacity};
ghost use Rattle.std.specs.Option.{option_map};
ghost use Rattle.ord_types.specs.Hashes.{block_hash};
ghost use Rattle.view_model.specs.Acts.{View};
ghost use Rattle.view_model.specs.Answers.{unplaced};
ghost use Rattle.view_core.specs.Held.{IsHeld, most_kept};

use ord_types::{Block, Digest, NoMemory};
use std::alloc::Global;
use std::marker::Model;
use view_model::Letter;

/// The most members of a configuration.
const MOST_MEMBERS: usize = 31;

/// Room for a message of each of 31 members, of three kinds, for two numbers.
const MOST_KEPT: usize = 186;

/// A block that was accepted, and its hash.
#[derive(Drop)]
pub(crate) struct Accepted {
    pub(crate) block: Block,
    pub(crate) digest: Digest,
    ghost is_hash: { digest ≡ block_hash block },
}

/// What a member holds of its view: which view it entered, what it accepted at this height, and the vote
/// messages that it keeps. Contracts see it as the definitions' `View`.
#[derive(Drop)]
pub struct ViewState {
    pub(crate) me: u32,
    pub(crate) config: u64,
    pub(crate) members: Vec<u32>,
    pub(crate) height: u64,
    pub(crate) view: u64,
    pub(crate) left: u64,
    pub(crate) accepted: Option<Accepted>,
    pub(crate) is_prepared: bool,
    pub(crate) kept: Vec<Letter>,
}

impl Model for ViewState {
    ghost Value = { View };

    ghost view = { λ s. record {
      me = s.me;
      config = s.config;
      members = s.members.items;
      height = s.height;
      view = s.view;
      left = s.left;
      accepted = option_map (λ a. a.block) s.accepted;
      is_prepared = s.is_prepared;
      kept = s.kept.items;
    } };

    ghost invariant = { λ s.
        IsHeld s.config s.members.items s.view s.height s.kept.items
        × (31 ≤ vec_capacity s.members) × (most_kept ≤ vec_capacity s.kept) };
}

impl ViewState {
    /// The state of a node that stands nowhere yet, with room for the votes of 31 members.
    pub fn new(alloc: Global, me: u32) -> Result<ViewState, NoMemory>
        ensures { IfOk result (λ state. state ≡ unplaced me) }
    {
        Ok(ViewState {
            me,
            config: 0,
            members: Vec::with_capacity(alloc, MOST_MEMBERS)?,
            height: 0,
            view: 0,
            left: 0,
            accepted: None,
            is_prepared: false,
            kept: Vec::with_capacity(alloc, MOST_KEPT)?,
        })
    }
}
