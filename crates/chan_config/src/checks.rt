//! What is wrong with a block, if anything is.
ghost use Rattle.std.specs.Prelude.{◌≡◌, ◌+◌, is_ok};
ghost use Rattle.chan_config.specs.Blocks.{is_next_at};
ghost use Rattle.chan_config.specs.Refusals.{checked, refusal_at};

use crate::blocks::{content_fits, has_number, meta_fits};
use crate::requests::first_unlawful;
use ord_types::{Block, Config, Digest, MOST_NUMBER, Place};
use signer_edge::Verifier;
use std::alloc::Global;

/// Why a block may not come next.
#[derive(Clone, Copy, Debug, PartialEq, Eq)]
pub enum BlockRefusal {
    /// The block's number. It isn't the one that comes next, or no number reaches it.
    WrongNumber(u64),
    /// The hash of a block before that it names, and the real one.
    WrongPrevious(Digest, Digest),
    /// It names another hash than that of its requests, or the format has no room for them.
    WrongContent,
    /// It names another hash than that of its meta, or the format has no room for it.
    WrongMeta,
    /// The configuration's number that its meta names.
    WrongConfig(u64),
    /// The place, counted from 0, at which its requests are first unlawful: there is none, one is too large,
    /// is a change, or an ordinary one in maintenance, or those up to it are too large together.
    Unlawful(u32),
    NoMemory,
}

/// Why a block may not come next after a block of this hash, at this number, under the configuration: the
/// first cause that holds.
pub fn refusal(last: &Digest, number: u64, config: &Config, block: &Block) -> Option<BlockRefusal>
    ensures { result ≡ refusal_at last.now number config.now block.now }
{
    if !has_number(number, block) {
        return Some(BlockRefusal::WrongNumber(block.header.number));
    }
    if block.header.previous != *last {
        return Some(BlockRefusal::WrongPrevious(block.header.previous, *last));
    }
    if !content_fits(block) {
        return Some(BlockRefusal::WrongContent);
    }
    if !meta_fits(block) {
        return Some(BlockRefusal::WrongMeta);
    }
    if block.meta.config != config.number {
        return Some(BlockRefusal::WrongConfig(block.meta.config));
    }
    first_unlawful(config, block.requests.as_slice()).map(BlockRefusal::Unlawful)
}

/// Whether the block may come next after a block of this hash and number, under the configuration.
#[tactic(auto, using(crate::proofs::BlockLaws::none_refused, crate::proofs::BlockLaws::none_past))]
pub fn is_next(last: &Digest, before: u64, config: &Config, block: &Block) -> bool
    ensures { result ≡ is_next_at last.now (before + 1) config.now block.now }
{
    before <= MOST_NUMBER && refusal(last, before + 1, config, block).is_none()
}

/// Whether the block may come next at the place, and which configuration it brings: none, since no change
/// is ordered yet. Else the answer is the first cause that holds.
pub fn check_block<V: Verifier>(
    _alloc: Global,
    place: &Place,
    block: &Block,
    _verifier: &V,
) -> Result<Option<Config>, BlockRefusal>
    ensures exact { result ≡ checked (refusal_at place.now.last place.now.height place.now.config block.now) }
    ensures next { is_ok result ≡ is_next_at place.now.last place.now.height place.now.config block.now }
{
    match refusal(&place.last, place.height, &place.config, block) {
        Some(refusal) => Err(refusal),
        None => Ok(None),
    }
}
