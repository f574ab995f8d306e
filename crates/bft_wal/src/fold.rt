//! Which of what was counted stands.
ghost use Rattle.std.specs.Prelude.{◌≡◌, ◌≤◌, None, filter, option_copied, IfOk};
ghost use Rattle.std.specs.List.{last_or};
ghost use Rattle.bft_wal.specs.Fold.{
  block_of as block_in,
  folded,
  has_digest,
  is_accepted as is_accepted_among,
  is_below as is_below_limit,
  later_than,
  newest_below as newest_below_limit,
  newest_prepared as newest_prepared_of,
  newest_vote as newest_vote_below,
  newest_votes as newest_votes_below,
  view_accepted,
  view_voted,
  with_block as with_block_of,
};

use crate::durable::Durable;
use crate::tally::{Acceptance, Tally};
use ord_types::{Block, Copied, Digest, List, NoMemory, Vote};
use std::alloc::Global;

/// How many acceptances are told.
const MOST_ACCEPTED: usize = 32;

fn is_below(acceptance: &Acceptance, limit: Option<u64>) -> bool
    ensures { result ≡ is_below_limit limit acceptance.now }
{
    match limit {
        None => true,
        Some(limit) => acceptance.vote.view < limit,
    }
}

// Of the greater view, and of equal ones the next.
fn later<'a>(best: Option<&'a Acceptance>, next: &'a Acceptance) -> &'a Acceptance
    ensures { result.now ≡ later_than view_accepted (option_copied best.entry) next.now }
{
    match best {
        None => next,
        Some(best) => {
            if best.vote.view <= next.vote.view {
                next
            } else {
                best
            }
        }
    }
}

// The acceptance of the greatest view below the limit, the last of equal ones.
fn newest_below(accepted: &[Acceptance], limit: Option<u64>) -> Option<&Acceptance>
    ensures { option_copied result ≡ newest_below_limit limit accepted.now }
{
    let mut best = None;
    for acceptance in accepted {
        if is_below(acceptance, limit) {
            best = Some(later(best, acceptance));
        }
    }
    best
}

// The vote for it.
fn newest_vote(accepted: &[Acceptance], limit: Option<u64>) -> Option<Vote>
    ensures { result ≡ newest_vote_below limit accepted.now }
{
    match newest_below(accepted, limit) {
        None => None,
        Some(acceptance) => Some(acceptance.vote),
    }
}

// The votes of the greatest views, by falling views.
fn newest_votes(alloc: Global, accepted: &[Acceptance]) -> Result<List<Vote>, NoMemory>
    ensures { IfOk result (λ votes. votes ≡ newest_votes_below 32 None accepted.now) }
{
    let mut votes = List::new(alloc);
    let mut limit = None;
    for _ in 0..MOST_ACCEPTED {
        let Some(vote) = newest_vote(accepted, limit) else {
            return Ok(votes);
        };
        votes.push(vote)?;
        limit = Some(vote.view);
    }
    Ok(votes)
}

// The last acceptance of this hash.
fn last_with<'a>(accepted: &'a [Acceptance], digest: &Digest) -> Option<&'a Acceptance>
    ensures { option_copied result ≡ last_or None (filter (has_digest digest.now) accepted.now) }
{
    let mut found = None;
    for acceptance in accepted {
        if acceptance.vote.digest == *digest {
            found = Some(acceptance);
        }
    }
    found
}

fn is_accepted(accepted: &[Acceptance], vote: Vote) -> bool
    ensures { result ≡ is_accepted_among accepted.now vote }
{
    accepted
        .iter()
        .any(|acceptance| acceptance.vote.digest == vote.digest)
}

// The preparation of the greatest view whose block was accepted, the last of equal ones.
fn newest_prepared(accepted: &[Acceptance], prepared: &[Vote]) -> Option<Vote>
    ensures { result ≡ newest_prepared_of accepted.now prepared.now }
{
    let mut best = None;
    for vote in prepared {
        if is_accepted(accepted, *vote) {
            best = Some(later_vote(best, *vote));
        }
    }
    best
}

fn later_vote(best: Option<Vote>, next: Vote) -> Vote
    ensures { result ≡ later_than view_voted best next }
{
    match best {
        None => next,
        Some(best) => { if best.view <= next.view { next } else { best } }
    }
}

// A copy of the block.
fn block_of(found: Option<&Acceptance>) -> Result<Option<Block>, NoMemory>
    ensures { IfOk result (λ block. block ≡ block_in (option_copied found.entry)) }
{
    match found {
        None => Ok(None),
        Some(acceptance) => {
            let block = acceptance.block.copy()?;
            Ok(Some(block))
        }
    }
}

// A vote with the last accepted block of its hash.
fn with_block(
    accepted: &[Acceptance],
    vote: Option<Vote>,
) -> Result<Option<(Vote, Block)>, NoMemory>
    ensures { IfOk result (λ found. found ≡ with_block_of accepted.now vote) }
{
    let Some(vote) = vote else {
        return Ok(None);
    };
    match block_of(last_with(accepted, &vote.digest))? {
        None => Ok(None),
        Some(block) => Ok(Some((vote, block))),
    }
}

/// What is durable of what was counted.
pub(crate) fn fold(alloc: Global, tally: Tally) -> Result<Durable, NoMemory>
    ensures { IfOk result (λ durable. durable ≡ folded tally) }
{
    let accepted = newest_votes(alloc, tally.accepted.as_slice())?;
    let block = block_of(newest_below(tally.accepted.as_slice(), None))?;
    let vote = newest_prepared(tally.accepted.as_slice(), tally.prepared.as_slice());
    let prepared = with_block(tally.accepted.as_slice(), vote)?;
    let (term, voted) = tally.voted.unwrap_or((0, 0));
    Ok(Durable {
        config: tally.config,
        height: tally.height,
        view: tally.view,
        left: tally.left,
        bound: tally.bound,
        accepted,
        block,
        prepared,
        term,
        voted,
        tail: tally.tail,
    })
}
