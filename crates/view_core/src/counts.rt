//! Votes for a digest, counted over the members.
ghost use Rattle.std.specs.Prelude.{◌≡◌, filter_map, length, option_copied, IfOk};
ghost use Rattle.std.specs.List.{list_any};
ghost use Rattle.ord_types.specs.Members.{how_many, is_in};
ghost use Rattle.view_model.specs.Letters.{is_prepare_for};
ghost use Rattle.view_model.specs.Acts.{
  has_prepare,
  is_members_prepare,
  kept_proposal,
  kept_sig,
  proposal_of,
  sig_of,
};

use bft_wire::PrePrepare;
use ord_types::{Copied, Digest, List, NoMemory, Sig};
use std::alloc::Global;
use view_model::{Letter, VoteMessage};

pub(crate) fn is_among(ids: &[u32], id: u32) -> bool
    ensures { result ≡ is_in id ids.now }
{
    ids.contains(&id)
}

fn is_prepare(message: &VoteMessage, number: u64, digest: &Digest) -> bool
    ensures { result ≡ is_prepare_for number digest.now message.now }
{
    match message {
        VoteMessage::PrePrepare(_) => false,
        VoteMessage::Prepare(prepare) => prepare.number == number && prepare.digest == *digest,
        VoteMessage::Commit(_) => false,
    }
}

fn is_members_prepare(letter: &Letter, member: u32, number: u64, digest: &Digest) -> bool
    ensures { result ≡ is_members_prepare member number digest.now letter.now }
{
    letter.from == member && is_prepare(&letter.message, number, digest)
}

fn keeps_prepare(letters: &[Letter], member: u32, number: u64, digest: &Digest) -> bool
    ensures { result ≡ list_any (is_members_prepare member number digest.now) letters.now }
{
    letters.iter().any(|letter| is_members_prepare(letter, member, number, digest))
}

/// Whether a member's Prepare for the digest is kept. The node's own is its acceptance.
fn has_prepare(me: u32, number: u64, letters: &[Letter], digest: &Digest, member: u32) -> bool
    ensures { result ≡ has_prepare me number letters.now digest.now member }
{
    member == me || keeps_prepare(letters, member, number, digest)
}

/// How many members prepare the digest.
pub(crate) fn prepares(
    members: &[u32],
    me: u32,
    number: u64,
    letters: &[Letter],
    digest: &Digest,
) -> usize
    ensures { result ≡ how_many (has_prepare me number letters.now digest.now) members.now }
{
    let mut count = 0;
    for member in members {
        if has_prepare(me, number, letters, digest, *member) {
            count += 1;
        }
    }
    count
}

/// The signature of the member's Commit of the digest.
fn sig_of<'a>(letter: &'a Letter, member: u32, number: u64, digest: &Digest) -> Option<&'a Sig>
    ensures { option_copied result ≡ sig_of number digest.now member letter.now }
{
    if letter.from != member {
        return None;
    }
    match &letter.message {
        VoteMessage::PrePrepare(_) => None,
        VoteMessage::Prepare(_) => None,
        VoteMessage::Commit(commit) => {
            if commit.number == number && commit.digest == *digest {
                Some(&commit.sig)
            } else {
                None
            }
        }
    }
}

/// The signature of the kept one.
fn kept_sig<'a>(letters: &'a [Letter], member: u32, number: u64, digest: &Digest) -> Option<&'a Sig>
    ensures { option_copied result ≡ kept_sig number digest.now letters.now member }
{
    for letter in letters {
        if let Some(sig) = sig_of(letter, member, number, digest) {
            return Some(sig);
        }
    }
    None
}

/// How many members' Commits for the digest are kept.
pub(crate) fn commit_count(
    members: &[u32],
    number: u64,
    letters: &[Letter],
    digest: &Digest,
) -> usize
    ensures { result ≡ length (filter_map (kept_sig number digest.now letters.now) members.now) }
{
    let mut count = 0;
    for member in members {
        if kept_sig(letters, *member, number, digest).is_some() {
            count += 1;
        }
    }
    count
}

/// The signatures of all members whose Commit for the digest is kept, in the members' order.
pub(crate) fn commits(
    alloc: Global,
    members: &[u32],
    number: u64,
    letters: &[Letter],
    digest: &Digest,
) -> Result<List<Sig>, NoMemory>
    ensures { IfOk result (λ sigs. sigs ≡ filter_map (kept_sig number digest.now letters.now) members.now) }
{
    let mut sigs = List::new(alloc);
    for member in members {
        if let Some(sig) = kept_sig(letters, *member, number, digest) {
            sigs.push(sig.copy()?)?;
        }
    }
    Ok(sigs)
}

/// The member's PrePrepare for the number.
fn proposal_of(letter: &Letter, from: u32, number: u64) -> Option<&PrePrepare>
    ensures { option_copied result ≡ proposal_of from number letter.now }
{
    if letter.from != from {
        return None;
    }
    match &letter.message {
        VoteMessage::PrePrepare(message) => {
            if message.number == number {
                Some(message)
            } else {
                None
            }
        }
        VoteMessage::Prepare(_) => None,
        VoteMessage::Commit(_) => None,
    }
}

/// The kept one, if there is one.
pub(crate) fn kept_proposal(letters: &[Letter], from: u32, number: u64) -> Option<&PrePrepare>
    ensures { option_copied result ≡ kept_proposal from number letters.now }
{
    for letter in letters {
        if let Some(message) = proposal_of(letter, from, number) {
            return Some(message);
        }
    }
    None
}
