//! Which vote messages are kept, and why others are not.
ghost use Rattle.std.specs.Prelude.{◌≡◌, ◌<◌, ◌^◌};
ghost use Rattle.std.specs.List.{list_any};
ghost use Rattle.ord_types.specs.Members.{is_raft};
ghost use Rattle.view_model.specs.declared.letter.VoteMessage.TheVariants as message_of;
ghost use Rattle.view_model.specs.Letters.{config_in, kind_of, number_in, same_slot, view_in};
ghost use Rattle.view_model.specs.Acts.{View};
ghost use Rattle.view_model.specs.Answers.{first_reason, is_near, is_signed, stands_outside};

use crate::counts::is_among;
use bft_wire::{Commit, Reason};
use ord_types::{Config, Kind, Place};
use signer_edge::{Verifier, commit_statement};
use view_model::{Letter, VoteMessage};

pub(crate) fn is_raft(config: &Config) -> bool
    ensures { result ≡ is_raft config.now }
{
    match config.kind {
        Kind::Raft => true,
        Kind::Bft => false,
    }
}

fn kind_of(message: &VoteMessage) -> u8
    ensures { result ≡ kind_of message.now }
{
    match message {
        VoteMessage::PrePrepare(_) => 1,
        VoteMessage::Prepare(_) => 2,
        VoteMessage::Commit(_) => 3,
    }
}

fn config_in(message: &VoteMessage) -> u64
    ensures { result ≡ config_in message.now }
{
    match message {
        VoteMessage::PrePrepare(m) => m.config,
        VoteMessage::Prepare(m) => m.config,
        VoteMessage::Commit(m) => m.config,
    }
}

fn view_in(message: &VoteMessage) -> u64
    ensures { result ≡ view_in message.now }
{
    match message {
        VoteMessage::PrePrepare(m) => m.view,
        VoteMessage::Prepare(m) => m.view,
        VoteMessage::Commit(m) => m.view,
    }
}

fn number_in(message: &VoteMessage) -> u64
    ensures { result ≡ number_in message.now }
{
    match message {
        VoteMessage::PrePrepare(m) => m.number,
        VoteMessage::Prepare(m) => m.number,
        VoteMessage::Commit(m) => m.number,
    }
}

/// Whether two are of one member and kind, for one configuration, view and number.
fn same_slot(a: &Letter, b: &Letter) -> bool
    ensures { result ≡ same_slot a.now b.now }
{
    a.from == b.from
        && kind_of(&a.message) == kind_of(&b.message)
        && config_in(&a.message) == config_in(&b.message)
        && view_in(&a.message) == view_in(&b.message)
        && number_in(&a.message) == number_in(&b.message)
}

/// Whether a message of this member and kind is among these, for its view and number.
pub(crate) fn has_slot(letters: &[Letter], letter: &Letter) -> bool
    ensures { result ≡ list_any (same_slot letter.now) letters.now }
{
    letters.iter().any(|other| same_slot(letter, other))
}

/// Whether a vote message names the height or the number above.
pub(crate) fn is_near(height: u64, letter: &Letter) -> bool
    requires { height < 2 ^ 62 }
    ensures { result ≡ is_near height letter.now }
{
    let number = number_in(&letter.message);
    number == height || number == height + 1
}

/// Whether a Commit is signed by its sender.
fn is_commit_signed<V: Verifier>(from: u32, commit: &Commit, verifier: &V) -> bool
    ensures { result ≡ is_signed (V.accepts verifier.now) from (message_of.Commit commit.now) }
{
    commit.sig.signer == from
        && verifier.verify(
            &commit_statement(commit.config, commit.view, commit.number, &commit.digest),
            &commit.sig,
        )
}

/// Whether a Commit is signed by its sender. Nothing is asked of other messages.
pub(crate) fn is_signed<V: Verifier>(letter: &Letter, verifier: &V) -> bool
    ensures { result ≡ is_signed (V.accepts verifier.now) letter.now.from letter.now.message }
{
    match &letter.message {
        VoteMessage::PrePrepare(_) => true,
        VoteMessage::Prepare(_) => true,
        VoteMessage::Commit(commit) => is_commit_signed(letter.from, commit, verifier),
    }
}

/// Why a vote message is not one of this view and these numbers.
pub(crate) fn outside(place: &Place, view: u64, left: u64, letter: &Letter) -> Option<Reason>
    requires { place.now.height < 2 ^ 62 }
    ensures { (w : View) → w.view ≡ view → w.left ≡ left
        → result ≡ first_reason (stands_outside place.now w letter.now) }
{
    let number = number_in(&letter.message);
    if !is_among(place.config.members.as_slice(), letter.from) {
        Some(Reason::NotMember)
    } else if is_raft(&place.config) || config_in(&letter.message) != place.config.number {
        Some(Reason::OtherConfig)
    } else if view_in(&letter.message) != view {
        Some(Reason::OtherView)
    } else if view < left {
        Some(Reason::Leaving)
    } else if number < place.height {
        Some(Reason::OldNumber)
    } else if place.height + 1 < number {
        Some(Reason::FarNumber)
    } else {
        None
    }
}
