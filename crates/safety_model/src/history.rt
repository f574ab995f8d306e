//! Questions about a list of facts, the oldest first. The definitions see it the newest first.
ghost use Rattle.std.specs.Prelude.{◌≡◌, ◌==◌, length, reverse, map, ◌&&◌, ◌||◌, Option, Some, if◌then◌else◌};
ghost use Rattle.std.specs.Str.{bytes_eq};
ghost use Rattle.std.specs.List.{list_all, list_any};
ghost use Rattle.ord_types.specs.Members.{is_in, how_many};
ghost use Rattle.safety_model.specs.Blocks.{Block};
ghost use Rattle.safety_model.specs.Facts.{Proof, Sig, has, is_accepted, is_accepted_at, is_prepared, is_reported, is_entered_against, carries_other};
ghost use Rattle.safety_model.specs.State.{delivered_by, height, last_delivered, last_or, block_or, entered_view, view, left_view, left, is_inside};
ghost use Rattle.safety_model.specs.Rules.{is_cert_of, is_last_certified_in};
ghost use Rattle.safety_model.specs.Queries.{is_asked, tells};

use crate::fact::{Fact, Query, Telling};
use crate::reports::tells;
use ord_types::{Block, Choice, Digest, Header, Proof, Sig};

pub fn is_among(ids: &[u32], id: u32) -> bool
    ensures { result ≡ is_in id ids.now }
{
    ids.iter().any(|other| *other == id)
}

fn is_by(sig: &Sig, id: u32) -> bool
    ensures { result ≡ (sig.now.signer == id) }
{
    sig.signer == id
}

/// Whether one of the signatures is the id's.
fn has_signed(sigs: &[Sig], id: u32) -> bool
    ensures { result ≡ list_any (λ (s : Sig). s.signer == id) sigs.now }
{
    sigs.iter().any(|sig| is_by(sig, id))
}

pub fn same_digest(a: &Digest, b: &Digest) -> bool
    ensures { result ≡ bytes_eq a.now b.now }
{
    a == b
}

fn is_accepted_as(
    fact: &Fact,
    member: u32,
    config: u64,
    view: u64,
    number: u64,
    digest: &Digest,
) -> bool
    ensures { result ≡ is_accepted member config view number digest.now fact.now }
{
    match fact {
        Fact::Accepted {
            member: by,
            config: under,
            view: in_view,
            number: at,
            digest: what,
        } => {
            *by == member
                && *under == config
                && *in_view == view
                && *at == number
                && same_digest(what, digest)
        }
        _ => false,
    }
}

fn is_accepted_there(fact: &Fact, member: u32, config: u64, view: u64, number: u64) -> bool
    ensures { result ≡ is_accepted_at member config view number fact.now }
{
    match fact {
        Fact::Accepted {
            member: by,
            config: under,
            view: in_view,
            number: at,
            ..
        } => *by == member && *under == config && *in_view == view && *at == number,
        _ => false,
    }
}

fn is_prepared_as(
    fact: &Fact,
    member: u32,
    config: u64,
    view: u64,
    number: u64,
    digest: &Digest,
) -> bool
    ensures { result ≡ is_prepared member config view number digest.now fact.now }
{
    match fact {
        Fact::Prepared {
            member: by,
            config: under,
            view: in_view,
            number: at,
            digest: what,
        } => {
            *by == member
                && *under == config
                && *in_view == view
                && *at == number
                && same_digest(what, digest)
        }
        _ => false,
    }
}

fn carries_another(choice: &Choice, digest: &Digest) -> bool
    ensures { result ≡ carries_other digest.now choice.now }
{
    match choice {
        Choice::Carry(vote) => !same_digest(&vote.digest, digest),
        Choice::Free => false,
        Choice::Neither => false,
    }
}

fn is_entered_otherwise(
    fact: &Fact,
    member: u32,
    config: u64,
    view: u64,
    number: u64,
    digest: &Digest,
) -> bool
    ensures { result ≡ is_entered_against member config view number digest.now fact.now }
{
    match fact {
        Fact::Entered {
            member: by,
            config: under,
            view: in_view,
            number: at,
            choice,
        } => {
            *by == member
                && *under == config
                && *in_view == view
                && *at == number
                && carries_another(choice, digest)
        }
        _ => false,
    }
}

fn is_reported_as(
    fact: &Fact,
    member: u32,
    config: u64,
    view: u64,
    height: u64,
    telling: &Telling,
) -> bool
    ensures { result ≡ is_reported member config view height (tells telling.now) fact.now }
{
    match fact {
        Fact::Reported {
            member: by,
            config: under,
            view: for_view,
            report,
        } => {
            *by == member
                && *under == config
                && *for_view == view
                && report.height == height
                && tells(report, telling)
        }
        _ => false,
    }
}

/// Whether the fact is one of the member's for which the query asks.
fn is_answer(fact: &Fact, query: &Query, member: u32) -> bool
    ensures { result ≡ is_asked query.now member fact.now }
{
    match query {
        Query::Accepted {
            config,
            view,
            number,
            digest,
        } => is_accepted_as(fact, member, *config, *view, *number, digest),
        Query::AcceptedAt {
            config,
            view,
            number,
        } => is_accepted_there(fact, member, *config, *view, *number),
        Query::Prepared {
            config,
            view,
            number,
            digest,
        } => is_prepared_as(fact, member, *config, *view, *number, digest),
        Query::Against {
            config,
            view,
            number,
            digest,
        } => is_entered_otherwise(fact, member, *config, *view, *number, digest),
        Query::Told {
            config,
            view,
            height,
            telling,
        } => is_reported_as(fact, member, *config, *view, *height, telling),
    }
}

/// Whether the member has a fact for which the query asks.
#[tactic(auto, using(crate::proofs::Histories::history_more))]
pub fn has_fact(facts: &[Fact], query: &Query, member: u32) -> bool
    ensures { result ≡ has (is_asked query.now member) (reverse facts.now) }
{
    let mut found = false;
    for fact in facts {
        found = is_answer(fact, query, member) || found;
    }
    found
}

/// Whether the member is Byzantine or has a fact for which the query asks.
fn is_counted(facts: &[Fact], byzantine: &[u32], query: &Query, member: u32) -> bool
    ensures { result ≡ (is_in member byzantine.now || has (is_asked query.now member) (reverse facts.now)) }
{
    is_among(byzantine, member) || has_fact(facts, query, member)
}

/// How many members are Byzantine or have a fact for which the query asks.
pub fn count_of(facts: &[Fact], byzantine: &[u32], members: &[u32], query: &Query) -> usize
    ensures { result ≡ how_many (λ j. is_in j byzantine.now || has (is_asked query.now j) (reverse facts.now)) members.now }
{
    let mut count = 0;
    for member in members {
        if is_counted(facts, byzantine, query, *member) {
            count += 1;
        }
    }
    count
}

/// How many members are Byzantine.
pub fn faulty_of(byzantine: &[u32], members: &[u32]) -> usize
    ensures { result ≡ how_many (λ j. is_in j byzantine.now) members.now }
{
    let mut count = 0;
    for member in members {
        if is_among(byzantine, *member) {
            count += 1;
        }
    }
    count
}

/// How many members signed.
pub fn signed_of(sigs: &[Sig], members: &[u32]) -> usize
    ensures { result ≡ how_many (λ j. is_in j (map (λ (s : Sig). s.signer) sigs.now)) members.now }
{
    let mut count = 0;
    for member in members {
        if has_signed(sigs, *member) {
            count += 1;
        }
    }
    count
}

/// Whether the signer is a member, who is Byzantine or has a fact for which the query asks.
fn is_signer(facts: &[Fact], byzantine: &[u32], members: &[u32], query: &Query, sig: &Sig) -> bool
    ensures { result ≡ (is_in sig.now.signer members.now && (is_in sig.now.signer byzantine.now || has (is_asked query.now sig.now.signer) (reverse facts.now))) }
{
    is_among(members, sig.signer) && is_counted(facts, byzantine, query, sig.signer)
}

fn each_is_signer(
    facts: &[Fact],
    byzantine: &[u32],
    members: &[u32],
    query: &Query,
    sigs: &[Sig],
) -> bool
    ensures { result ≡ list_all (λ (s : Sig). is_in s.signer members.now && (is_in s.signer byzantine.now || has (is_asked query.now s.signer) (reverse facts.now))) sigs.now }
{
    sigs.iter()
        .all(|sig| is_signer(facts, byzantine, members, query, sig))
}

/// Whether the signers are all members, who are Byzantine or have a fact for which the query asks.
#[tactic(auto, using(crate::proofs::Histories::signers_all))]
pub fn are_signers(
    facts: &[Fact],
    byzantine: &[u32],
    members: &[u32],
    query: &Query,
    sigs: &[Sig],
) -> bool
    ensures { result ≡ list_all (λ j. is_in j members.now && (is_in j byzantine.now || has (is_asked query.now j) (reverse facts.now))) (map (λ (s : Sig). s.signer) sigs.now) }
{
    each_is_signer(facts, byzantine, members, query, sigs)
}

fn is_delivery(fact: &Fact, member: u32) -> bool
    ensures { length (delivered_by member fact.now) ≡ (if result then 1 else 0) }
{
    match fact {
        Fact::Delivered { member: by, .. } => *by == member,
        _ => false,
    }
}

/// The number of the member's next block.
#[tactic(auto, using(crate::proofs::Histories::history_more))]
pub fn height_of(facts: &[Fact], member: u32) -> u64
    ensures { result ≡ height member (reverse facts.now) }
{
    let mut count = 1;
    for fact in facts {
        if is_delivery(fact, member) {
            count += 1;
        }
    }
    count
}

fn tip_after(fact: &Fact, member: u32, tip: Header) -> Header
    ensures { (g : Block) (last : Option (Block × Proof)) → tip ≡ (block_or g last).header → result ≡ (block_or g (last_or member fact.now last)).header }
{
    match fact {
        Fact::Delivered {
            member: by,
            block,
            ..
        } => { if *by == member { block.header } else { tip } }
        _ => tip,
    }
}

/// The header of the member's last block.
#[tactic(auto, using(crate::proofs::Histories::history_more))]
pub fn tip_of(facts: &[Fact], genesis: &Block, member: u32) -> Header
    ensures { result ≡ (block_or genesis.now (last_delivered member (reverse facts.now))).header }
{
    let mut tip = genesis.header;
    for fact in facts {
        tip = tip_after(fact, member, tip);
    }
    tip
}

/// The view that the fact enters for the member under the configuration, or 0.
fn view_entered(fact: &Fact, member: u32, config: u64) -> u64
    ensures { result ≡ entered_view member config fact.now }
{
    match fact {
        Fact::Entered {
            member: by,
            config: under,
            view,
            ..
        } => {
            if *by == member && *under == config {
                *view
            } else {
                0
            }
        }
        _ => 0,
    }
}

/// The greatest view that the member entered under the configuration, or 0.
#[tactic(auto, using(crate::proofs::Histories::history_more))]
pub fn view_of(facts: &[Fact], member: u32, config: u64) -> u64
    ensures { result ≡ view member config (reverse facts.now) }
{
    let mut greatest = 0;
    for fact in facts {
        greatest = greatest.max(view_entered(fact, member, config));
    }
    greatest
}

/// The view that the fact leaves for, of the member under the configuration, or 0.
fn view_left(fact: &Fact, member: u32, config: u64) -> u64
    ensures { result ≡ left_view member config fact.now }
{
    match fact {
        Fact::Left {
            member: by,
            config: under,
            view,
        } => {
            if *by == member && *under == config {
                *view
            } else {
                0
            }
        }
        _ => 0,
    }
}

/// The greatest view that the member left for under the configuration, or 0.
#[tactic(auto, using(crate::proofs::Histories::history_more))]
pub fn left_of(facts: &[Fact], member: u32, config: u64) -> u64
    ensures { result ≡ left member config (reverse facts.now) }
{
    let mut greatest = 0;
    for fact in facts {
        greatest = greatest.max(view_left(fact, member, config));
    }
    greatest
}

/// Whether the member entered the view, and didn't leave it.
pub fn is_inside_view(facts: &[Fact], member: u32, config: u64, view: u64) -> bool
    ensures { result ≡ is_inside member config view (reverse facts.now) }
{
    view_of(facts, member, config) == view && left_of(facts, member, config) <= view
}

fn is_cert_of_view(proof: &Proof, view: u64) -> bool
    ensures { result ≡ is_cert_of view proof.now }
{
    match proof {
        Proof::Raft => false,
        Proof::Bft(cert) => cert.view == view,
    }
}

fn certified_after(fact: &Fact, member: u32, config: u64, view: u64, before: bool) -> bool
    ensures { (last : Option (Block × Proof)) → before ≡ is_last_certified_in config view last → result ≡ is_last_certified_in config view (last_or member fact.now last) }
{
    match fact {
        Fact::Delivered {
            member: by,
            block,
            proof,
        } => {
            if *by == member {
                block.meta.config == config && is_cert_of_view(proof, view)
            } else {
                before
            }
        }
        _ => before,
    }
}

/// Whether the member's last block was ordered under the configuration, with a certificate of the view.
#[tactic(auto, using(crate::proofs::Histories::history_more))]
pub fn is_certified_in(facts: &[Fact], member: u32, config: u64, view: u64) -> bool
    ensures { result ≡ is_last_certified_in config view (last_delivered member (reverse facts.now)) }
{
    let mut certified = false;
    for fact in facts {
        certified = certified_after(fact, member, config, view, certified);
    }
    certified
}
