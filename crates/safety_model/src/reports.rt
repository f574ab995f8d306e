//! What a report tells, and whether it is true of a list of facts, the oldest first.
ghost use Rattle.std.specs.Prelude.{◌≡◌, reverse, Option, Some, take, option_to_list};
ghost use Rattle.std.specs.Cmp.Lexicographic.{pointwise};
ghost use Rattle.safety_model.specs.Blocks.{Block};
ghost use Rattle.safety_model.specs.Facts.{Proof};
ghost use Rattle.safety_model.specs.State.{last_delivered, last_or};
ghost use Rattle.safety_model.specs.Reports.{vote_eq, prepared_votes, accepted_votes, greater_vote, prepared_at, accepted_at, sig_eq, is_cert, is_last, is_told, is_vote_at, last_under, is_true_report, tells_none, tells_at_most, tells_accepted};
ghost use Rattle.safety_model.specs.Queries.{tells};

use crate::fact::{Fact, Telling};
use crate::history::{height_of, same_digest};
use ord_types::{Block, Cert, Last, Proof, Report, Sig, Vote, block_hash};

/// How many acceptances a report tells at most.
const TOLD_LIMIT: usize = 32;

/// Whether the votes are equal.
pub fn same_vote(a: &Vote, b: &Vote) -> bool
    ensures { result ≡ vote_eq a.now b.now }
{
    a.view == b.view && same_digest(&a.digest, &b.digest)
}

/// Whether the report tells no preparation.
pub fn tells_none(report: &Report) -> bool
    ensures { result ≡ tells_none report.now }
{
    report.prepared.is_none()
}

/// Whether the report tells no preparation, one of a lower view than the vote's, or the vote.
pub fn tells_at_most(report: &Report, vote: &Vote) -> bool
    ensures { result ≡ tells_at_most vote.now report.now }
{
    match &report.prepared {
        None => true,
        Some(told) => told.view < vote.view || same_vote(told, vote),
    }
}

/// Whether the report tells an acceptance of the vote's digest in the vote's view or above.
pub fn tells_acceptance(report: &Report, vote: &Vote) -> bool
    ensures { result ≡ tells_accepted vote.now report.now }
{
    report.accepted.as_slice().iter().any(|told| vote.view <= told.view
        && same_digest(&told.digest, &vote.digest))
}

/// Whether the report tells what is asked.
pub fn tells(report: &Report, telling: &Telling) -> bool
    ensures { result ≡ tells telling.now report.now }
{
    match telling {
        Telling::None => tells_none(report),
        Telling::AtMost(vote) => tells_at_most(report, vote),
        Telling::Accepted(vote) => tells_acceptance(report, vote),
    }
}

/// Of the fact's preparation, where it is one of the member at the number, and an older one that of the
/// greater view.
fn greater_prepared(
    fact: &Fact,
    member: u32,
    config: u64,
    number: u64,
    older: Option<Vote>,
) -> Option<Vote>
    ensures { result ≡ greater_vote (prepared_votes member config number fact.now) older }
{
    match fact {
        Fact::Prepared {
            member: by,
            config: under,
            view,
            number: at,
            digest,
        } => {
            if *by == member && *under == config && *at == number {
                let vote = Vote {
                    view: *view,
                    digest: *digest,
                };
                match older {
                    None => Some(vote),
                    Some(old) => {
                        if old.view <= *view {
                            Some(vote)
                        } else {
                            Some(old)
                        }
                    }
                }
            } else {
                older
            }
        }
        _ => older,
    }
}

/// The member's preparation of the greatest view at the number.
#[tactic(auto, using(crate::proofs::Histories::history_more))]
fn prepared_of(facts: &[Fact], member: u32, config: u64, number: u64) -> Option<Vote>
    ensures { result ≡ prepared_at member config number (reverse facts.now) }
{
    let mut greatest = None;
    for fact in facts {
        greatest = greater_prepared(fact, member, config, number, greatest);
    }
    greatest
}

/// Whether both tell the same vote, or none.
pub fn same_told(a: &Option<Vote>, b: &Option<Vote>) -> bool
    ensures { result ≡ is_told a.now b.now }
{
    match a {
        None => b.is_none(),
        Some(x) => match b {
            None => false,
            Some(y) => same_vote(x, y),
        },
    }
}

/// The vote of an acceptance of the member at the number.
fn acceptance_of(fact: &Fact, member: u32, config: u64, number: u64) -> Option<Vote>
    ensures { accepted_votes member config number fact.now ≡ option_to_list result }
{
    match fact {
        Fact::Accepted {
            member: by,
            config: under,
            view,
            number: at,
            digest,
        } => {
            if *by == member && *under == config && *at == number {
                Some(Vote {
                    view: *view,
                    digest: *digest,
                })
            } else {
                None
            }
        }
        _ => None,
    }
}

/// Whether the vote stands at the place.
fn is_vote_at(votes: &[Vote], place: usize, vote: &Vote) -> bool
    ensures { result ≡ is_vote_at votes.now place vote.now }
{
    place < votes.len() && same_vote(&votes[place], vote)
}

/// Whether the votes are the member's newest acceptances at the number, at most `limit`.
fn are_acceptances(
    facts: &[Fact],
    member: u32,
    config: u64,
    number: u64,
    votes: &[Vote],
    limit: usize,
) -> bool
    ensures { result ≡ pointwise vote_eq votes.now (take limit (accepted_at member config number (reverse facts.now))) }
{
    let mut rest = facts.len();
    let mut place = 0;
    while rest > 0 && place < limit {
        rest -= 1;
        if let Some(vote) = acceptance_of(&facts[rest], member, config, number) {
            if !is_vote_at(votes, place, &vote) {
                return false;
            }
            place += 1;
        }
    }
    place == votes.len()
}

fn same_sig(a: &Sig, b: &Sig) -> bool
    ensures { result ≡ sig_eq a.now b.now }
{
    a.signer == b.signer && a.bytes.as_slice() == b.bytes.as_slice()
}

fn same_sigs(a: &[Sig], b: &[Sig]) -> bool
    ensures { result ≡ pointwise sig_eq a.now b.now }
{
    if a.len() != b.len() {
        return false;
    }
    for (place, sig) in a.iter().enumerate() {
        if !same_sig(sig, &b[place]) {
            return false;
        }
    }
    true
}

/// Whether the proof is the certificate.
fn is_cert(cert: &Cert, proof: &Proof) -> bool
    ensures { result ≡ is_cert cert.now proof.now }
{
    match proof {
        Proof::Raft => false,
        Proof::Bft(other) => {
            cert.view == other.view && same_sigs(cert.sigs.as_slice(), other.sigs.as_slice())
        }
    }
}

/// Whether this block and proof are the told ones.
fn is_last(told: &Option<Last>, block: &Block, proof: &Proof) -> bool
    ensures { result ≡ is_last told.now (Some (block.now, proof.now)) }
{
    match told {
        None => false,
        Some(last) => {
            let hash = block_hash(&block.header);
            same_digest(&last.hash, &hash) && is_cert(&last.cert, proof)
        }
    }
}

fn told_after(fact: &Fact, member: u32, config: u64, told: &Option<Last>, before: bool) -> bool
    ensures { (last : Option (Block × Proof)) → before ≡ is_last told.now (last_under config last) → result ≡ is_last told.now (last_under config (last_or member fact.now last)) }
{
    match fact {
        Fact::Delivered {
            member: by,
            block,
            proof,
        } => {
            if *by != member {
                before
            } else if block.meta.config == config {
                is_last(told, block, proof)
            } else {
                told.is_none()
            }
        }
        _ => before,
    }
}

/// Whether what is told of the last block under the configuration is the member's.
#[tactic(auto, using(crate::proofs::Histories::history_more))]
fn is_last_told(facts: &[Fact], member: u32, config: u64, told: &Option<Last>) -> bool
    ensures { result ≡ is_last told.now (last_under config (last_delivered member (reverse facts.now))) }
{
    let mut answer = told.is_none();
    for fact in facts {
        answer = told_after(fact, member, config, told, answer);
    }
    answer
}

/// Whether the report is true of the member under the configuration.
pub fn is_true(facts: &[Fact], member: u32, config: u64, report: &Report) -> bool
    ensures { result ≡ is_true_report member config (reverse facts.now) report.now }
{
    let height = height_of(facts, member);
    let prepared = prepared_of(facts, member, config, height);
    report.height == height
        && is_last_told(facts, member, config, &report.last)
        && same_told(&report.prepared, &prepared)
        && are_acceptances(
            facts,
            member,
            config,
            height,
            report.accepted.as_slice(),
            TOLD_LIMIT,
        )
}
