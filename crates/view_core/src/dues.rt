//! What is due in a view, and where the view stands.
ghost use Rattle.std.specs.Prelude.{◌≡◌, ◌≤◌, ◌&&◌, IfOk, length, nat_le, vec_capacity, IsTrue};
ghost use Rattle.view_model.specs.Leading.{leader};
ghost use Rattle.view_model.specs.Acts.{
  acceptance_due,
  commits,
  delivery_due,
  is_inside_view,
  is_voting,
  preparation_due,
  quorum_of,
};
ghost use Rattle.view_model.specs.Checks.{is_next_block};
ghost use Rattle.view_model.specs.Answers.{at_place, fresh, raised};
ghost use Rattle.view_core.specs.Held.{are_short};
ghost use Rattle.view_core.specs.Places.{IsPlace, StandsAt};

use crate::blocks::{is_acceptable, is_next_block};
use crate::counts::{commit_count, commits, is_among, kept_proposal, prepares};
use crate::held::{Accepted, ViewState};
use crate::keeping::{is_near, is_raft};
use ord_types::{Block, Cert, Copied, Digest, NoMemory, Place, quorum};
use signer_edge::Verifier;

/// The leader of the view, without rotation.
pub(crate) fn leader(place: &Place, view: u64) -> u32
    requires { IsPlace place.now }
    ensures { result ≡ leader place.now view }
{
    let members = place.config.members.as_slice();
    members[(view % members.len() as u64) as usize]
}

/// Holds these ids in place of what it held, for which there is room.
fn refill(held: &mut Vec<u32>, ids: &[u32])
    requires { length ids.now ≤ vec_capacity held.old }
    ensures items { held.new.items ≡ ids.now }
    ensures capacity { vec_capacity held.new ≡ vec_capacity held.old }
{
    held.clear();
    for id in ids {
        held.push_reserved(*id);
    }
}

impl ViewState {
    /// Drops what belongs to another configuration, or to other numbers.
    pub(crate) fn settle(&mut self, place: &Place)
        requires { IsPlace place.now }
        ensures at { self.new ≡ at_place place.now self.old }
        ensures short { IsTrue (are_short self.old.kept) }
        ensures stands { StandsAt place.now self.new }
    {
        if self.config == place.config.number
            && self.members.as_slice() == place.config.members.as_slice()
        {
            if self.height != place.height {
                self.raise(place);
            }
        } else {
            self.begin(place);
        }
    }

    /// Moves to another height, and drops what belongs to other numbers.
    fn raise(&mut self, place: &Place)
        requires { IsPlace place.now }
        ensures { self.new ≡ raised place.now self.old }
    {
        let height = place.height;
        self.height = height;
        self.accepted = None;
        self.is_prepared = false;
        self.kept.retain(|letter| is_near(height, letter));
    }

    /// Begins under another configuration, with nothing held.
    pub(crate) fn begin(&mut self, place: &Place)
        requires { IsPlace place.now }
        ensures { self.new ≡ fresh self.old.me place.now }
    {
        self.kept.clear();
        refill(&mut self.members, place.config.members.as_slice());
        self.config = place.config.number;
        self.height = place.height;
        self.view = 0;
        self.left = 0;
        self.accepted = None;
        self.is_prepared = false;
    }

    /// Whether the node is a member of a BFT configuration, inside its view.
    pub(crate) fn may_vote(&self, place: &Place) -> bool
        ensures { result ≡ is_voting place.now self.now && is_inside_view self.now }
    {
        !is_raft(&place.config)
            && is_among(place.config.members.as_slice(), self.me)
            && self.left <= self.view
    }

    /// The block that is to be accepted.
    pub(crate) fn acceptance_due<V: Verifier>(
        &self,
        place: &Place,
        verifier: &V,
    ) -> Result<Option<Block>, NoMemory>
        requires { IsPlace place.now }
        ensures { IfOk result (λ block. block ≡ acceptance_due (V.accepts verifier.now) place.now self.now) }
    {
        if !self.may_vote(place) || self.accepted.is_some() {
            return Ok(None);
        }
        let from = leader(place, self.view);
        match kept_proposal(self.kept.as_slice(), from, place.height) {
            None => Ok(None),
            Some(message) => {
                if is_acceptable(place, self.view, message, verifier) {
                    Ok(Some(message.block.copy()?))
                } else {
                    Ok(None)
                }
            }
        }
    }

    /// The digest that is to be prepared.
    pub(crate) fn preparation_due(&self, place: &Place) -> Option<Digest>
        requires { IsPlace place.now }
        ensures { result ≡ preparation_due place.now self.now }
    {
        if !self.may_vote(place) || self.is_prepared {
            return None;
        }
        let members = place.config.members.as_slice();
        match &self.accepted {
            None => None,
            Some(accepted) => {
                let votes = prepares(
                    members,
                    self.me,
                    place.height,
                    self.kept.as_slice(),
                    &accepted.digest,
                );
                if quorum(members.len() as u32) as usize <= votes {
                    Some(accepted.digest)
                } else {
                    None
                }
            }
        }
    }

    /// Whether the accepted block is to be delivered.
    fn is_delivery_due(&self, place: &Place, accepted: &Accepted) -> bool
        requires { IsPlace place.now }
        ensures { result
            ≡ (nat_le (quorum_of place.now.config) (length (commits place.now self.now accepted.now.digest))
            && is_next_block place.now accepted.now.block) }
    {
        let members = place.config.members.as_slice();
        let votes = commit_count(
            members,
            place.height,
            self.kept.as_slice(),
            &accepted.digest,
        );
        quorum(members.len() as u32) as usize <= votes && is_next_block(place, &accepted.block)
    }

    /// The block that is to be delivered, with the certificate of all kept Commits.
    pub(crate) fn delivery_due(&self, place: &Place) -> Result<Option<(Block, Cert)>, NoMemory>
        requires { IsPlace place.now }
        ensures { IfOk result (λ delivery. delivery ≡ delivery_due place.now self.now) }
    {
        if is_raft(&place.config) {
            return Ok(None);
        }
        match &self.accepted {
            None => Ok(None),
            Some(accepted) => {
                if !self.is_delivery_due(place, accepted) {
                    return Ok(None);
                }
                let alloc = *self.kept.allocator();
                let members = place.config.members.as_slice();
                let sigs = commits(
                    alloc,
                    members,
                    place.height,
                    self.kept.as_slice(),
                    &accepted.digest,
                )?;
                Ok(Some((
                    accepted.block.copy()?,
                    Cert {
                        view: self.view,
                        sigs,
                    },
                )))
            }
        }
    }
}
