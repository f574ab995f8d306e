//! The calls on a view: what is due, and what a message or an offer brings.
ghost use Rattle.std.specs.Prelude.{◌≡◌, ◌++◌, IfOk, OnOk, OnErr, false, IsTrue};
ghost use Rattle.bft_wire.specs.declared.reason.Reason.TheVariants as reason;
ghost use Rattle.view_model.specs.declared.act.Act.TheVariants as act_of;
ghost use Rattle.view_model.specs.Acts.{due, preparation_due, prepare_act};
ghost use Rattle.view_model.specs.Answers.{
  accepts_nothing,
  act_or,
  after_act,
  after_due,
  after_prepare,
  after_propose,
  after_told,
  after_vote,
  at_place,
  due_answer,
  first_reason,
  is_new,
  is_repeat,
  keep,
  kept_after,
  kept_or,
  message_reasons,
  own_reasons,
  prepare_answer,
  propose_answer,
  proposal_reasons,
  reason_or,
  stands_outside,
  vote_answer,
};
ghost use Rattle.ord_types.specs.Lengths.{FitsSig};
ghost use Rattle.view_core.specs.Calls.{
  IsAnswered,
  IsTaken,
  IsVoteAnswered,
  commit_from,
  prepare_from,
  preprepare_from,
  vote_reasons,
};
ghost use Rattle.view_core.specs.Fits.{FitsAct};
ghost use Rattle.view_core.specs.Held.{is_short, may_hold};
ghost use Rattle.view_core.specs.Places.{IsPlace, StandsAt, turn_reasons};

use crate::blocks::{is_block_of_view, is_carried_good};
use crate::counts::is_among;
use crate::dues::leader;
use crate::held::{Accepted, ViewState};
use crate::keeping::{has_slot, is_raft, is_signed, outside};
use crate::proposals::proposed_block;
use bft_wire::{Commit, PrePrepare, Prepare, Reason};
use ord_types::{Block, Copied, List, NoMemory, Place, Request, block_hash};
use signer_edge::Verifier;
use view_model::{Act, Letter, VoteMessage};

impl ViewState {
    /// Takes the block as accepted.
    fn accept(&mut self, block: &Block) -> Result<(), NoMemory>
        ensures ok { OnOk result (self.new ≡ after_act (act_of.Accept block.now) self.old) }
        ensures err { OnErr result (self.new ≡ self.old) }
    {
        let block = block.copy()?;
        let digest = block_hash(&block.header);
        self.accepted = Some(Accepted { block, digest });
        Ok(())
    }

    /// The first of accept, prepare and deliver that is due. It stands as done from then on.
    fn take_due<V: Verifier>(
        &mut self,
        place: &Place,
        verifier: &V,
    ) -> Result<Option<Act>, NoMemory>
        requires { IsPlace place.now }
        ensures act { IfOk result (λ act. act ≡ due (V.accepts verifier.now) place.now self.old) }
        ensures after { IfOk result (λ act. self.new ≡ after_told act self.old) }
        ensures err { OnErr result (self.new ≡ self.old) }
    {
        if let Some(block) = self.acceptance_due(place, verifier)? {
            self.accept(&block)?;
            return Ok(Some(Act::Accept(block)));
        }
        if let Some(digest) = self.preparation_due(place) {
            self.is_prepared = true;
            return Ok(Some(Act::Prepare(digest)));
        }
        match self.delivery_due(place)? {
            Some((block, cert)) => Ok(Some(Act::Deliver(block, cert))),
            None => Ok(None),
        }
    }

    /// The act that is due, or else the reason for none.
    fn take_due_or<V: Verifier>(
        &mut self,
        place: &Place,
        verifier: &V,
        other: Reason,
    ) -> Result<Act, NoMemory>
        requires { IsPlace place.now }
        ensures { IsTaken result
            (act_or (due (V.accepts verifier.now) place.now self.old) (act_of.Nothing other))
            self.new self.old self.old }
    {
        match self.take_due(place, verifier)? {
            Some(act) => Ok(act),
            None => Ok(Act::Nothing(other)),
        }
    }

    /// Whether the message is newly kept.
    fn is_new<V: Verifier>(&self, place: &Place, letter: &Letter, verifier: &V) -> bool
        requires { IsPlace place.now }
        ensures { result ≡ is_new (V.accepts verifier.now) place.now self.now letter.now }
    {
        outside(place, self.view, self.left, letter).is_none()
            && is_signed(letter, verifier)
            && !has_slot(self.kept.as_slice(), letter)
    }

    /// Keeps a message, for which there is room.
    fn keep(&mut self, letter: Letter)
        requires held { IsTrue (may_hold self.old letter) }
        requires new { is_repeat self.old letter ≡ false }
        ensures { self.new ≡ keep letter self.old }
    {
        self.kept.push_reserved(letter);
    }

    /// Why a proposal at the height is no act, where its place is right.
    fn proposal_refusal<V: Verifier>(
        &self,
        place: &Place,
        from: u32,
        message: &PrePrepare,
        verifier: &V,
    ) -> Reason
        requires { IsPlace place.now }
        ensures { act_of.Nothing result
            ≡ reason_or (first_reason
            (proposal_reasons (V.accepts verifier.now) place.now self.now from message.now))
            reason.Repeat }
    {
        if from != leader(place, self.view) {
            Reason::NotLeader
        } else if self.accepted.is_some() {
            Reason::Accepted
        } else if !is_block_of_view(place, self.view, message) {
            Reason::BadBlock
        } else if !is_carried_good(place, &message.cert, verifier) {
            Reason::BadCert
        } else {
            Reason::Repeat
        }
    }

    /// Why a message that isn't newly kept brings nothing.
    fn refusal<V: Verifier>(&self, place: &Place, letter: &Letter, verifier: &V) -> Reason
        requires { IsPlace place.now }
        ensures { act_of.Nothing result
            ≡ reason_or (first_reason (vote_reasons (V.accepts verifier.now) place.now self.now letter.now))
            reason.Repeat }
    {
        if let Some(reason) = outside(place, self.view, self.left, letter) {
            return reason;
        }
        match &letter.message {
            VoteMessage::PrePrepare(message) => {
                if message.number == place.height {
                    self.proposal_refusal(place, letter.from, message, verifier)
                } else {
                    Reason::Repeat
                }
            }
            VoteMessage::Prepare(_) => Reason::Repeat,
            VoteMessage::Commit(_) => {
                if is_signed(letter, verifier) {
                    Reason::Repeat
                } else {
                    Reason::BadSignature
                }
            }
        }
    }

    /// What a message that is newly kept brings.
    fn new_vote<V: Verifier>(
        &mut self,
        place: &Place,
        letter: Letter,
        verifier: &V,
    ) -> Result<Act, NoMemory>
        requires place { IsPlace place.now }
        requires held { IsTrue (may_hold self.old letter) }
        requires new { is_repeat self.old letter ≡ false }
        ensures { IsTaken result
            (act_or (due (V.accepts verifier.now) place.now (keep letter self.old)) act_of.Kept)
            self.new (keep letter self.old) self.old }
    {
        self.keep(letter);
        match self.take_due(place, verifier) {
            Ok(Some(act)) => Ok(act),
            Ok(None) => Ok(Act::Kept),
            Err(fault) => {
                self.kept.pop();
                Err(fault)
            }
        }
    }

    /// What a vote message brings to a view that stands at the place.
    fn placed_vote<V: Verifier>(
        &mut self,
        place: &Place,
        letter: Letter,
        verifier: &V,
    ) -> Result<Act, NoMemory>
        requires place { IsPlace place.now }
        requires stands { StandsAt place.now self.old }
        requires short { IsTrue (is_short letter.message) }
        ensures { IsTaken result (vote_answer (V.accepts verifier.now) place.now self.old letter)
            self.new (kept_after (V.accepts verifier.now) place.now self.old letter) self.old }
    {
        if self.is_new(place, &letter, verifier) {
            return self.new_vote(place, letter, verifier);
        }
        let reason = self.refusal(place, &letter, verifier);
        self.take_due_or(place, verifier, reason)
    }

    /// What a vote message brings.
    fn vote<V: Verifier>(
        &mut self,
        place: &Place,
        letter: Letter,
        verifier: &V,
    ) -> Result<Act, NoMemory>
        requires place { IsPlace place.now }
        requires short { IsTrue (is_short letter.message) }
        ensures { IsVoteAnswered (V.accepts verifier.now) place.now self.old self.new letter result }
    {
        self.settle(place);
        self.placed_vote(place, letter, verifier)
    }

    /// A proposal has come. The answer is the act that is due then, `Kept`, or the first reason that
    /// holds. Without memory the view is at the place, and the message is not kept.
    pub fn on_preprepare<V: Verifier>(
        &mut self,
        place: &Place,
        from: u32,
        message: PrePrepare,
        verifier: &V,
    ) -> Result<Act, NoMemory>
        requires { IsPlace place.now }
        ensures { IsVoteAnswered (V.accepts verifier.now) place.now self.old self.new
            (preprepare_from from message) result }
    {
        let message = VoteMessage::PrePrepare(message);
        self.vote(place, Letter { from, message }, verifier)
    }

    /// A Commit has come; the node hands in its own with itself as the sender. The answers are those of
    /// `on_preprepare`.
    pub fn on_commit<V: Verifier>(
        &mut self,
        place: &Place,
        from: u32,
        message: Commit,
        verifier: &V,
    ) -> Result<Act, NoMemory>
        requires place { IsPlace place.now }
        requires sig { FitsSig message.sig }
        ensures { IsVoteAnswered (V.accepts verifier.now) place.now self.old self.new
            (commit_from from message) result }
    {
        let message = VoteMessage::Commit(message);
        self.vote(place, Letter { from, message }, verifier)
    }

    /// Keeps a Prepare, or answers why not, in a view that stands at the place.
    fn keep_prepare(&mut self, place: &Place, from: u32, message: &Prepare) -> Act
        requires place { IsPlace place.now }
        requires stands { StandsAt place.now self.old }
        ensures answer { result
            ≡ kept_or (is_new accepts_nothing place.now self.old (prepare_from from message.now))
            (first_reason (stands_outside place.now self.old (prepare_from from message.now)))
            reason.Repeat }
        ensures after { self.new
            ≡ kept_after accepts_nothing place.now self.old (prepare_from from message.now) }
    {
        let message = VoteMessage::Prepare(*message);
        let letter = Letter { from, message };
        if let Some(reason) = outside(place, self.view, self.left, &letter) {
            return Act::Nothing(reason);
        }
        if has_slot(self.kept.as_slice(), &letter) {
            return Act::Nothing(Reason::Repeat);
        }
        self.keep(letter);
        Act::Kept
    }

    /// The preparation that is due, which stands as done from then on, or else the other answer.
    fn prepared_or(&mut self, place: &Place, other: Act) -> Act
        requires { IsPlace place.now }
        ensures act { result ≡ act_or (prepare_act (preparation_due place.now self.old)) other }
        ensures after { self.new ≡ after_told (prepare_act (preparation_due place.now self.old)) self.old }
    {
        match self.preparation_due(place) {
            Some(digest) => {
                self.is_prepared = true;
                Act::Prepare(digest)
            }
            None => other,
        }
    }

    /// A Prepare has come. The answer is that the accepted block is prepared, `Kept`, or the first reason
    /// that holds. It takes no memory.
    pub fn on_prepare(&mut self, place: &Place, from: u32, message: &Prepare) -> Act
        requires { IsPlace place.now }
        ensures answer { result
            ≡ prepare_answer place.now (at_place place.now self.old) (prepare_from from message.now) }
        ensures fits { FitsAct result }
        ensures after { self.new ≡ after_prepare place.now self.old (prepare_from from message.now) }
    {
        self.settle(place);
        let other = self.keep_prepare(place, from, message);
        self.prepared_or(place, other)
    }

    /// Why the node itself may not act.
    fn own_refusal(&self, place: &Place) -> Option<Reason>
        ensures { result ≡ first_reason (own_reasons place.now self.now) }
    {
        if !is_among(place.config.members.as_slice(), self.me) {
            Some(Reason::NotMember)
        } else if is_raft(&place.config) {
            Some(Reason::OtherConfig)
        } else if self.view < self.left {
            Some(Reason::Leaving)
        } else {
            None
        }
    }

    /// Why the node may not propose, whatever is offered.
    fn turn_refusal(&self, place: &Place) -> Option<Reason>
        requires { IsPlace place.now }
        ensures { result ≡ first_reason (own_reasons place.now self.now ++ turn_reasons place.now self.now) }
    {
        if let Some(reason) = self.own_refusal(place) {
            return Some(reason);
        }
        if leader(place, self.view) != self.me {
            Some(Reason::NotLeader)
        } else if self.accepted.is_some() {
            Some(Reason::Accepted)
        } else {
            None
        }
    }

    /// Proposes in a view that stands at the place.
    fn placed_proposal(&mut self, place: &Place, offer: List<Request>) -> Result<Act, NoMemory>
        requires { IsPlace place.now }
        ensures { IsTaken result (propose_answer place.now self.old offer) self.new self.old self.old }
    {
        if let Some(reason) = self.turn_refusal(place) {
            return Ok(Act::Nothing(reason));
        }
        if offer.is_empty() {
            return Ok(Act::Nothing(Reason::NotYet));
        }
        match proposed_block(*self.kept.allocator(), place, self.view, offer)? {
            Some(block) => {
                self.accept(&block)?;
                Ok(Act::Accept(block))
            }
            None => Ok(Act::Nothing(Reason::BadBlock)),
        }
    }

    /// Proposes a block of these requests. The answer is that it is accepted, or the first reason that
    /// holds. Without memory the view is at the place.
    pub fn propose<V: Verifier>(
        &mut self,
        place: &Place,
        offer: List<Request>,
        _verifier: &V,
    ) -> Result<Act, NoMemory>
        requires { IsPlace place.now }
        ensures { IsAnswered result (propose_answer place.now (at_place place.now self.old) offer)
            self.new (after_propose place.now self.old offer) (at_place place.now self.old) }
    {
        self.settle(place);
        self.placed_proposal(place, offer)
    }

    /// What is due now: the first of accept, prepare and deliver, or the first reason that holds. Without
    /// memory the view is at the place.
    pub fn due<V: Verifier>(&mut self, place: &Place, verifier: &V) -> Result<Act, NoMemory>
        requires { IsPlace place.now }
        ensures { IsAnswered result
            (due_answer (V.accepts verifier.now) place.now (at_place place.now self.old))
            self.new (after_due (V.accepts verifier.now) place.now self.old) (at_place place.now self.old) }
    {
        self.settle(place);
        let other = self.own_refusal(place).unwrap_or(Reason::NotYet);
        self.take_due_or(place, verifier, other)
    }
}
