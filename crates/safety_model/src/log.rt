//! A list of facts, each allowed by those before it.
ghost use Rattle.std.specs.Prelude.{◌≡◌, ◌<◌, ◌≤◌, ◌^◌, ◌+◌, ℕ, ◌&&◌, ◌||◌, false, nat_le, nat_lt, length, [], ◌∷◌, OnOk, OnErr, IfOk, ◌↔◌, Some, Err};
ghost use Rattle.std.specs.Prelude.{List as Items};
ghost use Rattle.std.specs.List.{list_all};
ghost use Rattle.ord_types.specs.Genesis.{genesis_block};
ghost use Rattle.ord_types.specs.Hashes.{block_hash};
ghost use Rattle.ord_types.specs.Members.{is_raft, is_in, how_many_in, quorum};
ghost use Rattle.safety_model.specs.Blocks.{is_next_at};
ghost use Rattle.safety_model.specs.Facts.{has, is_prepared, signers_of};
ghost use Rattle.safety_model.specs.Queries.{is_asked, tells};
ghost use Rattle.safety_model.specs.State.{height, left, tip, view};
ghost use Rattle.safety_model.specs.Rules.{Allowed, IsRun, bound_of, count, keeps_bound, is_bft_proof, is_proof, is_supported, member_tests, quorum_of, reporters, tests, tests_under, vote_tests, first_broken};
ghost use Rattle.safety_model.specs.declared.fact.Fact.TheVariants as kinds;
ghost use Rattle.safety_model.specs.Safety.{NoCollision, Agreement};

use crate::fact::{Fact, Query, Telling};
use crate::history::{
    are_signers, count_of, faulty_of, has_fact, height_of, is_among, is_certified_in,
    is_inside_view, left_of, signed_of, tip_of, view_of,
};
use crate::reports::is_true;
use crate::widths::fact_fits;
use chan_config::is_next;
use ord_types::{
    Block, Cert, Choice, Config, Digest, List, NoMemory, Proof, Report, Vote, block_hash,
    fault_bound, quorum,
};
use std::alloc::Global;
use std::marker::Model;

/// What was done under one BFT configuration, in order: a run.
#[derive(Drop)]
pub struct FactLog {
    genesis: Block,
    config: Config,
    byzantine: List<u32>,
    facts: Vec<Fact>,
}

impl Model for FactLog {
    ghost use Rattle.std.specs.Prelude.{reverse};
    ghost use Rattle.safety_model.specs.Log.{Log, IsLog};

    ghost Value = { Log };

    ghost view = { λ log. record {
      setup = record { genesis = log.genesis; config = log.config; byzantine = log.byzantine };
      history = reverse log.facts.items;
    } };

    ghost invariant = { λ log. IsLog (record { genesis = log.genesis; config = log.config; byzantine = log.byzantine }) (reverse log.facts.items) };
}

/// Why a fact was not added.
#[derive(Clone, Copy, Debug, PartialEq, Eq)]
pub enum FactRefusal {
    /// The first rule of the table in docs/MODEL.md that it breaks.
    Rule(u8),
    NoMemory,
}

impl FactLog {
    /// No facts yet. `genesis` is the genesis block of `config`, whose spelling its one request carries;
    /// `byzantine` are the ids of who may lie.
    pub fn new(
        alloc: Global,
        config: Config,
        genesis: Block,
        byzantine: List<u32>,
    ) -> Result<FactLog, NoMemory>
        requires block { genesis ≡ genesis_block config }
        requires bft { is_raft config ≡ false }
        requires some { 1 ≤ length config.members }
        requires few { length config.members ≤ 31 }
        ensures genesis { IfOk result (λ log. log.setup.genesis ≡ genesis) }
        ensures config { IfOk result (λ log. log.setup.config ≡ config) }
        ensures byzantine { IfOk result (λ log. log.setup.byzantine ≡ byzantine) }
        ensures history { IfOk result (λ log. log.history ≡ []) }
    {
        Ok(FactLog {
            genesis,
            config,
            byzantine,
            facts: Vec::new(alloc),
        })
    }

    /// Adds what the facts so far allow.
    pub fn push(&mut self, fact: Fact) -> Result<(), NoMemory>
        requires { Allowed self.old.setup self.old.history fact }
        ensures setup { self.new.setup ≡ self.old.setup }
        ensures ok { OnOk result (self.new.history ≡ fact ∷ self.old.history) }
        ensures err { OnErr result (self.new.history ≡ self.old.history) }
    {
        fact_fits(&fact);
        self.facts.push(fact)?;
        Ok(())
    }

    /// Whatever was pushed, it is a run, and the ledgers of all nodes are prefixes of one chain, whose blocks
    /// are lawful and proved. This is the theorem; the call does nothing.
    #[tactic(auto, using(crate::proofs::Agreeing::runs_agree))]
    pub fn agrees(&self)
        ensures run { IsRun self.now.setup self.now.history }
        ensures agreement { NoCollision self.now.setup self.now.history → Agreement self.now.setup self.now.history }
    {
        let _ = &self.genesis;
    }

    /// Adds the fact exactly where it is allowed. Else the answer is the first rule that it breaks.
    #[tactic(auto, using(crate::proofs::Agreeing::allowed_where_none_is_broken))]
    pub fn push_allowed(&mut self, fact: Fact) -> Result<(), FactRefusal>
        ensures setup { self.new.setup ≡ self.old.setup }
        ensures ok { OnOk result (self.new.history ≡ fact ∷ self.old.history) }
        ensures allowed { OnOk result (Allowed self.old.setup self.old.history fact) }
        ensures rule { (k : ℕ) → k < 2 ^ 8 → (result ≡ Err (FactRefusal.Rule k)) ↔ (first_broken (tests self.old.setup self.old.history fact) ≡ Some k) }
        ensures err { OnErr result (self.new.history ≡ self.old.history) }
    {
        if let Some(rule) = self.broken_rule(&fact) {
            return Err(FactRefusal::Rule(rule));
        }
        match self.push(fact) {
            Ok(()) => Ok(()),
            Err(NoMemory) => Err(FactRefusal::NoMemory),
        }
    }

    /// The first rule that a fact breaks.
    #[tactic(auto, using(crate::proofs::Chains::tests_are))]
    fn broken_rule(&self, fact: &Fact) -> Option<u8>
        ensures { result ≡ first_broken (tests self.now.setup self.now.history fact.now) }
    {
        match fact {
            Fact::Accepted {
                member,
                config,
                view,
                number,
                digest,
            } => self.broken_acceptance(*member, *config, *view, *number, digest),
            Fact::Prepared {
                member,
                config,
                view,
                number,
                digest,
            } => self.broken_preparation(*member, *config, *view, *number, digest),
            Fact::Left {
                member,
                config,
                view,
            } => self.broken_leaving(*member, *config, *view),
            Fact::Reported {
                member,
                config,
                view,
                report,
            } => self.broken_report(*member, *config, *view, report),
            Fact::Entered {
                member,
                config,
                view,
                number,
                choice,
            } => self.broken_entry(*member, *config, *view, *number, choice),
            Fact::Delivered {
                member,
                block,
                proof,
            } => self.broken_delivery(*member, block, proof),
        }
    }

    /// The first of rules 1 to 4 that a member's fact under a BFT configuration breaks.
    fn broken_membership(&self, member: u32, config: u64) -> Option<u8>
        ensures { result ≡ first_broken (member_tests self.now.setup self.now.setup.config member config) }
    {
        if is_among(self.byzantine.as_slice(), member) {
            return Some(1);
        }
        if !self.keeps_bound() {
            return Some(2);
        }
        if !is_among(self.config.members.as_slice(), member) {
            return Some(3);
        }
        if self.config.number != config {
            return Some(4);
        }
        None
    }

    /// The first of rules 1 to 6 that an acceptance or a preparation breaks: they are the same for both.
    fn broken_vote(&self, member: u32, config: u64, view: u64, number: u64) -> Option<u8>
        ensures { result ≡ first_broken (vote_tests self.now.setup self.now.history self.now.setup.config member config view number) }
    {
        if let Some(rule) = self.broken_membership(member, config) {
            return Some(rule);
        }
        if number != height_of(self.facts.as_slice(), member) {
            return Some(5);
        }
        if !is_inside_view(self.facts.as_slice(), member, config, view) {
            return Some(6);
        }
        None
    }

    /// The first rule that an acceptance breaks.
    fn broken_acceptance(
        &self,
        member: u32,
        config: u64,
        view: u64,
        number: u64,
        digest: &Digest,
    ) -> Option<u8>
        ensures { result ≡ first_broken (tests_under self.now.setup self.now.history self.now.setup.config (kinds.Accepted member config view number digest.now)) }
    {
        if let Some(rule) = self.broken_vote(member, config, view, number) {
            return Some(rule);
        }
        let there = Query::AcceptedAt {
            config,
            view,
            number,
        };
        if has_fact(self.facts.as_slice(), &there, member) {
            return Some(7);
        }
        let against = Query::Against {
            config,
            view,
            number,
            digest: *digest,
        };
        if has_fact(self.facts.as_slice(), &against, member) {
            return Some(8);
        }
        None
    }

    /// The first rule that a preparation breaks.
    fn broken_preparation(
        &self,
        member: u32,
        config: u64,
        view: u64,
        number: u64,
        digest: &Digest,
    ) -> Option<u8>
        ensures { result ≡ first_broken (tests_under self.now.setup self.now.history self.now.setup.config (kinds.Prepared member config view number digest.now)) }
    {
        if let Some(rule) = self.broken_vote(member, config, view, number) {
            return Some(rule);
        }
        let accepted = Query::Accepted {
            config,
            view,
            number,
            digest: *digest,
        };
        if !has_fact(self.facts.as_slice(), &accepted, member) {
            return Some(9);
        }
        if !self.is_backed(&accepted) {
            return Some(9);
        }
        None
    }

    /// The first rule that leaving for a view breaks.
    fn broken_leaving(&self, member: u32, config: u64, view: u64) -> Option<u8>
        ensures { result ≡ first_broken (tests_under self.now.setup self.now.history self.now.setup.config (kinds.Left member config view)) }
    {
        if let Some(rule) = self.broken_membership(member, config) {
            return Some(rule);
        }
        if view <= view_of(self.facts.as_slice(), member, config) {
            return Some(10);
        }
        if view <= left_of(self.facts.as_slice(), member, config) {
            return Some(10);
        }
        None
    }

    /// The first rule that a report breaks.
    fn broken_report(&self, member: u32, config: u64, view: u64, report: &Report) -> Option<u8>
        ensures { result ≡ first_broken (tests_under self.now.setup self.now.history self.now.setup.config (kinds.Reported member config view report.now)) }
    {
        if let Some(rule) = self.broken_membership(member, config) {
            return Some(rule);
        }
        if view != left_of(self.facts.as_slice(), member, config) {
            return Some(11);
        }
        if view <= view_of(self.facts.as_slice(), member, config) {
            return Some(11);
        }
        if !is_true(self.facts.as_slice(), member, config, report) {
            return Some(12);
        }
        None
    }

    /// The first rule that an entry breaks.
    fn broken_entry(
        &self,
        member: u32,
        config: u64,
        view: u64,
        number: u64,
        choice: &Choice,
    ) -> Option<u8>
        ensures { result ≡ first_broken (tests_under self.now.setup self.now.history self.now.setup.config (kinds.Entered member config view number choice.now)) }
    {
        if is_among(self.byzantine.as_slice(), member) {
            return Some(1);
        }
        if !self.keeps_bound() {
            return Some(2);
        }
        if self.config.number != config {
            return Some(4);
        }
        if !self.may_enter(member, config, view, number) {
            return Some(13);
        }
        if !self.supports(member, config, view, number, choice) {
            return Some(14);
        }
        None
    }

    /// Whether the target is above the node's view, not below the one that it left for, and the number not above
    /// its height.
    fn may_enter(&self, member: u32, config: u64, target: u64, number: u64) -> bool
        ensures { result ≡ (nat_lt (view member config self.now.history) target && nat_le (left member config self.now.history) target && nat_le number (height member self.now.history)) }
    {
        let facts = self.facts.as_slice();
        view_of(facts, member, config) < target
            && left_of(facts, member, config) <= target
            && number <= height_of(facts, member)
    }

    /// The first rule that a delivery breaks.
    fn broken_delivery(&self, member: u32, block: &Block, proof: &Proof) -> Option<u8>
        ensures { result ≡ first_broken (tests_under self.now.setup self.now.history self.now.setup.config (kinds.Delivered member block.now proof.now)) }
    {
        if is_among(self.byzantine.as_slice(), member) {
            return Some(1);
        }
        if !self.keeps_bound() {
            return Some(2);
        }
        if block.header.number != height_of(self.facts.as_slice(), member) {
            return Some(5);
        }
        if !self.comes_next(member, block) {
            return Some(15);
        }
        if !self.is_proved(block, proof) {
            return Some(16);
        }
        None
    }

    /// How many members make a quorum.
    fn quorum(&self) -> usize
        ensures { result ≡ quorum (length self.now.setup.config.members) }
    {
        quorum(self.config.members.len() as u32) as usize
    }

    /// How many members may lie.
    fn bound(&self) -> usize
        ensures { result ≡ bound_of self.now.setup.config }
    {
        fault_bound(self.config.members.len() as u32) as usize
    }

    /// Whether no more members lie than may.
    fn keeps_bound(&self) -> bool
        ensures { result ≡ keeps_bound self.now.setup self.now.setup.config }
    {
        faulty_of(self.byzantine.as_slice(), self.config.members.as_slice()) <= self.bound()
    }

    /// Whether a quorum is Byzantine or has a fact for which the query asks.
    fn is_backed(&self, query: &Query) -> bool
        ensures { result ≡ nat_le (quorum_of self.now.setup.config) (count self.now.setup.byzantine self.now.setup.config (λ j. has (is_asked query.now j) self.now.history)) }
    {
        self.quorum()
            <= count_of(
                self.facts.as_slice(),
                self.byzantine.as_slice(),
                self.config.members.as_slice(),
                query,
            )
    }

    /// How many members are Byzantine or reported for the view at the height what tells this.
    fn reporters(&self, config: u64, view: u64, height: u64, telling: Telling) -> usize
        ensures { result ≡ reporters self.now.setup self.now.history self.now.setup.config config view height (tells telling) }
    {
        let query = Query::Told {
            config,
            view,
            height,
            telling,
        };
        count_of(
            self.facts.as_slice(),
            self.byzantine.as_slice(),
            self.config.members.as_slice(),
            &query,
        )
    }

    /// Whether what was reported supports an entry with this choice.
    fn supports(&self, member: u32, config: u64, view: u64, number: u64, choice: &Choice) -> bool
        ensures { result ≡ is_supported self.now.setup self.now.history member self.now.setup.config config view number choice.now }
    {
        match choice {
            Choice::Carry(vote) => {
                vote.view < view
                    && self.quorum() <= self.reporters(config, view, number, Telling::AtMost(*vote))
                    && self.bound() < self.reporters(config, view, number, Telling::Accepted(*vote))
            }
            Choice::Free => {
                let facts = self.facts.as_slice();
                self.quorum() <= self.reporters(config, view, number, Telling::None)
                    || (number == height_of(facts, member)
                        && is_certified_in(facts, member, config, view))
            }
            Choice::Neither => false,
        }
    }

    /// Whether the block comes next in the node's ledger, and is lawful there.
    fn comes_next(&self, member: u32, block: &Block) -> bool
        ensures { result ≡ is_next_at (block_hash (tip self.now.setup member self.now.history)) ((tip self.now.setup member self.now.history).header.number + 1) self.now.setup.config block.now }
    {
        let tip = tip_of(self.facts.as_slice(), &self.genesis, member);
        is_next(&block_hash(&tip), tip.number, &self.config, block)
    }

    /// Whether the proof is a certificate of the block.
    fn is_proved(&self, block: &Block, proof: &Proof) -> bool
        ensures { result ≡ is_bft_proof self.now.setup self.now.history self.now.setup.config block.now.header.number (block_hash block.now) proof.now }
    {
        match proof {
            Proof::Raft => false,
            Proof::Bft(cert) => self.is_certified(
                block.header.number,
                &block_hash(&block.header),
                cert,
            ),
        }
    }

    /// Whether the signers are a quorum of members, of whom the correct ones prepared the hash.
    fn is_certified(&self, number: u64, hash: &Digest, cert: &Cert) -> bool
        ensures { result ≡ is_proof self.now.setup self.now.history self.now.setup.config self.now.setup.config.number number hash.now cert.now }
    {
        self.have_prepared(number, hash, cert) && self.have_signed(cert)
    }

    /// Whether the signers are members, of whom the correct ones prepared the hash.
    fn have_prepared(&self, number: u64, hash: &Digest, cert: &Cert) -> bool
        ensures { result ≡ list_all (λ signer. is_in signer self.now.setup.config.members && (is_in signer self.now.setup.byzantine || has (is_prepared signer self.now.setup.config.number cert.now.view number hash.now) self.now.history)) (signers_of cert.now) }
    {
        let query = Query::Prepared {
            config: self.config.number,
            view: cert.view,
            number,
            digest: *hash,
        };
        are_signers(
            self.facts.as_slice(),
            self.byzantine.as_slice(),
            self.config.members.as_slice(),
            &query,
            cert.sigs.as_slice(),
        )
    }

    /// Whether a quorum of distinct members signed.
    fn have_signed(&self, cert: &Cert) -> bool
        ensures { result ≡ nat_le (quorum_of self.now.setup.config) (how_many_in (signers_of cert.now) self.now.setup.config.members) }
    {
        self.quorum() <= signed_of(cert.sigs.as_slice(), self.config.members.as_slice())
    }
}
