//! What counts of the records of a log for one configuration and height, as they come.
ghost use Rattle.std.specs.Prelude.{◌≡◌, [], None, OnOk};
ghost use Rattle.bft_wal.specs.Fold.{added, choice_of as choice_of_vote, tally_of};

use crate::record::WalRecord;
use ord_types::{Block, Choice, Digest, List, NoMemory, Vote, block_hash};
use std::alloc::Global;

/// An accepted block, and the vote for it.
#[derive(Drop)]
pub(crate) struct Acceptance {
    pub(crate) vote: Vote,
    pub(crate) block: Block,
}

/// What counts of the records so far.
#[derive(Drop)]
pub(crate) struct Tally {
    pub(crate) config: u64,
    pub(crate) height: u64,
    /// The greatest view entered, and the greatest left for, 0 if none.
    pub(crate) view: u64,
    pub(crate) left: u64,
    /// The last number and choice with which a view was entered.
    pub(crate) bound: Option<(u64, Choice)>,
    /// What was accepted and what was prepared at the height, in order.
    pub(crate) accepted: List<Acceptance>,
    pub(crate) prepared: List<Vote>,
    /// The term and candidate of the last vote.
    pub(crate) voted: Option<(u64, u32)>,
    /// The term and block of the last tail at the height.
    pub(crate) tail: Option<(u64, Block)>,
}

fn choice_of(carried: Option<Vote>) -> Choice
    ensures { result ≡ choice_of_vote carried }
{
    match carried {
        None => Choice::Free,
        Some(vote) => Choice::Carry(vote),
    }
}

impl Tally {
    /// Of no records.
    pub(crate) fn new(alloc: Global, config: u64, height: u64) -> Tally
        ensures { result ≡ tally_of config height [] }
    {
        Tally {
            config,
            height,
            view: 0,
            left: 0,
            bound: None,
            accepted: List::new(alloc),
            prepared: List::new(alloc),
            voted: None,
            tail: None,
        }
    }

    /// Counts one more record.
    pub(crate) fn add(&mut self, entry: WalRecord) -> Result<(), NoMemory>
        ensures { OnOk result (self.new ≡ added self.old entry) }
    {
        match entry {
            WalRecord::Accepted {
                config,
                view,
                number,
                block,
            } => self.accept(config, view, number, block),
            WalRecord::Prepared {
                config,
                view,
                number,
                digest,
            } => self.prepare(config, view, number, digest),
            WalRecord::Left { config, view } => {
                self.leave(config, view);
                Ok(())
            }
            WalRecord::Entered {
                config,
                view,
                number,
                carried,
            } => {
                self.enter(config, view, number, carried);
                Ok(())
            }
            WalRecord::Voted { term, candidate } => {
                self.voted = Some((term, candidate));
                Ok(())
            }
            WalRecord::Tail {
                term,
                number,
                block,
            } => {
                self.take_tail(term, number, block);
                Ok(())
            }
        }
    }

    fn accept(&mut self, config: u64, view: u64, number: u64, block: Block) -> Result<(), NoMemory>
        ensures { OnOk result (self.new ≡ added self.old (WalRecord.Accepted config view number block)) }
    {
        if config == self.config && number == self.height {
            let digest = block_hash(&block.header);
            let vote = Vote { view, digest };
            self.accepted.push(Acceptance { vote, block })?;
        }
        Ok(())
    }

    fn prepare(
        &mut self,
        config: u64,
        view: u64,
        number: u64,
        digest: Digest,
    ) -> Result<(), NoMemory>
        ensures { OnOk result (self.new ≡ added self.old (WalRecord.Prepared config view number digest)) }
    {
        if config == self.config && number == self.height {
            self.prepared.push(Vote { view, digest })?;
        }
        Ok(())
    }

    fn leave(&mut self, config: u64, view: u64)
        ensures { self.new ≡ added self.old (WalRecord.Left config view) }
    {
        if config == self.config {
            self.left = self.left.max(view);
        }
    }

    fn enter(&mut self, config: u64, view: u64, number: u64, carried: Option<Vote>)
        ensures { self.new ≡ added self.old (WalRecord.Entered config view number carried) }
    {
        if config == self.config {
            self.view = self.view.max(view);
            self.bound = Some((number, choice_of(carried)));
        }
    }

    fn take_tail(&mut self, term: u64, number: u64, block: Block)
        ensures { self.new ≡ added self.old (WalRecord.Tail term number block) }
    {
        if number == self.height {
            self.tail = Some((term, block));
        }
    }
}
