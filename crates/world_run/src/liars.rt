//! What Byzantine members send and sign.
ghost use Rattle.std.specs.Prelude.{
  ◌≡◌,
  ◌<◌,
  IfOk,
  IfSome,
  List as Items,
  OnOk,
  Some,
  codes,
  length,
  map,
  option_and_then,
  slice_get,
  vec_len,
};
ghost use Rattle.std.specs.Option.{option_map};
ghost use Rattle.ord_types.specs.Lengths.{FitsRequest, FitsSig};
ghost use Rattle.bft_wire.specs.Lengths.{FitsMessage};
ghost use Rattle.bft_wire.specs.Reading.{message_in};
ghost use Rattle.bft_wire.specs.Spelling.{message_text};
ghost use Rattle.script_play.specs.Turns.{EndsTurn};
ghost use Rattle.world_model.specs.Cores.{core_setting};
ghost use Rattle.world_model.specs.Liars.{
  is_raft_if_any,
  is_raft_message,
  lie_turn,
  longest,
  proposal_of,
  proposed_in,
  propose_turn,
  seal_turn,
  sends,
  sig_at,
  vote_if,
  vote_turn,
  with_sent,
  with_signed,
};
ghost use Rattle.world_model.specs.Says.{refuses};
ghost use Rattle.world_model.specs.Worlds as worlds;
ghost use Rattle.world_model.specs.Worlds.{Outcome};
ghost use Rattle.std.specs.List.{AllByRecursion};
ghost use Rattle.view_core.specs.Places.{IsPlace};
ghost use Rattle.bft_node.specs.Lodgings.{Lodging};
ghost use Rattle.safety_model.specs.Blocks.{Config as SomeConfig};
ghost use Rattle.world_run.specs.Entries.{entry_of};
ghost use Rattle.world_run.specs.Longest.{IsLongest, IsMemberAt};
ghost use Rattle.world_run.specs.Lying.{
  bar_between,
  bar_text,
  commit_of,
  prepare_of,
  statement_of,
  subject_of,
};

use crate::member::Member;
use crate::network::Entry;
use crate::pieces::{carried_cert, encoded, signed, spelled};
use crate::texts::{put_lied, put_seal};
use crate::world::World;
use bft_node::Nodes;
use bft_wire::{Commit, Message, PrePrepare, Prepare};
use ord_types::{Bytes, Digest, List, NoMemory, Place, Request, Sig, block_hash};
use script::VoteKind;
use script_play::Ending;
use signer_edge::commit_statement;
use std::alloc::Global;
use std::rc::Rc;
use view_core::proposal;

/// Why an id may not send to another, or sign.
#[derive(Clone, Copy, Debug, PartialEq, Eq)]
pub(crate) enum Bar {
    UnknownNode,
    NotByzantine,
}

/// What a vote is for: the hash of a block, with the configuration and the number of its proposal.
#[derive(Clone, Copy, Debug, PartialEq, Eq)]
struct Subject {
    config: u64,
    number: u64,
    digest: Digest,
}

/// What a vote for the block of a proposal is for.
fn subject_of(message: &Message) -> Option<Subject>
    ensures { result ≡ subject_of message.now }
{
    match message {
        Message::PrePrepare(proposal) => {
            let digest = block_hash(&proposal.block.header);
            Some(Subject {
                config: proposal.config,
                number: proposal.number,
                digest,
            })
        }
        _ => None,
    }
}

/// What a vote for the block that is proposed in bytes is for, if one is.
fn subject_in(alloc: Global, bytes: &[u8]) -> Result<Option<Subject>, NoMemory>
    ensures { IfOk result (λ subject. subject ≡ option_and_then subject_of (message_in bytes.now)) }
{
    match spelled(alloc, bytes)? {
        Some(message) => Ok(subject_of(&message)),
        None => Ok(None),
    }
}

/// Whether a message is one of Raft.
fn is_raft_message(message: &Message) -> bool
    ensures { result ≡ is_raft_message message.now }
{
    match message {
        Message::RaftVote(_)
        | Message::RaftVoteReply(_)
        | Message::RaftAppend(_)
        | Message::RaftAppendReply(_)
        | Message::RaftBlock(_) => true,
        _ => false,
    }
}

/// Whether bytes spell a message of Raft.
fn is_raft(alloc: Global, bytes: &[u8]) -> Result<bool, NoMemory>
    ensures { IfOk result (λ raft. raft ≡ is_raft_if_any (message_in bytes.now)) }
{
    match spelled(alloc, bytes)? {
        Some(message) => Ok(is_raft_message(&message)),
        None => Ok(false),
    }
}

/// The node of the longest ledger, the first of equally long ones. A stopped one has the ledger that its disk
/// opens to.
fn longest<N: Nodes>(nodes: &N, members: &[Member]) -> Option<u32>
    requires { AllByRecursion (IsMemberAt (N.at nodes.now)) members.now }
    ensures { (c : SomeConfig) → IsLongest c (N.at nodes.now) members.now result }
{
    let [member, rest @ ..] = members else {
        return None;
    };
    match longest(nodes, rest) {
        None => Some(member.id),
        Some(other) => {
            if nodes.node(member.id).ledger().height() < nodes.node(other).ledger().height() {
                Some(other)
            } else {
                Some(member.id)
            }
        }
    }
}

/// A proposal of one request on top of a ledger that stands at this place.
fn proposal_on(
    alloc: Global,
    place: &Place,
    view: u64,
    request: Request,
) -> Result<Message, NoMemory>
    requires place { IsPlace place.now }
    requires request { FitsRequest request }
    ensures proposal { IfOk result (λ message. message ≡ proposal_of place.now view request) }
    ensures fits { IfOk result FitsMessage }
{
    let mut offer = List::new(alloc);
    offer.push(request)?;
    Ok(Message::PrePrepare(PrePrepare {
        config: place.config.number,
        view,
        number: place.height,
        block: proposal(alloc, place, view, offer)?,
        cert: carried_cert(place)?,
    }))
}

impl World {
    ghost use Rattle.world_run.specs.Going.{Says, SaysAt};
    ghost use Rattle.world_run.specs.Mapped.{world_of};
    ghost use Rattle.world_run.specs.Sound.{IsSound, KeepsNodes};

    /// Why an id may not send to another.
    pub(crate) fn bar(&self, from: u32, to: u32) -> Option<Bar>
        ensures { (lodged : Lodging) (later : Items Outcome)
            → result ≡ bar_between (world_of lodged self.now later) from to }
    {
        let members = self.config.members.as_slice();
        if !(members.contains(&from) && members.contains(&to)) {
            return Some(Bar::UnknownNode);
        }
        if !self.byzantine.as_slice().contains(&from) {
            return Some(Bar::NotByzantine);
        }
        None
    }

    /// Refuses a line by an id that may not send or sign.
    pub(crate) fn refuse_barred(&mut self, bar: Bar) -> Result<Option<Ending>, NoMemory>
        ensures ends { IfOk result (λ ending. IfSome ending EndsTurn) }
        ensures says { IfOk result (Says self.old self.new (refuses self.old.outside.number (bar_text bar))) }
        ensures keeps { OnOk result (KeepsNodes self.old self.new) }
    {
        match bar {
            Bar::UnknownNode => self.refuse("unknown node"),
            Bar::NotByzantine => self.refuse("not byzantine"),
        }
    }

    /// Adds an entry to the network.
    fn post(&mut self, from: u32, to: u32, bytes: Bytes) -> Result<(), NoMemory>
        ensures sent { OnOk result ((lodged : Lodging) (later : Items Outcome)
            → world_of lodged self.new later ≡ with_sent (world_of lodged self.old later) from to bytes) }
        ensures keeps { OnOk result (KeepsNodes self.old self.new) }
        ensures text { OnOk result (self.new.outside.text ≡ self.old.outside.text) }
    {
        let bytes = Rc::new(self.outside.alloc, bytes)?;
        self.outside.network.push(Entry {
            from,
            to,
            bytes,
            came: false,
        })?;
        Ok(())
    }

    /// Sends bytes, by a line that begins with this word.
    pub(crate) fn send(
        &mut self,
        word: &str,
        from: u32,
        to: u32,
        bytes: Bytes,
    ) -> Result<Option<Ending>, NoMemory>
        ensures ends { IfOk result (λ ending. IfSome ending EndsTurn) }
        ensures says { IfOk result (Says self.old self.new (λ w. sends self.old.outside.number word.now w from
            to bytes)) }
        ensures keeps { OnOk result (KeepsNodes self.old self.new) }
    {
        self.post(from, to, bytes)?;
        if let Some(ending) = self.within_limit()? {
            return Ok(Some(ending));
        }
        let sent = self.outside.network.len();
        put_lied(&mut self.outside.text, self.outside.number, word, sent)?;
        Ok(None)
    }

    /// The bytes of a proposal of one request on top of the longest ledger. There is a node in every world.
    fn proposal<N: Nodes>(
        &self,
        nodes: &N,
        view: u64,
        request: Request,
    ) -> Result<Option<Bytes>, NoMemory>
        requires sound { IsSound (N.at nodes.now) self.now }
        requires fits { FitsRequest request }
        ensures { IfOk result (λ bytes. (later : Items Outcome)
            → bytes ≡ option_map (λ node. message_text (proposal_of node.state.place view request))
            (longest (world_of (N.at nodes.now) self.now later).nodes)) }
    {
        let Some(id) = longest(nodes, self.members.as_slice()) else {
            return Ok(None);
        };
        let alloc = self.outside.alloc;
        let place = nodes.node(id).ledger().place();
        let message = proposal_on(alloc, place, view, request)?;
        Ok(Some(encoded(alloc, message)?))
    }

    /// Proposes a request on top of the longest ledger.
    pub(crate) fn propose<N: Nodes>(
        &mut self,
        nodes: &N,
        from: u32,
        to: u32,
        view: u64,
        request: Request,
    ) -> Result<Option<Ending>, NoMemory>
        requires sound { IsSound (N.at nodes.now) self.old }
        requires fits { FitsRequest request }
        ensures ends { IfOk result (λ ending. IfSome ending EndsTurn) }
        ensures turned { IfOk result (SaysAt (N.at nodes.now) self.old self.new
            (λ w. propose_turn core_setting self.old.outside.number w from to view request)) }
        ensures keeps { OnOk result (KeepsNodes self.old self.new) }
    {
        match self.proposal(nodes, view, request)? {
            None => self.refuse("no core"),
            Some(bytes) => self.send("byz-propose", from, to, bytes),
        }
    }

    /// Signs a statement for an id.
    fn sign(&mut self, id: u32, statement: &[u8]) -> Result<Sig, NoMemory>
        ensures sig { IfOk result (λ sig. sig ≡ sig_at id (length self.old.outside.seat.seals)) }
        ensures fits { IfOk result FitsSig }
        ensures world { OnOk result ((lodged : Lodging) (later : Items Outcome)
            → world_of lodged self.new later
            ≡ with_signed (world_of lodged self.old later) id statement.now) }
        ensures keeps { OnOk result (KeepsNodes self.old self.new) }
        ensures text { OnOk result (self.new.outside.text ≡ self.old.outside.text) }
    {
        self.give_seat(id)?;
        signed(&mut self.outside.seat, statement)
    }

    /// Sends a Prepare.
    fn send_prepare(
        &mut self,
        from: u32,
        to: u32,
        view: u64,
        subject: Subject,
    ) -> Result<Option<Ending>, NoMemory>
        ensures ends { IfOk result (λ ending. IfSome ending EndsTurn) }
        ensures says { IfOk result (Says self.old self.new (λ w. sends self.old.outside.number
            (codes "byz-vote") w from to (message_text (prepare_of subject view)))) }
        ensures keeps { OnOk result (KeepsNodes self.old self.new) }
    {
        let digest = subject.digest;
        let prepare = Prepare {
            config: subject.config,
            view,
            number: subject.number,
            digest,
        };
        let bytes = encoded(self.outside.alloc, Message::Prepare(prepare))?;
        self.send("byz-vote", from, to, bytes)
    }

    /// Signs and sends a Commit.
    fn send_commit(
        &mut self,
        from: u32,
        to: u32,
        view: u64,
        subject: Subject,
    ) -> Result<Option<Ending>, NoMemory>
        ensures ends { IfOk result (λ ending. IfSome ending EndsTurn) }
        ensures says { IfOk result (Says self.old self.new (λ w. sends self.old.outside.number
            (codes "byz-vote") (with_signed w from (statement_of subject view)) from to
            (message_text (commit_of subject view (sig_at from (length w.seals)))))) }
        ensures keeps { OnOk result (KeepsNodes self.old self.new) }
    {
        let digest = subject.digest;
        let statement = commit_statement(subject.config, view, subject.number, &digest);
        let sig = self.sign(from, &statement)?;
        let commit = Commit {
            config: subject.config,
            view,
            number: subject.number,
            digest,
            sig,
        };
        let bytes = encoded(self.outside.alloc, Message::Commit(commit))?;
        self.send("byz-vote", from, to, bytes)
    }

    /// Sends a vote for the block that is proposed in the entry at this place.
    fn vote_at(
        &mut self,
        from: u32,
        to: u32,
        kind: VoteKind,
        view: u64,
        at: usize,
    ) -> Result<Option<Ending>, NoMemory>
        requires { at < vec_len self.old.outside.network }
        ensures ends { IfOk result (λ ending. IfSome ending EndsTurn) }
        ensures says { IfOk result (λ ending. (entry : worlds.Entry)
            → slice_get (map entry_of self.old.outside.network.items) at ≡ Some entry
            → Says self.old self.new (λ w. vote_if self.old.outside.number w from to kind view
            (proposed_in entry.bytes)) ending) }
        ensures keeps { OnOk result (KeepsNodes self.old self.new) }
    {
        let bytes = self.outside.network[at].bytes.as_ref().as_slice();
        match subject_in(self.outside.alloc, bytes)? {
            None => self.refuse("no block"),
            Some(subject) => match kind {
                VoteKind::Prepare => self.send_prepare(from, to, view, subject),
                VoteKind::Commit => self.send_commit(from, to, view, subject),
            },
        }
    }

    /// Sends a vote for the block that is proposed in the entry with this number.
    pub(crate) fn vote(
        &mut self,
        from: u32,
        to: u32,
        kind: VoteKind,
        view: u64,
        entry: u64,
    ) -> Result<Option<Ending>, NoMemory>
        ensures ends { IfOk result (λ ending. IfSome ending EndsTurn) }
        ensures says { IfOk result (Says self.old self.new (λ w. vote_turn self.old.outside.number w from to
            kind view (worlds.entry entry w))) }
        ensures keeps { OnOk result (KeepsNodes self.old self.new) }
    {
        match self.place_of_entry(entry) {
            None => self.refuse("no entry"),
            Some(at) => self.vote_at(from, to, kind, view, at),
        }
    }

    /// Sends bytes that spell no message of Raft.
    pub(crate) fn lie(
        &mut self,
        from: u32,
        to: u32,
        bytes: Bytes,
    ) -> Result<Option<Ending>, NoMemory>
        ensures ends { IfOk result (λ ending. IfSome ending EndsTurn) }
        ensures says { IfOk result (Says self.old self.new (λ w. lie_turn self.old.outside.number w from to
            bytes)) }
        ensures keeps { OnOk result (KeepsNodes self.old self.new) }
    {
        if is_raft(self.outside.alloc, bytes.as_slice())? {
            return self.refuse("raft message");
        }
        self.send("lie", from, to, bytes)
    }

    /// Signs bytes for an id.
    pub(crate) fn seal(&mut self, id: u32, bytes: &[u8]) -> Result<Option<Ending>, NoMemory>
        ensures ends { IfOk result (λ ending. IfSome ending EndsTurn) }
        ensures says { IfOk result (Says self.old self.new (λ w. seal_turn self.old.outside.number w id
            bytes.now)) }
        ensures keeps { OnOk result (KeepsNodes self.old self.new) }
    {
        let place = self.outside.seat.sealed();
        self.sign(id, bytes)?;
        put_seal(&mut self.outside.text, self.outside.number, place)?;
        Ok(None)
    }
}
