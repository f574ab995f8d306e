//! Runs the commands of a script on a world.
ghost use Rattle.std.specs.Prelude.{
  ◌≡◌,
  ◌≤◌,
  IfOk,
  IfSome,
  List as Items,
  None,
  OnOk,
  Option,
  Some,
  length,
  string_bytes,
};
ghost use Rattle.ord_types.specs.Members.{how_many_in};
ghost use Rattle.ord_types.specs.Spelling.{request_text};
ghost use Rattle.script.specs.Commands.{AreIds, IsWellFormed};
ghost use Rattle.script.specs.declared.command.Command.TheVariants as command_of;
ghost use Rattle.script_play.specs.Turns.{EndsTurn};
ghost use Rattle.node_model.specs.Cores.{Core};
ghost use Rattle.world_model.specs.Cores.{core_setting};
ghost use Rattle.world_model.specs.Stages.{Stage, stage_closing, stage_turn};
ghost use Rattle.world_model.specs.Turns.{at_node, ordinary, submit_turn, turn_in};
ghost use Rattle.world_model.specs.Worlds.{Outcome};
ghost use Rattle.bft_node.specs.Lodgings.{Lodging};
ghost use Rattle.world_run.specs.Answers.{image_of};
ghost use Rattle.world_run.specs.Going.{ByMoves, Plays, Says, Tells};
ghost use Rattle.world_run.specs.Lines.{ArmsBy, PlaysCommand, decides, stage_at};
ghost use Rattle.world_run.specs.Mapped.{world_of};
ghost use Rattle.world_run.specs.Sound.{IsDecided, IsEmpty, IsSound, IsStanding, KeepsNodes};

use crate::events::image_of;
use crate::texts::{put_genesis, put_refused, put_sent};
use crate::world::{Whereabouts, World};
use bft_node::Nodes;
use ord_types::{Bytes, List, NoMemory, ReqId, ReqKind, Request, fault_bound, put_request};
use script::{Command, Image, VoteKind};
use script_play::{Ending, Machine, put_too_many_faulty};
use std::alloc::Global;
use std::mem;

/// A world, once there is one, over nodes that stand somewhere.
#[derive(Drop)]
pub struct Runner<N: Nodes> {
    alloc: Global,
    nodes: N,
    world: Option<World>,
}

impl<N: Nodes> Runner<N> {
    /// A runner before the first genesis, over no nodes.
    pub fn new(alloc: Global, nodes: N) -> Runner<N>
        requires { IsEmpty (N.at nodes) }
        ensures world { (later : Items Outcome)
            → stage_at (N.at result.nodes) result.world later ≡ stage_at (N.at nodes) None later }
        ensures standing { IsStanding (N.at result.nodes) result.world }
        ensures decided { IsDecided result.world }
    {
        Runner {
            alloc,
            nodes,
            world: None,
        }
    }

    /// A genesis makes the world. One with more Byzantine members than its bound ends the run.
    fn open(
        &mut self,
        number: u64,
        members: List<u32>,
        byzantine: List<u32>,
        text: &mut String,
    ) -> Result<Option<Ending>, NoMemory>
        requires none { self.old.world ≡ None }
        requires empty { IsEmpty (N.at self.old.nodes) }
        requires ids { AreIds members }
        ensures standing { OnOk result (IsStanding (N.at self.new.nodes) self.new.world) }
        ensures ends { IfOk result (λ ending. IfSome ending EndsTurn) }
        ensures plays { IfOk result (PlaysCommand number (command_of.Genesis members byzantine)
            (N.at self.old.nodes) (N.at self.new.nodes) self.old.world self.new.world (string_bytes text.old)
            (string_bytes text.new)) }
    {
        let count = how_many_in(byzantine.as_slice(), members.as_slice());
        let bound = fault_bound(members.len() as u32);
        if bound < count {
            put_too_many_faulty(text, number, 0, count, bound)?;
            return Ok(Some(Ending::TooManyFaulty {
                number,
                config: 0,
                count,
                bound,
            }));
        }
        let world = World::new(self.alloc, &mut self.nodes, members, byzantine)?;
        put_genesis(text, number)?;
        self.world = Some(world);
        Ok(None)
    }

    /// A command where there is no world yet: a genesis makes it.
    fn begin(
        &mut self,
        number: u64,
        command: Command,
        text: &mut String,
    ) -> Result<Option<Ending>, NoMemory>
        requires none { self.old.world ≡ None }
        requires empty { IsEmpty (N.at self.old.nodes) }
        requires formed { IsWellFormed command }
        ensures standing { OnOk result (IsStanding (N.at self.new.nodes) self.new.world) }
        ensures ends { IfOk result (λ ending. IfSome ending EndsTurn) }
        ensures plays { IfOk result (PlaysCommand number command (N.at self.old.nodes) (N.at self.new.nodes)
            self.old.world self.new.world (string_bytes text.old) (string_bytes text.new)) }
    {
        if let Command::Genesis { members, byzantine } = command {
            return self.open(number, members, byzantine, text);
        }
        put_refused(text, number, "no world")?;
        Ok(None)
    }

    /// Does what the command of this line asks, and adds its text. `Some` ends the run. What becomes of an
    /// event of a node whose disk is armed is what this disk and the box of seals say; a `stop-at` line about
    /// a node that runs arms its disk.
    pub fn line(
        &mut self,
        number: u64,
        command: Command,
        text: &mut String,
    ) -> Result<Option<Ending>, NoMemory>
        requires standing { IsStanding (N.at self.old.nodes) self.old.world }
        requires formed { IsWellFormed command }
        ensures standing { OnOk result (IsStanding (N.at self.new.nodes) self.new.world) }
        ensures ends { IfOk result (λ ending. IfSome ending EndsTurn) }
        ensures plays { IfOk result (PlaysCommand number command (N.at self.old.nodes) (N.at self.new.nodes)
            self.old.world self.new.world (string_bytes text.old) (string_bytes text.new)) }
        ensures arms { OnOk result (ArmsBy (N.at self.old.nodes) (N.at self.new.nodes)
            self.old.world command) }
    {
        let Some(world) = &mut self.world else {
            return self.begin(number, command, text);
        };
        world.outside.number = number;
        mem::swap(text, &mut world.outside.text);
        let ending = turn_in(world, &mut self.nodes, command)?;
        mem::swap(text, &mut world.outside.text);
        Ok(ending)
    }
}

/// How many of these ids are in the list.
fn how_many_in(list: &[u32], ids: &[u32]) -> u32
    requires { length ids.now ≤ 31 }
    ensures { result ≡ how_many_in list.now ids.now }
{
    let mut count = 0;
    for id in ids {
        if list.contains(id) {
            count += 1;
        }
    }
    count
}

/// The greatest length that a request tells of its payload, in bytes.
const MOST_LENGTH: usize = 4_294_967_295;

/// An ordinary request as bytes. No line has room for a payload that is too long.
fn ordinary(alloc: Global, id: ReqId, payload: Bytes) -> Result<Bytes, NoMemory>
    ensures { IfOk result (λ bytes. bytes ≡ request_text (ordinary id.client id.serial payload)) }
{
    if payload.len() > MOST_LENGTH {
        return Err(NoMemory);
    }
    let kind = ReqKind::Ordinary;
    let mut bytes = Bytes::new(alloc);
    put_request(&mut bytes, &Request { kind, id, payload })?;
    Ok(bytes)
}

/// Submits bytes to a node's pool, by a line that begins with this word.
fn submit_bytes(
    world: &mut World,
    node: u32,
    word: &str,
    bytes: &[u8],
) -> Result<Option<Ending>, NoMemory>
    ensures ends { IfOk result (λ ending. IfSome ending EndsTurn) }
    ensures says { IfOk result (Says world.old world.new (λ w. at_node world.old.outside.number w node
        (λ found. submit_turn world.old.outside.number word.now w found bytes.now))) }
    ensures keeps { OnOk result (KeepsNodes world.old world.new) }
{
    match world.whereabouts(node) {
        Whereabouts::Absent => world.refuse_absent(node),
        Whereabouts::Stopped(_place) => world.refuse("stopped"),
        Whereabouts::Running(place) => {
            world.submit(node, place, word, bytes)?;
            Ok(None)
        }
    }
}

fn submit(
    world: &mut World,
    node: u32,
    id: ReqId,
    payload: Bytes,
) -> Result<Option<Ending>, NoMemory>
    ensures ends { IfOk result (λ ending. IfSome ending EndsTurn) }
    ensures says { IfOk result (Says world.old world.new (λ w. turn_in core_setting world.old.outside.number w
        (command_of.Submit node id.client id.serial payload))) }
    ensures keeps { OnOk result (KeepsNodes world.old world.new) }
{
    let bytes = ordinary(world.outside.alloc, id, payload)?;
    submit_bytes(world, node, "submit", bytes.as_slice())
}

fn show<N: Nodes>(
    world: &mut World,
    nodes: &mut N,
    node: u32,
    number: u64,
) -> Result<Option<Ending>, NoMemory>
    requires sound { IsSound (N.at nodes.old) world.old }
    ensures sound { OnOk result (IsSound (N.at nodes.new) world.new) }
    ensures ends { IfOk result (λ ending. IfSome ending EndsTurn) }
    ensures plays { IfOk result (Plays (N.at nodes.old) (N.at nodes.new) world.old world.new
        (λ w. turn_in core_setting world.old.outside.number w (command_of.Show node number))) }
{
    match world.whereabouts(node) {
        Whereabouts::Absent => world.refuse_absent(node),
        Whereabouts::Stopped(_place) => world.refuse("stopped"),
        Whereabouts::Running(place) => {
            world.show(nodes, place, number)?;
            Ok(None)
        }
    }
}

fn tick<N: Nodes>(
    world: &mut World,
    nodes: &mut N,
    node: u32,
    count: u32,
) -> Result<Option<Ending>, NoMemory>
    requires sound { IsSound (N.at nodes.old) world.old }
    ensures sound { OnOk result (IsSound (N.at nodes.new) world.new) }
    ensures ends { IfOk result (λ ending. IfSome ending EndsTurn) }
    ensures plays { IfOk result (Plays (N.at nodes.old) (N.at nodes.new) world.old world.new
        (λ w. turn_in core_setting world.old.outside.number w (command_of.Tick node count))) }
{
    match world.whereabouts(node) {
        Whereabouts::Absent => world.refuse_absent(node),
        Whereabouts::Stopped(_place) => world.refuse("stopped"),
        Whereabouts::Running(_place) => world.ticks(nodes, node, count),
    }
}

/// A node stops between two events.
fn stop<N: Nodes>(
    world: &mut World,
    nodes: &mut N,
    node: u32,
    image: Image,
) -> Result<Option<Ending>, NoMemory>
    requires sound { IsSound (N.at nodes.old) world.old }
    ensures sound { OnOk result (IsSound (N.at nodes.new) world.new) }
    ensures ends { IfOk result (λ ending. IfSome ending EndsTurn) }
    ensures plays { IfOk result (Plays (N.at nodes.old) (N.at nodes.new) world.old world.new
        (λ w. turn_in core_setting world.old.outside.number w (command_of.Stop node image))) }
{
    match world.whereabouts(node) {
        Whereabouts::Absent => world.refuse_absent(node),
        Whereabouts::Stopped(_place) => world.refuse("stopped"),
        Whereabouts::Running(place) => {
            world.stop(nodes, place, image_of(image))?;
            Ok(None)
        }
    }
}

/// A node is to stop at a call of its disk.
fn stop_at<N: Nodes>(
    world: &mut World,
    nodes: &mut N,
    node: u32,
    call: u32,
    image: Image,
) -> Result<Option<Ending>, NoMemory>
    requires sound { IsSound (N.at nodes.old) world.old }
    ensures sound { OnOk result (IsSound (N.at nodes.new) world.new) }
    ensures ends { IfOk result (λ ending. IfSome ending EndsTurn) }
    ensures plays { IfOk result (λ ending. ByMoves (⊥) (N.at nodes.old) (N.at nodes.new) world.old world.new
        (λ w to. Tells world.old world.new (turn_in core_setting world.old.outside.number w
        (command_of.StopAt node call image)) to ending)) }
    ensures arms { OnOk result (ArmsBy (N.at nodes.old) (N.at nodes.new) (Some world.old)
        (command_of.StopAt node call image)) }
{
    match world.whereabouts(node) {
        Whereabouts::Absent => world.refuse_absent(node),
        Whereabouts::Stopped(_place) => world.refuse("stopped"),
        Whereabouts::Running(place) => {
            world.stop_at(nodes, place, call, image_of(image))?;
            Ok(None)
        }
    }
}

/// A stopped node starts.
fn start(world: &mut World, node: u32) -> Result<Option<Ending>, NoMemory>
    ensures ends { IfOk result (λ ending. IfSome ending EndsTurn) }
    ensures says { IfOk result (Says world.old world.new (λ w. turn_in core_setting world.old.outside.number w
        (command_of.Start node))) }
    ensures keeps { OnOk result (KeepsNodes world.old world.new) }
{
    match world.whereabouts(node) {
        Whereabouts::Absent => world.refuse_absent(node),
        Whereabouts::Running(_place) => world.refuse("running"),
        Whereabouts::Stopped(place) => {
            world.start(place)?;
            Ok(None)
        }
    }
}

/// A Byzantine member proposes an ordinary request.
fn propose<N: Nodes>(
    world: &mut World,
    nodes: &N,
    from: u32,
    to: u32,
    view: u64,
    id: ReqId,
    payload: Bytes,
) -> Result<Option<Ending>, NoMemory>
    requires short { length payload ≤ 65536 }
    requires sound { IsSound (N.at nodes.now) world.old }
    ensures sound { OnOk result (IsSound (N.at nodes.now) world.new) }
    ensures ends { IfOk result (λ ending. IfSome ending EndsTurn) }
    ensures plays { IfOk result (Plays (N.at nodes.now) (N.at nodes.now) world.old world.new
        (λ w. turn_in core_setting world.old.outside.number w (command_of.Propose from to view id.client
        id.serial payload))) }
{
    let kind = ReqKind::Ordinary;
    match world.bar(from, to) {
        Some(bar) => world.refuse_barred(bar),
        None => world.propose(nodes, from, to, view, Request { kind, id, payload }),
    }
}

/// A Byzantine member votes for the block that is proposed in an entry.
fn vote(
    world: &mut World,
    from: u32,
    to: u32,
    kind: VoteKind,
    view: u64,
    entry: u64,
) -> Result<Option<Ending>, NoMemory>
    ensures ends { IfOk result (λ ending. IfSome ending EndsTurn) }
    ensures says { IfOk result (Says world.old world.new (λ w. turn_in core_setting world.old.outside.number w
        (command_of.Vote from to kind view entry))) }
    ensures keeps { OnOk result (KeepsNodes world.old world.new) }
{
    match world.bar(from, to) {
        Some(bar) => world.refuse_barred(bar),
        None => world.vote(from, to, kind, view, entry),
    }
}

/// A Byzantine member sends bytes.
fn lie(world: &mut World, from: u32, to: u32, bytes: Bytes) -> Result<Option<Ending>, NoMemory>
    ensures ends { IfOk result (λ ending. IfSome ending EndsTurn) }
    ensures says { IfOk result (Says world.old world.new (λ w. turn_in core_setting world.old.outside.number w
        (command_of.Lie from to bytes))) }
    ensures keeps { OnOk result (KeepsNodes world.old world.new) }
{
    match world.bar(from, to) {
        Some(bar) => world.refuse_barred(bar),
        None => world.lie(from, to, bytes),
    }
}

/// A Byzantine member, or the administrator, who is 0, signs bytes.
fn seal(world: &mut World, id: u32, bytes: &[u8]) -> Result<Option<Ending>, NoMemory>
    ensures ends { IfOk result (λ ending. IfSome ending EndsTurn) }
    ensures says { IfOk result (Says world.old world.new (λ w. turn_in core_setting world.old.outside.number w
        (command_of.Seal id bytes.now))) }
    ensures keeps { OnOk result (KeepsNodes world.old world.new) }
{
    if id == 0 {
        return world.seal(id, bytes);
    }
    match world.bar(id, id) {
        Some(bar) => world.refuse_barred(bar),
        None => world.seal(id, bytes),
    }
}

/// Does what a command asks of a world.
fn turn_in<N: Nodes>(
    world: &mut World,
    nodes: &mut N,
    command: Command,
) -> Result<Option<Ending>, NoMemory>
    requires formed { IsWellFormed command }
    requires sound { IsSound (N.at nodes.old) world.old }
    ensures sound { OnOk result (IsSound (N.at nodes.new) world.new) }
    ensures ends { IfOk result (λ ending. IfSome ending EndsTurn) }
    ensures plays { IfOk result (λ ending. ByMoves (decides command) (N.at nodes.old) (N.at nodes.new)
        world.old world.new (λ w to. Tells world.old world.new (turn_in core_setting world.old.outside.number
        w command) to ending)) }
    ensures arms { OnOk result (ArmsBy (N.at nodes.old) (N.at nodes.new) (Some world.old) command) }
{
    match command {
        Command::Genesis {
            members: _members,
            byzantine: _byzantine,
        } => world.refuse("second genesis"),
        Command::Submit {
            node,
            client,
            serial,
            payload,
        } => submit(world, node, ReqId { client, serial }, payload),
        Command::Raw { node, bytes } => submit_bytes(world, node, "raw", bytes.as_slice()),
        Command::Show { node, number } => show(world, nodes, node, number),
        Command::Tick { node, count } => tick(world, nodes, node, count),
        Command::Deliver { ranges } => world.deliver(nodes, ranges.as_slice()),
        Command::Flush { only } => world.flush(nodes, &only),
        Command::Propose {
            from,
            to,
            view,
            client,
            serial,
            payload,
        } => {
            let id = ReqId { client, serial };
            propose(world, nodes, from, to, view, id, payload)
        }
        Command::Vote {
            from,
            to,
            kind,
            view,
            entry,
        } => vote(world, from, to, kind, view, entry),
        Command::Lie { from, to, bytes } => lie(world, from, to, bytes),
        Command::Seal { id, bytes } => seal(world, id, bytes.as_slice()),
        Command::Stop { node, image } => stop(world, nodes, node, image),
        Command::StopAt { node, call, image } => stop_at(world, nodes, node, call, image),
        Command::Start { node } => start(world, node),
    }
}

impl<N: Nodes> Machine for Runner<N> {
    ghost World = { Stage Core (Unit {0}) };

    ghost Choice = { Outcome };

    ghost world = { λ runner later. stage_at (N.at runner.nodes) runner.world later };

    ghost turn_of = { stage_turn core_setting };

    ghost closing_of = { stage_closing core_setting };

    ghost is_sound = { λ runner. IsStanding (N.at runner.nodes) runner.world };

    ghost is_decided = { λ runner. IsDecided runner.world };

    ghost decides = { decides };

    fn turn(
        &mut self,
        number: u64,
        command: Command,
        text: &mut String,
    ) -> Result<Option<Ending>, NoMemory> {
        self.line(number, command, text)
    }

    fn closing(&self, text: &mut String) -> Result<(), NoMemory> {
        match &self.world {
            Some(world) => world.closing(&self.nodes, text)?,
            None => put_sent(text, 0)?,
        }
        Ok(())
    }
}
