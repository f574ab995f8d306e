//! The events of nodes, and their stops.
ghost use Rattle.std.specs.Prelude.{
  ◌≡◌,
  ◌==◌,
  ◌++◌,
  Bool,
  IfOk,
  IfSome,
  List as Items,
  OnOk,
  Some,
  None,
  is_some,
  map,
  position,
  slice_get,
  true,
  false,
};
ghost use Rattle.ord_types.specs.Genesis.{IsGenesisConfig};
ghost use Rattle.gate_log.specs.Arms.{is_reached};
ghost use Rattle.gate_log.specs.declared.image.Image.{Image as SomeImage};
ghost use Rattle.gate_log.specs.declared.memory.MemDisk.{MemDisk as SomeDisk};
ghost use Rattle.script_play.specs.Turns.{EndsTurn};
ghost use Rattle.world_model.specs.Cores.{core_keeping, core_setting};
ghost use Rattle.world_model.specs.Pools.{offer};
ghost use Rattle.world_model.specs.Turns.{event_turn, start_turn, stop_at_turn, stop_turn, tick_at};
ghost use Rattle.world_model.specs.Worlds as worlds;
ghost use Rattle.world_model.specs.Worlds.{Outcome};
ghost use Rattle.node_model.specs.declared.event.Event.TheVariants.{FromMember};
ghost use Rattle.bft_node.specs.Lodgings.{Lodging};
ghost use Rattle.bft_node.specs.declared.lodged.Lodged.{Lodged};
ghost use Rattle.world_run.specs.Answers.{image_of};
ghost use Rattle.world_run.specs.Members.{node_of};
ghost use Rattle.world_run.specs.declared.member.Member.{Member as SomeMember};

use crate::network::add_sends;
use crate::pool::{offer, settle};
use crate::texts::{put_facts, put_start, put_stop_at, put_stopped};
use crate::world::World;
use bft_node::{NodeFault, Nodes, Out, nodes_are_found};
use gate_log::{Image, MemDisk};
use node_model::Event;
use ord_types::{Bytes, List, NoMemory, Request};
use script_play::Ending;

/// The image of a disk that a line names.
pub(crate) fn image_of(image: script::Image) -> Image
    ensures { result ≡ image_of image }
{
    match image {
        script::Image::Keep => Image::Keep,
        script::Image::Undo => Image::Undo,
        script::Image::Fill(byte) => Image::Fill(byte),
    }
}

impl World {
    ghost use Rattle.world_run.specs.AtPlaces.{AtPlace, HasMember, HasRunning};
    ghost use Rattle.world_run.specs.Following.{Crashes, Follows, TakesEvent};
    ghost use Rattle.world_run.specs.Going.{Plays, SaysAt, Tells};
    ghost use Rattle.world_run.specs.Mapped.{world_of};
    ghost use Rattle.world_run.specs.Moves.{IsArmedAt};
    ghost use Rattle.world_run.specs.Sound.{IsSound, KeepsNodes};

    /// What the pool of the node at this place offers for the next block, where the node may propose.
    fn offer_to<N: Nodes>(&self, nodes: &N, place: usize) -> Result<List<Request>, NoMemory>
        requires sound { IsSound (N.at nodes.now) self.now }
        requires there { HasMember self.now place }
        ensures { IfOk result (λ offer. AtPlace self.now place (λ member. offer ≡ worlds.offer_to core_keeping
            (node_of self.now.config (N.at nodes.now) member))) }
    {
        let alloc = self.outside.alloc;
        let member = &self.members[place];
        if !nodes.node(member.id).may_propose() {
            return Ok(List::new(alloc));
        }
        offer(alloc, member.pool.as_slice())
    }

    /// What a step of the node at this place did: its blocks are printed, their requests leave the pool, and
    /// its messages are sent.
    fn follow(&mut self, place: usize, out: Out) -> Result<Option<Ending>, NoMemory>
        requires { HasMember self.old place }
        ensures ends { IfOk result (λ ending. IfSome ending EndsTurn) }
        ensures follows { IfOk result (λ ending. AtPlace self.old place (λ member. Follows self.old self.new
            place member out ending)) }
    {
        let outside = &mut self.outside;
        let member = &mut self.members[place];
        put_facts(&mut outside.text, outside.number, out.facts.as_slice())?;
        settle(&mut member.pool, out.done.as_slice());
        add_sends(&mut outside.network, member.id, out.sends.as_slice())?;
        self.within_limit()
    }

    /// The node at this place has stopped, and its disk is left with this image, or with the armed one where
    /// the disk stopped at a call. From here on the node stands as the disk opens then; its pool is lost.
    fn crash<N: Nodes>(
        &mut self,
        nodes: &mut N,
        place: usize,
        disk: MemDisk,
        image: Image,
    ) -> Result<(), NoMemory>
        requires genesis { IsGenesisConfig self.old.config }
        requires there { HasMember self.old place }
        requires gone { AtPlace self.old place (λ member. N.at nodes.old member.id ≡ None) }
        ensures { OnOk result (AtPlace self.old place (λ member. Crashes (N.at nodes.old) (N.at nodes.new)
            self.old self.new place member disk image)) }
    {
        let id = self.members[place].id;
        let disk = disk.crash(image)?;
        self.open(nodes, id, disk)?;
        let member = &mut self.members[place];
        member.pool.clear();
        member.runs = false;
        member.armed = false;
        put_stopped(&mut self.outside.text, self.outside.number, id)?;
        Ok(())
    }

    /// The disk of the node at this place failed in a step. A disk in memory fails where it was armed and
    /// stops, and for want of memory.
    fn fail<N: Nodes>(&mut self, nodes: &mut N, place: usize) -> Result<(), NoMemory>
        requires genesis { IsGenesisConfig self.old.config }
        requires there { (member : SomeMember) × (slice_get self.old.members.items place ≡ Some member)
            × (is_some (N.at nodes.old member.id) ≡ true) }
        ensures armed { OnOk result (AtPlace self.old place (λ member. member.armed ≡ true)) }
        ensures crashes { OnOk result (AtPlace self.old place (λ member. (failed : Lodged)
            → N.at nodes.old member.id ≡ Some failed → (is_reached failed.disk.arm ≡ true)
            × Crashes (N.at nodes.old) (N.at nodes.new) self.old self.new place member failed.disk
            SomeImage.Keep)) }
    {
        let id = self.members[place].id;
        let disk = nodes.stop(id);
        if !(self.members[place].armed && disk.stopped()) {
            return Err(NoMemory);
        }
        self.crash(nodes, place, disk, Image::Keep)
    }

    /// An event of the node at this place, which runs. Where its disk stops in it, the node is stopped, and
    /// what it signed stays.
    fn event<N: Nodes>(
        &mut self,
        nodes: &mut N,
        place: usize,
        event: Event,
    ) -> Result<Option<Ending>, NoMemory>
        requires sound { IsSound (N.at nodes.old) self.old }
        requires runs { HasRunning self.old place }
        ensures ends { IfOk result (λ ending. IfSome ending EndsTurn) }
        ensures takes { IfOk result (λ ending. AtPlace self.old place (λ member. TakesEvent (N.at nodes.old)
            (N.at nodes.new) self.old self.new member event ending)) }
    {
        let id = self.members[place].id;
        self.give_seat(id)?;
        match nodes.step(id, event, &mut self.outside.seat) {
            Ok(out) => self.follow(place, out),
            Err(NodeFault::Disk) => {
                self.fail(nodes, place)?;
                Ok(None)
            }
            Err(_) => Err(NoMemory),
        }
    }

    /// One tick of the node at this place, which runs.
    pub(crate) fn tick_at<N: Nodes>(
        &mut self,
        nodes: &mut N,
        place: usize,
    ) -> Result<Option<Ending>, NoMemory>
        requires sound { IsSound (N.at nodes.old) self.old }
        requires runs { HasRunning self.old place }
        ensures sound { OnOk result (IsSound (N.at nodes.new) self.new) }
        ensures ends { IfOk result (λ ending. IfSome ending EndsTurn) }
        ensures plays { IfOk result (λ ending. AtPlace self.old place
            (λ member. Plays (N.at nodes.old) (N.at nodes.new) self.old self.new
            (λ w. tick_at core_setting self.old.outside.number w
            (Some (node_of self.old.config (N.at nodes.old) member))) ending)) }
        ensures number { OnOk result (self.new.outside.number ≡ self.old.outside.number) }
    {
        let offer = self.offer_to(nodes, place)?;
        self.event(nodes, place, Event::Tick { offer })
    }

    /// The bytes of a message come to the node at this place, which runs.
    pub(crate) fn take_at<N: Nodes>(
        &mut self,
        nodes: &mut N,
        place: usize,
        from: u32,
        bytes: Bytes,
    ) -> Result<Option<Ending>, NoMemory>
        requires sound { IsSound (N.at nodes.old) self.old }
        requires runs { HasRunning self.old place }
        ensures sound { OnOk result (IsSound (N.at nodes.new) self.new) }
        ensures ends { IfOk result (λ ending. IfSome ending EndsTurn) }
        ensures plays { IfOk result (λ ending. AtPlace self.old place
            (λ member. Plays (N.at nodes.old) (N.at nodes.new) self.old self.new
            (λ w. event_turn core_setting self.old.outside.number w (node_of self.old.config (N.at nodes.old)
            member) (FromMember from bytes)) ending)) }
        ensures number { OnOk result (self.new.outside.number ≡ self.old.outside.number) }
    {
        self.event(nodes, place, Event::FromMember { from, bytes })
    }

    /// Stops the node at this place, which runs.
    pub(crate) fn stop<N: Nodes>(
        &mut self,
        nodes: &mut N,
        place: usize,
        image: Image,
    ) -> Result<(), NoMemory>
        requires sound { IsSound (N.at nodes.old) self.old }
        requires there { HasMember self.old place }
        ensures sound { OnOk result (IsSound (N.at nodes.new) self.new) }
        ensures plays { OnOk result (AtPlace self.old place (λ member. Plays (N.at nodes.old) (N.at nodes.new)
            self.old self.new (λ w. stop_turn core_setting self.old.outside.number w
            (node_of self.old.config (N.at nodes.old) member)) None)) }
        ensures number { OnOk result (self.new.outside.number ≡ self.old.outside.number) }
    {
        nodes_are_found();
        let disk = nodes.stop(self.members[place].id);
        self.crash(nodes, place, disk, image)
    }

    /// Arms the disk of the node at this place.
    pub(crate) fn stop_at<N: Nodes>(
        &mut self,
        nodes: &mut N,
        place: usize,
        call: u32,
        image: Image,
    ) -> Result<(), NoMemory>
        requires sound { IsSound (N.at nodes.old) self.old }
        requires there { HasMember self.old place }
        ensures sound { OnOk result (IsSound (N.at nodes.new) self.new) }
        ensures arms { OnOk result (AtPlace self.old place (λ member. IsArmedAt (N.at nodes.old)
            (N.at nodes.new) member.id call image)) }
        ensures turned { OnOk result (AtPlace self.old place (λ member. (later : Items Outcome)
            → Tells self.old self.new (stop_at_turn self.old.outside.number
            (world_of (N.at nodes.old) self.old later) (node_of self.old.config (N.at nodes.old) member))
            (world_of (N.at nodes.new) self.new later) None)) }
        ensures number { OnOk result (self.new.outside.number ≡ self.old.outside.number) }
    {
        let member = &mut self.members[place];
        member.armed = true;
        let id = member.id;
        nodes.arm(id, call, image);
        put_stop_at(&mut self.outside.text, self.outside.number, id)?;
        Ok(())
    }

    /// Starts the node at this place. Its entries wait again.
    pub(crate) fn start(&mut self, place: usize) -> Result<(), NoMemory>
        requires there { HasMember self.old place }
        requires first { AtPlace self.old place (λ member. position (λ other. other.id == member.id)
            self.old.members.items ≡ Some place) }
        ensures keeps { OnOk result (KeepsNodes self.old self.new) }
        ensures says { OnOk result (AtPlace self.old place (λ member. (at : Lodging)
            → SaysAt at self.old self.new (λ w. start_turn self.old.outside.number w
            (node_of self.old.config at member)) None)) }
    {
        self.first_waiting = 0;
        let member = &mut self.members[place];
        member.runs = true;
        put_start(&mut self.outside.text, self.outside.number, member.id)?;
        Ok(())
    }
}
