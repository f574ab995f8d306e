//! The world of a script: its nodes and the network.
ghost use Rattle.std.specs.Prelude.{
  ◌≡◌,
  ◌==◌,
  ◌++◌,
  false,
  true,
  IfOk,
  IfSome,
  IfNone,
  List as Items,
  OnOk,
  Some,
  None,
  is_some,
  length,
  [],
  position,
  slice_get,
  string_bytes,
  ◌≤◌,
  ◌&&◌,
  ℕ,
};
ghost use Rattle.ord_types.specs.Genesis.{IsGenesisConfig};
ghost use Rattle.script.specs.Commands.{AreIds};
ghost use Rattle.script_play.specs.Turns.{EndsTurn};
ghost use Rattle.world_model.specs.Cores.{core_setting};
ghost use Rattle.world_model.specs.Turns.{first_config, first_world, within_limit};
ghost use Rattle.world_model.specs.Worlds as worlds;
ghost use Rattle.world_model.specs.Worlds.{Outcome};
ghost use Rattle.bft_node.specs.Lodgings.{Becomes, IsOpenedOn, Lodging, accepts_of};
ghost use Rattle.bft_node.specs.declared.lodged.Lodged.{Lodged};
ghost use Rattle.world_run.specs.Waiting.{waits_before};

use crate::member::{Member, Outside};
use crate::texts::put_limit;
use bft_node::{Nodes, Setup, nodes_are_found};
use gate_log::MemDisk;
use ord_types::{Batch, Config, Copied, Kind, List, Mode, NoMemory};
use script_play::Ending;
use signer_edge::{SealBox, SealSeat};
use std::alloc::Global;
use std::mem;

/// How many messages may be sent.
const MOST_ENTRIES: usize = 1_000_000;

/// A world without what its nodes hold, which stands among the nodes.
#[derive(Drop)]
pub(crate) struct World {
    /// The first configuration.
    pub(crate) config: Config,
    /// Who is Byzantine. A Byzantine member has no node.
    pub(crate) byzantine: List<u32>,
    pub(crate) members: Vec<Member>,
    pub(crate) outside: Outside,
    /// The place of the first entry that may wait: those before it have come, or their receivers don't run.
    pub(crate) first_waiting: usize,
    ghost within: { first_waiting ≤ length outside.network.items },
    ghost passed: { waits_before config first_waiting members.items outside.network.items ≡ false },
}

/// The configuration of a genesis with batches of one request.
pub(crate) fn first_config(members: List<u32>) -> Config
    ensures { result ≡ first_config members }
{
    Config {
        number: 0,
        kind: Kind::Bft,
        mode: Mode::Normal,
        members,
        batch: Batch {
            count: 1,
            preferred: 524_288,
            absolute: 1_048_576,
            wait: 10,
        },
        rotation: 0,
    }
}

/// The outside of a world in which nothing has happened.
fn first_outside(alloc: Global) -> Result<Outside, NoMemory>
    ensures seals { IfOk result (λ outside. outside.seat.seals ≡ []) }
    ensures network { IfOk result (λ outside. outside.network.items ≡ []) }
    ensures text { IfOk result (λ outside. string_bytes outside.text ≡ []) }
{
    Ok(Outside {
        alloc,
        seat: SealBox::new(alloc)?.seat(0),
        network: Vec::new(alloc),
        number: 0,
        text: String::new(alloc),
    })
}

/// Where the node of an id is among the members that have one.
#[derive(Clone, Copy, Debug, PartialEq, Eq)]
pub(crate) enum Whereabouts {
    /// There is none: a Byzantine member, or no member.
    Absent,
    Stopped(usize),
    Running(usize),
}

impl World {
    ghost use Rattle.world_run.specs.Beginning.{Begins};
    ghost use Rattle.world_run.specs.Going.{TellsLimit};
    ghost use Rattle.world_run.specs.Mapped.{world_of};
    ghost use Rattle.world_run.specs.Moves.{AreMoves, Move, outcomes_of, setup_of};
    ghost use Rattle.world_run.specs.Sound.{IsEmpty, IsSound, NoneArmed};
    ghost use Rattle.world_run.specs.Whereabouts.{whereabouts_of};

    /// The world of a genesis.
    pub(crate) fn new<N: Nodes>(
        alloc: Global,
        nodes: &mut N,
        members: List<u32>,
        byzantine: List<u32>,
    ) -> Result<World, NoMemory>
        requires config { IsGenesisConfig (first_config members) }
        requires ids { AreIds members }
        requires empty { IsEmpty (N.at nodes.old) }
        ensures sound { IfOk result (IsSound (N.at nodes.new)) }
        ensures unarmed { IfOk result NoneArmed }
        ensures moves { IfOk result (λ world. (moves : Items Move)
            × AreMoves (first_config members) (N.at nodes.old) (N.at nodes.new) moves
            × (outcomes_of moves ≡ [])) }
        ensures value { IfOk result (λ world. (later : Items Outcome) → world_of (N.at nodes.new) world later
            ≡ first_world core_setting later (first_config members) byzantine) }
    {
        let mut world = World {
            config: first_config(members),
            byzantine,
            members: Vec::new(alloc),
            outside: first_outside(alloc)?,
            first_waiting: 0,
        };
        world.open_first(nodes)?;
        Ok(world)
    }

    /// Opens the nodes of the members that are not Byzantine, each on an empty disk.
    fn open_first<N: Nodes>(&mut self, nodes: &mut N) -> Result<(), NoMemory>
        requires config { IsGenesisConfig self.old.config }
        requires ids { AreIds self.old.config.members }
        requires empty { IsEmpty (N.at nodes.old) }
        requires members { self.old.members.items ≡ [] }
        requires network { self.old.outside.network.items ≡ [] }
        requires seals { self.old.outside.seat.seals ≡ [] }
        ensures sound { OnOk result (IsSound (N.at nodes.new) self.new) }
        ensures unarmed { OnOk result (NoneArmed self.new) }
        ensures moves { OnOk result ((moves : Items Move) × AreMoves self.old.config (N.at nodes.old)
            (N.at nodes.new) moves × (outcomes_of moves ≡ [])) }
        ensures value { OnOk result ((later : Items Outcome) → world_of (N.at nodes.new) self.new later
            ≡ first_world core_setting later self.old.config self.old.byzantine) }
    {
        nodes_are_found();
        for place in 0..self.config.members.len() {
            let id = self.config.members.as_slice()[place];
            if !self.byzantine.as_slice().contains(&id) {
                self.open_member(nodes, id)?;
            }
        }
        Ok(())
    }

    /// Opens the node of a member on an empty disk.
    fn open_member<N: Nodes>(&mut self, nodes: &mut N, id: u32) -> Result<(), NoMemory>
        requires genesis { IsGenesisConfig self.old.config }
        requires free { N.at nodes.old id ≡ None }
        requires network { self.old.outside.network.items ≡ [] }
        ensures { OnOk result (Begins (N.at nodes.old) (N.at nodes.new) self.old self.new id) }
    {
        let disk = MemDisk::new(self.outside.alloc)?;
        self.open(nodes, id, disk)?;
        self.members.push(Member {
            id,
            pool: Vec::new(self.outside.alloc),
            runs: true,
            armed: false,
        })?;
        Ok(())
    }

    /// Opens a node on a disk. What a crash left of a node's own disk is refused only for want of memory.
    pub(crate) fn open<N: Nodes>(
        &mut self,
        nodes: &mut N,
        id: u32,
        disk: MemDisk,
    ) -> Result<(), NoMemory>
        requires genesis { IsGenesisConfig self.old.config }
        requires free { N.at nodes.old id ≡ None }
        ensures opens { OnOk result ((l : Lodged)
            × IsOpenedOn (setup_of self.old.config id) (accepts_of self.old.outside.seat) disk l
            × Becomes (N.at nodes.old) (N.at nodes.new) id (Some l)) }
        ensures config { OnOk result (self.new.config ≡ self.old.config) }
        ensures byzantine { OnOk result (self.new.byzantine ≡ self.old.byzantine) }
        ensures members { OnOk result (self.new.members ≡ self.old.members) }
        ensures outside { OnOk result (self.new.outside
            ≡ record self.old.outside { seat = record { id = id; seals = self.old.outside.seat.seals } }) }
    {
        let alloc = self.outside.alloc;
        let setup = Setup {
            me: id,
            genesis: self.config.copy()?,
        };
        self.give_seat(id)?;
        match nodes.add(alloc, &setup, disk, &mut self.outside.seat) {
            Ok(()) => Ok(()),
            Err(_) => Err(NoMemory),
        }
    }

    /// The place of a node among the members that have one.
    pub(crate) fn find(&self, id: u32) -> Option<usize>
        ensures { result ≡ position (λ member. member.id == id) self.now.members.items }
    {
        self.members.iter().position(|member| member.id == id)
    }

    /// Where the node of this id is.
    pub(crate) fn whereabouts(&self, id: u32) -> Whereabouts
        ensures { result ≡ whereabouts_of id self.now.members.items }
    {
        match self.find(id) {
            None => Whereabouts::Absent,
            Some(place) => {
                if self.members[place].runs {
                    Whereabouts::Running(place)
                } else {
                    Whereabouts::Stopped(place)
                }
            }
        }
    }

    /// The place of the node of this id, where it runs.
    pub(crate) fn running(&self, id: u32) -> Option<usize>
        ensures some { IfSome result (λ place. whereabouts_of id self.now.members.items ≡ Whereabouts.Running
            place) }
        ensures none { IfNone result ((lodged : Lodging) (later : Items Outcome)
            → worlds.running_at id (world_of lodged self.now later).nodes ≡ None) }
    {
        match self.whereabouts(id) {
            Whereabouts::Running(place) => Some(place),
            Whereabouts::Stopped(_place) => None,
            Whereabouts::Absent => None,
        }
    }

    /// Whether an id has a node that runs.
    pub(crate) fn is_running(&self, id: u32) -> bool
        ensures { (lodged : Lodging) (later : Items Outcome)
            → result ≡ is_some (worlds.running_at id (world_of lodged self.now later).nodes) }
    {
        match self.running(id) {
            None => false,
            Some(_) => true,
        }
    }

    /// Gives the box of seals to a signer.
    pub(crate) fn give_seat(&mut self, id: u32) -> Result<(), NoMemory>
        ensures { OnOk result (self.new
            ≡ record self.old {
              outside = record self.old.outside {
                seat =
                    record { id = id; seals = self.old.outside.seat.seals };
              };
            }) }
    {
        let empty = SealBox::new(self.outside.alloc)?.seat(id);
        let seat: SealSeat = mem::replace(&mut self.outside.seat, empty);
        self.outside.seat = seat.back().seat(id);
        Ok(())
    }

    /// Ends the run where more messages were sent than may be.
    pub(crate) fn within_limit(&mut self) -> Result<Option<Ending>, NoMemory>
        ensures ends { IfOk result (λ ending. IfSome ending EndsTurn) }
        ensures turned { IfOk result (TellsLimit self.old self.new) }
        ensures members { OnOk result (self.new.members ≡ self.old.members) }
        ensures config { OnOk result (self.new.config ≡ self.old.config) }
        ensures seat { OnOk result (self.new.outside.seat ≡ self.old.outside.seat) }
        ensures number { OnOk result (self.new.outside.number ≡ self.old.outside.number) }
    {
        if self.outside.network.len() <= MOST_ENTRIES {
            return Ok(None);
        }
        let limit = MOST_ENTRIES as u64;
        put_limit(&mut self.outside.text, self.outside.number, limit)?;
        Ok(Some(Ending::Limit(limit)))
    }
}
