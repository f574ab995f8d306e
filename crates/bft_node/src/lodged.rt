//! A node with its disk in memory.
ghost use Rattle.std.specs.Prelude.{◌≡◌, IfOk, false};
ghost use Rattle.ord_types.specs.Genesis.{IsGenesisConfig};
ghost use Rattle.gate_log.specs.Disk.{now};
ghost use Rattle.gate_log.specs.History.{states};

use crate::live::{Out, Setup};
use crate::{Node, NodeFault, OpenFault};
use gate_log::MemDisk;
use node_model::Event;
use signer_edge::SealSeat;
use std::alloc::Global;

/// A node with its disk in memory.
#[derive(Drop)]
pub struct Lodged {
    pub(crate) node: Node,
    pub(crate) disk: MemDisk,
}

impl Lodged {
    ghost use Rattle.std.specs.Prelude.{MatchResult};
    ghost use Rattle.bft_node.specs.Lodgings.{IsKeptIn, IsOpenedOn, IsStepOf, accepts_of};
    ghost use Rattle.bft_node.specs.Stores.{StoreOpensTo};
    ghost use Rattle.std.specs.Prelude.{Err};

    /// Opens a node on what this disk holds.
    pub(crate) fn open(
        alloc: Global,
        setup: &Setup,
        disk: MemDisk,
        keys: &mut SealSeat,
    ) -> Result<Lodged, OpenFault>
        requires { IsGenesisConfig setup.now.genesis }
        ensures opened { MatchResult result (IsOpenedOn setup.now (accepts_of keys.old) disk)
            (λ fault.
            StoreOpensTo (accepts_of keys.old) setup.now.genesis (now (states disk.history)) (Err fault)) }
        ensures keys { keys.new ≡ keys.old }
    {
        let mut disk = disk;
        let node = Node::open(alloc, setup, &mut disk, keys)?;
        Ok(Lodged { node, disk })
    }

    /// An event of the node.
    pub(crate) fn step(&mut self, event: Event, keys: &mut SealSeat) -> Result<Out, NodeFault>
        requires { IsKeptIn self.old }
        ensures { IsStepOf self.old self.new event keys.old keys.new result }
    {
        self.node.step(event, &mut self.disk, keys)
    }
}
