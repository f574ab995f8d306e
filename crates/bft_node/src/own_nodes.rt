//! The nodes of one world in a plain map.
ghost use Rattle.std.specs.Prelude.{◌≡◌, None, ℕ};

use crate::live::{Out, Setup};
use crate::lodged::Lodged;
use crate::nodes::Nodes;
use crate::{Node, NodeFault, OpenFault};
use block_ledger::LedgerFault;
use gate_log::{Image, MemDisk};
use node_model::Event;
use ord_types::{Block, Proof};
use signer_edge::SealSeat;
use std::alloc::Global;
use std::collections::BTreeMap;

/// A plain map of nodes.
#[derive(Drop)]
pub struct OwnNodes {
    alloc: Global,
    lodged: BTreeMap<u32, Lodged>,
}

impl OwnNodes {
    /// No nodes.
    pub fn new(alloc: Global) -> OwnNodes
        ensures { (id : ℕ) → ⟦<OwnNodes as Nodes>⟧.at result id ≡ None }
    {
        OwnNodes {
            alloc,
            lodged: BTreeMap::new(alloc),
        }
    }
}

impl Nodes for OwnNodes {
    ghost use Rattle.std.specs.BTreeMap.{get};
    ghost use Rattle.std.specs.Ordering.{nat_cmp};

    ghost at = { λ nodes. get nat_cmp nodes.lodged };

    fn add(
        &mut self,
        alloc: Global,
        setup: &Setup,
        disk: MemDisk,
        keys: &mut SealSeat,
    ) -> Result<(), OpenFault> {
        let lodged = Lodged::open(alloc, setup, disk, keys)?;
        match self.lodged.insert(setup.me, lodged) {
            Ok(_) => Ok(()),
            Err(_) => Err(OpenFault::NoMemory),
        }
    }

    fn step(&mut self, node: u32, event: Event, keys: &mut SealSeat) -> Result<Out, NodeFault> {
        match self.lodged.get_mut(&node) {
            Some(lodged) => lodged.step(event, keys),
            None => unreachable!(),
        }
    }

    fn arm(&mut self, node: u32, call: u32, image: Image) {
        if let Some(lodged) = self.lodged.get_mut(&node) {
            lodged.disk.arm(call, image);
        }
    }

    fn stop(&mut self, node: u32) -> MemDisk {
        match self.lodged.remove(&node) {
            Some(lodged) => lodged.disk,
            None => unreachable!(),
        }
    }

    fn node(&self, node: u32) -> &Node {
        match self.lodged.get(&node) {
            Some(lodged) => &lodged.node,
            None => unreachable!(),
        }
    }

    fn get(&mut self, node: u32, number: u64) -> Result<Option<(Block, Proof)>, LedgerFault> {
        match self.lodged.get_mut(&node) {
            Some(lodged) => lodged
                .node
                .ledger()
                .get(self.alloc, &mut lodged.disk, number),
            None => unreachable!(),
        }
    }
}
