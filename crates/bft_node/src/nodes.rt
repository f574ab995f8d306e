//! The nodes of one world, each with its disk in memory.
ghost use Rattle.std.specs.Prelude.{◌≡◌, None, Some, OnOk, is_some, true, option_map, slice_get, ℕ};
ghost use Rattle.ord_types.specs.Genesis.{IsGenesisConfig};
ghost use Rattle.block_ledger.specs.Answers.{GivesBlock};
ghost use Rattle.bft_node.specs.Lodgings.{
  Adds,
  Becomes,
  IsKeptIn,
  Lodging,
  ReadsAt,
  StepsAt,
  accepts_of,
  with_arm,
};
ghost use Rattle.bft_node.specs.Running.{chain_of};
ghost use Rattle.bft_node.specs.declared.lodged.Lodged.{Lodged as SomeLodged};

use crate::live::{Out, Setup};
use crate::{Node, NodeFault, OpenFault};
use block_ledger::LedgerFault;
use gate_log::{Image, MemDisk};
use node_model::Event;
use ord_types::{Block, NoMemory, Proof};
use signer_edge::SealSeat;
use std::alloc::Global;

/// The nodes of one world by their ids, each with its disk in memory.
pub trait Nodes {
    /// Which node stands under an id.
    ghost at: { Self → Lodging };

    /// Opens a node on what this disk holds. No node may stand under its id.
    fn add(
        &mut self,
        alloc: Global,
        setup: &Setup,
        disk: MemDisk,
        keys: &mut SealSeat,
    ) -> Result<(), OpenFault>
        requires genesis { IsGenesisConfig setup.now.genesis }
        requires free { at self.old setup.now.me ≡ None }
        ensures adds { Adds (at self.old) (at self.new) setup.now (accepts_of keys.old) disk result }
        ensures keys { keys.new ≡ keys.old };

    /// An event of a node. After a failure the node is closed.
    fn step(&mut self, node: u32, event: Event, keys: &mut SealSeat) -> Result<Out, NodeFault>
        requires there { is_some (at self.old node) ≡ true }
        requires kept { (l : SomeLodged) → at self.old node ≡ Some l → IsKeptIn l }
        ensures { StepsAt (at self.old) (at self.new) node event keys.old keys.new result };

    /// Arms the disk of a node: it stops at this counted call from here, counted from 1, and leaves this
    /// image.
    fn arm(&mut self, node: u32, call: u32, image: Image)
        requires { is_some (at self.old node) ≡ true }
        ensures { Becomes (at self.old) (at self.new) node
            (option_map (with_arm call image) (at self.old node)) };

    /// Takes a node away. The answer is its disk as it stands.
    fn stop(&mut self, node: u32) -> MemDisk
        requires { is_some (at self.old node) ≡ true }
        ensures disk { option_map (λ l. l.disk) (at self.old node) ≡ Some result }
        ensures gone { Becomes (at self.old) (at self.new) node None };

    /// A node.
    fn node(&self, node: u32) -> &Node
        requires { is_some (at self.now node) ≡ true }
        ensures { option_map (λ l. l.node) (at self.now node) ≡ Some result.now };

    /// The block of a number in the ledger of a node, with its proof, if the ledger has it.
    fn get(&mut self, node: u32, number: u64) -> Result<Option<(Block, Proof)>, LedgerFault>
        requires { is_some (at self.old node) ≡ true }
        ensures value { (l : SomeLodged) → at self.old node ≡ Some l
            → GivesBlock (slice_get (chain_of l.node.running) number) result }
        ensures reads { ReadsAt (at self.old) (at self.new) node };
}
