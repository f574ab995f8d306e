//! What a ledger tells of its blocks.
ghost use Rattle.std.specs.Prelude.{◌≡◌, ◌<◌, ◌≤◌, length, slice_get, MatchOption};
ghost use Rattle.block_ledger.specs.Answers.{GivesBlock};
ghost use Rattle.block_ledger.specs.Chains.{config_in_force};
ghost use Rattle.block_ledger.specs.Ledgers.{blocks_of, first_config};
ghost use Rattle.block_ledger.specs.Places.{place_after};

use crate::{Ledger, LedgerFault};
use gate_log::Disk;
use ord_types::{Block, Config, Digest, Place, Proof};
use std::alloc::Global;

impl Ledger {
    /// The block of a number with its proof, if the ledger has it.
    #[tactic(auto, unfolding(crate::specs::Ledgers::blocks_of))]
    pub fn get<D: Disk>(
        &self,
        _alloc: Global,
        disk: &mut D,
        number: u64,
    ) -> Result<Option<(Block, Proof)>, LedgerFault>
        ensures value { GivesBlock (slice_get (blocks_of self.now) number) result }
        ensures same { disk.new ≡ disk.old }
    {
        Ok(self.blocks.chain.copy_of(number)?)
    }

    /// The number of the next block.
    pub fn height(&self) -> u64
        ensures { result ≡ length (blocks_of self.now) }
    {
        self.blocks.place.height
    }

    /// The hash of the last block.
    pub fn last_hash(&self) -> Digest
        ensures { result ≡ (place_after (first_config self.now) (blocks_of self.now)).last }
    {
        self.blocks.place.last
    }

    /// Where the ledger stands.
    pub fn place(&self) -> &Place
        ensures { result.now ≡ place_after (first_config self.now) (blocks_of self.now) }
    {
        &self.blocks.place
    }

    /// The configuration in force at a number, for numbers up to the height.
    pub fn config_at(&self, number: u64) -> Option<&Config>
        ensures { MatchOption result (length (blocks_of self.now) < number) (λ config. (number ≤ length (blocks_of self.now)) × (config.now ≡ config_in_force (first_config self.now) (blocks_of self.now) number)) }
    {
        if number <= self.blocks.place.height {
            Some(&self.blocks.place.config)
        } else {
            None
        }
    }
}
