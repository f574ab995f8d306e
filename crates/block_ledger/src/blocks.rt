//! The blocks of a ledger in memory.
ghost use Rattle.std.specs.Prelude.{◌≡◌, ℕ, ◌-◌, ◌<◌, ◌^◌, List, [], ◌∷◌, ◌++◌, length, take, IfOk, OnOk, OnErr};
ghost use Rattle.block_ledger.specs.Chains.{Entry, IsGenesisBlock, genesis_entry};
ghost use Rattle.block_ledger.specs.Entries.{HasEntrySpelling};
ghost use Rattle.block_ledger.specs.Orders.{IsInOrder};
ghost use Rattle.block_ledger.specs.Places.{cert_in, next_place};

use crate::chain::Chain;
use ord_types::{Block, Cert, Config, Copied, NoMemory, Place, Proof, block_hash};
use std::alloc::Global;
use std::mem;

/// Blocks with their proofs, and the place behind them.
#[derive(Drop)]
pub struct Blocks {
    pub(crate) chain: Chain,
    pub(crate) place: Place,
    ghost in_order: { IsInOrder chain place },
}

// A copy of a proof's certificate, if it has one.
fn cert_in(proof: &Proof) -> Result<Option<Cert>, NoMemory>
    ensures { IfOk result (λ cert. cert ≡ cert_in proof.now) }
{
    match proof {
        Proof::Raft => Ok(None),
        Proof::Bft(cert) => Ok(Some(cert.copy()?)),
    }
}

// The place behind one more block. No change is ordered yet, so the configuration stays.
#[tactic(auto, unfolding(crate::specs::Places::next_place, chan_config::specs::Blocks::change_in))]
fn next_place(place: &Place, block: &Block, proof: &Proof) -> Result<Place, NoMemory>
    requires { place.now.height < 2 ^ 62 }
    ensures { IfOk result (λ next. next ≡ next_place place.now (block.now, proof.now)) }
{
    let config = place.config.copy()?;
    let last_meta = block.meta.copy()?;
    let last_cert = cert_in(proof)?;
    Ok(Place {
        config,
        start: place.start,
        height: place.height + 1,
        last: block_hash(&block.header),
        last_meta,
        last_cert,
    })
}

impl Blocks {
    /// The genesis block alone.
    pub fn first(alloc: Global, config: Config, genesis: Block) -> Result<Blocks, NoMemory>
        requires { IsGenesisBlock config genesis }
        ensures chain { IfOk result (λ blocks. blocks.chain ≡ genesis_entry config ∷ []) }
        ensures config { IfOk result (λ blocks. blocks.place.config ≡ config) }
    {
        let last = block_hash(&genesis.header);
        let last_meta = genesis.meta.copy()?;
        let mut chain = Chain::new(alloc);
        chain.push((genesis, Proof::Raft))?;
        Ok(Blocks {
            chain,
            place: Place {
                config,
                start: 1,
                height: 1,
                last,
                last_meta,
                last_cert: None,
            },
        })
    }

    /// Adds a block with its proof. Gives the place before it.
    pub fn add(&mut self, block: Block, proof: Proof) -> Result<Place, NoMemory>
        requires spelled { HasEntrySpelling (block, proof) }
        requires room { self.old.place.height < 2 ^ 62 }
        ensures ok { OnOk result (self.new.chain ≡ self.old.chain ++ (block, proof) ∷ []) }
        ensures config { self.new.place.config ≡ self.old.place.config }
        ensures before { IfOk result (λ place. place ≡ self.old.place) }
        ensures err { OnErr result (self.new ≡ self.old) }
    {
        let place = next_place(&self.place, &block, &proof)?;
        self.chain.push((block, proof))?;
        Ok(mem::replace(&mut self.place, place))
    }

    /// Drops the last block. The place is the one before it.
    pub fn drop_last(&mut self, place: Place)
        requires { IsInOrder (take (length self.old.chain - 1) self.old.chain) place }
        ensures chain { self.new.chain ≡ take (length self.old.chain - 1) self.old.chain }
        ensures place { self.new.place ≡ place }
    {
        self.chain.drop_last();
        self.place = place;
    }
}
