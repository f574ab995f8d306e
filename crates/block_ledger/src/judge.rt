//! Which block may come next at a place, behind which proof.
ghost use Rattle.std.specs.Prelude.{◌≡◌, ◌≤◌, None, length, IfOk, OnErr};
ghost use Rattle.std.specs.Str.{bytes_eq};
ghost use Rattle.block_ledger.specs.Orders.{IsBounded};
ghost use Rattle.ord_types.specs.Grammar.{HasBlockSpelling};
ghost use Rattle.ord_types.specs.Members.{is_raft};
ghost use Rattle.ord_types.specs.Spelling.{block_text};
ghost use Rattle.block_ledger.specs.Judging.{genesis_fault, next_refusal, proof_refusal};
ghost use Rattle.block_ledger.specs.Chains.{IsGenesisBlock};

use crate::entry::block_bytes;
use crate::fault::{NextRefusal, StoredWhy};
use chan_config::{BlockRefusal, check_block};
use ord_types::{Block, Cert, Config, Digest, Kind, NoMemory, Place, Proof, block_hash};
use signer_edge::{Verifier, check_cert};
use std::alloc::Global;

fn is_raft(config: &Config) -> bool
    ensures { result ≡ is_raft config.now }
{
    match config.kind {
        Kind::Raft => true,
        Kind::Bft => false,
    }
}

// What is wrong with a block's proof under a configuration.
fn proof_refusal<V: Verifier>(
    config: &Config,
    block: &Block,
    proof: &Proof,
    verifier: &V,
) -> Option<NextRefusal>
    requires some { 1 ≤ length config.now.members }
    requires few { length config.now.members ≤ 31 }
    ensures { result ≡ proof_refusal (V.accepts verifier.now) config.now (block.now, proof.now) }
{
    match proof {
        Proof::Raft => {
            if is_raft(config) {
                None
            } else {
                Some(NextRefusal::Proof)
            }
        }
        Proof::Bft(cert) => {
            if is_raft(config) {
                return Some(NextRefusal::Proof);
            }
            let hash = block_hash(&block.header);
            match check_cert(config, block.header.number, &hash, cert, verifier) {
                Ok(()) => None,
                Err(refusal) => Some(NextRefusal::Cert(refusal)),
            }
        }
    }
}

/// Why a block with its proof may not come next at a place: what is wrong with the block, else with the proof.
pub fn next_refusal<V: Verifier>(
    alloc: Global,
    place: &Place,
    block: &Block,
    proof: &Proof,
    verifier: &V,
) -> Result<Option<NextRefusal>, NoMemory>
    requires { IsBounded place.now.config }
    ensures refusal { IfOk result (λ refusal. refusal ≡ next_refusal (V.accepts verifier.now) place.now (block.now, proof.now)) }
    ensures memory { OnErr result (next_refusal (V.accepts verifier.now) place.now (block.now, proof.now) ≡ None) }
{
    match check_block(alloc, place, block, verifier) {
        Err(BlockRefusal::NoMemory) => Err(NoMemory),
        Err(refusal) => Ok(Some(NextRefusal::Block(refusal))),
        Ok(_) => Ok(proof_refusal(&place.config, block, proof, verifier)),
    }
}

// Whether two blocks are spelled alike.
fn is_same(alloc: Global, one: &Block, two: &Block) -> Result<bool, NoMemory>
    requires one { HasBlockSpelling one.now }
    requires two { HasBlockSpelling two.now }
    ensures { IfOk result (λ same. same ≡ bytes_eq (block_text one.now) (block_text two.now)) }
{
    let first = block_bytes(alloc, one)?;
    let second = block_bytes(alloc, two)?;
    Ok(first.as_slice() == second.as_slice())
}

/// Why a block with its proof isn't block 0 of the chain that begins with the genesis block.
pub fn genesis_fault(
    alloc: Global,
    genesis: &Block,
    block: &Block,
    proof: &Proof,
) -> Result<Option<StoredWhy>, NoMemory>
    requires genesis { HasBlockSpelling genesis.now }
    requires block { HasBlockSpelling block.now }
    ensures { (c : Config) → IsGenesisBlock c genesis.now → IfOk result (λ fault. fault ≡ genesis_fault c (block.now, proof.now)) }
{
    if !is_same(alloc, block, genesis)? {
        return Ok(Some(StoredWhy::Other(block_hash(&block.header), block_hash(&genesis.header))));
    }
    match proof {
        Proof::Raft => Ok(None),
        Proof::Bft(_) => Ok(Some(StoredWhy::Proof)),
    }
}
