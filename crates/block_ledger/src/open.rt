ghost use Rattle.std.specs.Prelude.{◌≡◌, ℕ, ◌≤◌, ◌<◌, ◌^◌, List, [], ◌∷◌, ◌++◌, length, map, IsTrue, IfOk, OnOk, OnErr, true, None};
ghost use Rattle.ord_types.specs.declared.values.Config.{Config as FirstConfig};
ghost use Rattle.gate_log.specs.Disk.{now};
ghost use Rattle.gate_log.specs.Runs.{Leaves};
ghost use Rattle.gate_log.specs.Settled.{IsSettled};
ghost use Rattle.block_ledger.specs.Answers.{BeginAnswers, OnRefusal, OpenAnswers, LedgerOpensTo};
ghost use Rattle.block_ledger.specs.Chains.{IsChain, IsGenesisBlock, IsSomeGenesis, genesis_entry};
ghost use Rattle.block_ledger.specs.Judging.{stored_why};
ghost use Rattle.signer_edge.specs.Accepts.{Accepts};
ghost use Rattle.block_ledger.specs.Ledgers.{IsKept, StandsAsBefore, blocks_of, first_config};
ghost use Rattle.block_ledger.specs.Loading.{AddsStored, BeginsStored, LoadsAll, ReadsStored, grammar_fault};
ghost use Rattle.block_ledger.specs.Reading.{Chain, read_chain, stands_for};

use crate::blocks::Blocks;
use crate::entry::{entry_bytes, read_entry};
use crate::fault::{NextRefusal, StoredWhy};
use crate::judge::{genesis_fault, next_refusal};
use crate::ledger::LEDGER_FILE;
use crate::{Ledger, LedgerFault};
use gate_log::{Disk, GateLog};
use ord_types::{Block, Bytes, Config, Copied, List, NoMemory, Proof, ReadFault, read_config};
use signer_edge::Verifier;
use std::alloc::Global;

// Why a stored block is refused.
fn stored_why(refusal: NextRefusal) -> StoredWhy
    ensures { result ≡ stored_why refusal }
{
    match refusal {
        NextRefusal::Block(refusal) => StoredWhy::Block(refusal),
        NextRefusal::Proof => StoredWhy::Proof,
        NextRefusal::Cert(refusal) => StoredWhy::Cert(refusal),
    }
}

// The fault of a stored entry that isn't a block and its proof.
fn grammar_fault(number: u64, fault: ReadFault) -> LedgerFault
    ensures { result ≡ grammar_fault number fault }
{
    match fault {
        ReadFault::Short(at) => LedgerFault::Stored(number, StoredWhy::Grammar(at)),
        ReadFault::BadField(at) => LedgerFault::Stored(number, StoredWhy::Grammar(at)),
        ReadFault::Trailing(at) => LedgerFault::Stored(number, StoredWhy::Grammar(at)),
        ReadFault::NoMemory => LedgerFault::NoMemory,
    }
}

// A stored block and its proof.
fn stored_entry(alloc: Global, number: u64, bytes: &[u8]) -> Result<(Block, Proof), LedgerFault>
    ensures { ReadsStored number bytes.now result }
{
    match read_entry(alloc, bytes) {
        Ok(entry) => Ok(entry),
        Err(fault) => Err(grammar_fault(number, fault)),
    }
}

// Reads the stored block 0.
fn first_stored(
    alloc: Global,
    bytes: &[u8],
    config: Config,
    genesis: &Block,
) -> Result<Blocks, LedgerFault>
    requires { IsGenesisBlock config genesis.now }
    ensures { (accepts : Accepts) → BeginsStored accepts config bytes.now result }
{
    let (block, proof) = stored_entry(alloc, 0, bytes)?;
    if let Some(why) = genesis_fault(alloc, genesis, &block, &proof)? {
        return Err(LedgerFault::Stored(0, why));
    }
    let blocks = Blocks::first(alloc, config, block)?;
    Ok(blocks)
}

// Reads one more stored block.
fn add_stored<V: Verifier>(
    alloc: Global,
    bytes: &[u8],
    blocks: &mut Blocks,
    verifier: &V,
) -> Result<(), LedgerFault>
    ensures added { AddsStored (V.accepts verifier.now) blocks.old.place.config blocks.old.chain bytes.now blocks.new.chain result }
    ensures config { blocks.new.place.config ≡ blocks.old.place.config }
{
    let number = blocks.place.height;
    let (block, proof) = match stored_entry(alloc, number, bytes) {
        Ok(entry) => entry,
        Err(fault) => return Err(fault),
    };
    if let Some(refusal) = next_refusal(alloc, &blocks.place, &block, &proof, verifier)? {
        return Err(LedgerFault::Stored(number, stored_why(refusal)));
    }
    let _ = blocks.add(block, proof)?;
    Ok(())
}

// Reads the stored blocks, up to the first that breaks the rules.
fn read_blocks<V: Verifier>(
    alloc: Global,
    entries: &List<Bytes>,
    config: Config,
    genesis: &Block,
    verifier: &V,
) -> Result<Blocks, LedgerFault>
    requires genesis { IsGenesisBlock config genesis.now }
    requires some { 1 ≤ length entries.now }
    ensures { LoadsAll (V.accepts verifier.now) config entries.now (read_chain (V.accepts verifier.now) config entries.now) result }
{
    let entries = entries.as_slice();
    let mut blocks = match first_stored(alloc, entries[0].as_slice(), config, genesis) {
        Ok(blocks) => blocks,
        Err(fault) => return Err(fault),
    };
    for bytes in &entries[1..] {
        if let Err(fault) = add_stored(alloc, bytes.as_slice(), &mut blocks, verifier) {
            return Err(fault);
        }
    }
    Ok(blocks)
}

// The configuration that the genesis block carries.
fn config_in(alloc: Global, genesis: &Block) -> Result<Config, NoMemory>
    requires { IsSomeGenesis genesis.now }
    ensures { IfOk result (λ config. IsGenesisBlock config genesis.now) }
{
    let payload = genesis.requests.as_slice()[0].payload.as_slice();
    match read_config(alloc, payload, 0) {
        Ok((config, _)) => Ok(config),
        // that of a genesis block can be read
        Err(_) => Err(NoMemory),
    }
}

// Makes an empty log a ledger of the genesis block.
fn begin<D: Disk>(
    alloc: Global,
    disk: &mut D,
    log: GateLog,
    config: Config,
    genesis: &Block,
) -> Result<Ledger, LedgerFault>
    requires file { log.file ≡ 2 }
    requires settled { IsTrue (D.tells disk.old) → IsSettled log (now (D.moments disk.old)) }
    requires empty { log.entries ≡ [] }
    requires genesis { IsGenesisBlock config genesis.now }
    ensures kept { IsTrue (D.tells disk.old) → IfOk result (λ ledger. IsKept ledger (now (D.moments disk.new))) }
    ensures value { IfOk result (λ ledger. (blocks_of ledger ≡ genesis_entry config ∷ []) × (first_config ledger ≡ config)) }
    ensures any_moment { (accepts : Accepts) → IsTrue (D.tells disk.old) → Leaves 2
        (λ bytes. stands_for accepts config bytes ≡ Chain (genesis_entry config ∷ [])) (D.moments disk.old) (D.moments disk.new) }
    ensures refused { OnRefusal result (disk.new ≡ disk.old) }
    ensures tells { D.tells disk.new ≡ D.tells disk.old }
    ensures later { D.faults disk.old ≤ D.faults disk.new }
    ensures cause { BeginAnswers (D.tells disk.old) (D.faults disk.old) (D.faults disk.new) result }
{
    let bytes = entry_bytes(alloc, genesis, &Proof::Raft)?;
    let blocks = Blocks::first(alloc, config, genesis.copy()?)?;
    let mut log = log;
    match log.append(alloc, disk, bytes.as_slice()) {
        Ok(()) => Ok(Ledger { log, blocks }),
        Err(fault) => Err(LedgerFault::from(fault)),
    }
}

impl Ledger {
    /// Opens the ledger of the chain that begins with this genesis block. An empty file gets it.
    pub fn open<D: Disk, V: Verifier>(
        alloc: Global,
        disk: &mut D,
        genesis: &Block,
        verifier: &V,
    ) -> Result<Ledger, LedgerFault>
        requires { IsSomeGenesis genesis.now }

        ensures kept { IsTrue (D.tells disk.old) → IfOk result (λ ledger. IsKept ledger (now (D.moments disk.new))) }
        ensures config { IfOk result (λ ledger. IsGenesisBlock (first_config ledger) genesis.now) }
        ensures chain { IfOk result (λ ledger. IsChain (V.accepts verifier.now) (first_config ledger) (blocks_of ledger)) }
        ensures value { (c : FirstConfig) → IsGenesisBlock c genesis.now → IsTrue (D.tells disk.old)
            → LedgerOpensTo (stands_for (V.accepts verifier.now) c (now (D.moments disk.old) 2).reads) result }

        // A crash at any moment of the call leaves what stands for what a crash before it could have stood for. No other file
        // changes.
        ensures any_moment { (c : FirstConfig) → IsGenesisBlock c genesis.now → IsTrue (D.tells disk.old) → Leaves 2
            (StandsAsBefore (V.accepts verifier.now) c (now (D.moments disk.old) 2)) (D.moments disk.old) (D.moments disk.new) }

        // After a refusal the file stands for what it stood for.
        ensures refused { (c : FirstConfig) → IsGenesisBlock c genesis.now → IsTrue (D.tells disk.old) → OnRefusal result
            (stands_for (V.accepts verifier.now) c (now (D.moments disk.new) 2).reads ≡ stands_for (V.accepts verifier.now) c (now (D.moments disk.old) 2).reads) }
        ensures tells { D.tells disk.new ≡ D.tells disk.old }
        ensures later { D.faults disk.old ≤ D.faults disk.new }
        ensures cause { OpenAnswers (D.tells disk.old) (D.faults disk.old) (D.faults disk.new) result }
    {
        let config = config_in(alloc, genesis)?;
        let log = GateLog::open(alloc, disk, LEDGER_FILE)?;
        if log.entries().is_empty() {
            let ledger = begin(alloc, disk, log, config, genesis)?;
            return Ok(ledger);
        }
        let blocks = read_blocks(alloc, log.entries(), config, genesis, verifier)?;
        Ok(Ledger { log, blocks })
    }
}
