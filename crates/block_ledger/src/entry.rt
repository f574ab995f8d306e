//! The entries of a ledger's file: a block and its proof each.
ghost use Rattle.std.specs.Prelude.{◌≡◌, ℕ, ◌++◌, Result as Outcome, IfOk, OnOk};
ghost use Rattle.std.specs.Prelude.{List as Items};
ghost use Rattle.ord_types.specs.Faults.{Answers, AnswersWhole, BeginsWithin, IsSpelled, Reads, StaysWithin, halted_at, whole};
ghost use Rattle.ord_types.specs.Grammar.{HasBlockSpelling, HasProofSpelling};
ghost use Rattle.ord_types.specs.Spelling.{block_text, proof_text};
ghost use Rattle.ord_types.specs.declared.fault.Flaw.{Flaw as SomeFlaw};
ghost use Rattle.block_ledger.specs.Entries.{HasEntrySpelling, entry_at, entry_text};

use ord_types::{
    Block, Bytes, Flaw, Halt, NoMemory, Proof, ReadFault, Reader, put_block, put_cert,
};
use std::alloc::Global;

// The fault of what ended a reading, in so many bytes.
fn fault_of(size: usize, halt: Halt) -> ReadFault
    requires { BeginsWithin size halt }
    ensures { result ≡ halted_at size halt }
{
    match halt {
        Halt::NoMemory => ReadFault::NoMemory,
        Halt::Flawed(Flaw::Short) => ReadFault::Short(size),
        Halt::Flawed(Flaw::Bad(left)) => ReadFault::BadField(size - left),
    }
}

// What was read in so many bytes, where none are left.
fn all_of<T: Drop>(size: usize, reader: &Reader, read: Result<T, Halt>) -> Result<T, ReadFault>
    requires { StaysWithin size read reader.now }
    ensures { (given : Outcome (T × Items ℕ) SomeFlaw) → Reads read reader.now given → Answers result (whole size given) }
{
    let left = reader.left();
    match read {
        Ok(value) if left == 0 => Ok(value),
        Ok(_) => Err(ReadFault::Trailing(size - left)),
        Err(halt) => Err(fault_of(size, halt)),
    }
}

// A block and its proof from the front of the bytes.
#[tactic(auto, unfolding(crate::specs::Entries::entry_at))]
fn next_entry(alloc: Global, reader: &mut Reader) -> Result<(Block, Proof), Halt>
    ensures { Reads result reader.new (entry_at reader.old) }
{
    let block = reader.block(alloc)?;
    let proof = reader.proof(alloc)?;
    Ok((block, proof))
}

/// Reads a block and its proof that all of the bytes are.
pub fn read_entry(alloc: Global, bytes: &[u8]) -> Result<(Block, Proof), ReadFault>
    ensures exact { AnswersWhole entry_at result bytes.now }
    ensures found { IfOk result (IsSpelled HasEntrySpelling entry_text bytes.now) }
{
    let mut reader = Reader::new(bytes);
    let read = next_entry(alloc, &mut reader);
    all_of(bytes.len(), &reader, read)
}

/// The bytes of a block.
pub fn block_bytes(alloc: Global, block: &Block) -> Result<Bytes, NoMemory>
    requires { HasBlockSpelling block.now }
    ensures { IfOk result (λ bytes. bytes ≡ block_text block.now) }
{
    let mut bytes = Bytes::new(alloc);
    put_block(&mut bytes, block)?;
    Ok(bytes)
}

// Adds a proof: 0 for Raft, or 1 and the certificate.
fn put_proof(out: &mut Bytes, proof: &Proof) -> Result<(), NoMemory>
    requires { HasProofSpelling proof.now }
    ensures { OnOk result (out.new ≡ out.old ++ proof_text proof.now) }
{
    match proof {
        Proof::Raft => {
            out.push(0)?;
        }
        Proof::Bft(cert) => {
            out.push(1)?;
            put_cert(out, cert)?;
        }
    }
    Ok(())
}

/// The bytes of a block and its proof.
pub fn entry_bytes(alloc: Global, block: &Block, proof: &Proof) -> Result<Bytes, NoMemory>
    requires { HasEntrySpelling (block.now, proof.now) }
    ensures { IfOk result (λ bytes. bytes ≡ entry_text (block.now, proof.now)) }
{
    let mut bytes = block_bytes(alloc, block)?;
    put_proof(&mut bytes, proof)?;
    Ok(bytes)
}
