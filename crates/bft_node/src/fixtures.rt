//! Disks, a verifier and blocks for the tests.
// The bytes were written out by hand, the hashes made elsewhere.
ghost use Rattle.std.specs.Prelude.{◌≡◌, ◌≤◌, IfOk};
ghost use Rattle.ord_types.specs.Causes.{Rose};
ghost use Rattle.ord_types.specs.Genesis.{IsGenesisConfig};
ghost use Rattle.ord_types.specs.Grammar.{HasBlockSpelling, HasCertSpelling};
ghost use Rattle.block_ledger.specs.Chains.{IsSomeGenesis};

use gate_log::{Disk, Image, MemDisk};
use ord_types::{
    Batch, Block, Bytes, Cert, Config, Digest, Failed, Kind, List, Mode, NoMemory, Sig,
    genesis_block, whole_block, whole_cert,
};
use signer_edge::{Verifier, commit_statement};
use std::alloc::Global;
use std::test::Fail;

// A disk in memory of which nothing is told, so that a test needs no proof of what it holds.
#[derive(Drop)]
pub struct Quiet {
    pub disk: MemDisk,
    faults: u64,
}

impl Quiet {
    fn fault(&mut self) -> Failed
        ensures { (self.old.faults ≤ self.new.faults) × Rose self.old.faults self.new.faults }
    {
        self.faults = self.faults.saturating_add(1);
        Failed
    }
}

impl Disk for Quiet {
    ghost use Rattle.std.specs.Prelude.{false, []};
    ghost use Rattle.std.proofs.lemmas.Bool.{false≢true};

    ghost tells = { λ _. false };

    ghost moments = { λ _. [] };

    ghost faults = { λ quiet. quiet.faults };

    fn len(&mut self, file: u8) -> Result<u64, Failed> {
        match self.disk.len(file) {
            Ok(len) => Ok(len),
            Err(_) => Err(self.fault()),
        }
    }

    fn read(&mut self, file: u8, at: u64, into: &mut [u8]) -> Result<usize, Failed> {
        let Ok(len) = self.disk.len(file) else {
            return Err(self.fault());
        };
        if at >= len {
            return Err(self.fault());
        }
        match self.disk.read(file, at, into) {
            Ok(count) => Ok(count),
            Err(_) => Err(self.fault()),
        }
    }

    fn write_at(&mut self, file: u8, at: u64, bytes: &[u8]) -> Result<(), Failed> {
        match self.disk.write_at(file, at, bytes) {
            Ok(()) => Ok(()),
            Err(_) => Err(self.fault()),
        }
    }

    fn sync(&mut self, file: u8) -> Result<(), Failed> {
        match self.disk.sync(file) {
            Ok(()) => Ok(()),
            Err(_) => Err(self.fault()),
        }
    }

    ghost reads_is_left = { λ quiet file told. absurd (false≢true told) };
}

pub fn empty(alloc: Global) -> Result<Quiet, NoMemory> {
    let disk = MemDisk::new(alloc)?;
    Ok(Quiet { disk, faults: 0 })
}

// The disk after a crash.
pub fn crashed(quiet: Quiet, image: Image) -> Result<Quiet, NoMemory> {
    let disk = quiet.disk.crash(image)?;
    Ok(Quiet { disk, faults: 0 })
}

// Accepts a signature that repeats its statement.
#[derive(Clone, Copy)]
pub struct Echo;

impl Verifier for Echo {
    ghost use Rattle.std.specs.Str.{bytes_eq};

    ghost accepts = { λ _ statement sig. bytes_eq sig.bytes statement };

    fn verify(&self, statement: &[u8], sig: &Sig) -> bool {
        sig.bytes.as_slice() == statement
    }
}

// One ordinary request 7:1 with the payload `abc`, and its hash.
pub const REQUESTS: [u8; 24] = *b"\0\0\0\x01\x01\0\0\0\x07\0\0\0\0\0\0\0\x01\0\0\0\x03abc";

pub const CONTENT: Digest = [
    0x35, 0x95, 0x30, 0x22, 0xa7, 0x33, 0x99, 0x97, 0xa6, 0xc9, 0x1c, 0xd0, 0xaf, 0x00, 0x15, 0xc3,
    0x1c, 0x36, 0x29, 0x35, 0x41, 0xd0, 0x57, 0x68, 0x71, 0xe5, 0x84, 0xfa, 0x3b, 0x5f, 0x94, 0x01,
];

// The hash of a meta under configuration 0, in view 0, with nothing else.
pub const META: Digest = [
    0x65, 0x9d, 0x36, 0xca, 0x56, 0x3b, 0xa4, 0x62, 0x2d, 0xaa, 0xbb, 0x36, 0xa7, 0x1d, 0xaf, 0xaf,
    0x60, 0x60, 0xcd, 0xcb, 0xf8, 0x9b, 0xb1, 0x2e, 0x75, 0x42, 0x61, 0x98, 0x49, 0x6d, 0x27, 0x2c,
];

// The hashes of the BFT genesis block, of a block 1 behind it and of a block 2 behind that.
pub const ZERO: Digest = [
    0xb0, 0x90, 0x21, 0xce, 0xc1, 0xeb, 0xc3, 0x8d, 0x7f, 0xec, 0xde, 0x56, 0xc3, 0xe6, 0x3b, 0xbb,
    0x0d, 0x13, 0xea, 0xe9, 0x70, 0x7f, 0xc1, 0x55, 0x74, 0xff, 0xbc, 0xb4, 0xeb, 0x54, 0xf3, 0xdd,
];

pub const ONE: Digest = [
    0xc0, 0x28, 0x3c, 0x49, 0x94, 0x50, 0x22, 0x86, 0x57, 0xf7, 0xdb, 0x6a, 0x2a, 0xd8, 0x36, 0x87,
    0xa7, 0xcb, 0x76, 0xc0, 0x38, 0xc2, 0xd1, 0x7b, 0x0f, 0x95, 0xbf, 0xf3, 0xef, 0x30, 0x76, 0x01,
];

// Members 1 to 4.
fn config_of_four(alloc: Global) -> Result<Config, NoMemory>
    ensures { IfOk result IsGenesisConfig }
{
    let mut members = List::new(alloc);
    members.push(1)?;
    members.push(2)?;
    members.push(3)?;
    members.push(4)?;
    Ok(Config {
        number: 0,
        kind: Kind::Bft,
        mode: Mode::Normal,
        members,
        batch: Batch {
            count: 2,
            preferred: 20,
            absolute: 1000,
            wait: 10,
        },
        rotation: 0,
    })
}

pub fn genesis_of(alloc: Global) -> Result<Block, NoMemory>
    ensures { IfOk result IsSomeGenesis }
{
    let config = config_of_four(alloc)?;
    Ok(genesis_block(alloc, &config)?)
}

// Block 1, with the hash `ONE`.
pub fn first_block(alloc: Global) -> Result<Block, Fail>
    ensures { IfOk result HasBlockSpelling }
{
    let mut bytes = Bytes::from_slice(alloc, &1u64.to_be_bytes())?;
    bytes.extend_from_slice(&ZERO)?;
    bytes.extend_from_slice(&CONTENT)?;
    bytes.extend_from_slice(&META)?;
    bytes.extend_from_slice(&REQUESTS)?;
    bytes.extend_from_slice(&[0; 26])?;
    match whole_block(alloc, bytes.as_slice()) {
        Ok(block) => Ok(block),
        Err(_) => Err(Fail::from("a block that can be read")),
    }
}

// Its certificate of members 1, 3 and 4, in view 0.
pub fn first_cert(alloc: Global) -> Result<Cert, Fail>
    ensures { IfOk result HasCertSpelling }
{
    let statement = commit_statement(0, 0, 1, &ONE);
    let mut bytes = Bytes::from_slice(alloc, &[0, 0, 0, 0, 0, 0, 0, 0, 3])?;
    for signer in [1u32, 3, 4] {
        bytes.extend_from_slice(&signer.to_be_bytes())?;
        bytes.extend_from_slice(b"\0\x39")?;
        bytes.extend_from_slice(&statement)?;
    }
    match whole_cert(alloc, bytes.as_slice()) {
        Ok(cert) => Ok(cert),
        Err(_) => Err(Fail::from("a certificate that can be read")),
    }
}
