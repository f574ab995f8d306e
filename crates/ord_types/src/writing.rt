ghost use Rattle.std.specs.Prelude.{◌≡◌, ℕ, List, [], ◌++◌, take, true, false, OnOk, OnErr};
ghost use Rattle.std.specs.Int.{w8, w16, w32, w64, to_be_bytes};
ghost use Rattle.ord_types.specs.Growth.{Grew, grew_nothing, grew_both, Hashed, hashed_nothing, hashed_both};

use crate::lists::{Bytes, NoMemory};
use byteorder::{BigEndian, ByteOrder};
use sha2::{Digest as Hasher, Sha256};
use std::mem;

/// Takes the bytes of a spelled value, piece by piece.
pub trait Writer {
    // From the first state to the second it took these bytes.
    ghost took: { Self → Self → List ℕ → Type 0 };

    /// Takes these bytes.
    fn put(&mut self, bytes: &[u8])
        ensures { took self.old self.new bytes.now };

    final fn put_u8(&mut self, number: u8)
        ensures { took self.old self.new (to_be_bytes w8 number) }
    {
        self.put(&[number]);
    }

    final fn put_u16(&mut self, number: u16)
        ensures { took self.old self.new (to_be_bytes w16 number) }
    {
        let mut bytes = [0; 2];
        BigEndian::write_u16(&mut bytes, number);
        self.put(&bytes);
    }

    final fn put_u32(&mut self, number: u32)
        ensures { took self.old self.new (to_be_bytes w32 number) }
    {
        let mut bytes = [0; 4];
        BigEndian::write_u32(&mut bytes, number);
        self.put(&bytes);
    }

    final fn put_u64(&mut self, number: u64)
        ensures { took self.old self.new (to_be_bytes w64 number) }
    {
        let mut bytes = [0; 8];
        BigEndian::write_u64(&mut bytes, number);
        self.put(&bytes);
    }

    ghost at_rest: { (a : Self) → took a a [] };

    ghost joined: { (a b c : Self) (xs ys : List ℕ) → took a b xs → took b c ys → took a c (xs ++ ys) };
}

impl Writer for Sha256 {
    ghost took = { Hashed };

    ghost at_rest = { hashed_nothing };

    ghost joined = { hashed_both };

    fn put(&mut self, bytes: &[u8]) {
        self.update(bytes);
    }
}

/// Bytes that take no more once memory has run out.
#[derive(Drop)]
pub struct Growing {
    bytes: Bytes,
    ran_out: bool,
}

impl Growing {
    /// Takes the bytes out, to add to them.
    pub fn of(bytes: &mut Bytes) -> Growing
        ensures bytes { result.bytes ≡ bytes.old }
        ensures room { result.ran_out ≡ false }
    {
        Growing {
            bytes: bytes.take(),
            ran_out: false,
        }
    }

    /// Gives the bytes back. Where memory has run out they are cut to what they were.
    pub fn give(self, out: &mut Bytes, before: usize) -> Result<(), NoMemory>
        ensures ok { OnOk result ((self.ran_out ≡ false) × (out.new ≡ self.bytes)) }
        ensures err { OnErr result (out.new ≡ take before self.bytes) }
    {
        let Growing { bytes, ran_out } = self;
        *out = bytes;
        if ran_out {
            out.truncate(before);
            return Err(NoMemory);
        }
        Ok(())
    }
}

impl Writer for Growing {
    ghost took = { λ a b xs. Grew a.bytes a.ran_out b.bytes b.ran_out xs };

    ghost at_rest = { λ a. grew_nothing a.bytes a.ran_out };

    ghost joined = { λ a b c xs ys. grew_both a.bytes b.bytes c.bytes a.ran_out b.ran_out c.ran_out xs ys };

    fn put(&mut self, bytes: &[u8]) {
        if !self.ran_out && self.bytes.extend_from_slice(bytes).is_err() {
            self.ran_out = true;
        }
    }
}
