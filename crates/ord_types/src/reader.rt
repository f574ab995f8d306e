//! Reads fields from the front of bytes.
ghost use Rattle.std.specs.Prelude.{◌≡◌, ℕ, ◌<◌, ◌≤◌, ◌^◌, ◌==◌, ◌&&◌, drop, length, nat_le, nat_lt, if◌then◌else◌};
ghost use Rattle.std.specs.Prelude.{List as Items};
ghost use Rattle.std.specs.Int.{w8, w16, w32, w64};
ghost use Rattle.ord_types.specs.Faults.{Reads, ReadsAs};
ghost use Rattle.ord_types.specs.Reading.{number_at, bytes_at, digest_at, below_at, count_at, tested_at};

use crate::fault::{Flaw, Halt};
use crate::limits::MOST_NUMBER;
use crate::lists::Bytes;
use crate::values::Digest;
use std::alloc::Global;
use std::marker::Model;

/// The bytes that are left to read. Each call reads a field from their front; one that answers a halt ends
/// the reading.
#[derive(Drop)]
pub struct Reader<'a> {
    rest: &'a [u8],
}

impl<'a> Model for Reader<'a> {
    ghost Value = { Items ℕ };

    ghost view = { λ reader. reader.rest.now };
}

/// A field broke its rule, at whose first byte so many bytes were left.
pub fn bad(left: usize) -> Halt
    ensures { result ≡ Halt.Flawed (Flaw.Bad left) }
{
    Halt::Flawed(Flaw::Bad(left))
}

impl<'a> Reader<'a> {
    /// Reads from the front of these bytes.
    pub fn new(bytes: &'a [u8]) -> Reader<'a>
        ensures { result ≡ bytes.now }
    {
        Reader { rest: bytes }
    }

    /// Reads from this place of these bytes on: nothing, where the place is behind them.
    pub fn at(bytes: &'a [u8], place: usize) -> Reader<'a>
        ensures { result ≡ drop place bytes.now }
    {
        let place = place.min(bytes.len());
        Reader {
            rest: &bytes[place..],
        }
    }

    /// How many bytes are left.
    pub fn left(&self) -> usize
        ensures { result ≡ length self.now }
    {
        self.rest.len()
    }

    /// The next so many bytes.
    fn take(&mut self, count: usize) -> Result<&'a [u8], Halt>
        ensures { ReadsAs (λ front. front.now) result self.new (bytes_at count self.old) }
    {
        if self.rest.len() < count {
            return Err(Halt::Flawed(Flaw::Short));
        }
        let (front, rest) = self.rest.split_at(count);
        self.rest = rest;
        Ok(front)
    }

    /// A u8.
    pub fn u8(&mut self) -> Result<u8, Halt>
        ensures { Reads result self.new (number_at w8 self.old) }
    {
        if self.rest.len() < 1 {
            return Err(Halt::Flawed(Flaw::Short));
        }
        let (front, rest) = self.rest.split_at(1);
        self.rest = rest;
        Ok(u8::from_be_bytes([front[0]]))
    }

    /// A u16.
    pub fn u16(&mut self) -> Result<u16, Halt>
        ensures { Reads result self.new (number_at w16 self.old) }
    {
        if self.rest.len() < 2 {
            return Err(Halt::Flawed(Flaw::Short));
        }
        let (front, rest) = self.rest.split_at(2);
        self.rest = rest;
        Ok(u16::from_be_bytes([front[0], front[1]]))
    }

    /// A u32.
    pub fn u32(&mut self) -> Result<u32, Halt>
        ensures { Reads result self.new (number_at w32 self.old) }
    {
        if self.rest.len() < 4 {
            return Err(Halt::Flawed(Flaw::Short));
        }
        let (front, rest) = self.rest.split_at(4);
        self.rest = rest;
        Ok(u32::from_be_bytes([front[0], front[1], front[2], front[3]]))
    }

    /// A u64.
    pub fn u64(&mut self) -> Result<u64, Halt>
        ensures { Reads result self.new (number_at w64 self.old) }
    {
        if self.rest.len() < 8 {
            return Err(Halt::Flawed(Flaw::Short));
        }
        let (front, rest) = self.rest.split_at(8);
        self.rest = rest;
        Ok(u64::from_be_bytes([
            front[0], front[1], front[2], front[3], front[4], front[5], front[6], front[7],
        ]))
    }

    /// A number, a view, a term or the number of a configuration: a u64 below 2^62.
    pub fn number(&mut self) -> Result<u64, Halt>
        ensures { Reads result self.new (below_at self.old) }
    {
        let left = self.left();
        let number = self.u64()?;
        if number <= MOST_NUMBER {
            Ok(number)
        } else {
            Err(bad(left))
        }
    }

    /// A u64 below a limit.
    pub fn u64_below(&mut self, limit: u64) -> Result<u64, Halt>
        ensures { Reads result self.new (tested_at w64 (λ n. nat_lt n limit) self.old) }
    {
        let left = self.left();
        let number = self.u64()?;
        if number < limit {
            Ok(number)
        } else {
            Err(bad(left))
        }
    }

    /// A u32 from the least one on. The least may be 2^32, which no number reaches.
    pub fn u32_from(&mut self, least: u64) -> Result<u32, Halt>
        ensures { Reads result self.new (tested_at w32 (λ n. nat_le least n) self.old) }
    {
        let left = self.left();
        let number = self.u32()?;
        if least <= u64::from(number) {
            Ok(number)
        } else {
            Err(bad(left))
        }
    }

    /// A u8 count of at least and at most so many.
    pub fn u8_within(&mut self, fewest: u8, most: u8) -> Result<u8, Halt>
        ensures { Reads result self.new (tested_at w8 (λ n. nat_le fewest n && nat_le n most) self.old) }
    {
        let left = self.left();
        let count = self.u8()?;
        if fewest <= count && count <= most {
            Ok(count)
        } else {
            Err(bad(left))
        }
    }

    /// A u8 count of at most so many.
    pub fn u8_up_to(&mut self, most: u8) -> Result<u8, Halt>
        ensures { Reads result self.new (count_at w8 most self.old) }
    {
        let left = self.left();
        let count = self.u8()?;
        if count <= most {
            Ok(count)
        } else {
            Err(bad(left))
        }
    }

    /// A u16 length of at most so many.
    pub fn u16_up_to(&mut self, most: u16) -> Result<u16, Halt>
        ensures { Reads result self.new (count_at w16 most self.old) }
    {
        let left = self.left();
        let length = self.u16()?;
        if length <= most {
            Ok(length)
        } else {
            Err(bad(left))
        }
    }

    /// A u32 count or length of at most so many.
    pub fn u32_up_to(&mut self, most: u32) -> Result<u32, Halt>
        ensures { Reads result self.new (count_at w32 most self.old) }
    {
        let left = self.left();
        let count = self.u32()?;
        if count <= most {
            Ok(count)
        } else {
            Err(bad(left))
        }
    }

    /// A flag, 0 or 1.
    pub fn flag(&mut self) -> Result<bool, Halt>
        ensures { ReadsAs (λ set. if set then 1 else 0) result self.new (tested_at w8 (λ n. nat_le n 1) self.old) }
    {
        let flag = self.u8_up_to(1)?;
        Ok(flag == 1)
    }

    /// A digest, 32 bytes.
    pub fn digest(&mut self) -> Result<Digest, Halt>
        ensures { Reads result self.new (digest_at self.old) }
    {
        let front = self.take(32)?;
        let mut digest = [0; 32];
        digest.copy_from_slice(front);
        Ok(digest)
    }

    /// So many bytes.
    pub fn bytes(&mut self, alloc: Global, count: usize) -> Result<Bytes, Halt>
        ensures { Reads result self.new (bytes_at count self.old) }
    {
        let front = self.take(count)?;
        Ok(Bytes::from_slice(alloc, front)?)
    }
}
