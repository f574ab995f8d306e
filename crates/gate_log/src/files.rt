ghost use Rattle.std.specs.Prelude.{◌≡◌, ℕ, ◌+◌, ◌-◌, ◌<◌, ◌≤◌, List, ◌++◌, length, take, drop, replicate, IfOk, OnOk, OnErr};
ghost use Rattle.gate_log.specs.Disk.{overwritten};
ghost use Rattle.gate_log.specs.Calls.{file_of, Rewrote, SameFiles};

use std::alloc::{AllocError, Global};

/// The bytes of three files.
#[derive(Drop)]
pub struct Files {
    pub first: Vec<u8>,
    pub second: Vec<u8>,
    pub third: Vec<u8>,
}

// Writes bytes at a place, with zero bytes in a gap before it.
pub fn overwrite(bytes: &mut Vec<u8>, at: u64, new: &[u8]) -> Result<(), AllocError>
    ensures ok { OnOk result (bytes.new.items ≡ overwritten at new.now bytes.old.items) }
    ensures err { OnErr result (bytes.new.items ≡ bytes.old.items) }
{
    let start = at as usize;
    let Some(end) = start.checked_add(new.len()) else {
        return Err(AllocError);
    };
    grow(bytes, end)?;
    put(bytes, start, new);
    Ok(())
}

// Writes a piece at a place.
fn put(bytes: &mut [u8], at: usize, piece: &[u8])
    requires { at + length piece.now ≤ length bytes.old }
    ensures { bytes.new ≡ take at bytes.old ++ piece.now ++ drop (at + length piece.now) bytes.old }
{
    bytes[at..at + piece.len()].copy_from_slice(piece);
}

// Adds zero bytes up to a length.
fn grow(bytes: &mut Vec<u8>, end: usize) -> Result<(), AllocError>
    ensures ok { OnOk result (bytes.new.items ≡ bytes.old.items ++ replicate (end - length bytes.old.items) 0) }
    ensures err { OnErr result (bytes.new.items ≡ bytes.old.items) }
{
    if bytes.len() < end {
        let zeros = repeated(*bytes.allocator(), 0, end - bytes.len())?;
        bytes.extend_from_slice(&zeros)?;
    }
    Ok(())
}

// A byte, so many times.
pub fn repeated(alloc: Global, byte: u8, count: usize) -> Result<Vec<u8>, AllocError>
    ensures { IfOk result (λ bytes. bytes.items ≡ replicate count byte) }
{
    Ok(vec![in alloc; byte; count]?)
}

impl Files {
    /// Three files with these bytes.
    pub fn copy(&self) -> Result<Files, AllocError>
        ensures { IfOk result (λ copy. (f : ℕ) → file_of copy f ≡ file_of self.now f) }
    {
        let alloc = *self.first.allocator();
        Ok(Files {
            first: Vec::from_slice(alloc, &self.first)?,
            second: Vec::from_slice(alloc, &self.second)?,
            third: Vec::from_slice(alloc, &self.third)?,
        })
    }

    /// The bytes of one of them.
    pub fn get(&self, file: u8) -> &[u8]
        requires { file < 3 }
        ensures { result.now ≡ file_of self.now file }
    {
        match file {
            0 => &self.first,
            1 => &self.second,
            _ => &self.third,
        }
    }

    /// Writes bytes at a place of one of them. Where there is no memory nothing changes.
    pub fn write_at(&mut self, file: u8, at: u64, new: &[u8]) -> Result<(), AllocError>
        requires { file < 3 }
        ensures ok { OnOk result (Rewrote file at new.now self.old self.new) }
        ensures err { OnErr result (SameFiles self.old self.new) }
    {
        match file {
            0 => overwrite(&mut self.first, at, new),
            1 => overwrite(&mut self.second, at, new),
            _ => overwrite(&mut self.third, at, new),
        }
    }
}
