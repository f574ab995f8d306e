ghost use Rattle.std.specs.Prelude.{◌≡◌, ℕ, ◌+◌, ◌-◌, ◌*◌, ◌^◌, ◌<◌, ◌≤◌, List, length, take, drop, slice_index, nat_lt, IfOk, MatchOption, ◌==◌, IsTrue, ◌↔◌};
ghost use Rattle.std.specs.Prelude.{Result as Outcome};
ghost use Rattle.gate_log.specs.Format.{header, common, entry_length, generation_of, walk, reading, gate_after};

use crate::reading::Reading;
use ord_types::{Bytes, List, NoMemory};
use std::alloc::Global;

pub const HEADER: [u8; 8] = *b"ORDLOG1\n";

const MAX_GENERATION: u64 = 1 << 62;

/// Reads what a file's bytes stand for.
pub fn read_log(alloc: Global, bytes: &[u8]) -> Result<Reading, NoMemory>
    ensures { IfOk result (λ found. found ≡ reading bytes.now) }
{
    if bytes.len() <= 9 {
        return Ok(Reading::Absent);
    }
    let same = same_front(bytes);
    if same < 8 {
        return Ok(Reading::Foreign(same as u64));
    }
    if bytes[8] == 0 {
        return Ok(Reading::Absent);
    }
    if bytes.len() < 18 {
        return Ok(Reading::Foreign(bytes.len() as u64));
    }
    let generation = generation_at(bytes);
    if generation < 1 || generation >= MAX_GENERATION {
        return Ok(Reading::Foreign(9));
    }
    match read_entries(alloc, bytes)? {
        Ok(entries) => Ok(Reading::Log {
            generation,
            entries,
        }),
        Err(at) => Ok(Reading::Foreign(at)),
    }
}

// How many of the header's bytes stand at the front.
pub fn same_front(bytes: &[u8]) -> usize
    requires { 8 ≤ length bytes.now }
    ensures { result ≡ common header bytes.now }
{
    if bytes[0] != HEADER[0] {
        return 0;
    }
    if bytes[1] != HEADER[1] {
        return 1;
    }
    if bytes[2] != HEADER[2] {
        return 2;
    }
    if bytes[3] != HEADER[3] {
        return 3;
    }
    if bytes[4] != HEADER[4] {
        return 4;
    }
    if bytes[5] != HEADER[5] {
        return 5;
    }
    if bytes[6] != HEADER[6] {
        return 6;
    }
    if bytes[7] != HEADER[7] {
        return 7;
    }
    8
}

#[tactic(auto, unfolding(crate::specs::Format::generation_of))]
fn generation_at(bytes: &[u8]) -> u64
    requires { 17 < length bytes.now }
    ensures { result ≡ generation_of bytes.now }
{
    u64::from_be_bytes([
        bytes[9], bytes[10], bytes[11], bytes[12], bytes[13], bytes[14], bytes[15], bytes[16],
    ])
}

// The length of the entry behind an open gate.
#[tactic(auto, unfolding(crate::specs::Format::entry_length))]
fn length_at(rest: &[u8]) -> usize
    requires { 4 ≤ length rest.now }
    ensures value { result ≡ entry_length rest.now }
    ensures small { result < 2 ^ 32 }
{
    u32::from_be_bytes([rest[0], rest[1], rest[2], rest[3]]) as usize
}

// The entry behind an open gate, if it is whole and one more gate stands behind it.
fn entry_at(rest: &[u8]) -> Option<&[u8]>
    ensures { MatchOption result (length rest.now < 5 + entry_length rest.now)
        (λ entry. (entry.now ≡ take (entry_length rest.now) (drop 4 rest.now)) × (5 + entry_length rest.now ≤ length rest.now) × (length entry.now ≡ entry_length rest.now)) }
{
    if rest.len() < 5 {
        return None;
    }
    let length = length_at(rest);
    if rest.len() < 5 + length {
        return None;
    }
    Some(&rest[4..4 + length])
}

// The entries up to the first closed gate, or the place of an open gate with no whole entry behind it.
fn read_entries(alloc: Global, bytes: &[u8]) -> Result<Result<List<Bytes>, u64>, NoMemory>
    requires { 17 < length bytes.now }
    ensures { IfOk result (λ found. found ≡ walk (length bytes.now) 17 (drop 17 bytes.now)) }
{
    let mut entries = List::new(alloc);
    let mut at: usize = 17;
    while bytes[at] != 0 {
        let Some(entry) = entry_at(&bytes[at + 1..]) else {
            return Ok(Err(at as u64));
        };
        entries.push(Bytes::from_slice(alloc, entry)?)?;
        at += 5 + entry.len();
    }
    Ok(Ok(entries))
}
