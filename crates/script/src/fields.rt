ghost use Rattle.std.specs.Prelude.{◌≡◌, ◌≤◌, ◌<◌, ◌^◌, ◌+◌, ◌-◌, ◌*◌, ◌&&◌, ◌==◌, ◌∷◌, nat_le, nat_lt, if◌then◌else◌, Some, None, IfOk, IfSome, option_copied, length};
ghost use Rattle.std.specs.List.{slice_split};
ghost use Rattle.script.specs.Fields.{number_of, digits_from, nibble, pair_of, pairs_of, hex_of, payload_of, parts_left, ids_of, batch_of, byzantine_of, vote_kind_of, id_of, ticks_of, device_call_of, image_of, entry_of, in_order, range_of, ranges_of};

use crate::command::{Image, Range, VoteKind};
use memchr::memchr;
use ord_types::{Bytes, List, NoMemory};
use std::alloc::Global;

/// How many bytes the payload of a request may have.
const MOST_PAYLOAD: usize = 65_536;

/// The number with one more digit, if it doesn't pass `most`.
fn appended(n: u64, b: u8, most: u64) -> Option<u64>
    ensures { result ≡ (if (nat_le 48 b && nat_le b 57) && nat_le (10 * n + (b - 48)) most then Some (10 * n + (b - 48)) else None) }
{
    if !b.is_ascii_digit() {
        return None;
    }
    let grown = n.checked_mul(10)?.checked_add(u64::from(b - b'0'))?;
    if grown <= most { Some(grown) } else { None }
}

/// The number that digits spell, if it is at most `most`.
fn digits(text: &[u8], most: u64) -> Option<u64>
    ensures value { result ≡ digits_from most 0 text.now }
    ensures below { IfSome result (λ n. n ≤ most) }
{
    let mut n: u64 = 0;
    for b in text {
        n = appended(n, *b, most)?;
    }
    Some(n)
}

/// A decimal number of at most `most`, without leading zeros.
#[tactic(auto, unfolding(crate::specs::Fields::number_of))]
pub fn number(text: &[u8], most: u64) -> Option<u64>
    ensures value { result ≡ number_of most text.now }
    ensures below { IfSome result (λ n. n ≤ most) }
{
    match text {
        [] | [b'0', _, ..] => None,
        _ => digits(text, most),
    }
}

/// An id: 1 to 2^32 - 1.
pub fn id(text: &[u8]) -> Option<u32>
    ensures { result ≡ id_of text.now }
{
    let n = number(text, u64::from(u32::MAX))?;
    if n == 0 { None } else { Some(n as u32) }
}

/// A count of ticks: 1 to 10,000.
pub fn ticks(text: &[u8]) -> Option<u32>
    ensures { result ≡ ticks_of text.now }
{
    let n = number(text, 10_000)?;
    if n == 0 { None } else { Some(n as u32) }
}

/// The place of a device call: 1 to 1,000,000.
pub fn device_call(text: &[u8]) -> Option<u32>
    ensures { result ≡ device_call_of text.now }
{
    let n = number(text, 1_000_000)?;
    if n == 0 { None } else { Some(n as u32) }
}

fn nibble(b: u8) -> Option<u8>
    ensures { result ≡ nibble b }
{
    match b {
        b'0'..=b'9' => Some(b - b'0'),
        b'a'..=b'f' => Some(b - b'a' + 10),
        _ => None,
    }
}

fn pair(high: u8, low: u8) -> Option<u8>
    ensures { result ≡ pair_of (nibble high) (nibble low) }
{
    let high = nibble(high)?;
    let low = nibble(low)?;
    Some(high * 16 + low)
}

fn pairs(alloc: Global, text: &[u8]) -> Result<Option<Bytes>, NoMemory>
    ensures { IfOk result (λ found. found ≡ pairs_of text.now) }
{
    let mut out = Bytes::new(alloc);
    let mut left = text;
    while let [high, low, rest @ ..] = left {
        match pair(*high, *low) {
            Some(b) => out.push(b)?,
            None => return Ok(None),
        }
        left = rest;
    }
    Ok(if left.is_empty() { Some(out) } else { None })
}

/// Bytes in hex, a dash for none.
#[tactic(auto, unfolding(crate::specs::Fields::hex_of))]
pub fn hex(alloc: Global, text: &[u8]) -> Result<Option<Bytes>, NoMemory>
    ensures { IfOk result (λ found. found ≡ hex_of text.now) }
{
    if text == b"-".as_slice() {
        return Ok(Some(Bytes::new(alloc)));
    }
    if text.is_empty() {
        return Ok(None);
    }
    pairs(alloc, text)
}

/// The payload of a request in hex: at most 65,536 bytes.
#[tactic(auto, unfolding(crate::specs::Fields::payload_of))]
pub fn payload(alloc: Global, text: &[u8]) -> Result<Option<Bytes>, NoMemory>
    ensures { IfOk result (λ found. found ≡ payload_of text.now) }
{
    match hex(alloc, text)? {
        Some(bytes) if bytes.len() <= MOST_PAYLOAD => Ok(Some(bytes)),
        _ => Ok(None),
    }
}

/// The part before the first separator, and what stands behind it.
pub fn part(text: &[u8], separator: u8) -> (&[u8], Option<&[u8]>)
    ensures parts { slice_split (λ b. b == separator) text.now ≡ result.0.now ∷ parts_left separator (option_copied result.1) }
    ensures less { IfSome result.1 (λ rest. length rest.now < length text.now) }
{
    match memchr(separator, text) {
        Some(at) => (&text[..at], Some(&text[at + 1..])),
        None => (text, None),
    }
}

/// 1 to 31 ids joined by commas, strictly ascending.
#[tactic(auto, unfolding(crate::specs::Fields::ids_of))]
pub fn ids(alloc: Global, text: &[u8]) -> Result<Option<List<u32>>, NoMemory>
    ensures { IfOk result (λ found. found ≡ ids_of text.now) }
{
    let mut ids = List::new(alloc);
    let mut last: u64 = 0;
    let mut left = Some(text);
    while let Some(rest) = left {
        let (word, more) = part(rest, b',');
        let Some(id) = number(word, u64::from(u32::MAX)) else {
            return Ok(None);
        };
        if id <= last || ids.len() >= 31 {
            return Ok(None);
        }
        ids.push(id as u32)?;
        last = id;
        left = more;
    }
    Ok(Some(ids))
}

/// `batch=N`, the count of requests in a batch: 1 to 1,000.
#[tactic(auto, unfolding(crate::specs::Fields::batch_of))]
pub fn batch(text: &[u8]) -> Option<u32>
    ensures { result ≡ batch_of text.now }
{
    let n = number(text.strip_prefix(b"batch=")?, 1_000)?;
    if n == 0 { None } else { Some(n as u32) }
}

/// `byz=IDS`.
#[tactic(auto, unfolding(crate::specs::Fields::byzantine_of))]
pub fn byzantine(alloc: Global, text: &[u8]) -> Result<Option<List<u32>>, NoMemory>
    ensures { IfOk result (λ found. found ≡ byzantine_of text.now) }
{
    match text.strip_prefix(b"byz=") {
        Some(rest) => ids(alloc, rest),
        None => Ok(None),
    }
}

/// `prepare` or `commit`.
#[tactic(auto, unfolding(crate::specs::Fields::vote_kind_of))]
pub fn vote_kind(text: &[u8]) -> Option<VoteKind>
    ensures { result ≡ vote_kind_of text.now }
{
    if text == b"prepare".as_slice() {
        return Some(VoteKind::Prepare);
    }
    if text == b"commit".as_slice() {
        return Some(VoteKind::Commit);
    }
    None
}

/// `keep`, `drop` or `fill=HH`, where HH is a byte in two hex digits.
#[tactic(auto, unfolding(crate::specs::Fields::image_of))]
pub fn image(text: &[u8]) -> Option<Image>
    ensures { result ≡ image_of text.now }
{
    if text == b"keep".as_slice() {
        return Some(Image::Keep);
    }
    if text == b"drop".as_slice() {
        return Some(Image::Undo);
    }
    match text.strip_prefix(b"fill=") {
        Some([high, low]) => {
            let byte = pair(*high, *low)?;
            Some(Image::Fill(byte))
        }
        _ => None,
    }
}

/// The number of an entry, a block or a view: below 2^62.
pub fn entry(text: &[u8]) -> Option<u64>
    ensures value { result ≡ entry_of text.now }
    ensures below { IfSome result (λ n. n ≤ 2 ^ 62 - 1) }
{
    number(text, (1 << 62) - 1)
}

/// The range from a first number to a last one, if that is not below it.
fn in_order(first: u64, last: u64) -> Option<Range>
    ensures { result ≡ in_order first last }
{
    if first <= last {
        Some(Range { first, last })
    } else {
        None
    }
}

/// A number, or a first and a last one, not below it.
#[tactic(auto, unfolding(crate::specs::Fields::range_of))]
fn range(text: &[u8]) -> Option<Range>
    ensures { result ≡ range_of text.now }
{
    let (first, more) = part(text, b'-');
    let Some(rest) = more else {
        let only = entry(first)?;
        return Some(Range {
            first: only,
            last: only,
        });
    };
    let (last, others) = part(rest, b'-');
    match others {
        None => in_order(entry(first)?, entry(last)?),
        Some(_) => None,
    }
}

/// One or more ranges joined by commas.
#[tactic(auto, unfolding(crate::specs::Fields::ranges_of))]
pub fn ranges(alloc: Global, text: &[u8]) -> Result<Option<List<Range>>, NoMemory>
    ensures { IfOk result (λ found. found ≡ ranges_of text.now) }
{
    let mut ranges = List::new(alloc);
    let mut left = Some(text);
    while let Some(rest) = left {
        let (word, more) = part(rest, b',');
        match range(word) {
            Some(range) => ranges.push(range)?,
            None => return Ok(None),
        }
        left = more;
    }
    Ok(Some(ranges))
}
