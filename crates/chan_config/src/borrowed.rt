//! A request where it stands: read, and judged, before its payload is copied.
ghost use Rattle.std.specs.Prelude.{◌≡◌, ◌≤◌, IfErr, IfOk, length};
ghost use Rattle.std.specs.Int.{w8, w32, w64};
ghost use Rattle.ord_types.specs.Faults.{fault_at};
ghost use Rattle.ord_types.specs.Grammar.{HasRequestSpelling};
ghost use Rattle.ord_types.specs.Reading.{bytes_at, count_at, meant_at, number_at, request_at, request_kind_meant};
ghost use Rattle.chan_config.specs.Blocks.{is_ordinary};
ghost use Rattle.chan_config.specs.Refusals.{size_of};
ghost use Rattle.chan_config.specs.Submissions.{place_of_fault, read_in};

use crate::requests::REQUEST_FRONT;
use ord_types::{Bytes, Flaw, NoMemory, ReqId, ReqKind, Request};
use std::alloc::Global;
use std::marker::Model;

/// A request whose payload still stands where it was found. Contracts see the request.
#[derive(Drop)]
pub struct BorrowedRequest<'a> {
    kind: ReqKind,
    id: ReqId,
    payload: &'a [u8],
}

impl<'a> Model for BorrowedRequest<'a> {
    ghost use Rattle.ord_types.specs.declared.values.Request.{Request};

    ghost Value = { Request };

    ghost view = { λ request. record { kind = request.kind; id = request.id; payload = request.payload.now } };
}

// The kind at the front, and what is behind it.
fn kind_front(bytes: &[u8]) -> Result<(ReqKind, &[u8]), Flaw>
    ensures read { IfOk result (λ found. meant_at w8 request_kind_meant bytes.now ≡ Ok (found.0, found.1.now)) }
    ensures flaw { IfErr result (λ flaw. meant_at w8 request_kind_meant bytes.now ≡ Err flaw) }
{
    if bytes.is_empty() {
        return Err(Flaw::Short);
    }
    let (front, rest) = bytes.split_at(1);
    match u8::from_be_bytes([front[0]]) {
        1 => Ok((ReqKind::Ordinary, rest)),
        2 => Ok((ReqKind::Change, rest)),
        _ => Err(Flaw::Bad(bytes.len())),
    }
}

// The u32 at the front, and what is behind it.
fn u32_front(bytes: &[u8]) -> Result<(u32, &[u8]), Flaw>
    ensures read { IfOk result (λ found. number_at w32 bytes.now ≡ Ok (found.0, found.1.now)) }
    ensures flaw { IfErr result (λ flaw. number_at w32 bytes.now ≡ Err flaw) }
{
    if bytes.len() < 4 {
        return Err(Flaw::Short);
    }
    let (front, rest) = bytes.split_at(4);
    Ok((
        u32::from_be_bytes([front[0], front[1], front[2], front[3]]),
        rest,
    ))
}

// The u64 at the front, and what is behind it.
fn u64_front(bytes: &[u8]) -> Result<(u64, &[u8]), Flaw>
    ensures read { IfOk result (λ found. number_at w64 bytes.now ≡ Ok (found.0, found.1.now)) }
    ensures flaw { IfErr result (λ flaw. number_at w64 bytes.now ≡ Err flaw) }
{
    if bytes.len() < 8 {
        return Err(Flaw::Short);
    }
    let (front, rest) = bytes.split_at(8);
    Ok((
        u64::from_be_bytes([
            front[0], front[1], front[2], front[3], front[4], front[5], front[6], front[7],
        ]),
        rest,
    ))
}

// The length of a payload at the front, and what is behind it.
fn length_front(bytes: &[u8]) -> Result<(u32, &[u8]), Flaw>
    ensures read { IfOk result (λ found. count_at w32 65536 bytes.now ≡ Ok (found.0, found.1.now)) }
    ensures flaw { IfErr result (λ flaw. count_at w32 65536 bytes.now ≡ Err flaw) }
{
    let (length, rest) = u32_front(bytes)?;
    if length <= 65_536 {
        Ok((length, rest))
    } else {
        Err(Flaw::Bad(bytes.len()))
    }
}

// The first so many bytes, and what is behind them.
fn bytes_front(bytes: &[u8], count: usize) -> Result<(&[u8], &[u8]), Flaw>
    ensures read { IfOk result (λ found. bytes_at count bytes.now ≡ Ok (found.0.now, found.1.now)) }
    ensures flaw { IfErr result (λ flaw. bytes_at count bytes.now ≡ Err flaw) }
{
    if bytes.len() < count {
        return Err(Flaw::Short);
    }
    Ok(bytes.split_at(count))
}

// The request at the front, and what is behind it.
#[tactic(auto, unfolding(ord_types::specs::Reading::request_at))]
fn request_front(bytes: &[u8]) -> Result<(BorrowedRequest<'_>, &[u8]), Flaw>
    ensures read { IfOk result (λ found. request_at bytes.now ≡ Ok (found.0, found.1.now)) }
    ensures flaw { IfErr result (λ flaw. request_at bytes.now ≡ Err flaw) }
{
    let (kind, rest) = kind_front(bytes)?;
    let (client, rest) = u32_front(rest)?;
    let (serial, rest) = u64_front(rest)?;
    let (length, rest) = length_front(rest)?;
    let (payload, rest) = bytes_front(rest, length as usize)?;
    let request = BorrowedRequest {
        kind,
        id: ReqId { client, serial },
        payload,
    };
    Ok((request, rest))
}

// The place of a flaw in so many bytes.
fn place_of(size: usize, flaw: Flaw) -> usize
    ensures { result ≡ place_of_fault (fault_at size flaw) }
{
    match flaw {
        Flaw::Short => size,
        Flaw::Bad(left) => size.saturating_sub(left),
    }
}

impl<'a> BorrowedRequest<'a> {
    /// Reads the request that all of the bytes are, or gives the place of the first byte that doesn't fit. Nothing is
    /// copied: it looks at the first 17 bytes and at the length.
    pub fn read(bytes: &'a [u8]) -> Result<BorrowedRequest<'a>, usize>
        ensures exact { result ≡ read_in bytes.now }
        ensures spelled { IfOk result HasRequestSpelling }
    {
        match request_front(bytes) {
            Ok((request, rest)) => {
                if rest.is_empty() {
                    Ok(request)
                } else {
                    Err(bytes.len().saturating_sub(rest.len()))
                }
            }
            Err(flaw) => Err(place_of(bytes.len(), flaw)),
        }
    }

    /// A request that was read before.
    pub fn of(request: &'a Request) -> BorrowedRequest<'a>
        ensures { result ≡ request.now }
    {
        BorrowedRequest {
            kind: request.kind,
            id: request.id,
            payload: request.payload.as_slice(),
        }
    }

    /// Names the request.
    pub fn id(&self) -> ReqId
        ensures { result ≡ self.now.id }
    {
        self.id
    }

    /// Whether it is no change of the configuration.
    pub fn is_ordinary(&self) -> bool
        ensures { result ≡ is_ordinary self.now }
    {
        match self.kind {
            ReqKind::Ordinary => true,
            ReqKind::Change => false,
        }
    }

    /// How many bytes the spelled request has.
    pub(crate) fn size(&self) -> usize
        ensures { result ≡ size_of self.now }
    {
        REQUEST_FRONT + self.payload.len()
    }

    /// A request of its own, with a copy of the payload.
    pub fn copy(&self, alloc: Global) -> Result<Request, NoMemory>
        ensures { IfOk result (λ request. request ≡ self.now) }
    {
        Ok(Request {
            kind: self.kind,
            id: self.id,
            payload: Bytes::from_slice(alloc, self.payload)?,
        })
    }
}
