//! Whether blocks and certificates have a spelling. What was read from bytes always has one, and so has what is made of it.
ghost use Rattle.std.specs.Prelude.{◌≡◌, ◌<◌, ◌≤◌, ◌^◌, ◌+◌, IsTrue, length};
ghost use Rattle.ord_types.specs.Grammar.{Ascend, AreSigs, HasBlockSpelling, HasCertSpelling, HasIdsSpelling, HasMetaSpelling, HasRequestSpelling, HasRequestsSpelling, IsDigest, IsWord};

use crate::node_fault::MOST_NUMBER;
use ord_types::{Block, Cert, Digest, Meta, Request, Sig};

/// How many members a configuration may have.
const MOST_MEMBERS: usize = 31;

// Each at least this one and above the one before.
fn ascend(ids: &[u32]) -> bool
    requires { length ids.now ≤ 31 }
    ensures { IsTrue result → HasIdsSpelling ids.now }
{
    let mut least: u64 = 1;
    for id in ids {
        if (*id as u64) < least {
            return false;
        }
        least = *id as u64 + 1;
    }
    true
}

// Each by a signer above the one before, and short.
fn are_sigs(sigs: &[Sig]) -> bool
    ensures { IsTrue result → AreSigs 0 sigs.now }
{
    let mut least: u64 = 0;
    for sig in sigs {
        if (sig.signer as u64) < least || sig.bytes.len() > 2048 {
            return false;
        }
        least = sig.signer as u64 + 1;
    }
    true
}

// What a type says of its values.
fn word_fits(_word: u32)
    ensures { IsWord _word }
{}

fn serial_fits(_serial: u64)
    ensures { _serial < 2 ^ 64 }
{}

fn digest_fits(_digest: &Digest)
    ensures { IsDigest _digest.now }
{}

// The payload is small.
fn is_request(request: &Request) -> bool
    ensures { IsTrue result → HasRequestSpelling request.now }
{
    word_fits(request.id.client);
    serial_fits(request.id.serial);
    request.payload.len() <= 65_536
}

// Each with a small payload.
fn are_requests(requests: &[Request]) -> bool
    requires { length requests.now ≤ 1000 }
    ensures { IsTrue result → HasRequestsSpelling requests.now }
{
    for request in requests {
        if !is_request(request) {
            return false;
        }
    }
    true
}

// Without rotation a blacklist is empty.
fn is_meta(meta: &Meta) -> bool
    ensures { IsTrue result → HasMetaSpelling meta.now }
{
    if meta.config > MOST_NUMBER || meta.view > MOST_NUMBER || meta.decided > MOST_NUMBER {
        return false;
    }
    if !meta.blacklist.is_empty() || meta.signers.len() > MOST_MEMBERS {
        return false;
    }
    ascend(meta.signers.as_slice())
}

/// The block has a spelling.
pub(crate) fn is_block(block: &Block) -> bool
    ensures { IsTrue result → HasBlockSpelling block.now }
{
    digest_fits(&block.header.previous);
    digest_fits(&block.header.content);
    digest_fits(&block.header.meta);
    if block.header.number > MOST_NUMBER || block.requests.len() > 1000 {
        return false;
    }
    if !are_requests(block.requests.as_slice()) {
        return false;
    }
    is_meta(&block.meta)
}

/// The certificate has a spelling.
pub(crate) fn is_cert(cert: &Cert) -> bool
    ensures { IsTrue result → HasCertSpelling cert.now }
{
    if cert.view > MOST_NUMBER || cert.sigs.len() > MOST_MEMBERS {
        return false;
    }
    are_sigs(cert.sigs.as_slice())
}
