//! What the header of a block that comes next must name.
ghost use Rattle.std.specs.Prelude.{◌≡◌, nat_le, length};
ghost use Rattle.std.specs.List.{list_all};
ghost use Rattle.chan_config.specs.Blocks.{have_room, has_number, has_room, content_fits, meta_fits};

use ord_types::{
    Block, MOST_MEMBERS, MOST_NUMBER, MOST_PAYLOAD, MOST_REQUESTS, Meta, Request, content_hash,
    meta_hash,
};

/// Whether the block has this number, for which the format has room.
pub(crate) fn has_number(number: u64, block: &Block) -> bool
    ensures { result ≡ has_number number block.now }
{
    block.header.number == number && number <= MOST_NUMBER
}

fn is_short(request: &Request) -> bool
    ensures { result ≡ nat_le (length request.now.payload) 65536 }
{
    request.payload.len() <= MOST_PAYLOAD
}

fn are_short(requests: &[Request]) -> bool
    ensures { result ≡ list_all (λ r. nat_le (length r.payload) 65536) requests.now }
{
    requests.iter().all(|request| is_short(request))
}

/// Whether the format has room for the requests.
pub fn have_room(requests: &[Request]) -> bool
    ensures { result ≡ have_room requests.now }
{
    requests.len() <= MOST_REQUESTS && are_short(requests)
}

/// Whether the format has room for the meta.
pub fn has_room(meta: &Meta) -> bool
    ensures { result ≡ has_room meta.now }
{
    meta.blacklist.len() <= MOST_MEMBERS && meta.signers.len() <= MOST_MEMBERS
}

/// Whether the header names the hash of the requests.
pub(crate) fn content_fits(block: &Block) -> bool
    ensures { result ≡ content_fits block.now }
{
    have_room(block.requests.as_slice()) && block.header.content == content_hash(&block.requests)
}

/// Whether the header names the hash of the meta.
pub(crate) fn meta_fits(block: &Block) -> bool
    ensures { result ≡ meta_fits block.now }
{
    has_room(&block.meta) && block.header.meta == meta_hash(&block.meta)
}
