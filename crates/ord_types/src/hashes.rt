ghost use Rattle.std.specs.Prelude.{◌≡◌};
ghost use Rattle.ord_types.specs.Hashes.{content_hash, meta_hash, header_hash};
ghost use Rattle.ord_types.specs.Lengths.{FitsRequests, FitsMeta};

use crate::layouts::{write_header, write_meta, write_requests};
use crate::lists::List;
use crate::values::{Digest, Header, Meta, Request};
use sha2::{Digest as Hasher, Sha256};

/// The hash of the requests of a block.
#[tactic(auto, unfolding(crate::specs::Hashes::content_hash))]
pub fn content_hash(requests: &List<Request>) -> Digest
    requires { FitsRequests requests.now }
    ensures { result ≡ content_hash requests.now }
{
    let mut hasher = Sha256::new();
    write_requests(&mut hasher, requests);
    hasher.finalize()
}

/// The hash of a meta.
#[tactic(auto, unfolding(crate::specs::Hashes::meta_hash))]
pub fn meta_hash(meta: &Meta) -> Digest
    requires { FitsMeta meta.now }
    ensures { result ≡ meta_hash meta.now }
{
    let mut hasher = Sha256::new();
    write_meta(&mut hasher, meta);
    hasher.finalize()
}

/// The hash of a header, by which a block is named.
#[tactic(auto, unfolding(crate::specs::Hashes::header_hash))]
pub fn block_hash(header: &Header) -> Digest
    ensures { result ≡ header_hash header.now }
{
    let mut hasher = Sha256::new();
    write_header(&mut hasher, header);
    hasher.finalize()
}
