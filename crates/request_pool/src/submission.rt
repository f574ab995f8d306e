//! Bytes that come to a pool, read and hashed before they are judged.
ghost use Rattle.std.specs.Prelude.{◌≡◌, IfOk, IfErr};
ghost use Rattle.sha2.specs.Sha256.{sha256};
ghost use Rattle.ord_types.specs.Grammar.{HasRequestSpelling};
ghost use Rattle.chan_config.specs.Submissions.{read_in};

use chan_config::BorrowedRequest;
use ord_types::Digest as Hash;
use sha2::{Digest, Sha256};
use std::marker::Model;

/// The request that bytes are, where it stands, and the SHA-256 value of the bytes.
#[derive(Drop)]
pub struct Read<'a> {
    pub(crate) request: BorrowedRequest<'a>,
    pub(crate) digest: Hash,
}

/// Bytes that were read and hashed, for an entry of a pool. Nothing was copied. Contracts see the bytes. It can be made
/// where no pool is at hand: what it holds depends on the bytes alone.
#[derive(Drop)]
pub struct Submission<'a> {
    bytes: &'a [u8],
    read: Result<Read<'a>, usize>,
}

impl<'a> Model for Submission<'a> {
    ghost use Rattle.std.specs.Prelude.{ℕ, List as Items};
    ghost use Rattle.request_pool.specs.Submitting.{IsReadOf};

    ghost Value = { Items ℕ };

    ghost view = { λ submission. submission.bytes.now };

    ghost invariant = { λ submission. IsReadOf submission.bytes.now submission.read };
}

// The SHA-256 value of the bytes.
fn hash_of(bytes: &[u8]) -> Hash
    ensures { result ≡ sha256 bytes.now }
{
    let mut hasher = Sha256::new();
    hasher.update(bytes);
    hasher.finalize()
}

impl<'a> Submission<'a> {
    /// Reads the bytes, and hashes them where they are one request, in time proportional to their length. Bytes that
    /// are no request are not hashed.
    pub fn new(bytes: &'a [u8]) -> Submission<'a>
        ensures { result ≡ bytes.now }
    {
        let read = match BorrowedRequest::read(bytes) {
            Ok(request) => Ok(Read {
                request,
                digest: hash_of(bytes),
            }),
            Err(at) => Err(at),
        };
        Submission { bytes, read }
    }

    /// The bytes.
    pub fn bytes(&self) -> &'a [u8]
        ensures { result.now ≡ self.now }
    {
        self.bytes
    }

    // What was read, or the place of the first byte that doesn't fit.
    pub(crate) fn read(&self) -> Result<&Read<'a>, usize>
        ensures request { IfOk result (λ read. read_in self.now ≡ Ok read.now.request) }
        ensures digest { IfOk result (λ read. read.now.digest ≡ sha256 self.now) }
        ensures spelled { IfOk result (λ read. HasRequestSpelling read.now.request) }
        ensures fault { IfErr result (λ at. read_in self.now ≡ Err at) }
    {
        match &self.read {
            Ok(read) => Ok(read),
            Err(at) => Err(*at),
        }
    }
}
