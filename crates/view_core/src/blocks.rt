//! What a proposed block and the certificate that comes with it must be.
ghost use Rattle.std.specs.Prelude.{◌≡◌};
ghost use Rattle.std.specs.Str.{bytes_eq};
ghost use Rattle.view_model.specs.Checks.{
  is_block_of_view,
  is_carried_good,
  is_next_block,
  signers_carried,
};
ghost use Rattle.view_model.specs.Acts.{is_acceptable};
ghost use Rattle.view_model.specs.Leading.{is_at_start, meta_eq, next_meta, turn};
ghost use Rattle.view_core.specs.Places.{IsPlace};

use bft_wire::PrePrepare;
use chan_config::refusal;
use ord_types::{Block, Cert, Meta, Place};
use signer_edge::{Verifier, check_cert};

/// Whether the block may come next at the place.
#[tactic(auto, using(chan_config::proofs::BlockLaws::none_refused))]
pub(crate) fn is_next_block(place: &Place, block: &Block) -> bool
    ensures { result ≡ is_next_block place.now block.now }
{
    refusal(&place.last, place.height, &place.config, block).is_none()
}

/// Whether nothing was ordered under the configuration yet.
pub(crate) fn is_at_start(place: &Place) -> bool
    ensures { result ≡ is_at_start place.now }
{
    place.height == place.start
}

/// How many blocks of the view stand directly before the next one.
pub(crate) fn turn(place: &Place, view: u64) -> u64
    requires { IsPlace place.now }
    ensures { result ≡ turn place.now view }
{
    if is_at_start(place) || place.last_meta.view != view {
        0
    } else {
        place.last_meta.decided + 1
    }
}

/// Whether a carried certificate proves the last block.
fn is_last_proved<V: Verifier>(place: &Place, cert: &Cert, verifier: &V) -> bool
    requires { IsPlace place.now }
    ensures { result ≡ is_carried_good (V.accepts verifier.now) place.now (Some cert.now) }
{
    place.start < place.height
        && check_cert(&place.config, place.height - 1, &place.last, cert, verifier).is_ok()
}

/// Whether a proposal carries what it must: the last block's certificate, and none at the start.
pub(crate) fn is_carried_good<V: Verifier>(place: &Place, cert: &Option<Cert>, verifier: &V) -> bool
    requires { IsPlace place.now }
    ensures { result ≡ is_carried_good (V.accepts verifier.now) place.now cert.now }
{
    match cert {
        None => is_at_start(place),
        Some(cert) => is_last_proved(place, cert, verifier),
    }
}

/// Whether these are the signers of the certificate, in order.
fn signed(signers: &[u32], cert: &Cert) -> bool
    ensures { result ≡ bytes_eq signers.now (signers_carried (Some cert.now)) }
{
    let sigs = cert.sigs.as_slice();
    if signers.len() != sigs.len() {
        return false;
    }
    for i in 0..sigs.len() {
        if signers[i] != sigs[i].signer {
            return false;
        }
    }
    true
}

/// Whether these are the signers of what is carried.
fn are_signers(signers: &[u32], cert: &Option<Cert>) -> bool
    ensures { result ≡ bytes_eq signers.now (signers_carried cert.now) }
{
    match cert {
        None => signers.is_empty(),
        Some(cert) => signed(signers, cert),
    }
}

/// Whether the meta belongs to the view and to what is carried.
fn is_meta(place: &Place, view: u64, meta: &Meta, cert: &Option<Cert>) -> bool
    requires { IsPlace place.now }
    ensures { result ≡ meta_eq meta.now (next_meta place.now view (signers_carried cert.now)) }
{
    meta.config == place.config.number
        && meta.view == view
        && meta.decided == turn(place, view)
        && meta.blacklist.is_empty()
        && are_signers(meta.signers.as_slice(), cert)
}

/// Whether the block is the next one, with the meta that belongs to the view.
pub(crate) fn is_block_of_view(place: &Place, view: u64, message: &PrePrepare) -> bool
    requires { IsPlace place.now }
    ensures { result ≡ is_block_of_view place.now view message.now }
{
    is_next_block(place, &message.block) && is_meta(place, view, &message.block.meta, &message.cert)
}

/// Whether the block, and the certificate that it comes with, are right.
pub(crate) fn is_acceptable<V: Verifier>(
    place: &Place,
    view: u64,
    message: &PrePrepare,
    verifier: &V,
) -> bool
    requires { IsPlace place.now }
    ensures { result ≡ is_acceptable (V.accepts verifier.now) place.now view message.now }
{
    is_block_of_view(place, view, message) && is_carried_good(place, &message.cert, verifier)
}
