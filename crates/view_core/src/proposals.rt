//! The block that a leader proposes.
ghost use Rattle.std.specs.Prelude.{◌≡◌, IfOk, if◌then◌else◌};
ghost use Rattle.view_model.specs.Acts.{carried_cert, proposal};
ghost use Rattle.view_model.specs.Checks.{is_next_block, signers_carried};
ghost use Rattle.view_model.specs.Leading.{next_meta};
ghost use Rattle.ord_types.specs.Lengths.{FitsBlock, FitsCert, FitsIds, FitsMeta, FitsRequests};
ghost use Rattle.view_core.specs.Places.{IsPlace};

use crate::blocks::{is_at_start, is_next_block, turn};
use chan_config::have_room;
use ord_types::{
    Block, Cert, Header, List, Meta, NoMemory, Place, Request, content_hash, meta_hash,
};
use std::alloc::Global;

/// Who signed the certificate, in order.
fn signers(alloc: Global, cert: &Cert) -> Result<List<u32>, NoMemory>
    requires { FitsCert cert.now }
    ensures signers { IfOk result (λ signers. signers ≡ signers_carried (Some cert.now)) }
    ensures fits { IfOk result FitsIds }
{
    let mut signers = List::new(alloc);
    for sig in cert.sigs.as_slice() {
        signers.push(sig.signer)?;
    }
    Ok(signers)
}

/// Who signed the certificate that a proposal carries.
fn carried_signers(alloc: Global, place: &Place) -> Result<List<u32>, NoMemory>
    requires { IsPlace place.now }
    ensures signers { IfOk result (λ signers. signers ≡ signers_carried (carried_cert place.now)) }
    ensures fits { IfOk result FitsIds }
{
    if is_at_start(place) {
        return Ok(List::new(alloc));
    }
    match &place.last_cert {
        None => Ok(List::new(alloc)),
        Some(cert) => signers(alloc, cert),
    }
}

/// The meta of the next block of the view.
fn next_meta(alloc: Global, place: &Place, view: u64) -> Result<Meta, NoMemory>
    requires { IsPlace place.now }
    ensures meta { IfOk result (λ meta. meta
        ≡ next_meta place.now view (signers_carried (carried_cert place.now))) }
    ensures fits { IfOk result FitsMeta }
{
    Ok(Meta {
        config: place.config.number,
        view,
        decided: turn(place, view),
        blacklist: List::new(alloc),
        signers: carried_signers(alloc, place)?,
    })
}

/// The block of these requests at the place, with the meta that belongs to the view, whether or not it may
/// come next.
pub fn proposal(
    alloc: Global,
    place: &Place,
    view: u64,
    offer: List<Request>,
) -> Result<Block, NoMemory>
    requires place { IsPlace place.now }
    requires offer { FitsRequests offer }
    ensures block { IfOk result (λ block. block ≡ proposal place.now view offer) }
    ensures fits { IfOk result FitsBlock }
{
    let meta = next_meta(alloc, place, view)?;
    let header = Header {
        number: place.height,
        previous: place.last,
        content: content_hash(&offer),
        meta: meta_hash(&meta),
    };
    Ok(Block {
        header,
        requests: offer,
        meta,
    })
}

/// The block of these requests, where it may come next.
pub(crate) fn proposed_block(
    alloc: Global,
    place: &Place,
    view: u64,
    offer: List<Request>,
) -> Result<Option<Block>, NoMemory>
    requires { IsPlace place.now }
    ensures { IfOk result (λ block. block
        ≡ (if is_next_block place.now (proposal place.now view offer)
        then Some (proposal place.now view offer) else None)) }
{
    if !have_room(offer.as_slice()) {
        return Ok(None);
    }
    let block = proposal(alloc, place, view, offer)?;
    if is_next_block(place, &block) {
        Ok(Some(block))
    } else {
        Ok(None)
    }
}
