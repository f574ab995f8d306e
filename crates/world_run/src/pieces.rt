//! What steps and lines share: places, certificates, signatures and messages.
ghost use Rattle.std.specs.Prelude.{◌≡◌, IfOk, IfSome, OnOk};
ghost use Rattle.ord_types.specs.Lengths.{FitsCert, FitsSig};
ghost use Rattle.bft_wire.specs.Lengths.{FitsMessage};
ghost use Rattle.bft_wire.specs.Reading.{message_in};
ghost use Rattle.bft_wire.specs.Spelling.{message_text};
ghost use Rattle.view_model.specs.Acts.{carried_cert};
ghost use Rattle.signer_edge.specs.Seals.{next_sig, with_seal};
ghost use Rattle.view_core.specs.Places.{IsPlace};

use bft_wire::{Message, decode, encode};
use ord_types::{Bytes, Cert, Copied, NoMemory, Place, ReadFault, Sig};
use signer_edge::{SealSeat, SignFault, Signer};
use std::alloc::Global;

/// The certificate that a proposal carries.
pub(crate) fn carried_cert(place: &Place) -> Result<Option<Cert>, NoMemory>
    requires { IsPlace place.now }
    ensures cert { IfOk result (λ cert. cert ≡ carried_cert place.now) }
    ensures fits { IfOk result (λ cert. IfSome cert FitsCert) }
{
    if place.height == place.start {
        return Ok(None);
    }
    match &place.last_cert {
        None => Ok(None),
        Some(cert) => Ok(Some(cert.copy()?)),
    }
}

/// Signs a statement. A box of seals never fails but for want of memory.
pub(crate) fn signed(seat: &mut SealSeat, statement: &[u8]) -> Result<Sig, NoMemory>
    ensures sig { IfOk result (λ sig. sig ≡ next_sig seat.old) }
    ensures fits { IfOk result FitsSig }
    ensures seat { OnOk result (seat.new ≡ with_seal seat.old statement.now) }
{
    match seat.sign(statement) {
        Ok(sig) => Ok(sig),
        Err(SignFault::Failed) => Err(NoMemory),
        Err(SignFault::NoMemory) => Err(NoMemory),
    }
}

/// The message that bytes spell, if they spell one.
pub(crate) fn spelled(alloc: Global, bytes: &[u8]) -> Result<Option<Message>, NoMemory>
    ensures message { IfOk result (λ message. message ≡ message_in bytes.now) }
    ensures fits { IfOk result (λ message. IfSome message FitsMessage) }
{
    match decode(alloc, bytes) {
        Ok(message) => Ok(Some(message)),
        Err(ReadFault::NoMemory) => Err(NoMemory),
        Err(ReadFault::Short(_at)) => Ok(None),
        Err(ReadFault::BadField(_at)) => Ok(None),
        Err(ReadFault::Trailing(_at)) => Ok(None),
    }
}

/// A message as bytes.
pub(crate) fn encoded(alloc: Global, message: Message) -> Result<Bytes, NoMemory>
    requires { FitsMessage message }
    ensures { IfOk result (λ bytes. bytes ≡ message_text message) }
{
    let mut bytes = Bytes::new(alloc);
    encode(&message, &mut bytes)?;
    Ok(bytes)
}
