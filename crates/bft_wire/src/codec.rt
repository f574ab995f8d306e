//! Messages as bytes, and back.
ghost use Rattle.std.specs.Prelude.{◌≡◌, ◌+◌, ◌-◌, ◌^◌, ◌<◌, ◌≤◌, ◌++◌, length, drop, min, IfOk, IfSome, IfNone, OnOk, OnErr};
ghost use Rattle.ord_types.specs.Faults.{Answers};
ghost use Rattle.bft_wire.specs.Messages.{Spells};
ghost use Rattle.bft_wire.specs.Lengths.{FitsMessage};
ghost use Rattle.bft_wire.specs.Placing.{IsCount};
ghost use Rattle.bft_wire.specs.Reading.{decoded};
ghost use Rattle.bft_wire.specs.Spelling.{Message as SomeMessage, message_text};

use crate::decoding::message;
use crate::encoding::write_message;
use crate::message::Message;
use crate::placing::{Counting, Placing};
use ord_types::{Bytes, Flaw, Growing, Halt, NoMemory, ReadFault, Reader};
use std::alloc::Global;

// The message that all of the bytes are.
#[tactic(auto, unfolding(crate::specs::Reading::decoded))]
fn whole_message(alloc: Global, bytes: &[u8]) -> Result<Message, ReadFault>
    ensures { Answers result (decoded bytes.now) }
{
    let mut reader = Reader::new(bytes);
    match message(&mut reader, alloc) {
        Ok(_) if reader.left() > 0 => Err(ReadFault::Trailing(
            bytes.len().saturating_sub(reader.left()),
        )),
        Ok(message) => Ok(message),
        Err(Halt::Flawed(Flaw::Short)) => Err(ReadFault::Short(bytes.len())),
        Err(Halt::Flawed(Flaw::Bad(left))) => Err(ReadFault::BadField(
            bytes.len().saturating_sub(left),
        )),
        Err(Halt::NoMemory) => Err(ReadFault::NoMemory),
    }
}

/// The message that the bytes spell. A fault tells the place: `Short` the length of the bytes, where they end
/// inside the message; `BadField` the first byte of the first field that breaks its rule; `Trailing` the first
/// byte behind the message.
pub fn decode(alloc: Global, bytes: &[u8]) -> Result<Message, ReadFault>
    ensures exact { Answers result (decoded bytes.now) }
    ensures found { IfOk result (Spells bytes.now) }
    ensures fits { IfOk result FitsMessage }
    ensures only { (m : SomeMessage) → Spells bytes.now m → Answers result (Ok m) }
{
    whole_message(alloc, bytes)
}

/// Adds the spelling of a message.
pub fn encode(message: &Message, out: &mut Bytes) -> Result<(), NoMemory>
    requires { FitsMessage message.now }
    ensures ok { OnOk result (out.new ≡ out.old ++ message_text message.now) }
    ensures err { OnErr result (out.new ≡ out.old) }
{
    let before = out.len();
    let mut growing = Growing::of(out);
    write_message(&mut growing, message);
    growing.give(out, before)
}

// How many bytes spell the message, or the last number of the type.
fn size_of_message(message: &Message) -> usize
    requires { FitsMessage message.now }
    ensures { IsCount result (message_text message.now) }
{
    let mut counting = Counting { count: 0 };
    write_message(&mut counting, message);
    counting.count
}

/// Writes the spelling of a message over the front of a buffer, and answers how many bytes it has. Where the
/// buffer is shorter than that, nothing is written.
pub fn encode_into(message: &Message, out: &mut [u8]) -> Option<usize>
    requires { FitsMessage message.now }
    ensures some { let text = message_text message.now in
        IfSome result (λ n. (n ≡ length text) × (n ≤ length out.old) × (out.new ≡ text ++ drop n out.old)) }
    ensures none { IfNone result ((length out.old < length (message_text message.now)) × (out.new ≡ out.old)) }
{
    let size = size_of_message(message);
    if out.len() < size {
        return None;
    }
    let mut placing = Placing { out, place: 0 };
    write_message(&mut placing, message);
    Some(size)
}
