//! Laws of the messages' bytes. The calls do nothing.
ghost use Rattle.bft_wire.specs.Laws.{CutIsShort, RoundTrip, Unambiguous};

/// What was encoded is decoded again, to the same message, whatever bytes follow.
pub fn encoded_is_decoded()
    ensures { RoundTrip }
{}

/// Two messages never have one spelling, and no spelling begins another one.
pub fn spellings_differ()
    ensures { Unambiguous }
{}

/// Each proper front of a message's bytes is `Short`, with its length.
pub fn fronts_are_short()
    ensures { CutIsShort }
{}
