//! Laws of the log and of its records. The calls do nothing.
ghost use Rattle.std.specs.Prelude.{◌≡◌, ℕ, List, Some, Ok};
ghost use Rattle.ord_types.specs.Laws.{HasOneSpelling, IsBytes};
ghost use Rattle.gate_log.specs.Disk.{State, MayLeave};
ghost use Rattle.bft_wal.specs.Laws.{AcceptingAdds, EnteringAdds, LeavingAdds, NothingElseAdds, PreparingAdds, TailingAdds, VotingAdds};
ghost use Rattle.bft_wal.specs.Opening.{IsSettled, Wal as SomeWal, opens_as, records};
ghost use Rattle.bft_wal.specs.Reading.{record_at, record_in};
ghost use Rattle.bft_wal.specs.Records.{HasRecordSpelling, WalRecord as SomeRecord, record_text};

/// A settled log stands at every crash: what a crash leaves of file 0, until it is written to again, opens to the log's
/// records. It stays settled while file 0 stays as it is, whatever becomes of the other files.
pub fn settled_wal_stands()
    ensures crash { (wal : SomeWal) (state : State) → IsSettled wal state → (c : List ℕ) → MayLeave (state 0) c → opens_as c ≡ Ok (records wal) }
    ensures others { (wal : SomeWal) (one two : State) → IsSettled wal one → two 0 ≡ one 0 → IsSettled wal two }
{}

/// What is spelled is read again, and what is read has a spelling, which the bytes are. No record has a second one, and none
/// begins another.
pub fn records_are_read()
    ensures again { (r : SomeRecord) → HasRecordSpelling r → record_in (record_text r) ≡ Some r }
    ensures sound { (bytes : List ℕ) (r : SomeRecord) → IsBytes bytes → record_in bytes ≡ Some r → HasRecordSpelling r × (bytes ≡ record_text r) }
    ensures one { HasOneSpelling record_at HasRecordSpelling record_text }
{}

/// After one more record what is durable has changed in exactly the fields that the record names.
pub fn one_record_more()
    ensures accepted { AcceptingAdds }
    ensures prepared { PreparingAdds }
    ensures left { LeavingAdds }
    ensures entered { EnteringAdds }
    ensures voted { VotingAdds }
    ensures tail { TailingAdds }
    ensures others { NothingElseAdds }
{}
