ghost use Rattle.std.specs.Prelude.{◌≡◌, ◌≢◌, ℕ, ◌-◌, ◌^◌, ◌<◌, ◌≤◌, List, ◌∷◌, ◌++◌, length};
ghost use Rattle.gate_log.specs.Arms.{after_calls};
ghost use Rattle.gate_log.specs.Disk.{State, MayLeave};
ghost use Rattle.gate_log.specs.Format.{header, body, gate_after, reading};
ghost use Rattle.gate_log.specs.Front.{entries_before};
ghost use Rattle.gate_log.specs.Renew.{AreShort};
ghost use Rattle.gate_log.specs.Settled.{IsSettled};
ghost use Rattle.gate_log.specs.declared.arm.Arm.TheVariants.{Waiting, Reached};
ghost use Rattle.gate_log.specs.declared.image.Image.{Image};
ghost use Rattle.gate_log.specs.declared.log.GateLog.{GateLog};
ghost use Rattle.gate_log.specs.declared.reading.Reading.TheVariants.{Foreign, Log};

/// A settled log stands at every crash: what a crash leaves of its file, until it is written to again, opens to the log's
/// generation and entries. It stays settled while its file stays as it is, whatever becomes of the other files. A law
/// about the model; it does nothing.
pub fn settled_log_stands()
    ensures crash { (log : GateLog) (state : State) → IsSettled log state → (c : List ℕ) → MayLeave (state log.file) c → reading c ≡ Log log.generation log.entries }
    ensures others { (log : GateLog) (one two : State) → IsSettled log one → two log.file ≡ one log.file → IsSettled log two }
{}

/// What a log is begun with reads as its generation and entries, whatever byte but 0 opens its head gate and whatever
/// stands behind it. A law about the format; it does nothing.
pub fn begun_log_reads()
    ensures { (generation : ℕ) (entries : List (List ℕ)) (gate : ℕ) (rest : List ℕ) → 1 ≤ generation → generation < 2 ^ 62 → AreShort entries → gate ≢ 0
        → reading (header ++ gate ∷ (body generation entries ++ rest)) ≡ Log generation entries }
{}

/// An armed disk in memory stops at exactly the counted call of that number: before it the rest is waited for, from it on
/// the disk has stopped. A law about the model; it does nothing.
pub fn armed_call_stops()
    ensures before { (calls n : ℕ) (image : Image) → n < calls → after_calls n (Waiting calls image) ≡ Waiting (calls - n) image }
    ensures at { (calls : ℕ) (image : Image) → 1 ≤ calls → after_calls calls (Waiting calls image) ≡ Reached image }
    ensures later { (n : ℕ) (image : Image) → after_calls n (Reached image) ≡ Reached image }
{}

/// None of the entries in front of a broken gate is missed: they reach up to it. A law about the format; it does nothing.
pub fn front_reaches_the_gate()
    ensures { (place : ℕ) (bytes : List ℕ) → 17 < length bytes → 17 ≤ place → reading bytes ≡ Foreign place → gate_after (entries_before place bytes) ≡ place }
{}
