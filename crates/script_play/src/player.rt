ghost use Rattle.std.specs.Prelude.{true, ◌≡◌, ◌≢◌, ◌≤◌, ◌<◌, ◌+◌, ◌++◌, [], ℕ, IsSome, List, length, false, string_bytes, IfOk, IfErr, OnErr, OnOk, MatchOption, Some, None, Ok, Err};
ghost use Rattle.ord_types.specs.Causes.{Rose, HasCause};
ghost use Rattle.ord_types.specs.Told.{told};
ghost use Rattle.line_flow.specs.Lines.{lines};
ghost use Rattle.line_flow.specs.Reader.{ahead};
ghost use Rattle.script.specs.Grammar.{meaning};
ghost use Rattle.script_play.specs.Turns.{TurnedBy};
ghost use Rattle.script_play.specs.Runs.{said, line_turn, run, LineIs, script_run};
ghost use Rattle.script_play.specs.Choices.{MeansOnly, AllDecided, LeavesBy, PlayedTo, StoppedIn, Played};

use crate::ending::{Ending, Fault};
use crate::machine::Machine;
use crate::texts::{put_limit, put_malformed, put_not_built};
use line_flow::{LineReader, NextLine, write_all};
use ord_types::{Sink, Source};
use script::{Meaning, Stop, meaning};
use std::alloc::Global;

/// How many lines a script may have.
const MAX_LINES: u64 = 1_000_000;

/// How many bytes a line may have.
const MAX_LINE: usize = 8_500_000;

/// Adds what a line says to a machine.
fn say<M: Machine>(
    alloc: Global,
    machine: &mut M,
    number: u64,
    line: &[u8],
    text: &mut String,
) -> Result<Option<Ending>, Fault>
    requires { M.is_sound machine.old }
    ensures sound { OnOk result (M.is_sound machine.new) }
    ensures said { IfOk result (λ ending. TurnedBy (λ w. said M.turn_of w number (meaning line.now)) (M.world machine.old) (M.world machine.new) (string_bytes text.old) (string_bytes text.new) ending (M.is_decided machine.old × MeansOnly M.decides line.now) (M.is_decided machine.new)) }
    ensures not_done { result ≢ Ok (Some Ending.Done) }
    ensures memory { IfErr result (λ fault. fault ≡ Fault.OutOfMemory) }
{
    match meaning(alloc, line)? {
        Meaning::Nothing => Ok(None),
        Meaning::Means(command) => Ok(machine.turn(number, command, text)?),
        Meaning::Wrong(Stop::Malformed(place)) => {
            put_malformed(text, number, place)?;
            Ok(Some(Ending::MalformedLine(number, place)))
        }
        Meaning::Wrong(Stop::NotBuilt) => {
            put_not_built(text, number)?;
            Ok(Some(Ending::LaterLine(number)))
        }
    }
}

/// Reads a script and has its text written.
#[derive(Drop)]
pub struct Player {
    alloc: Global,
    reader: LineReader,
    text: String,
}

impl Player {
    /// The text of the line that was read.
    fn line_turn<M: Machine>(
        &mut self,
        machine: &mut M,
        number: u64,
        long: bool,
    ) -> Result<Option<Ending>, Fault>
        requires sound { M.is_sound machine.old }
        requires short { long ≡ false → length self.old.reader.line.items ≤ 8500000 }
        ensures sound { OnOk result (M.is_sound machine.new) }
        ensures turned { IfOk result (λ ending. (line : List ℕ) → LineIs long line self.old.reader.line.items → TurnedBy (λ w. line_turn M.turn_of w number line) (M.world machine.old) (M.world machine.new) [] (string_bytes self.new.text) ending (M.is_decided machine.old × MeansOnly M.decides line) (M.is_decided machine.new)) }
        ensures reader { self.new.reader ≡ self.old.reader }
        ensures not_done { result ≢ Ok (Some Ending.Done) }
        ensures more { result ≡ Ok None → number ≤ 1000000 }
        ensures long_ends { long ≡ true → result ≢ Ok None }
        ensures memory { IfErr result (λ fault. fault ≡ Fault.OutOfMemory) }
    {
        self.text.clear();
        if number > MAX_LINES {
            put_limit(&mut self.text, number, MAX_LINES)?;
            return Ok(Some(Ending::Limit(MAX_LINES)));
        }
        if long {
            put_limit(&mut self.text, number, MAX_LINE as u64)?;
            return Ok(Some(Ending::Limit(MAX_LINE as u64)));
        }
        say(
            self.alloc,
            machine,
            number,
            self.reader.line(),
            &mut self.text,
        )
    }

    /// Reads a line, and makes its text.
    fn turn<M: Machine, S: Source>(
        &mut self,
        machine: &mut M,
        source: &mut S,
        number: u64,
    ) -> Result<Option<Ending>, Fault>
        requires { M.is_sound machine.old }
        ensures sound { OnOk result (M.is_sound machine.new) }
        ensures tells { IsSome (S.left source.old) → IsSome (S.left source.new) }
        ensures leaves { IfOk result (λ ending. IsSome (S.left source.old) →
            let before = lines (ahead self.old.reader (S.left source.old)) in
            let after = lines (ahead self.new.reader (S.left source.new)) in
            LeavesBy
            (λ choices. run M.turn_of M.closing_of before (M.world machine.old choices) number)
            (λ choices. run M.turn_of M.closing_of after (M.world machine.new choices) (number + 1))
            (string_bytes self.new.text) ending
            (AllDecided (M.is_decided machine.old) M.decides before)
            (AllDecided (M.is_decided machine.new) M.decides after)) }
        ensures more { result ≡ Ok None → number ≤ 1000000 }
        ensures all_read { result ≡ Ok (Some Ending.Done) → IsSome (S.left source.old) → told (S.left source.new) ≡ [] }
        ensures cause { result ≡ Err Fault.ReadFault → Rose (S.faults source.old) (S.faults source.new) }
        ensures no_write { result ≢ Err Fault.WriteFault }
        ensures later { S.faults source.old ≤ S.faults source.new }
    {
        match self.reader.next_line(source, MAX_LINE)? {
            NextLine::End => {
                self.text.clear();
                machine.closing(&mut self.text)?;
                Ok(Some(Ending::Done))
            }
            NextLine::Line => self.line_turn(machine, number, false),
            NextLine::TooLong => self.line_turn(machine, number, true),
        }
    }

    /// Plays a line: reads it, and writes its text.
    fn step<M: Machine, S: Source, K: Sink>(
        &mut self,
        machine: &mut M,
        source: &mut S,
        out: &mut K,
        number: u64,
    ) -> Result<Option<Ending>, Fault>
        requires { M.is_sound machine.old }
        ensures sound { OnOk result (M.is_sound machine.new) }
        ensures tells { IsSome (S.left source.old) → IsSome (S.left source.new) }
        ensures plays { IfOk result (λ ending. IsSome (S.left source.old) →
            let before = lines (ahead self.old.reader (S.left source.old)) in
            let after = lines (ahead self.new.reader (S.left source.new)) in
            PlayedTo
            (λ choices. run M.turn_of M.closing_of before (M.world machine.old choices) number)
            (λ choices. run M.turn_of M.closing_of after (M.world machine.new choices) (number + 1))
            (K.content out.old) (K.content out.new) ending
            (AllDecided (M.is_decided machine.old) M.decides before)
            (AllDecided (M.is_decided machine.new) M.decides after)) }
        ensures stops { OnErr result (IsSome (S.left source.old) →
            let before = lines (ahead self.old.reader (S.left source.old)) in
            StoppedIn
            (λ choices. run M.turn_of M.closing_of before (M.world machine.old choices) number)
            (K.content out.old) (K.content out.new)
            (AllDecided (M.is_decided machine.old) M.decides before)) }
        ensures more { result ≡ Ok None → number ≤ 1000000 }
        ensures all_read { result ≡ Ok (Some Ending.Done) → IsSome (S.left source.old) → told (S.left source.new) ≡ [] }
        ensures read_fault { result ≡ Err Fault.ReadFault → Rose (S.faults source.old) (S.faults source.new) }
        ensures write_fault { result ≡ Err Fault.WriteFault → Rose (K.faults out.old) (K.faults out.new) }
        ensures later { S.faults source.old ≤ S.faults source.new }
        ensures later_out { K.faults out.old ≤ K.faults out.new }
    {
        let ending = self.turn(machine, source, number)?;
        write_all(out, self.text.as_bytes())?;
        Ok(ending)
    }
}

/// Plays a script on a machine. What is written is the text of the script by the choices that were
/// taken, or after a fault a front of it. No choice is taken where all is decided.
pub fn play<M: Machine, S: Source, K: Sink>(
    alloc: Global,
    machine: &mut M,
    source: &mut S,
    out: &mut K,
) -> Result<Ending, Fault>
    requires { M.is_sound machine.old }

    // By some choices, an ending is the script's own, and its whole text is written; after a fault a front of it is written.
    ensures played { IsSome (S.left source.old) →
        let script = told (S.left source.old) in
        Played (λ choices. script_run M.turn_of M.closing_of (M.world machine.old choices) script)
        (K.content out.old) (K.content out.new) result
        (AllDecided (M.is_decided machine.old) M.decides (lines script)) }
    ensures all_read { result ≡ Ok Ending.Done → IsSome (S.left source.old) → told (S.left source.new) ≡ [] }

    // A fault has its cause.
    ensures read_fault { result ≡ Err Fault.ReadFault → Rose (S.faults source.old) (S.faults source.new) }
    ensures write_fault { result ≡ Err Fault.WriteFault → Rose (K.faults out.old) (K.faults out.new) }
    ensures later { S.faults source.old ≤ S.faults source.new }
    ensures later_out { K.faults out.old ≤ K.faults out.new }
{
    let mut player = Player {
        alloc,
        reader: LineReader::new(alloc)?,
        text: String::new(alloc),
    };
    let mut number: u64 = 0;
    'lines: loop {
        number += 1;
        if let Some(ending) = player.step(machine, source, out, number)? {
            return Ok(ending);
        }
    }
}
