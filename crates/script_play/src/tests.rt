ghost use Rattle.std.specs.Prelude.{◌≡◌, ◌==◌, ◌++◌, ℕ, Bool, false, List, Ok, Err, codes, decimal, drop, if◌then◌else◌, slice_get, unwrap_or};
ghost use Rattle.script_play.specs.Runs.{limit_turn};
ghost use Rattle.script_play.specs.declared.ending.Ending.TheVariants.{TooManyFaulty};
ghost use Rattle.script_play.specs.Texts.{too_many_faulty_text};

use crate::ending::{Ending, Fault};
use crate::machine::Machine;
use crate::player::play;
use crate::statuses::{fault_status, status};
use crate::texts::{put_limit, put_too_many_faulty};
use ord_types::{Bytes, List, MemSink, MemSource, NoMemory};
use script::Command;
use std::alloc::Global;
use std::test::Fail;

/// Says that a command was done, and ends the run at line 5 by a limit, and at line 6 because too many
/// are faulty. An unsure one may say of any other line that its command was lost.
#[derive(Drop)]
struct Echo {
    unsure: bool,
    /// Whether the next command is lost.
    lost: bool,
}

/// How line 6 ends a run.
const TOO_MANY: Ending = Ending::TooManyFaulty {
    number: 6,
    config: 3,
    count: 2,
    bound: 1,
};

impl Machine for Echo {
    ghost World = { Bool × List Bool };

    ghost Choice = { Bool };

    ghost world = { λ echo later. (echo.unsure, later) };

    ghost turn_of = { λ world number command.
        if number == 5 then limit_turn 5 7
        else (if number == 6 then (record { printed = too_many_faulty_text 6 3 2 1; next = Err (TooManyFaulty 6 3 2 1) })
        else (if world.0 then (record { printed = decimal number ++ (if unwrap_or (slice_get world.1 0) false then codes " lost\n" else codes " done\n"); next = Ok (world.0, drop 1 world.1) })
        else (record { printed = decimal number ++ codes " done\n"; next = Ok world }))) };

    ghost closing_of = { λ _. codes "end\n" };

    ghost is_sound = { λ _. Unit {0} };

    ghost is_decided = { λ echo. echo.unsure ≡ false };

    ghost decides = { λ _. Unit {0} };

    fn turn(
        &mut self,
        number: u64,
        _command: Command,
        text: &mut String,
    ) -> Result<Option<Ending>, NoMemory> {
        if number == 5 {
            put_limit(text, 5, 7)?;
            return Ok(Some(Ending::Limit(7)));
        }
        if number == 6 {
            put_too_many_faulty(text, 6, 3, 2, 1)?;
            return Ok(Some(TOO_MANY));
        }
        if self.unsure {
            if self.lost {
                write!(text, "{number} lost\n")?;
                self.lost = false;
                return Ok(None);
            }
            write!(text, "{number} done\n")?;
            self.lost = true;
            return Ok(None);
        }
        write!(text, "{number} done\n")?;
        Ok(None)
    }

    fn closing(&self, text: &mut String) -> Result<(), NoMemory> {
        write!(text, "end\n")?;
        Ok(())
    }
}

/// Plays a script over a source and a sink of which these calls fail, and what was written.
fn played(
    alloc: Global,
    unsure: bool,
    script: &[u8],
    read: u64,
    write: u64,
) -> Result<(Result<Ending, Fault>, MemSink), NoMemory> {
    let mut reads = List::new(alloc);
    reads.push(read)?;
    let mut writes = List::new(alloc);
    writes.push(write)?;
    let mut source = MemSource::new(Bytes::from_slice(alloc, script)?, reads);
    let mut sink = MemSink::new(alloc, writes)?;
    let mut echo = Echo { unsure, lost: true };
    let result = play(alloc, &mut echo, &mut source, &mut sink);
    Ok((result, sink))
}

#[test]
fn scripts(rt: HostRuntime) -> Result<(), Fail> {
    for (script, text, ending, number) in [
        (b"".as_slice(), b"end\n".as_slice(), Ending::Done, 0),
        (
            b"tick 1\n\n#\nflush",
            b"1 done\n4 done\nend\n",
            Ending::Done,
            0,
        ),
        (
            b"tick 1\ntick x\nflush\n",
            b"1 done\n2 malformed at 6\n",
            Ending::MalformedLine(2, 6),
            3,
        ),
        (
            b"#\njoin 1\nflush",
            b"2 not built\n",
            Ending::LaterLine(2),
            17,
        ),
        (
            b"\n\n\nflush\nflush\nflush",
            b"4 done\n5 limit 7\n",
            Ending::Limit(7),
            9,
        ),
        (
            b"\n\n\nflush\n\nflush\nflush",
            b"4 done\n6 too many faulty: configuration 3 has 2, bound 1\n",
            TOO_MANY,
            5,
        ),
    ] {
        let (result, sink) = played(rt.alloc(), false, script, 0, 0)?;
        assert_eq!(rt; result, Ok(ending));
        assert_eq!(rt; sink.bytes(), text);
        assert_eq!(rt; status(ending), number);
    }
    Ok(())
}

#[test]
fn choices(rt: HostRuntime) -> Result<(), Fail> {
    let (result, sink) = played(rt.alloc(), true, b"tick 1\n\nflush\nflush", 0, 0)?;
    assert_eq!(rt; result, Ok(Ending::Done));
    assert_eq!(rt; sink.bytes(), b"1 lost\n3 done\n4 lost\nend\n".as_slice());
    Ok(())
}

#[test]
fn limits(rt: HostRuntime) -> Result<(), Fail> {
    for (byte, count, text) in [
        (b'#', 8_500_000, b"end\n".as_slice()),
        (b'#', 8_500_001, b"1 limit 8500000\n"),
        (b'\n', 1_000_000, b"end\n"),
        (b'\n', 1_000_001, b"1000001 limit 1000000\n"),
    ] {
        let script = vec![in rt.alloc(); byte; count]?;
        let (_, sink) = played(rt.alloc(), false, script.as_slice(), 0, 0)?;
        assert_eq!(rt; sink.bytes(), text);
    }
    Ok(())
}

#[test]
fn faults(rt: HostRuntime) -> Result<(), Fail> {
    let script = b"tick 1\nflush";
    for (read, text) in [(1, b"".as_slice()), (2, b"1 done\n")] {
        let (result, sink) = played(rt.alloc(), false, script, read, 0)?;
        assert_eq!(rt; result, Err(Fault::ReadFault));
        assert_eq!(rt; sink.bytes(), text);
    }
    for (write, text) in [
        (1, b"".as_slice()),
        (2, b"1 done\n"),
        (3, b"1 done\n2 done\n"),
    ] {
        let (result, sink) = played(rt.alloc(), false, script, 0, write)?;
        assert_eq!(rt; result, Err(Fault::WriteFault));
        assert_eq!(rt; sink.bytes(), text);
    }
    assert_eq!(rt; fault_status(Fault::ReadFault), 6);
    assert_eq!(rt; fault_status(Fault::WriteFault), 7);
    assert_eq!(rt; fault_status(Fault::OutOfMemory), 8);
    Ok(())
}
