ghost use Rattle.std.specs.Prelude.{◌≡◌, ◌+◌, length, IfOk};
ghost use Rattle.script.specs.Words.{Word, words, words_left};
ghost use Rattle.script.specs.Reading.{Gives, Reads};
ghost use Rattle.script.specs.Grammar.{genesis_line, submit_line, raw_line, tick_line, deliver_line, flush_line, show_line, line_of, command_of, meaning};

use crate::command::{Command, Halt, Meaning, Options, Stop, malformed};
use crate::later::is_later;
use crate::stopping::stopping_line;
use crate::words::Words;
use ord_types::NoMemory;
use std::alloc::Global;

#[tactic(auto, unfolding(crate::specs::Grammar::submit_line))]
fn submit_line(alloc: Global, words: &mut Words<'_>) -> Result<Command, Halt>
    ensures { Gives (λ command. command) result (submit_line (length words.old.line.now + 1) (words_left words.old.line.now words.old.from)) }
{
    let node = words.id()?;
    let client = words.u32()?;
    let serial = words.u64()?;
    let payload = words.hex(alloc)?;
    words.end()?;
    Ok(Command::Submit {
        node,
        client,
        serial,
        payload,
    })
}

#[tactic(auto, unfolding(crate::specs::Grammar::raw_line))]
fn raw_line(alloc: Global, words: &mut Words<'_>) -> Result<Command, Halt>
    ensures { Gives (λ command. command) result (raw_line (length words.old.line.now + 1) (words_left words.old.line.now words.old.from)) }
{
    let node = words.id()?;
    let bytes = words.hex(alloc)?;
    words.end()?;
    Ok(Command::Raw { node, bytes })
}

#[tactic(auto, unfolding(crate::specs::Grammar::tick_line))]
fn tick_line(words: &mut Words<'_>) -> Result<Command, Halt>
    ensures { Gives (λ command. command) result (tick_line (length words.old.line.now + 1) (words_left words.old.line.now words.old.from)) }
{
    let node = words.id()?;
    let count = words.ticks()?;
    words.end()?;
    Ok(Command::Tick { node, count })
}

#[tactic(auto, unfolding(crate::specs::Grammar::genesis_line))]
fn genesis_line(alloc: Global, words: &mut Words<'_>) -> Result<Command, Halt>
    ensures { Gives (λ command. command) result (genesis_line (length words.old.line.now + 1) (words_left words.old.line.now words.old.from)) }
{
    words.same(b"bft")?;
    let members = words.ids(alloc)?;
    let Options {
        batch: _,
        byzantine,
    } = words.options(alloc)?;
    words.end()?;
    Ok(Command::Genesis { members, byzantine })
}

#[tactic(auto, unfolding(crate::specs::Grammar::deliver_line))]
fn deliver_line(alloc: Global, words: &mut Words<'_>) -> Result<Command, Halt>
    ensures { Gives (λ command. command) result (deliver_line (length words.old.line.now + 1) (words_left words.old.line.now words.old.from)) }
{
    let ranges = words.ranges(alloc)?;
    words.end()?;
    Ok(Command::Deliver { ranges })
}

#[tactic(auto, unfolding(crate::specs::Grammar::flush_line))]
fn flush_line(alloc: Global, words: &mut Words<'_>) -> Result<Command, Halt>
    ensures { Gives (λ command. command) result (flush_line (words_left words.old.line.now words.old.from)) }
{
    let only = words.given_ids(alloc)?;
    words.end()?;
    Ok(Command::Flush { only })
}

#[tactic(auto, unfolding(crate::specs::Grammar::show_line))]
fn show_line(words: &mut Words<'_>) -> Result<Command, Halt>
    ensures { Gives (λ command. command) result (show_line (length words.old.line.now + 1) (words_left words.old.line.now words.old.from)) }
{
    let node = words.id()?;
    let number = words.entry()?;
    words.end()?;
    Ok(Command::Show { node, number })
}

/// What a line asks for, by its first word and those behind it.
#[tactic(auto, unfolding(crate::specs::Grammar::line_of))]
fn line_of(alloc: Global, place: usize, word: &[u8], words: &mut Words<'_>) -> Result<Command, Halt>
    ensures { Gives (λ command. command) result (line_of (length words.old.line.now + 1) (record { place = place; text = word.now }) (words_left words.old.line.now words.old.from)) }
{
    if word == b"genesis".as_slice() {
        return genesis_line(alloc, words);
    }
    if word == b"submit".as_slice() {
        return submit_line(alloc, words);
    }
    if word == b"raw".as_slice() {
        return raw_line(alloc, words);
    }
    if word == b"tick".as_slice() {
        return tick_line(words);
    }
    if word == b"deliver".as_slice() {
        return deliver_line(alloc, words);
    }
    if word == b"flush".as_slice() {
        return flush_line(alloc, words);
    }
    if word == b"show".as_slice() {
        return show_line(words);
    }
    stopping_line(alloc, place, word, words)
}

fn command(alloc: Global, line: &[u8]) -> Result<Command, Halt>
    ensures { Gives (λ command. command) result (command_of (length line.now + 1) (words 1 line.now)) }
{
    let mut words = Words::new(line);
    let Some((place, word)) = words.next() else {
        return Err(malformed(line.len() + 1));
    };
    if is_later(word, &words) {
        return Err(Halt::Stopped(Stop::NotBuilt));
    }
    line_of(alloc, place, word, &mut words)
}

/// What a line means.
#[tactic(auto, unfolding(crate::specs::Grammar::meaning))]
pub fn meaning(alloc: Global, line: &[u8]) -> Result<Meaning, NoMemory>
    ensures { IfOk result (λ found. found ≡ meaning line.now) }
{
    match line {
        [] | [b'#', ..] => Ok(Meaning::Nothing),
        _ => match command(alloc, line) {
            Ok(command) => Ok(Meaning::Means(command)),
            Err(Halt::NoMemory) => Err(NoMemory),
            Err(Halt::Stopped(stop)) => Ok(Meaning::Wrong(stop)),
        },
    }
}

#[cfg(test)]
mod tests {
    use super::*;
    use crate::command::Range;
    use std::test::Fail;

    #[test]
    fn lines_of_several(rt: HostRuntime) -> Result<(), Fail> {
        match deliver_line(rt.alloc(), &mut Words::new(b"1-3,7,0-4611686018427387903")) {
            Ok(Command::Deliver { ranges }) => {
                let wanted = [(1, 3), (7, 7), (0, 4611686018427387903)];
                let wanted = wanted.map(|(first, last)| Range { first, last });
                assert_eq!(rt; ranges.as_slice(), wanted.as_slice());
            }
            _ => return Err(Fail::from("deliver")),
        }
        for line in [
            b"3-1".as_slice(),
            b"1-2-3",
            b"1,",
            b"4611686018427387904",
            b"1-",
            b"1 2",
        ] {
            let found = deliver_line(rt.alloc(), &mut Words::new(line));
            assert!(rt; found.is_err());
        }
        match tick_line(&mut Words::new(b"7 10000")) {
            Ok(Command::Tick { count, .. }) => assert_eq!(rt; count, 10000),
            _ => return Err(Fail::from("tick")),
        }
        assert!(rt; tick_line(&mut Words::new(b"7 10001")).is_err());
        assert!(rt; tick_line(&mut Words::new(b"7 0")).is_err());
        match flush_line(rt.alloc(), &mut Words::new(b"2,5")) {
            Ok(Command::Flush { only: Some(ids) }) => {
                assert_eq!(rt; ids.as_slice(), [2, 5].as_slice());
            }
            _ => return Err(Fail::from("flush")),
        }
        Ok(())
    }
}
