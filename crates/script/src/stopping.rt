//! The lines that stop and start a node.
ghost use Rattle.std.specs.Prelude.{◌≡◌, ◌+◌, length};
ghost use Rattle.script.specs.Words.{Word, words_left};
ghost use Rattle.script.specs.Reading.{Gives, Reads};
ghost use Rattle.script.specs.Grammar.{stop_line, stop_at_line, start_line, stopping_line_of};

use crate::byzantine::byzantine_line;
use crate::command::{Command, Halt};
use crate::words::Words;
use std::alloc::Global;

#[tactic(auto, unfolding(crate::specs::Grammar::stop_line))]
fn stop_line(words: &mut Words<'_>) -> Result<Command, Halt>
    ensures { Gives (λ command. command) result (stop_line (length words.old.line.now + 1) (words_left words.old.line.now words.old.from)) }
{
    let node = words.id()?;
    let image = words.image()?;
    words.end()?;
    Ok(Command::Stop { node, image })
}

#[tactic(auto, unfolding(crate::specs::Grammar::stop_at_line))]
fn stop_at_line(words: &mut Words<'_>) -> Result<Command, Halt>
    ensures { Gives (λ command. command) result (stop_at_line (length words.old.line.now + 1) (words_left words.old.line.now words.old.from)) }
{
    let node = words.id()?;
    let call = words.device_call()?;
    let image = words.image()?;
    words.end()?;
    Ok(Command::StopAt { node, call, image })
}

#[tactic(auto, unfolding(crate::specs::Grammar::start_line))]
fn start_line(words: &mut Words<'_>) -> Result<Command, Halt>
    ensures { Gives (λ command. command) result (start_line (length words.old.line.now + 1) (words_left words.old.line.now words.old.from)) }
{
    let node = words.id()?;
    words.end()?;
    Ok(Command::Start { node })
}

/// What a line that stops or starts a node, or one of a Byzantine member, asks for, by its first
/// word and those behind it.
#[tactic(auto, unfolding(crate::specs::Grammar::stopping_line_of))]
pub fn stopping_line(
    alloc: Global,
    place: usize,
    word: &[u8],
    words: &mut Words<'_>,
) -> Result<Command, Halt>
    ensures { Gives (λ command. command) result (stopping_line_of (length words.old.line.now + 1) (record { place = place; text = word.now }) (words_left words.old.line.now words.old.from)) }
{
    if word == b"stop".as_slice() {
        return stop_line(words);
    }
    if word == b"stop-at".as_slice() {
        return stop_at_line(words);
    }
    if word == b"start".as_slice() {
        return start_line(words);
    }
    byzantine_line(alloc, place, word, words)
}
