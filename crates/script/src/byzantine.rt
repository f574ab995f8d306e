//! The lines of Byzantine members.
ghost use Rattle.std.specs.Prelude.{◌≡◌, ◌+◌, length};
ghost use Rattle.script.specs.Words.{Word, words_left};
ghost use Rattle.script.specs.Reading.{Gives, Reads};
ghost use Rattle.script.specs.Grammar.{propose_line, vote_line, lie_line, seal_line, byzantine_line_of};

use crate::command::{Command, Halt, malformed};
use crate::words::Words;
use std::alloc::Global;

#[tactic(auto, unfolding(crate::specs::Grammar::propose_line))]
fn propose_line(alloc: Global, words: &mut Words<'_>) -> Result<Command, Halt>
    ensures { Gives (λ command. command) result (propose_line (length words.old.line.now + 1) (words_left words.old.line.now words.old.from)) }
{
    let from = words.id()?;
    let to = words.id()?;
    let view = words.entry()?;
    let client = words.u32()?;
    let serial = words.u64()?;
    let payload = words.payload(alloc)?;
    words.end()?;
    Ok(Command::Propose {
        from,
        to,
        view,
        client,
        serial,
        payload,
    })
}

#[tactic(auto, unfolding(crate::specs::Grammar::vote_line))]
fn vote_line(words: &mut Words<'_>) -> Result<Command, Halt>
    ensures { Gives (λ command. command) result (vote_line (length words.old.line.now + 1) (words_left words.old.line.now words.old.from)) }
{
    let from = words.id()?;
    let to = words.id()?;
    let kind = words.vote_kind()?;
    let view = words.entry()?;
    let entry = words.entry()?;
    words.end()?;
    Ok(Command::Vote {
        from,
        to,
        kind,
        view,
        entry,
    })
}

#[tactic(auto, unfolding(crate::specs::Grammar::lie_line))]
fn lie_line(alloc: Global, words: &mut Words<'_>) -> Result<Command, Halt>
    ensures { Gives (λ command. command) result (lie_line (length words.old.line.now + 1) (words_left words.old.line.now words.old.from)) }
{
    let from = words.id()?;
    let to = words.id()?;
    let bytes = words.hex(alloc)?;
    words.end()?;
    Ok(Command::Lie { from, to, bytes })
}

#[tactic(auto, unfolding(crate::specs::Grammar::seal_line))]
fn seal_line(alloc: Global, words: &mut Words<'_>) -> Result<Command, Halt>
    ensures { Gives (λ command. command) result (seal_line (length words.old.line.now + 1) (words_left words.old.line.now words.old.from)) }
{
    let id = words.u32()?;
    let bytes = words.hex(alloc)?;
    words.end()?;
    Ok(Command::Seal { id, bytes })
}

/// What a line of a Byzantine member asks for, by its first word and those behind it.
#[tactic(auto, unfolding(crate::specs::Grammar::byzantine_line_of))]
pub fn byzantine_line(
    alloc: Global,
    place: usize,
    word: &[u8],
    words: &mut Words<'_>,
) -> Result<Command, Halt>
    ensures { Gives (λ command. command) result (byzantine_line_of (length words.old.line.now + 1) (record { place = place; text = word.now }) (words_left words.old.line.now words.old.from)) }
{
    if word == b"byz-propose".as_slice() {
        return propose_line(alloc, words);
    }
    if word == b"byz-vote".as_slice() {
        return vote_line(words);
    }
    if word == b"lie".as_slice() {
        return lie_line(alloc, words);
    }
    if word == b"seal".as_slice() {
        return seal_line(alloc, words);
    }
    Err(malformed(place))
}
