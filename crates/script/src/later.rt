ghost use Rattle.std.specs.Prelude.{◌≡◌, not};
ghost use Rattle.std.specs.List.{list_any};
ghost use Rattle.std.specs.Str.{bytes_eq};
ghost use Rattle.script.specs.Words.{words_left};
ghost use Rattle.script.specs.Later.{is_later_word, is_later_option, is_later_genesis, is_later};

use crate::words::Words;

/// Whether a first word belongs to a later part.
#[tactic(auto, unfolding(crate::specs::Later::is_later_word))]
fn is_later_word(word: &[u8]) -> bool
    ensures { result ≡ is_later_word word.now }
{
    word == b"byz-change".as_slice()
        || word == b"byz-report".as_slice()
        || word == b"config".as_slice()
        || word == b"join".as_slice()
}

/// Whether a word begins like an option of a later part.
#[tactic(auto, unfolding(crate::specs::Later::is_later_option))]
fn is_later_option(word: &[u8]) -> bool
    ensures { result ≡ is_later_option word.now }
{
    word.starts_with(b"rotation=")
        || word.starts_with(b"wait=")
        || word.starts_with(b"pool=")
        || word.starts_with(b"extra=")
}

/// Whether one of the words begins like an option of a later part.
fn has_later_option(mut words: Words<'_>) -> bool
    ensures { result ≡ list_any (λ word. is_later_option word.text) (words_left words.entry.line.now words.entry.from) }
{
    while let Some((_, word)) = words.next() {
        if is_later_option(word) {
            return true;
        }
    }
    false
}

/// Whether one of the words is this one.
fn has_word(mut words: Words<'_>, wanted: &[u8]) -> bool
    ensures { result ≡ list_any (λ word. bytes_eq word.text wanted.now) (words_left words.entry.line.now words.entry.from) }
{
    while let Some((_, word)) = words.next() {
        if word == wanted {
            return true;
        }
    }
    false
}

/// Whether these words behind `genesis` belong to a later part.
#[tactic(auto, unfolding(crate::specs::Later::is_later_genesis))]
fn is_later_genesis(words: &Words<'_>) -> bool
    ensures { result ≡ is_later_genesis (words_left words.now.line.now words.now.from) }
{
    let mut options = words.again();
    let Some((_, kind)) = options.next() else {
        return true;
    };
    kind == b"raft".as_slice() || has_later_option(options) || !has_word(words.again(), b"batch=1")
}

/// Whether a line belongs to a later part, by its first word and those behind it.
pub fn is_later(word: &[u8], words: &Words<'_>) -> bool
    ensures { result ≡ is_later word.now (words_left words.now.line.now words.now.from) }
{
    is_later_word(word) || word == b"genesis".as_slice() && is_later_genesis(words)
}
