//! The words of a command.
ghost use Rattle.std.specs.Prelude.{◌≡◌, map, string_bytes};
ghost use Rattle.orderer.specs.Words.{asked, is_later_command};

use script::number;

/// What the words of a command ask for.
#[derive(Clone, Copy, Debug, PartialEq, Eq)]
pub enum Asked {
    /// A script is to be played.
    World,
    /// The command comes with a later part.
    Later,
    /// The words are in no command.
    Unknown,
}

#[tactic(auto, unfolding(crate::specs::Words::is_later_command))]
fn is_later_command(command: &str, first: &str, second: &str) -> bool
    ensures { result ≡ is_later_command command.now first.now second.now }
{
    command == "audit"
        || command == "genesis"
        || command == "world-gen"
            && number(first.as_bytes(), u64::MAX).is_some()
            && number(second.as_bytes(), 100_000).is_some()
}

/// What these words ask for.
#[tactic(auto, unfolding(crate::specs::Words::asked))]
pub fn judged(words: &[String]) -> Asked
    ensures { result ≡ asked (map string_bytes words.now) }
{
    match words {
        [command, _file] => {
            if command.as_str() == "world" {
                Asked::World
            } else {
                Asked::Unknown
            }
        }
        [command, first, second] => {
            if is_later_command(command.as_str(), first.as_str(), second.as_str()) {
                Asked::Later
            } else {
                Asked::Unknown
            }
        }
        _ => Asked::Unknown,
    }
}
