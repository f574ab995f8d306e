ghost use Rattle.std.specs.Prelude.{◌≡◌, ◌↔◌, ◌++◌, ℕ, List, codes, decimal};
ghost use Rattle.std.specs.List.{AllZip, join_with_byte};
ghost use Rattle.script.specs.declared.command.Command.{Command};
ghost use Rattle.script.specs.declared.command.Command.TheVariants.{Tick, Deliver};
ghost use Rattle.script.specs.declared.command.Range.{Range};
ghost use Rattle.script.specs.declared.command.Meaning.TheVariants.{Means, Wrong};
ghost use Rattle.script.specs.declared.command.Stop.TheVariants.{Malformed};
ghost use Rattle.script.specs.Commands.{IsWellFormed, IsId, AreRanges};
ghost use Rattle.script.specs.Grammar.{meaning};
ghost use Rattle.script.specs.Printed.{printed};
ghost use Rattle.script.specs.Forms.{IsGrammatical, IsWrong, SpellsRange};

/// What a line means is a well-formed command: its ids are ids, its bytes are bytes, its numbers
/// within their bounds, its ranges in order. A law about the grammar; it does nothing.
pub fn commands_are_well_formed()
    ensures { (line : List ℕ) (command : Command) → meaning line ≡ Means command → IsWellFormed command }
{}

/// The printed line of a command that a line may mean does mean it: what is printed by the format
/// of its fields is read back. Two commands have other lines too, and these mean them as well: a
/// tick without its count is one tick, and a range of one number may be written with it twice. A
/// law about the grammar; it does nothing.
pub fn printed_lines_mean_their_commands()
    ensures printed { (command : Command) → IsWellFormed command → meaning (printed command) ≡ Means command }
    ensures once { (node : ℕ) → IsId node → meaning (codes "tick " ++ decimal node) ≡ Means (Tick node 1) }
    ensures ranges { (ranges : List Range) (parts : List (List ℕ)) → AreRanges ranges → AllZip SpellsRange ranges parts → meaning (codes "deliver " ++ join_with_byte 44 parts) ≡ Means (Deliver ranges) }
{}

/// A line means a command exactly where it is one of the grammar: neither empty nor a comment, of
/// no later part, its first word the name of a form, and the words behind it those that stand in
/// the fields of that form, in order. A law about the grammar; it does nothing.
pub fn lines_that_mean_commands_are_of_the_grammar()
    ensures { (line : List ℕ) → ((command : Command) × (meaning line ≡ Means command)) ↔ IsGrammatical line }
{}

/// A line is malformed at a place exactly where that is the place of its first word at which no
/// line of the grammar goes on, or one past its end where a line goes on with all its words and
/// they are none. A law about the grammar; it does nothing.
pub fn malformed_lines_end_at_their_first_wrong_word()
    ensures { (line : List ℕ) (place : ℕ) → (meaning line ≡ Wrong (Malformed place)) ↔ IsWrong line place }
{}
