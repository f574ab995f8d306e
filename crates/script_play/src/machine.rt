ghost use Rattle.std.specs.Prelude.{◌≡◌, ◌++◌, ℕ, List, IfOk, IfSome, OnOk, string_bytes};
ghost use Rattle.script.specs.Commands.{IsWellFormed};
ghost use Rattle.script.specs.declared.command.Command.{Command};
ghost use Rattle.script_play.specs.Turns.{Turn, TurnedBy, EndsTurn};

use crate::ending::Ending;
use ord_types::NoMemory;
use script::Command;

/// What runs the commands of a script.
pub trait Machine {
    /// What a machine stands for.
    ghost World: { Type 0 };

    /// What may become of one moment that the script doesn't decide.
    ghost Choice: { Type 0 };

    /// The world of a machine, where these choices are still to come.
    ghost world: { Self → List Choice → World };

    /// What the command of the line with this number prints, and where it leads.
    ghost turn_of: { World → ℕ → Command → Turn World };

    /// What is printed at the end of a script.
    ghost closing_of: { World → List ℕ };

    /// What a machine keeps true from line to line.
    ghost is_sound: { Self → Type 0 };

    /// Nothing is left open: until a command leaves something open, no choice is taken.
    ghost is_decided: { Self → Type 0 };

    /// A command that leaves nothing open.
    ghost decides: { Command → Type 0 };

    /// Does what the command of this line asks, and adds its text. `Some` ends the run,
    /// at a limit or where too many members are faulty. The choices that it takes are the first of
    /// those that were still to come.
    fn turn(
        &mut self,
        number: u64,
        command: Command,
        text: &mut String,
    ) -> Result<Option<Ending>, NoMemory>
        requires sound { is_sound self.old }
        requires formed { IsWellFormed command }
        ensures sound { OnOk result (is_sound self.new) }
        ensures ends { IfOk result (λ ending. IfSome ending EndsTurn) }
        ensures turned { IfOk result (λ ending. TurnedBy (λ w. turn_of w number command) (world self.old) (world self.new) (string_bytes text.old) (string_bytes text.new) ending (is_decided self.old × decides command) (is_decided self.new)) };

    /// Adds the text at the end of the script.
    fn closing(&self, text: &mut String) -> Result<(), NoMemory>
        requires { is_sound self.now }
        ensures { (later : List Choice) → OnOk result (string_bytes text.new ≡ string_bytes text.old ++ closing_of (world self.now later)) };
}
