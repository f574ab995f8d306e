//! The world of a script, and its text.
#![tactic(auto)]

ghost use Rattle.std.specs.Prelude.{◌≡◌, ℕ, List, [], map, Option, None};
ghost use Rattle.line_flow.specs.Lines.{lines};
ghost use Rattle.script_play.specs.Runs.{script_run};
ghost use Rattle.script_play.specs.Worlds.{worlds};
ghost use Rattle.world_model.specs.Turns.{turn_of, closing_of};
ghost use Rattle.world_model.specs.Cores.{core_setting};
ghost use Rattle.world_model.specs.Histories.{run_of, worlds_of};
ghost use Rattle.world_model.specs.Seen.{seen_if_any};
ghost use Rattle.world_model.specs.Stages.{Waits, stage_turn, stage_closing};
ghost use Rattle.world_model.specs.Worlds.{Outcome};

/// A script prints the same text, and its run ends the same, whether the nodes' states are updated in place
/// or computed from all that happened at them; and so each world that it goes through is the same. A machine
/// that waits with the outcomes of all events of armed nodes until the genesis, and then has a world with
/// those to come, prints that text too, and its run ends so.
pub fn worlds_agree()
    ensures text { (outcomes : List Outcome) (script : List ℕ)
        → script_run (turn_of core_setting outcomes) (closing_of core_setting) None script
        ≡ run_of outcomes script }
    ensures worlds { (outcomes : List Outcome) (script : List ℕ)
        → worlds (turn_of core_setting outcomes) (lines script) None 1
        ≡ map seen_if_any (worlds_of outcomes script) }
    ensures stages { (outcomes : List Outcome) (script : List ℕ)
        → script_run (stage_turn core_setting) (stage_closing core_setting) (Waits outcomes) script
        ≡ run_of outcomes script }
{}
