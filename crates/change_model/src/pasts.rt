ghost use Rattle.change_model.specs.Past.{MomentsAgree, NewConfigDropsAll, changing_in, opened_at};
ghost use Rattle.std.specs.Prelude.{◌≡◌, ℕ};
ghost use Rattle.change_model.specs.Changing.{Place, resumed};

/// What is held in place is what is computed from all that came and was done since the opening: of each member
/// the greatest target and the newest valid report, the greatest views entered and left for, the last report and
/// announcement, and the NewView that waits. A new configuration drops all.
pub fn pasts_agree()
    ensures opens { (me : ℕ) (place : Place) (view left : ℕ) → changing_in place.config (opened_at me place view left) ≡ resumed me place view left }
    ensures one_more { MomentsAgree }
    ensures new_config { NewConfigDropsAll }
{}
