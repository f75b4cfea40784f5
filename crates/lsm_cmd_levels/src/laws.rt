//! A law of scores, as the contract of a function that does nothing.

ghost use Rattle.std.specs.Prelude.{◌≡◌, ℕ, []};
ghost use Rattle.lsm_cmd_levels.specs.Sums.{files_at, score, weight};
ghost use Rattle.lsm_manifest.specs.declared.shape.Shape.{Shape};
ghost use Rattle.lsm_picker.specs.Scores.{score as chosen_score, weight as chosen_weight};
ghost use Rattle.lsm_verify.specs.CheckRefusal.{IsOfShape};
ghost use Rattle.lsm_version.specs.Versions.{Levels};

/// The score of a level by a shape, which is printed, is the one by which the store chooses its next
/// compaction: of the version that has a table for each file of the shape, where no job is live.
pub fn scores_are_those_of_the_choice()
    ensures score { (s : Shape) (v : Levels) (level : ℕ) → IsOfShape s v
        → score level (files_at s level) ≡ chosen_score v [] level }
    ensures weight { (s : Shape) (v : Levels) (level : ℕ) → IsOfShape s v
        → weight level (files_at s level) ≡ chosen_weight v [] level }
{}
