//! Laws of plans and jobs. Each function's contract is one law; its body is empty.

ghost use Rattle.std.specs.Prelude.{◌≡◌, ◌↔◌, ◌⊎◌, ◌++◌, ℕ, suc, Bool, true, List};
ghost use Rattle.lsm_codec.specs.Keys.{UserKey};
ghost use Rattle.lsm_codec.specs.Lists.{Has};
ghost use Rattle.lsm_model.specs.Files.{File};
ghost use Rattle.lsm_model.specs.Jobs.{Conflicts, IsOpenIn, Job};
ghost use Rattle.lsm_model.specs.Plans.{IsJobOf};
ghost use Rattle.lsm_version.specs.Versions.{IsSound, Levels, files};
ghost use Rattle.lsm_picker.specs.RangesBelow.{AreRangesBelow};
ghost use Rattle.lsm_picker.specs.Reservations.{conflicts, reserved_of};
ghost use Rattle.lsm_picker.specs.TablePlans.{IsPlanFrom, StandsIn, TablePlan, job_of, plan_of};

/// The job of a closed plan is the plan's, and open in the version, whatever its ticket and floor
/// are, if its ranges are those of the files two or more levels below.
pub fn plan_opens_its_job()
    ensures { (v : Levels) (starts : List File) (p : TablePlan) (ticket : ℕ) (floor : ℕ)
        (ranges : List (UserKey × UserKey)) (is_move : Bool) → IsSound v
        → IsPlanFrom v (Has starts) p → AreRangesBelow v p.level ranges
        → IsJobOf (files v) (plan_of p) (job_of p ticket floor ranges is_move)
        × IsOpenIn (files v) (job_of p ticket floor ranges is_move) }
{}

/// The inputs of a plan's job are files of the version, at the job's level and the next, whatever
/// the shelf is.
pub fn inputs_are_of_the_version()
    ensures { (v : Levels) (p : TablePlan) (ticket : ℕ) (floor : ℕ) (ranges : List (UserKey
        × UserKey)) (is_move : Bool) (F : File) → StandsIn v p
        → Has (job_of p ticket floor ranges is_move).inputs F
        → Has (files v) F × ((F.level ≡ p.level) ⊎ (F.level ≡ suc p.level)) }
{}

/// A plan conflicts with what is known of a live job just where its own job conflicts with that
/// job.
pub fn conflicts_are_those_of_jobs()
    ensures { (p : TablePlan) (ticket : ℕ) (floor : ℕ) (ranges : List (UserKey × UserKey))
        (is_move : Bool) (other : Job) → ((conflicts p (reserved_of other) ≡ true)
        ↔ Conflicts (job_of p ticket floor ranges is_move) other) }
{}
