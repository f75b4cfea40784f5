//! What live jobs are to the plain machine. Each function's contract is one law; its body is empty.

ghost use Rattle.std.specs.Prelude.{◌≡◌, ℕ, List, [], ◌∷◌, ◌++◌};
ghost use Rattle.lsm_codec.specs.Lists.{Has};
ghost use Rattle.lsm_model.specs.Files.{File, all_entries};
ghost use Rattle.lsm_version.specs.FileNumbers.{AreDistinct};
ghost use Rattle.lsm_version.specs.Versions.{AreInOrder, IsSound, Levels, numbers_in};
ghost use Rattle.lsm_picker.specs.TablePlans.{IsPlanFrom, TablePlan};
ghost use Rattle.lsm_model.specs.Plain.{IsBooked, IsResult, booking, without_job};
ghost use Rattle.lsm_merge.specs.Work.{Done, IsFinished, Work, job_of};
ghost use Rattle.lsm_live.specs.Booked.{Booked, booked, live_of, lives_of, new_booked, without};
ghost use Rattle.lsm_merge.specs.InputOrder.{HasTwins, StandInOrder};
ghost use Rattle.lsm_live.specs.Planned.{IsWorkOf};
ghost use Rattle.lsm_live.specs.Results.{IsLiveResult, outs_of};

use lsm_table::Shelf;

/// A job that is added, a number that is booked, a job that is taken out are each the plain
/// machine's own event on its live jobs.
pub fn live_jobs_are_the_machines()
    ensures added { (live : List Booked) (w : Work) → lives_of (live ++ new_booked w ∷ [])
        ≡ lives_of live ++ record { job = job_of w; drawn = [] } ∷ [] }
    ensures drawn { (ticket number : ℕ) (live : List Booked)
        → lives_of (booked ticket number live) ≡ booking ticket number (lives_of live) }
    ensures removed { (ticket : ℕ) (live : List Booked)
        → lives_of (without ticket live) ≡ without_job ticket (lives_of live) }
{}

/// A live result of a finished job is what the plain machine installs: its numbers are booked
/// whatever the shelf is, and over an honest shelf its outputs are the job's.
pub fn live_results_are_installed<S: Shelf>()
    ensures booked { (live : List Booked) (d : Done) (b : Booked) → IsLiveResult live d b
        → IsFinished S.honest d → IsBooked (live_of b) (outs_of d) }
    ensures result { (live : List Booked) (d : Done) (b : Booked) → IsLiveResult live d b
        → IsFinished S.honest d → S.honest → IsResult (job_of b.work) (outs_of d) }
{}

/// The inputs of the job of a plan stand in order, and no two of their entries have one internal
/// key: the version is sound, its levels are in order, and no two of its files have one number.
/// Over an honest shelf such a job is never refused as out of order (`order` of `compact`).
pub fn planned_inputs_stand_in_order()
    ensures order { (v : Levels) (starts : List File) (p : TablePlan) (w : Work) → IsSound v
        → AreInOrder v.tables → AreDistinct (numbers_in v) → IsPlanFrom v (Has starts) p
        → IsWorkOf p w → StandInOrder w }
    ensures single { (v : Levels) (starts : List File) (p : TablePlan) (w : Work) → IsSound v
        → AreDistinct (numbers_in v) → IsPlanFrom v (Has starts) p → IsWorkOf p w
        → HasTwins (all_entries (job_of w).inputs) → ⊥ }
{}
