//! The choice of the next compaction.

ghost use Rattle.std.specs.Prelude.{◌≡◌, IfOk, IfSome, MatchOption};
ghost use Rattle.lsm_picker.specs.Choice.{HasNoChoice, IsChoice};
ghost use Rattle.lsm_picker.specs.Reservations.{IsClear};
ghost use Rattle.lsm_picker.specs.TablePlans.{StandsIn};

use crate::candidates::choose_at;
use crate::level_scores::{limit, load, scale};
use crate::plan::Plan;
use crate::reservation::Reservation;
use lsm_table::{Naming, Registry, Shelf};
use lsm_version::Version;
use std::alloc::{AllocError, Global};

/// The next compaction: the plan of the first candidate that conflicts with no live job, none where
/// there is none such.
///
/// A candidate is a file of a level with a score of at least 1 that is no input of a live job.
/// Levels are tried by their scores, the greatest first and the lower level on a tie; in a level
/// first the files whose largest key is beyond the level's compaction pointer (all, where there is
/// none) and then the others, both in the level's order. `AllocError` where a growth was refused.
pub fn choose<N: Naming, S: Shelf>(
    alloc: Global,
    registry: &Registry<N, S>,
    version: &Version<N, S>,
    reservations: &[Reservation],
) -> Result<Option<Plan<N, S>>, AllocError>
    // Whatever the shelf is.
    ensures stands { IfOk result (λ r. IfSome r (λ p. StandsIn version.now p)) }
    ensures clear { IfOk result (λ r. IfSome r (λ p. IsClear p reservations.now)) }
    // The first of the ranking, and none exactly where every candidate conflicts.
    ensures choice { S.honest → IfOk result (λ r. MatchOption r
        (HasNoChoice version.now reservations.now) (λ p. IsChoice version.now reservations.now p)) }
{
    let mut best = None;
    let mut most = 0;
    for level in 0..6u8 {
        let load = load(registry, version, level, reservations);
        let weight = load * scale(level);
        if load >= limit(level) && weight > most {
            let plan = choose_at(alloc, registry, version, reservations, level)?;
            if plan.is_some() {
                best = plan;
                most = weight;
            }
        }
    }
    Ok(best)
}
