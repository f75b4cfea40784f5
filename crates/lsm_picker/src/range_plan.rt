//! The plan of a range of user keys.

ghost use Rattle.std.specs.Prelude.{◌≡◌, ◌<◌, ◌⊎◌, [], IfErr, IfOk, IfSome, IsErrOf, MatchOption};
ghost use Rattle.lsm_codec.specs.Lists.{Has};
ghost use Rattle.lsm_picker.specs.declared.plan_fault.PlanFault.TheVariants.{BadLevel, OutOfMemory};
ghost use Rattle.lsm_picker.specs.TablePlans.{IsPlanFrom, StandsIn, files_over, tables_over};

use crate::plan::Plan;
use crate::plan_fault::PlanFault;
use crate::plan_maker::plan_between;
use lsm_model::is_at_most;
use lsm_table::{Naming, Registry, Shelf};
use lsm_version::Version;
use std::alloc::Global;

/// The closed plan of all files of a level that meet the range of user keys from `from` to `to`,
/// both included; none where no file does, as where `from` is greater than `to`. The plan of a
/// range is never a move, whatever `is_move` says of it: the caller keeps to that.
///
/// # Errors
/// `BadLevel` where the level is above 5, whatever the range is; `OutOfMemory` where a growth was
/// refused.
pub fn plan_range<N: Naming, S: Shelf>(
    alloc: Global,
    registry: &Registry<N, S>,
    version: &Version<N, S>,
    level: u8,
    from: &[u8],
    to: &[u8],
) -> Result<Option<Plan<N, S>>, PlanFault>
    ensures bad_level { 5 < level → IsErrOf result (BadLevel level) }
    ensures refused { IfErr result (λ e. (e ≡ OutOfMemory) ⊎ ((e ≡ BadLevel level) × (5 < level))) }
    // Whatever the shelf is.
    ensures level { IfOk result (λ r. IfSome r (λ p. p.level ≡ level)) }
    ensures stands { IfOk result (λ r. IfSome r (λ p. StandsIn version.now p)) }
    // The least closed plan, and none exactly where no file meets the range.
    ensures planned { S.honest
        → IfOk result (λ r. MatchOption r (tables_over version.now level from.now to.now ≡ []) (λ p.
        IsPlanFrom version.now (Has (files_over version.now level from.now to.now)) p)) }
{
    if level > 5 {
        return Err(PlanFault::BadLevel(level));
    }
    if !is_at_most(from, to) {
        return Ok(None);
    }
    Ok(plan_between(alloc, registry, version, level, from, to)?)
}
