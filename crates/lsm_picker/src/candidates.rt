//! The candidates of a level: the tables from which a compaction may start.

ghost use Rattle.std.specs.Prelude.{◌≡◌, ◌≤◌, ◌↔◌, [], ◌∷◌, IfOk, IfSome, IsSomeAnd, IsTrue};
ghost use Rattle.std.specs.Prelude.{MatchOption, false};
ghost use Rattle.lsm_codec.specs.Lists.{Has};
ghost use Rattle.lsm_version.specs.Versions.{file_of, level_in};
ghost use Rattle.lsm_picker.specs.Choice.{AllBlocked, AllBlockedBeside, IsBlockedAt, IsFirstClear};
ghost use Rattle.lsm_picker.specs.Choice.{IsLevelChoice, bytes_cmp, is_beyond, pointer_at};
ghost use Rattle.lsm_picker.specs.Reservations.{IsClear, is_taken};
ghost use Rattle.lsm_picker.specs.TablePlans.{IsPlanFrom, StandsIn};

use crate::conflicts::{conflict, is_taken};
use crate::plan::Plan;
use crate::plan_maker::plan_between;
use crate::reservation::Reservation;
use lsm_codec::key_parts;
use lsm_table::{Naming, Registry, Shelf, TableRef};
use lsm_version::{Version, high_of, low_of};
use std::alloc::{AllocError, Global};
use std::cmp::Ordering;

/// The order of internal keys by their bytes.
fn compare_keys(a: &[u8], b: &[u8]) -> Ordering
    ensures { result ≡ bytes_cmp a.now b.now }
{
    let (user, packed) = key_parts(a);
    let (other_user, other_packed) = key_parts(b);
    user.cmp(other_user).then(other_packed.cmp(&packed))
}

/// Whether a table's largest key is beyond the compaction pointer of a level, or there is none.
fn is_beyond<N: Naming, S: Shelf>(
    registry: &Registry<N, S>,
    version: &Version<N, S>,
    level: u8,
    table: &TableRef<N, S>,
) -> bool
    requires level { level ≤ 5 }
    ensures { result ≡ is_beyond (pointer_at version.now level) table.now }
{
    match version.pointer(usize::from(level)) {
        None => true,
        Some(key) => compare_keys(registry.record(table).largest.as_slice(), key).is_gt(),
    }
}

/// The plan that starts from a table of a level.
fn plan_from<N: Naming, S: Shelf>(
    alloc: Global,
    registry: &Registry<N, S>,
    version: &Version<N, S>,
    level: u8,
    table: &TableRef<N, S>,
) -> Result<Option<Plan<N, S>>, AllocError>
    requires level { level ≤ 5 }
    requires stands { Has (level_in version.now.tables level) table.now }
    ensures level { IfOk result (λ r. IfSome r (λ p. p.level ≡ level)) }
    ensures stands { IfOk result (λ r. IfSome r (λ p. StandsIn version.now p)) }
    ensures planned { S.honest → IfOk result (λ r.
        IsSomeAnd r (λ p. IsPlanFrom version.now (Has (file_of level table.now ∷ [])) p)) }
{
    // That a version over an honest shelf is sound is told by this call.
    let _last = version.last();
    let from = low_of(registry, table);
    let to = high_of(registry, table);
    plan_between(alloc, registry, version, level, from, to)
}

/// The plan that starts from a table of a level, unless it conflicts with a live job.
fn clear_plan<N: Naming, S: Shelf>(
    alloc: Global,
    registry: &Registry<N, S>,
    version: &Version<N, S>,
    reservations: &[Reservation],
    level: u8,
    table: &TableRef<N, S>,
) -> Result<Option<Plan<N, S>>, AllocError>
    requires level { level ≤ 5 }
    requires stands { Has (level_in version.now.tables level) table.now }
    ensures level { IfOk result (λ r. IfSome r (λ p. p.level ≡ level)) }
    ensures stands { IfOk result (λ r. IfSome r (λ p. StandsIn version.now p)) }
    ensures clear { IfOk result (λ r. IfSome r (λ p. IsClear p reservations.now)) }
    ensures plan { S.honest
        → IfOk result (λ r. MatchOption r (IsBlockedAt version.now reservations.now level table.now)
        (λ p. IsPlanFrom version.now (Has (file_of level table.now ∷ [])) p)) }
{
    match plan_from(alloc, registry, version, level, table)? {
        None => Ok(None),
        Some(plan) => match conflict(registry, &plan, reservations) {
            None => Ok(Some(plan)),
            Some(_) => Ok(None),
        },
    }
}

/// Whether a table of a level is no input of a live job, and lies on that side of the level's
/// compaction pointer.
fn is_on_side<N: Naming, S: Shelf>(
    registry: &Registry<N, S>,
    version: &Version<N, S>,
    reservations: &[Reservation],
    level: u8,
    beyond: bool,
    table: &TableRef<N, S>,
) -> bool
    requires level { level ≤ 5 }
    ensures { IsTrue result ↔ ((is_taken reservations.now table.now ≡ false)
        × (is_beyond (pointer_at version.now level) table.now ≡ beyond)) }
{
    !is_taken(registry, reservations, table) && is_beyond(registry, version, level, table) == beyond
}

/// The plan of the first of a level's candidates beyond its pointer, or of the first of the others,
/// that conflicts with no live job.
fn first_clear<N: Naming, S: Shelf>(
    alloc: Global,
    registry: &Registry<N, S>,
    version: &Version<N, S>,
    reservations: &[Reservation],
    level: u8,
    beyond: bool,
) -> Result<Option<Plan<N, S>>, AllocError>
    requires level { level ≤ 5 }
    ensures level { IfOk result (λ r. IfSome r (λ p. p.level ≡ level)) }
    ensures stands { IfOk result (λ r. IfSome r (λ p. StandsIn version.now p)) }
    ensures clear { IfOk result (λ r. IfSome r (λ p. IsClear p reservations.now)) }
    ensures first { S.honest → IfOk result (λ r.
        MatchOption r (AllBlockedBeside version.now reservations.now level beyond) (λ p.
        IsFirstClear version.now reservations.now level beyond p)) }
{
    let tables = version.level(usize::from(level));
    for table in tables {
        if is_on_side(registry, version, reservations, level, beyond, table) {
            let plan = clear_plan(alloc, registry, version, reservations, level, table)?;
            if let Some(plan) = plan {
                return Ok(Some(plan));
            }
        }
    }
    Ok(None)
}

/// The plan of the first of a level's candidates that conflicts with no live job: those beyond the
/// pointer are tried first.
pub(crate) fn choose_at<N: Naming, S: Shelf>(
    alloc: Global,
    registry: &Registry<N, S>,
    version: &Version<N, S>,
    reservations: &[Reservation],
    level: u8,
) -> Result<Option<Plan<N, S>>, AllocError>
    requires level { level ≤ 5 }
    ensures level { IfOk result (λ r. IfSome r (λ p. p.level ≡ level)) }
    ensures stands { IfOk result (λ r. IfSome r (λ p. StandsIn version.now p)) }
    ensures clear { IfOk result (λ r. IfSome r (λ p. IsClear p reservations.now)) }
    ensures first { S.honest
        → IfOk result (λ r. MatchOption r (AllBlocked version.now reservations.now level) (λ p.
        IsLevelChoice version.now reservations.now level p)) }
{
    match first_clear(alloc, registry, version, reservations, level, true)? {
        Some(plan) => Ok(Some(plan)),
        None => first_clear(alloc, registry, version, reservations, level, false),
    }
}
