//! Closed plans.

ghost use Rattle.std.specs.Prelude.{◌≡◌, ◌<◌, ◌≤◌, IfNone, IfOk, IfSome, length};
ghost use Rattle.lsm_codec.specs.Keys.{UserKey, UserLe};
ghost use Rattle.lsm_codec.specs.Lists.{Has};
ghost use Rattle.lsm_model.specs.Files.{Meets};
ghost use Rattle.lsm_table.specs.Registry.{Table};
ghost use Rattle.lsm_version.specs.Versions.{IsSound, level_in};
ghost use Rattle.lsm_picker.specs.TablePlans.{AreLinked, IsPlanFrom, NoneMeets, StandsIn};

use crate::linked_tables::linked_tables;
use crate::plan::Plan;
use crate::table_range::{highest, lowest};
use lsm_codec::Bytes;
use lsm_table::{Naming, Registry, Shelf, TableRef};
use lsm_version::{Version, high_of, low_of};
use std::alloc::{AllocError, Global};

/// A copy of a key, in memory of its own.
fn copy_of(alloc: Global, key: &[u8]) -> Result<Bytes, AllocError>
    ensures { IfOk result (λ b. b ≡ key.now) }
{
    Ok(Bytes::of(Vec::from_slice(alloc, key)?))
}

/// The plan of the tables that are linked at a level, of which there is one at least.
fn plan_of_linked<N: Naming, S: Shelf>(
    alloc: Global,
    registry: &Registry<N, S>,
    version: &Version<N, S>,
    level: u8,
    upper: Vec<TableRef<N, S>>,
) -> Result<Plan<N, S>, AllocError>
    requires level { level ≤ 5 }
    requires filled { 0 < length upper.items }
    requires of_level { (t : Table) → Has upper.items t
        → Has (level_in version.now.tables level) t }
    ensures level { IfOk result (λ p. p.level ≡ level) }
    ensures stands { IfOk result (λ p. StandsIn version.now p) }
    ensures planned { (from : UserKey) (to : UserKey) → S.honest → IsSound version.now
        → AreLinked version.now level (λ F. Meets F from to) upper.items
        → IfOk result (λ p. IsPlanFrom version.now (λ F. Meets F from to) p) }
{
    let first = &upper[0];
    let from = lowest(registry, upper.as_slice(), low_of(registry, first));
    let to = highest(registry, upper.as_slice(), high_of(registry, first));
    let lower = linked_tables(alloc, registry, version, usize::from(level) + 1, from, to)?;
    let low = copy_of(alloc, lowest(registry, lower.as_slice(), from))?;
    let high = copy_of(alloc, highest(registry, lower.as_slice(), to))?;
    Ok(Plan {
        level,
        upper,
        lower,
        low,
        high,
    })
}

/// The plan of the tables of a level, 0 to 5, that meet a range; none where no table does.
pub(crate) fn plan_between<N: Naming, S: Shelf>(
    alloc: Global,
    registry: &Registry<N, S>,
    version: &Version<N, S>,
    level: u8,
    from: &[u8],
    to: &[u8],
) -> Result<Option<Plan<N, S>>, AllocError>
    requires level { level ≤ 5 }
    ensures level { IfOk result (λ r. IfSome r (λ p. p.level ≡ level)) }
    ensures stands { IfOk result (λ r. IfSome r (λ p. StandsIn version.now p)) }
    ensures none { S.honest → UserLe from.now to.now
        → IfOk result (λ r. IfNone r (NoneMeets version.now level from.now to.now)) }
    ensures planned { S.honest → UserLe from.now to.now → IfOk result (λ r.
        IfSome r (λ p. IsPlanFrom version.now (λ F. Meets F from.now to.now) p)) }
{
    // That a version over an honest shelf is sound is told by this call.
    let _last = version.last();
    let upper = linked_tables(alloc, registry, version, usize::from(level), from, to)?;
    if upper.is_empty() {
        return Ok(None);
    }
    Ok(Some(plan_of_linked(alloc, registry, version, level, upper)?))
}
