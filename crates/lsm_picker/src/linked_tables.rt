//! The tables of a level that a range of user keys reaches.

ghost use Rattle.std.specs.Prelude.{◌≡◌, ◌≤◌, IfOk};
ghost use Rattle.lsm_codec.specs.Keys.{UserLe};
ghost use Rattle.lsm_codec.specs.Lists.{Has};
ghost use Rattle.lsm_model.specs.Files.{Meets};
ghost use Rattle.lsm_table.specs.Registry.{Table};
ghost use Rattle.lsm_version.specs.Versions.{IsSound, level_in};
ghost use Rattle.lsm_picker.specs.TablePlans.{AreLinked};

use crate::table_range::{highest, lowest};
use lsm_table::{Naming, Registry, Shelf, TableRef};
use lsm_version::Version;
use std::alloc::{AllocError, Global};

/// The tables of a level, 0 to 6, that a range reaches, where each meets it or one before it, in
/// the level's order. The range grows by the tables that it meets until it meets no other.
pub(crate) fn linked_tables<N: Naming, S: Shelf>(
    alloc: Global,
    registry: &Registry<N, S>,
    version: &Version<N, S>,
    level: usize,
    from: &[u8],
    to: &[u8],
) -> Result<Vec<TableRef<N, S>>, AllocError>
    requires level { level ≤ 6 }
    ensures linked { S.honest → IsSound version.now → UserLe from.now to.now
        → IfOk result (λ ts. AreLinked version.now level (λ F. Meets F from.now to.now) ts.items) }
    ensures of_level { IfOk result (λ ts. (t : Table) → Has ts.items t
        → Has (level_in version.now.tables level) t) }
{
    let mut tables = version.overlapping(alloc, level, from, to)?;
    for _ in 0..version.level(level).len() {
        let low = lowest(registry, tables.as_slice(), from);
        let high = highest(registry, tables.as_slice(), to);
        let more = version.overlapping(alloc, level, low, high)?;
        if more.len() <= tables.len() {
            return Ok(more);
        }
        tables = more;
    }
    Ok(tables)
}
