//! Depths of tables.

ghost use Rattle.std.specs.Prelude.{◌≡◌, IfOk, List, map};
ghost use Rattle.lsm_table.specs.Registry.{Table};
ghost use Rattle.lsm_query.specs.Depths.{AreNumbersOf, newer_count};

use lsm_table::{Naming, Registry, Shelf, TableRef};
use std::alloc::{AllocError, Global};

/// The numbers of the tables of a level, in its order.
fn table_numbers<N: Naming, S: Shelf>(
    alloc: Global,
    registry: &Registry<N, S>,
    level: &[TableRef<N, S>],
) -> Result<Vec<u64>, AllocError>
    ensures { IfOk result (λ v. v.items ≡ map (λ t. t.number) level.now) }
{
    let mut numbers = Vec::with_capacity(alloc, level.len())?;
    for table in level {
        numbers.push(registry.record(table).number())?;
    }
    Ok(numbers)
}

/// The numbers of the tables of a level, ascending: sorted once, so that each depth is a search and
/// no walk over the level.
pub(crate) fn ascending_numbers<N: Naming, S: Shelf>(
    alloc: Global,
    registry: &Registry<N, S>,
    level: &[TableRef<N, S>],
) -> Result<Vec<u64>, AllocError>
    ensures { IfOk result (λ v. AreNumbersOf level.now v.items) }
{
    let mut numbers = table_numbers(alloc, registry, level)?;
    numbers.sort_unstable();
    Ok(numbers)
}

/// How many tables have a greater number, by a search in their numbers.
pub(crate) fn newer_count(numbers: &[u64], number: u64) -> u64
    ensures { (level : List Table) → AreNumbersOf level numbers.now
        → result ≡ newer_count level number }
{
    let not_newer = numbers.partition_point(|other| *other <= number);
    (numbers.len() - not_newer) as u64
}
