//! What a check counts of the tables of a level.

ghost use Rattle.std.specs.Prelude.{◌≡◌, IfOk, get_or};
ghost use Rattle.lsm_table.specs.Registry.{bytes_of};

use lsm_table::{Naming, Registry, Shelf, TableRef};
use std::alloc::AllocError;

/// How many bytes the tables of a level have. No shelf holds so many that they can't be counted.
#[tactic(auto, using(crate::proofs::LevelLaws::sum_more, crate::proofs::LevelLaws::sum_all))]
pub(crate) fn size_of_level<N: Naming, S: Shelf>(
    registry: &Registry<N, S>,
    tables: &[TableRef<N, S>],
) -> Result<u64, AllocError>
    ensures { IfOk result (λ n. n ≡ bytes_of tables.now) }
{
    let mut size: u64 = 0;
    for table in tables {
        let Some(sum) = size.checked_add(registry.record(table).size()) else {
            return Err(AllocError);
        };
        size = sum;
    }
    Ok(size)
}

/// How many entries a level has, of those of each level; none where there is no such level.
pub(crate) fn count_at(counts: &[u64], level: usize) -> u64
    ensures { result ≡ get_or counts.now level 0 }
{
    match counts.get(level) {
        Some(count) => *count,
        None => 0,
    }
}
