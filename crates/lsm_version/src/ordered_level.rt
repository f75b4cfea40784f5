//! The tables of a level, in the level's order.

ghost use Rattle.std.specs.Prelude.{◌≡◌, ◌≤◌, length, take, drop, not, OnOk, OnErr};
ghost use Rattle.std.specs.List.{filter};
ghost use Rattle.std.specs.List.Sorted.{IsSortedBy};
ghost use Rattle.lsm_version.specs.Changes.{placed_in};
ghost use Rattle.lsm_version.specs.Versions.{stands_before};

use lsm_manifest::compare_places;
use lsm_table::{Naming, Registry, Shelf, TableRef};
use std::alloc::AllocError;

/// Whether the first table stands before the second in a level.
#[tactic(auto, unfolding(crate::specs::Versions::stands_before))]
fn stands_before<N: Naming, S: Shelf>(
    registry: &Registry<N, S>,
    first: &TableRef<N, S>,
    second: &TableRef<N, S>,
) -> bool
    ensures { result ≡ stands_before first.now second.now }
{
    let first = registry.record(first);
    let second = registry.record(second);
    compare_places(
        first.smallest.as_slice(),
        first.number(),
        second.smallest.as_slice(),
        second.number(),
    )
    .is_lt()
}

/// How many tables of a level in order the table does not stand before. It is looked for from the
/// back, so that tables which come in order cost one comparison each.
pub fn index_in<N: Naming, S: Shelf>(
    registry: &Registry<N, S>,
    level: &[TableRef<N, S>],
    table: &TableRef<N, S>,
) -> usize
    requires order { IsSortedBy stands_before level.now }
    ensures inside { result ≤ length level.now }
    ensures before { take result level.now
        ≡ filter (λ u. not (stands_before table.now u)) level.now }
    ensures behind { drop result level.now ≡ filter (λ u. stands_before table.now u) level.now }
{
    let mut index = level.len();
    while index > 0 && stands_before(registry, table, &level[index - 1]) {
        index -= 1;
    }
    index
}

/// Puts a table into a level, where the order has it.
pub(crate) fn insert<N: Naming, S: Shelf>(
    registry: &Registry<N, S>,
    level: &mut Vec<TableRef<N, S>>,
    table: TableRef<N, S>,
) -> Result<(), AllocError>
    requires order { IsSortedBy stands_before level.old.items }
    ensures ok { OnOk result (level.new.items ≡ placed_in table level.old.items) }
    ensures order { IsSortedBy stands_before level.new.items }
    ensures err { OnErr result (level.new.items ≡ level.old.items) }
{
    let index = index_in(registry, level.as_slice(), &table);
    level.insert(index, table)?;
    Ok(())
}
