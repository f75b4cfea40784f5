//! The range of user keys of a table, and of several tables.

ghost use Rattle.std.specs.Prelude.{◌≡◌};
ghost use Rattle.lsm_version.specs.Overlap.{meets};
ghost use Rattle.lsm_picker.specs.TableRanges.{IsGreater, IsHighest, IsLesser, IsLowest};

use lsm_model::is_at_most;
use lsm_table::{Naming, Registry, Shelf, TableRef};
use lsm_version::{high_of, low_of};

/// Whether a table's range and the range from `from` to `to` have a user key in common.
pub(crate) fn meets<N: Naming, S: Shelf>(
    registry: &Registry<N, S>,
    table: &TableRef<N, S>,
    from: &[u8],
    to: &[u8],
) -> bool
    ensures { result ≡ meets from.now to.now table.now }
{
    is_at_most(from, to)
        && is_at_most(low_of(registry, table), to)
        && is_at_most(from, high_of(registry, table))
}

/// The lesser of two keys.
fn lesser<'a>(a: &'a [u8], b: &'a [u8]) -> &'a [u8]
    ensures { IsLesser result.now a.now b.now }
{
    if is_at_most(a, b) { a } else { b }
}

/// The greater of two keys.
fn greater<'a>(a: &'a [u8], b: &'a [u8]) -> &'a [u8]
    ensures { IsGreater result.now a.now b.now }
{
    if is_at_most(a, b) { b } else { a }
}

/// The least of a key and the least user keys of the tables.
pub(crate) fn lowest<'a, N: Naming, S: Shelf>(
    registry: &'a Registry<N, S>,
    tables: &[TableRef<N, S>],
    from: &'a [u8],
) -> &'a [u8]
    ensures { IsLowest tables.now from.now result.now }
{
    let mut low = from;
    for table in tables {
        low = lesser(low, low_of(registry, table));
    }
    low
}

/// The greatest of a key and the greatest user keys of the tables.
pub(crate) fn highest<'a, N: Naming, S: Shelf>(
    registry: &'a Registry<N, S>,
    tables: &[TableRef<N, S>],
    to: &'a [u8],
) -> &'a [u8]
    ensures { IsHighest tables.now to.now result.now }
{
    let mut high = to;
    for table in tables {
        high = greater(high, high_of(registry, table));
    }
    high
}
