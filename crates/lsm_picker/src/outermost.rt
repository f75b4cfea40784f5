//! Which file of level 0 goes down although it is small: where keys only rise, or only fall.

ghost use Rattle.std.specs.Prelude.{◌≡◌, ◌≤◌, ◌↔◌, IsTrue, MatchOption, option_copied};
ghost use Rattle.lsm_picker.specs.Outermost.{AreStairs, GoesOn, HasNoOutermost, IsOverOutermost};
ghost use Rattle.lsm_picker.specs.Outermost.{LiesOutside, MayGoBefore, MayGoFirst, are_apart};
ghost use Rattle.lsm_picker.specs.Stairs.{IsBeyond, IsBeyondFrom, IsStair, foremost, is_before};
ghost use Rattle.lsm_picker.specs.Stairs.{is_beyond};

use crate::level_scores::free_count;
use crate::reservation::Reservation;
use crate::span::Span;
use lsm_model::is_at_most;
use lsm_table::{Naming, Registry, Shelf, TableRef};
use lsm_version::{Version, high_of, low_of};

/// Whether the user keys of a table are below all of another one.
fn is_before<N: Naming, S: Shelf>(
    registry: &Registry<N, S>,
    table: &TableRef<N, S>,
    other: &TableRef<N, S>,
) -> bool
    ensures { result ≡ is_before table.now other.now }
{
    !is_at_most(low_of(registry, other), high_of(registry, table))
}

/// Whether no user key lies in the ranges of both tables.
fn are_apart<N: Naming, S: Shelf>(
    registry: &Registry<N, S>,
    table: &TableRef<N, S>,
    other: &TableRef<N, S>,
) -> bool
    ensures { result ≡ are_apart table.now other.now }
{
    is_before(registry, table, other) || is_before(registry, other, table)
}

/// Whether the other table is not older, and if it is newer, lies apart.
fn may_go_before<N: Naming, S: Shelf>(
    registry: &Registry<N, S>,
    table: &TableRef<N, S>,
    other: &TableRef<N, S>,
) -> bool
    ensures { IsTrue result ↔ MayGoBefore table.now other.now }
{
    let number = registry.record(table).number();
    let its = registry.record(other).number();
    number == its || (number < its && are_apart(registry, table, other))
}

/// Whether a table is the oldest of a level, and meets no other one there.
fn may_go_first<N: Naming, S: Shelf>(
    registry: &Registry<N, S>,
    tables: &[TableRef<N, S>],
    table: &TableRef<N, S>,
) -> bool
    ensures { IsTrue result ↔ MayGoFirst tables.now table.now }
{
    for other in tables {
        if !may_go_before(registry, table, other) {
            return false;
        }
    }
    true
}

/// The table of a level that is met first from outside: the last one where keys rise, the first one
/// where they fall.
pub(crate) fn foremost<'a, N: Naming, S: Shelf>(
    rising: bool,
    tables: &'a [TableRef<N, S>],
) -> Option<&'a TableRef<N, S>>
    ensures { option_copied result ≡ foremost rising tables.now }
{
    if rising {
        tables.last()
    } else {
        tables.first()
    }
}

/// Whether a table lies beyond the other one, in the direction in which keys go.
fn is_beyond<N: Naming, S: Shelf>(
    registry: &Registry<N, S>,
    rising: bool,
    table: &TableRef<N, S>,
    other: &TableRef<N, S>,
) -> bool
    ensures { result ≡ is_beyond rising table.now other.now }
{
    if rising {
        is_before(registry, other, table)
    } else {
        is_before(registry, table, other)
    }
}

/// Whether a table lies beyond the foremost one of a level, or the level is empty.
fn is_beyond_level<N: Naming, S: Shelf>(
    registry: &Registry<N, S>,
    rising: bool,
    table: &TableRef<N, S>,
    tables: &[TableRef<N, S>],
) -> bool
    ensures { IsTrue result ↔ IsBeyond rising table.now tables.now }
{
    match foremost(rising, tables) {
        None => true,
        Some(other) => is_beyond(registry, rising, table, other),
    }
}

/// Whether a table lies beyond all levels from the first one to level 6.
fn is_beyond_from<N: Naming, S: Shelf>(
    registry: &Registry<N, S>,
    version: &Version<N, S>,
    rising: bool,
    table: &TableRef<N, S>,
    first: usize,
) -> bool
    ensures { IsTrue result ↔ IsBeyondFrom version.now rising table.now first }
{
    for level in first..7usize {
        if !is_beyond_level(registry, rising, table, version.level(level)) {
            return false;
        }
    }
    true
}

/// Whether a level lies beyond all deeper ones, or is empty.
pub(crate) fn is_stair<N: Naming, S: Shelf>(
    registry: &Registry<N, S>,
    version: &Version<N, S>,
    rising: bool,
    level: usize,
) -> bool
    requires { level ≤ 5 }
    ensures { IsTrue result ↔ IsStair version.now rising level }
{
    match foremost(!rising, version.level(level)) {
        None => true,
        Some(table) => is_beyond_from(registry, version, rising, table, level + 1),
    }
}

/// Whether each of levels 1 to 5 lies beyond all deeper ones.
fn are_stairs<N: Naming, S: Shelf>(
    registry: &Registry<N, S>,
    version: &Version<N, S>,
    rising: bool,
) -> bool
    ensures { IsTrue result ↔ AreStairs version.now rising }
{
    for level in 1..6usize {
        if !is_stair(registry, version, rising, level) {
            return false;
        }
    }
    true
}

/// Whether a table goes on where the levels below end as stairs.
fn goes_on<N: Naming, S: Shelf>(
    registry: &Registry<N, S>,
    version: &Version<N, S>,
    rising: bool,
    table: &TableRef<N, S>,
) -> bool
    ensures { IsTrue result ↔ GoesOn version.now rising table.now }
{
    is_beyond_from(registry, version, rising, table, 1) && are_stairs(registry, version, rising)
}

/// Whether a table is the oldest of level 0, meets no other one there, and goes on where keys rise,
/// or where they fall.
fn lies_outside<N: Naming, S: Shelf>(
    registry: &Registry<N, S>,
    version: &Version<N, S>,
    table: &TableRef<N, S>,
) -> bool
    ensures { IsTrue result ↔ LiesOutside version.now table.now }
{
    may_go_first(registry, version.level(0), table)
        && (goes_on(registry, version, true, table) || goes_on(registry, version, false, table))
}

/// The range of the outermost file of level 0: where four files at least are there, the inputs of
/// live jobs not counted, the oldest one, if it meets no other one there in user keys, and lies
/// behind all files of levels 1 to 6, each of which lies behind all deeper levels; or before all of
/// them, each before all deeper ones. None where there is no such file.
///
/// So files go down one by one where keys only rise, or only fall, and need no merge. Where levels
/// are no such stairs, keys come at both ends or in between, and a file that went down alone would
/// be merged with a deep level's files between the ends. That the file itself is no input of a live
/// job is not asked: its plan then conflicts with that one, and has to wait.
pub fn outermost_span<'a, N: Naming, S: Shelf>(
    registry: &'a Registry<N, S>,
    version: &Version<N, S>,
    live: &[Reservation],
) -> Option<Span<'a>>
    // Whatever the shelf is.
    ensures { MatchOption result (HasNoOutermost version.now live.now) (λ s.
        IsOverOutermost version.now live.now s) }
{
    let tables = version.level(0);
    if free_count(registry, tables, live) < 4 {
        return None;
    }
    for table in tables {
        if lies_outside(registry, version, table) {
            let from = low_of(registry, table);
            let to = high_of(registry, table);
            return Some(Span { level: 0, from, to });
        }
    }
    None
}
