//! Which of the newest files of level 0 are made one, and whether level 0 itself is compacted.

ghost use Rattle.std.specs.Prelude.{◌≡◌, ◌<◌, ◌≤◌, ◌^◌, ◌*◌, ◌↔◌, IsTrue, MatchOption, length};
ghost use Rattle.lsm_table.specs.Registry.{bytes_of};
ghost use Rattle.std.specs.List.{filter};
ghost use Rattle.lsm_picker.specs.Gathering.{AllMayGather, HasEight, HasNoneToGather};
ghost use Rattle.lsm_picker.specs.Gathering.{IsCrowded};
ghost use Rattle.lsm_picker.specs.Gathering.{IsFirstAbove, IsGreater, IsLastToStay, IsLesser};
ghost use Rattle.lsm_picker.specs.Gathering.{IsReady, IsToGather, IsWorthAdding, Joins};
ghost use Rattle.lsm_picker.specs.Gathering.{is_large, is_small, may_gather, newest};

use crate::conflicts::is_taken;
use crate::level_scores::free_count;
use crate::reservation::Reservation;
use lsm_table::{Naming, Registry, Shelf, TableReceipt, TableRef};
use lsm_version::Version;

/// Whether a table is below half the target size.
pub(crate) fn is_small<N: Naming, S: Shelf>(
    registry: &Registry<N, S>,
    table: &TableRef<N, S>,
    target_size: u64,
) -> bool
    ensures { result ≡ is_small target_size table.now }
{
    2 * u128::from(registry.record(table).receipt.size()) < u128::from(target_size)
}

/// Whether a table is small, and no input of a live job.
fn may_gather<N: Naming, S: Shelf>(
    registry: &Registry<N, S>,
    live: &[Reservation],
    table: &TableRef<N, S>,
    target_size: u64,
) -> bool
    ensures { result ≡ may_gather target_size live.now table.now }
{
    is_small(registry, table, target_size) && !is_taken(registry, live, table)
}

/// How many of the tables have this number or a greater one.
fn newest_count<N: Naming, S: Shelf>(
    registry: &Registry<N, S>,
    tables: &[TableRef<N, S>],
    number: u128,
) -> u128
    ensures count { result ≡ length (newest number tables.now) }
    ensures few { result < 2 ^ 64 }
{
    let mut count = 0;
    for table in tables {
        if u128::from(registry.record(table).number()) >= number {
            count += 1;
        }
    }
    count
}

/// The bytes of the tables that have this number or a greater one.
fn newest_bytes<N: Naming, S: Shelf>(
    registry: &Registry<N, S>,
    tables: &[TableRef<N, S>],
    number: u128,
) -> u128
    ensures bytes { result ≡ bytes_of (newest number tables.now) }
    ensures few { result < 2 ^ 94 }
{
    let mut bytes = 0;
    for table in tables {
        let record = registry.record(table);
        if u128::from(record.number()) >= number {
            bytes += u128::from(record.receipt.size());
        }
    }
    bytes
}

/// Whether all tables that have this number or a greater one may be gathered.
fn all_may_gather<N: Naming, S: Shelf>(
    registry: &Registry<N, S>,
    tables: &[TableRef<N, S>],
    live: &[Reservation],
    number: u64,
    target_size: u64,
) -> bool
    ensures { IsTrue result ↔ AllMayGather target_size live.now tables.now number }
{
    for table in tables {
        if registry.record(table).number() >= number
            && !may_gather(registry, live, table, target_size)
        {
            return false;
        }
    }
    true
}

/// Whether eight newest tables, or more, may be gathered.
fn has_eight<N: Naming, S: Shelf>(
    registry: &Registry<N, S>,
    tables: &[TableRef<N, S>],
    live: &[Reservation],
    target_size: u64,
) -> bool
    ensures { IsTrue result ↔ HasEight target_size live.now tables.now }
{
    for table in tables {
        let number = registry.record(table).number();
        if newest_count(registry, tables, u128::from(number)) >= 8
            && all_may_gather(registry, tables, live, number, target_size)
        {
            return true;
        }
    }
    false
}

/// Whether there are eleven tables, or more, and eight newest of them, or more, may be gathered.
fn is_crowded<N: Naming, S: Shelf>(
    registry: &Registry<N, S>,
    tables: &[TableRef<N, S>],
    live: &[Reservation],
    target_size: u64,
) -> bool
    ensures { IsTrue result ↔ IsCrowded target_size live.now tables.now }
{
    tables.len() >= 11 && has_eight(registry, tables, live, target_size)
}

/// Whether a table is worth adding to the newer ones.
fn is_worth_adding<N: Naming, S: Shelf>(
    registry: &Registry<N, S>,
    tables: &[TableRef<N, S>],
    table: &TableRef<N, S>,
    target_size: u64,
) -> bool
    ensures { IsTrue result ↔ IsWorthAdding target_size tables.now table.now }
{
    let record = registry.record(table);
    let above = u128::from(record.number()) + 1;
    let newer = newest_bytes(registry, tables, above);
    newest_count(registry, tables, above) <= 1
        || (2 * newer < u128::from(target_size)
            && 2 * u128::from(record.receipt.size()) <= 3 * newer)
}

/// Whether a table may be gathered, and is worth adding to the newer ones.
fn joins<N: Naming, S: Shelf>(
    registry: &Registry<N, S>,
    tables: &[TableRef<N, S>],
    live: &[Reservation],
    table: &TableRef<N, S>,
    target_size: u64,
) -> bool
    ensures { IsTrue result ↔ Joins target_size live.now tables.now table.now }
{
    may_gather(registry, live, table, target_size)
        && is_worth_adding(registry, tables, table, target_size)
}

/// Whether a number is less than another one, if there is one.
fn is_lesser(number: u64, other: Option<u64>) -> bool
    ensures { IsTrue result ↔ IsLesser number other }
{
    match other {
        None => true,
        Some(other) => number < other,
    }
}

/// Whether a number is greater than another one, if there is one.
fn is_greater(number: u64, other: Option<u64>) -> bool
    ensures { IsTrue result ↔ IsGreater number other }
{
    match other {
        None => true,
        Some(other) => number > other,
    }
}

/// The greatest number of a table that does not join the newer ones.
fn last_to_stay<N: Naming, S: Shelf>(
    registry: &Registry<N, S>,
    tables: &[TableRef<N, S>],
    live: &[Reservation],
    target_size: u64,
) -> Option<u64>
    ensures { IsLastToStay target_size live.now tables.now tables.now result }
{
    let mut last = None;
    for table in tables {
        let number = registry.record(table).number();
        if is_greater(number, last) && !joins(registry, tables, live, table, target_size) {
            last = Some(number);
        }
    }
    last
}

/// The least number of the tables that is above another one, if there is one.
fn first_above<N: Naming, S: Shelf>(
    registry: &Registry<N, S>,
    tables: &[TableRef<N, S>],
    last: Option<u64>,
) -> Option<u64>
    ensures { IsFirstAbove last tables.now tables.now result }
{
    let mut least = None;
    for table in tables {
        let number = registry.record(table).number();
        if is_greater(number, last) && is_lesser(number, least) {
            least = Some(number);
        }
    }
    least
}

/// How many tables are neither small nor inputs of a live job.
fn large_count<N: Naming, S: Shelf>(
    registry: &Registry<N, S>,
    tables: &[TableRef<N, S>],
    live: &[Reservation],
    target_size: u64,
) -> u128
    ensures { result ≡ length (filter (is_large target_size live.now) tables.now) }
{
    let mut count = 0;
    for table in tables {
        if !is_small(registry, table, target_size) && !is_taken(registry, live, table) {
            count += 1;
        }
    }
    count
}

/// The newest files of level 0 that are to become one, all those from the number on that it
/// answers; none where there is nothing to gather.
///
/// A file is small below half the target size. Where level 0 has eleven files, or more, and eight
/// newest of them, or more, are small and inputs of no live job, the two newest are gathered, and
/// then one older file after another, as long as it is small and no such input, the newer ones
/// together are below half the target size, and it has at most one and a half times their bytes.
pub fn to_gather<N: Naming, S: Shelf>(
    registry: &Registry<N, S>,
    version: &Version<N, S>,
    live: &[Reservation],
    target_size: u64,
) -> Option<u64>
    // Whatever the shelf is.
    ensures { MatchOption result (HasNoneToGather version.now live.now target_size) (λ n.
        IsToGather version.now live.now target_size n) }
{
    let tables = version.level(0);
    if !is_crowded(registry, tables, live, target_size) {
        return None;
    }
    let last = last_to_stay(registry, tables, live, target_size);
    let oldest = first_above(registry, tables, last)?;
    if newest_count(registry, tables, u128::from(oldest)) < 2 {
        return None;
    }
    Some(oldest)
}

/// Whether level 0 itself may be compacted: it has four files at least that are not small, as
/// `to_gather` has it, or eleven files at least and nothing to gather, the inputs of live jobs not
/// counted.
pub fn level_zero_is_ready<N: Naming, S: Shelf>(
    registry: &Registry<N, S>,
    version: &Version<N, S>,
    live: &[Reservation],
    target_size: u64,
) -> bool
    // Whatever the shelf is.
    ensures { IsTrue result ↔ IsReady version.now live.now target_size }
{
    let tables = version.level(0);
    large_count(registry, tables, live, target_size) >= 4
        || (free_count(registry, tables, live) >= 11
            && !has_eight(registry, tables, live, target_size))
}
