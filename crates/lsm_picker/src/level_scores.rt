//! How much each level wants to be compacted.

ghost use Rattle.std.specs.Prelude.{◌≡◌, ◌≤◌, ◌<◌, ◌^◌, [], ◌∷◌, length};
ghost use Rattle.lsm_table.specs.Registry.{bytes_of};
ghost use Rattle.lsm_picker.specs.Scores.{free_tables, limit, load, scale, score};

use crate::conflicts::is_taken;
use crate::reservation::Reservation;
use lsm_table::{Naming, Registry, Shelf, TableReceipt, TableRef};
use lsm_version::Version;

/// How many of the tables are inputs of no live job.
pub(crate) fn free_count<N: Naming, S: Shelf>(
    registry: &Registry<N, S>,
    tables: &[TableRef<N, S>],
    reservations: &[Reservation],
) -> u128
    ensures count { result ≡ length (free_tables reservations.now tables.now) }
    ensures small { result < 2 ^ 64 }
{
    let mut count = 0;
    for table in tables {
        if !is_taken(registry, reservations, table) {
            count += 1;
        }
    }
    count
}

/// The bytes of the tables that are inputs of no live job.
fn free_bytes<N: Naming, S: Shelf>(
    registry: &Registry<N, S>,
    tables: &[TableRef<N, S>],
    reservations: &[Reservation],
) -> u128
    ensures bytes { result ≡ bytes_of (free_tables reservations.now tables.now) }
    ensures small { result < 2 ^ 94 }
{
    let mut bytes = 0;
    for table in tables {
        if !is_taken(registry, reservations, table) {
            bytes += u128::from(registry.record(table).receipt.size());
        }
    }
    bytes
}

/// What counts of a level's tables: at level 0 their number, at the others their bytes; without the
/// inputs of live jobs.
pub(crate) fn load<N: Naming, S: Shelf>(
    registry: &Registry<N, S>,
    version: &Version<N, S>,
    level: u8,
    reservations: &[Reservation],
) -> u128
    requires level { level ≤ 5 }
    ensures load { result ≡ (score version.now reservations.now level).0 }
    ensures small { result < 2 ^ 94 }
    ensures few { level ≡ 0 → result < 2 ^ 64 }
{
    let tables = version.level(usize::from(level));
    if level == 0 {
        free_count(registry, tables, reservations)
    } else {
        free_bytes(registry, tables, reservations)
    }
}

/// What a level, 0 to 5, may hold: files at level 0, bytes at the others.
pub fn limit(level: u8) -> u128
    requires { level ≤ 5 }
    ensures { result ≡ limit level }
{
    match level {
        0 => 4,
        1 => 10_485_760,
        2 => 104_857_600,
        3 => 1_048_576_000,
        4 => 10_485_760_000,
        _ => 104_857_600_000,
    }
}

/// How often the limit of a level, 0 to 5, goes into that of level 5: loads times this are scores
/// over one denominator.
pub fn scale(level: u8) -> u128
    requires { level ≤ 5 }
    ensures scale { result ≡ scale level }
    ensures small { result < 2 ^ 35 }
    ensures lower { 1 ≤ level → result ≤ 10000 }
{
    match level {
        0 => 26_214_400_000,
        1 => 10_000,
        2 => 1_000,
        3 => 100,
        4 => 10,
        _ => 1,
    }
}

/// The scores of the levels 0 to 5 as fractions: the number of files over 4 at level 0, and the
/// bytes over 10,485,760 times 10^(n-1) at level n. Files that are inputs of a live job are not
/// counted. Level 6 has no score.
pub fn scores<N: Naming, S: Shelf>(
    registry: &Registry<N, S>,
    version: &Version<N, S>,
    reservations: &[Reservation],
) -> [(u128, u128); 6]
    ensures { let s = score version.now reservations.now in result
        ≡ s 0 ∷ s 1 ∷ s 2 ∷ s 3 ∷ s 4 ∷ s 5 ∷ [] }
{
    [
        (load(registry, version, 0, reservations), limit(0)),
        (load(registry, version, 1, reservations), limit(1)),
        (load(registry, version, 2, reservations), limit(2)),
        (load(registry, version, 3, reservations), limit(3)),
        (load(registry, version, 4, reservations), limit(4)),
        (load(registry, version, 5, reservations), limit(5)),
    ]
}
