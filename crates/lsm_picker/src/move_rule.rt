//! Which compactions only move a file.

ghost use Rattle.std.specs.Prelude.{◌≡◌, ◌<◌, ◌^◌, ◌↔◌, IsTrue, suc};
ghost use Rattle.std.specs.List.{filter};
ghost use Rattle.lsm_picker.specs.Moves.{IsLargeMove, IsMovable};
ghost use Rattle.lsm_table.specs.Registry.{bytes_of};
ghost use Rattle.lsm_picker.specs.TablePlans.{tables_over};
ghost use Rattle.lsm_version.specs.Overlap.{meets};

use crate::gathering::is_small;
use crate::plan::Plan;
use crate::table_range::meets;
use lsm_table::{Naming, Registry, Shelf, TableReceipt, TableRef};
use lsm_version::Version;

/// The bytes of the tables that meet a range.
fn bytes_over<N: Naming, S: Shelf>(
    registry: &Registry<N, S>,
    tables: &[TableRef<N, S>],
    from: &[u8],
    to: &[u8],
) -> u128
    ensures bytes { result ≡ bytes_of (filter (meets from.now to.now) tables.now) }
    ensures few { result < 2 ^ 94 }
{
    let mut bytes = 0;
    for table in tables {
        if meets(registry, table, from, to) {
            bytes += u128::from(registry.record(table).receipt.size());
        }
    }
    bytes
}

/// The bytes of the files that meet a plan's hull two levels down.
fn bytes_below<N: Naming, S: Shelf>(
    registry: &Registry<N, S>,
    version: &Version<N, S>,
    plan: &Plan<N, S>,
) -> u128
    ensures { result
        ≡ bytes_of (tables_over version.now (suc (suc plan.now.level)) plan.now.low plan.now.high) }
{
    // That a version has seven levels is told by this call.
    let _last = version.last();
    let below = usize::from(plan.level()) + 2;
    if below > 6 {
        return 0;
    }
    bytes_over(registry, version.level(below), plan.low(), plan.high())
}

/// Whether a plan that `choose` gave only moves a file to the next level: it has one input, none at
/// the next level, and the files that meet its hull two levels down have at most ten target sizes
/// of bytes (none are there where that level is above 6).
///
/// It is no question for the plan of a range: that one is never a move.
pub fn is_move<N: Naming, S: Shelf>(
    registry: &Registry<N, S>,
    version: &Version<N, S>,
    plan: &Plan<N, S>,
    target_size: u64,
) -> bool
    ensures { IsTrue result ↔ IsMovable version.now plan.now target_size }
{
    plan.upper().len() == 1
        && plan.lower().is_empty()
        && bytes_below(registry, version, plan) <= 10 * u128::from(target_size)
}

/// Whether a plan that `choose` gave only moves a file that is not small: `is_move` holds of it,
/// and its one input has half the target size at least.
pub fn is_large_move<N: Naming, S: Shelf>(
    registry: &Registry<N, S>,
    version: &Version<N, S>,
    plan: &Plan<N, S>,
    target_size: u64,
) -> bool
    ensures { IsTrue result ↔ IsLargeMove version.now plan.now target_size }
{
    is_move(registry, version, plan, target_size)
        && !is_small(registry, &plan.upper()[0], target_size)
}
