//! Compactions, and what goes with them, change no answer.

ghost use Rattle.lsm_state.specs.Held.{Held};
ghost use Rattle.lsm_store.specs.Compacting.{IsKeptByCompaction, IsSeated};
ghost use Rattle.lsm_theorems.specs.Unchanged.{IsUnchanged};

use lsm_merge::{Finished, Job};
use lsm_slots::Boarded;
use lsm_state::{GatherFault, State, StateFault};
use lsm_store::laws::what_was_found_is_kept;
use lsm_store::{Invariant, NoGate, Store, run_workers};
use lsm_table::{NamedShelf, Shelf};
use std::alloc::Global;
use std::marker::Brand;
use std::sync::Wait;
use std::thread::Threads;

/// The result of a compaction, installed or refused, whatever came in since the compaction was
/// reserved.
pub fn installs_change_no_answer<N: Boarded, S: Shelf, R: Wait>(
    rt: &R,
    alloc: Global,
    state: &mut State<N, S>,
    shelf: &mut NamedShelf<N, S>,
    done: Finished<N, S>,
) -> Result<Vec<u64>, (StateFault, Finished<N, S>)>
    ensures { IsUnchanged S.honest state.old state.new }
{
    state.law();
    let installed = state.install(rt, alloc, shelf, done);
    state.law();
    installed
}

/// Newest files of level 0 that become one, or are refused.
pub fn gatherings_change_no_answer<N: Boarded, S: Shelf, R: Wait>(
    rt: &R,
    alloc: Global,
    state: &mut State<N, S>,
    shelf: &mut NamedShelf<N, S>,
) -> Result<Option<u64>, GatherFault>
    ensures { IsUnchanged S.honest state.old state.new }
{
    state.law();
    let gathered = state.gather(rt, alloc, shelf);
    state.law();
    gathered
}

/// The reservation of a compaction.
pub fn reservations_change_no_answer<N: Boarded, S: Shelf>(
    alloc: Global,
    state: &mut State<N, S>,
) -> Result<Option<Job<N, S>>, StateFault>
    ensures { IsUnchanged S.honest state.old state.new }
{
    state.law();
    let reserved = state.reserve(alloc);
    state.law();
    reserved
}

/// The removal of tables that nobody needs.
pub fn collects_change_no_answer<N: Boarded, S: Shelf, R: Wait>(
    rt: &R,
    alloc: Global,
    state: &mut State<N, S>,
    shelf: &mut NamedShelf<N, S>,
) -> Result<Vec<u64>, (StateFault, Vec<u64>)>
    ensures { IsUnchanged S.honest state.old state.new }
{
    state.law();
    let collected = state.collect(rt, alloc, shelf);
    state.law();
    collected
}

/// The reservation of a compaction of the files that meet a range.
pub fn range_reservations_change_no_answer<N: Boarded, S: Shelf>(
    alloc: Global,
    state: &mut State<N, S>,
    level: u8,
    from: &[u8],
    to: &[u8],
) -> Result<Option<Job<N, S>>, StateFault>
    ensures { IsUnchanged S.honest state.old state.new }
{
    state.law();
    let reserved = state.reserve_range(alloc, level, from, to);
    state.law();
    reserved
}

/// A number that is drawn for a table of a compaction.
pub fn numbers_change_no_answer<N: Boarded, S: Shelf>(
    state: &mut State<N, S>,
    ticket: u64,
) -> Result<u64, StateFault>
    ensures { IsUnchanged S.honest state.old state.new }
{
    state.law();
    let drawn = state.new_number(ticket);
    state.law();
    drawn
}

/// A compaction that is cancelled.
pub fn cancels_change_no_answer<N: Boarded, S: Shelf>(
    state: &mut State<N, S>,
    ticket: u64,
) -> Result<(), StateFault>
    ensures { IsUnchanged S.honest state.old state.new }
{
    state.law();
    let cancelled = state.cancel(ticket);
    state.law();
    cancelled
}

/// Workers, one for each shelf, in threads of their own, whatever each of them reserves, merges,
/// installs or gives up: the state that they leave.
pub fn workers_change_no_answer<N: Boarded, S: Shelf, R: Threads + Wait + Sync>(
    rt: &R,
    alloc: Global,
    state: State<N, S>,
    shelves: Vec<NamedShelf<N, S>>,
) -> State<N, S>
    ensures { IsUnchanged S.honest state result }
{
    what_was_found_is_kept::<State<N, S>>();
    let_work::<N, S, Brand, R>(rt, alloc, state, shelves)
}

/// The state that workers leave, of which the fact holds that the lock kept.
fn let_work<N: Boarded, S: Shelf, K: Invariant, R: Threads + Wait + Sync>(
    rt: &R,
    alloc: Global,
    state: State<N, S>,
    shelves: Vec<NamedShelf<N, S>>,
) -> State<N, S>
    requires kept { (h : Held) → IsSeated state h → K.keeps h }
    requires steps { IsKeptByCompaction S.honest K.keeps }
    ensures { ∥ K.keeps result ∥₁ }
{
    let store: Store<N, S, K> = Store::of(alloc, state);
    let _ends = run_workers(rt, alloc, &store, shelves, &NoGate);
    store.into_state()
}
