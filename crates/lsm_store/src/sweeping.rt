//! What nothing needs any more is removed beside workers.

ghost use Rattle.std.specs.Prelude.{◌≡◌, vec_len};
ghost use Rattle.lsm_store.specs.Compacting.{IsCompactingStep, IsKeptByCompaction};
ghost use Rattle.lsm_store.specs.Sweeping.{AreLeft, HasSwept, IsSwept, LastForks, Leaves, Removes};
ghost use Rattle.lsm_store.specs.Sweeping.{RemovesEach, TriesToRemove};

use crate::bell::Bell;
use crate::invariant::Invariant;
use crate::store::Store;
use lsm_slots::Boarded;
use lsm_state::State;
use lsm_table::{NamedShelf, Shelf};
use std::alloc::Global;
use std::sync::Wait;

/// Leaves of listed numbers those that are not kept; none where the state refuses to say.
fn leave_unkept<N: Boarded, S: Shelf>(
    state: &mut State<N, S>,
    alloc: Global,
    numbers: &mut Vec<u64>,
)
    ensures step { IsCompactingStep S.honest state.old state.new }
    ensures left { AreLeft state.new numbers.old.items numbers.new.items }
{
    match state.leave_unkept(alloc, numbers) {
        Ok(()) => {}
        Err(_) => numbers.clear(),
    }
}

/// Leaves of listed numbers those that are not kept at this taking of the lock.
fn leave_unkept_under_lock<N: Boarded, S: Shelf, K: Invariant, R: Wait>(
    rt: &R,
    alloc: Global,
    store: &Store<N, S, K>,
    numbers: &mut Vec<u64>,
)
    requires kept { IsKeptByCompaction S.honest K.keeps }
    ensures left { Leaves K.keeps numbers.old.items numbers.new.items }
{
    leave_unkept(&mut store.lock(rt).state, alloc, numbers);
}

/// Removes a table, unless it is kept. Where it is refused, the next sweep tries again.
#[tactic(auto, using(crate::proofs::SweepLaws::tried_ok, crate::proofs::SweepLaws::tried_err))]
fn remove_unkept<N: Boarded, S: Shelf, R: Wait>(
    state: &State<N, S>,
    rt: &R,
    alloc: Global,
    shelf: &mut NamedShelf<N, S>,
    number: u64,
)
    ensures { TriesToRemove state.now number shelf.old shelf.new }
{
    match state.remove_unkept(rt, alloc, shelf, number) {
        Ok(_) => {}
        Err(_) => {}
    }
}

/// Removes a table under the lock, unless it is kept.
fn remove_under_lock<N: Boarded, S: Shelf, K: Invariant, R: Wait>(
    rt: &R,
    alloc: Global,
    store: &Store<N, S, K>,
    shelf: &mut NamedShelf<N, S>,
    number: u64,
)
    ensures { Removes K.keeps number shelf.old shelf.new }
{
    remove_unkept(&store.lock(rt).state, rt, alloc, shelf, number);
}

/// Removes these tables, unless they are kept, each at a taking of the lock of its own.
fn remove_each<N: Boarded, S: Shelf, K: Invariant, R: Wait>(
    rt: &R,
    alloc: Global,
    store: &Store<N, S, K>,
    shelf: &mut NamedShelf<N, S>,
    numbers: &[u64],
)
    ensures { RemovesEach K.keeps numbers.now shelf.old shelf.new }
{
    for number in numbers {
        remove_under_lock(rt, alloc, store, shelf, *number);
    }
}

/// Lists the tables, and removes those that are not kept. What is refused is left to the next
/// sweep.
#[tactic(auto, using(crate::proofs::SweepLaws::swept_unlisted, crate::proofs::SweepLaws::swept_listed))]
fn sweep<N: Boarded, S: Shelf, K: Invariant, R: Wait>(
    rt: &R,
    alloc: Global,
    store: &Store<N, S, K>,
    shelf: &mut NamedShelf<N, S>,
)
    requires kept { IsKeptByCompaction S.honest K.keeps }
    ensures { IsSwept (S.refuses N.place) K.keeps shelf.old shelf.new }
{
    let mut numbers = match shelf.list(rt, alloc) {
        Ok(numbers) => numbers,
        Err(_) => return,
    };
    leave_unkept_under_lock(rt, alloc, store, &mut numbers);
    remove_each(rt, alloc, store, shelf, &numbers);
}

/// Sweeps once results were installed, or files gathered, again and again, until the bell is closed,
/// each worker has ended, and what they did is swept.
pub(crate) fn sweep_on<N: Boarded, S: Shelf, K: Invariant, R: Wait>(
    rt: &R,
    alloc: Global,
    store: &Store<N, S, K>,
    bell: &Bell,
    shelf: &mut NamedShelf<N, S>,
)
    requires kept { IsKeptByCompaction S.honest K.keeps }
    ensures { HasSwept (S.refuses N.place) K.keeps shelf.old shelf.new }
{
    let mut seen = 0;
    for _ in rt.forever() {
        let Some(installs) = bell.wait_for_installs(rt, seen) else {
            return;
        };
        seen = installs;
        sweep(rt, alloc, store, shelf);
    }
}

/// A fork of the last shelf; none where there is no shelf, or the fork is refused.
#[tactic(auto, using(crate::proofs::SweepLaws::none_lent, crate::proofs::SweepLaws::last_lent, crate::proofs::SweepLaws::unlent))]
pub(crate) fn fork_last<N: Boarded, S: Shelf>(
    alloc: Global,
    shelves: &mut Vec<NamedShelf<N, S>>,
) -> Option<NamedShelf<N, S>>
    ensures lent { LastForks shelves.old.items shelves.new.items result }
    ensures len { vec_len shelves.new ≡ vec_len shelves.old }
{
    let Some(mut last) = shelves.pop() else {
        return None;
    };
    let fork = last.fork(alloc);
    let Ok(()) = shelves.push(last) else {
        unreachable!()
    };
    fork.ok()
}
