//! What is known of two takings of the lock.

ghost use Rattle.std.specs.Prelude.{◌≡◌, IfOk};
ghost use Rattle.std.specs.Option.{option_map};
ghost use Rattle.lsm_history.specs.History.{IsLater};
ghost use Rattle.lsm_theorems.specs.Newest.{IsReadOfAll};

use lsm_history::Memory;
use lsm_slots::Boarded;
use lsm_state::{State, StateFault};
use lsm_store::{Invariant, Store};
use lsm_table::{NamedShelf, Shelf};
use std::alloc::Global;
use std::sync::Wait;

/// A read at the last sequence, with all that had come in by then, to be remembered: it gives the
/// newest of that. `K` is the fact that the store's lock keeps, any one.
pub fn first_reads_are_remembered<N: Boarded, S: Shelf, K: Invariant, R: Wait>(
    rt: &R,
    alloc: Global,
    store: &Store<N, S, K>,
    shelf: &mut NamedShelf<N, S>,
    user: &[u8],
) -> (Result<Option<Vec<u8>>, StateFault>, Memory<N>)
    ensures { S.honest → IfOk result.0 (λ v.
        IsReadOfAll result.1 user.now (option_map (λ b. b.items) v)) }
{
    read_first(alloc, &mut store.lock(rt).state, shelf, user)
}

/// A read under a later taking of the lock, whatever any threads did in between: it gives the
/// newest of all that has come in (`read`), and that goes on from what was remembered (`later`).
pub fn later_reads_go_on<N: Boarded, S: Shelf, K: Invariant, R: Wait>(
    rt: &R,
    alloc: Global,
    store: &Store<N, S, K>,
    shelf: &mut NamedShelf<N, S>,
    memory: Memory<N>,
    user: &[u8],
) -> (Result<Option<Vec<u8>>, StateFault>, Memory<N>)
    ensures later { IsLater result.1 memory }
    ensures read { S.honest → IfOk result.0 (λ v.
        IsReadOfAll result.1 user.now (option_map (λ b. b.items) v)) }
{
    read_on(alloc, &mut store.lock(rt).state, shelf, memory, user)
}

/// A read at the last sequence, and all that had come in.
pub(crate) fn read_first<N: Boarded, S: Shelf>(
    alloc: Global,
    state: &mut State<N, S>,
    shelf: &mut NamedShelf<N, S>,
    user: &[u8],
) -> (Result<Option<Vec<u8>>, StateFault>, Memory<N>)
    ensures same { state.new ≡ state.old }
    ensures seen { result.1 ≡ state.old.history }
    ensures read { S.honest → IfOk result.0 (λ v.
        IsReadOfAll result.1 user.now (option_map (λ b. b.items) v)) }
{
    state.law();
    let now = state.remember();
    let value = state.get(shelf, alloc, user, None);
    (value, now)
}

fn read_on<N: Boarded, S: Shelf>(
    alloc: Global,
    state: &mut State<N, S>,
    shelf: &mut NamedShelf<N, S>,
    memory: Memory<N>,
    user: &[u8],
) -> (Result<Option<Vec<u8>>, StateFault>, Memory<N>)
    ensures same { state.new ≡ state.old }
    ensures later { IsLater result.1 memory }
    ensures read { S.honest → IfOk result.0 (λ v.
        IsReadOfAll result.1 user.now (option_map (λ b. b.items) v)) }
{
    state.recall(memory);
    read_first(alloc, state, shelf, user)
}
