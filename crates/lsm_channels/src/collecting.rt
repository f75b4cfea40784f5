//! The removal of what nothing needs.

ghost use Rattle.std.specs.Prelude.{◌≡◌, IfErr, IfOk};
ghost use Rattle.lsm_history.specs.History.{IsLater};
ghost use Rattle.lsm_channels.specs.Collecting.{CollectsAt, IsCollectFault, IsCollected};
ghost use Rattle.lsm_channels.specs.Collecting.{RefusesAt};
ghost use Rattle.lsm_channels.specs.Keeping.{IsKeptByLooks, IsKnown, IsLook};
ghost use Rattle.lsm_channels.specs.Served.{IsToldBy};

use crate::knowing::catch_up;
use lsm_history::Memory;
use lsm_slots::Boarded;
use lsm_state::{State, StateFault};
use lsm_store::{Invariant, Store};
use lsm_table::{NamedShelf, Shelf};
use std::alloc::Global;
use std::sync::Wait;

/// Removes the tables that no version and no job of a state needs. How many there were.
fn collect_of<N: Boarded, S: Shelf, R: Wait>(
    state: &mut State<N, S>,
    rt: &R,
    alloc: Global,
    memory: &mut Memory<N>,
    shelf: &mut NamedShelf<N, S>,
) -> Result<u64, StateFault>
    ensures told { IsToldBy state.old memory.old memory.new }
    ensures ok { IfOk result (λ n. CollectsAt state.old state.new n shelf.old shelf.new) }
    ensures refused { IfErr result (λ e. RefusesAt state.old state.new e shelf.old shelf.new) }
    ensures look { IsLook state.old state.new }
{
    catch_up(state, memory);
    match state.collect(rt, alloc, shelf) {
        Ok(numbers) => Ok(numbers.len() as u64),
        Err((fault, _removed)) => Err(fault),
    }
}

/// Removes the tables that no version and no job needs. How many there were.
#[tactic(auto, using(crate::proofs::KnownLaws::told_later))]
pub(crate) fn collect<N: Boarded, S: Shelf, K: Invariant, R: Wait>(
    rt: &R,
    alloc: Global,
    store: &Store<N, S, K>,
    memory: &mut Memory<N>,
    shelf: &mut NamedShelf<N, S>,
) -> Result<u64, StateFault>
    requires looks { IsKeptByLooks K.keeps }
    ensures ok { IfOk result (λ n. IsCollected K.keeps n memory.old memory.new shelf.old shelf.new) }
    ensures refused { IfErr result (λ e.
        IsCollectFault K.keeps e memory.old memory.new shelf.old shelf.new) }
    ensures known { IsLater memory.new memory.old }
    ensures kept { IsKnown K.keeps memory.new }
{
    collect_of(&mut store.lock(rt).state, rt, alloc, memory, shelf)
}
