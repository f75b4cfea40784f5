//! What a channel knows of the database.

ghost use Rattle.std.specs.Prelude.{◌≡◌};
ghost use Rattle.lsm_history.specs.History.{IsLater};
ghost use Rattle.lsm_channels.specs.Keeping.{IsKeptByLooks, IsKnown};
ghost use Rattle.lsm_channels.specs.Served.{IsToldBy};

use lsm_history::Memory;
use lsm_slots::Boarded;
use lsm_state::State;
use lsm_store::{Invariant, Store};
use lsm_table::Shelf;
use std::mem;
use std::sync::Wait;

/// All that has come in in the state is known from then on. It has all that was known.
pub(crate) fn catch_up<N: Boarded, S: Shelf>(state: &mut State<N, S>, memory: &mut Memory<N>)
    ensures told { IsToldBy state.old memory.old memory.new }
    ensures same { state.new ≡ state.old }
{
    // What holds of every state is told by this call.
    let _options = state.options();
    let now = state.remember();
    let before = mem::replace(memory, now);
    state.recall(before);
}

/// So, and the state has all that is remembered here too.
fn catch_up_behind<N: Boarded, S: Shelf>(
    state: &mut State<N, S>,
    memory: &mut Memory<N>,
    other: Memory<N>,
)
    ensures told { IsToldBy state.old memory.old memory.new }
    ensures other { IsLater state.old.history other }
    ensures same { state.new ≡ state.old }
{
    catch_up(state, memory);
    state.recall(other);
}

/// All that is remembered here is known from then on, with all that was known, and perhaps with
/// what came in behind both.
#[tactic(auto, using(crate::proofs::KnownLaws::told_later, crate::proofs::KnownLaws::told_other))]
pub(crate) fn note<N: Boarded, S: Shelf, K: Invariant, R: Wait>(
    rt: &R,
    store: &Store<N, S, K>,
    memory: &mut Memory<N>,
    other: Memory<N>,
)
    requires looks { IsKeptByLooks K.keeps }
    ensures later { IsLater memory.new memory.old }
    ensures other { IsLater memory.new other }
    ensures kept { IsKnown K.keeps memory.new }
{
    catch_up_behind(&mut store.lock(rt).state, memory, other);
}

/// All that has come in in the state, to be remembered.
fn memory_of<N: Boarded, S: Shelf>(state: &mut State<N, S>) -> Memory<N>
    ensures seen { result ≡ state.old.history }
    ensures same { state.new ≡ state.old }
{
    state.remember()
}

/// All that has come in.
pub(crate) fn remember<N: Boarded, S: Shelf, K: Invariant, R: Wait>(
    rt: &R,
    store: &Store<N, S, K>,
) -> Memory<N>
    requires looks { IsKeptByLooks K.keeps }
    ensures kept { IsKnown K.keeps result }
{
    memory_of(&mut store.lock(rt).state)
}
