//! How far a store is, as it is remembered.

ghost use Rattle.std.specs.Prelude.{◌≡◌, IfErr, IfOk, IsTrue};
ghost use Rattle.lsm_history.specs.History.{IsLater};
ghost use Rattle.lsm_bulk_load.specs.Marks.{IsBehind, IsEven, marked_in};

use crate::origin::Origin;
use lsm_history::{Historied, Memory};
use lsm_slots::Boarded;
use lsm_state::{Ingested, State};
use lsm_table::Shelf;
use std::marker::{Model, PhantomData};

/// How far a store was: its history, to be recalled, and its last sequence.
#[derive(Drop)]
pub struct Mark<N: Historied, O: Origin> {
    memory: Memory<N>,
    last: u64,
    of: PhantomData<O>,
}

impl<N: Historied, O: Origin> Model for Mark<N, O> {
    ghost use Rattle.lsm_bulk_load.specs.Marks.{IsEven, Marked};

    ghost Value = { Marked };

    ghost view = { λ m. record { history = m.memory; last = m.last } };

    ghost invariant = { λ m. IsEven O.found record { history = m.memory; last = m.last } };
}

impl<N: Boarded, O: Origin> Mark<N, O> {
    /// How far the state is.
    pub fn of<S: Shelf>(state: &mut State<N, S>) -> Mark<N, O>
        requires { IsEven O.found (marked_in state.old) }
        ensures mark { result ≡ marked_in state.old }
        ensures even { IsEven O.found result }
        ensures same { state.new ≡ state.old }
    {
        let memory = state.remember();
        let (_, version) = state.current();
        Mark {
            memory,
            last: version.last(),
            of: PhantomData,
        }
    }

    /// How far the state is, which goes on from this mark. Ok where the batch that came in behind
    /// it, of which this is remembered, is all that came in since; `Err` where more did.
    pub(crate) fn behind<S: Shelf>(
        self,
        state: &mut State<N, S>,
        came: Ingested,
        memory: Memory<N>,
    ) -> Result<Mark<N, O>, Mark<N, O>>
        requires { IsEven O.found (marked_in state.old) }
        ensures next { IfOk result (λ m. IsBehind O.found self came memory m) }
        ensures later { IfErr result (λ m. IsLater m.history self.history) }
        ensures same { state.new ≡ state.old }
    {
        let Mark {
            memory: before,
            last,
            ..
        } = self;
        state.recall(before);
        state.recall(memory);
        let next: Mark<N, O> = Mark::of(state);
        if last.checked_add(1) == Some(came.first) && next.last == came.last {
            return Ok(next);
        }
        Err(next)
    }

    /// Whether the state is just this far. It goes on from here in any case.
    pub fn is_of<S: Shelf>(self, state: &mut State<N, S>) -> bool
        requires { IsEven O.found (marked_in state.old) }
        ensures at { IsTrue result → marked_in state.old ≡ self }
        ensures later { IsLater (marked_in state.old).history self.history }
        ensures same { state.new ≡ state.old }
    {
        let Mark { memory, last, .. } = self;
        state.recall(memory);
        let (_, version) = state.current();
        version.last() == last
    }
}
