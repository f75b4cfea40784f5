//! The thread of a worker.

ghost use Rattle.std.specs.Prelude.{◌≡◌};
ghost use Rattle.std.specs.Option.{ForSome};
ghost use Rattle.lsm_store.specs.Workers.{IsWorkersEnd};
ghost use Rattle.lsm_store.specs.Working.{IsReturned, IsWorked, given_one};

use crate::invariant::Invariant;
use crate::picks::Picks;
use crate::worker_end::WorkerEnd;
use crate::worker_fault::WorkerFault;
use lsm_slots::Boarded;
use lsm_table::{NamedShelf, Shelf};
use std::marker::PhantomData;
use std::snapshot::Snapshot;
use std::thread::{Promise, PromisedHandle, Threads};

/// What comes back of a worker: what it has done, and its shelf; none where its thread could not be
/// made.
pub type Returned<N, S> = (WorkerEnd, Option<NamedShelf<N, S>>);

/// What the thread of a worker promises of its answer, by what it was given.
#[derive(Drop)]
pub(crate) struct Works<N: Boarded, S: Shelf, K: Invariant> {
    given: Snapshot<NamedShelf<N, S>>,
    picks: Snapshot<Picks>,
    to_the_end: bool,
    of: PhantomData<K>,
}

impl<N: Boarded, S: Shelf, K: Invariant> Works<N, S, K> {
    pub(crate) fn of(
        given: Snapshot<NamedShelf<N, S>>,
        picks: Snapshot<Picks>,
        to_the_end: bool,
    ) -> Works<N, S, K>
        ensures given { result.given.value ≡ given.value }
        ensures picks { result.picks.value ≡ picks.value }
        ensures to_the_end { result.to_the_end ≡ to_the_end }
    {
        Works {
            given,
            picks,
            to_the_end,
            of: PhantomData,
        }
    }
}

impl<N: Boarded, S: Shelf, K: Invariant> Promise<(WorkerEnd, NamedShelf<N, S>)> for Works<N, S, K> {
    ghost kept_by = { λ p r. IsWorkersEnd S.honest r.0
        × IsWorked S.honest (S.refuses N.place) K.keeps
        (given_one p.picks.value p.to_the_end p.given.value) r.0 r.1 };
}

/// The thread of a worker, if it could be made, and what it was given, which only clauses read.
#[derive(Drop)]
pub(crate) struct Thread<N: Boarded, S: Shelf, K: Invariant> {
    pub(crate) given: Snapshot<NamedShelf<N, S>>,
    pub(crate) picks: Snapshot<Picks>,
    pub(crate) to_the_end: bool,
    pub(crate) handle: Option<PromisedHandle<(WorkerEnd, NamedShelf<N, S>), Works<N, S, K>>>,
    ghost its: { ForSome handle (λ h. (h.promise.given.value ≡ given.value)
        × (h.promise.picks.value ≡ picks.value) × (h.promise.to_the_end ≡ to_the_end)) },
}

impl<N: Boarded, S: Shelf, K: Invariant> Thread<N, S, K> {
    /// Waits for the worker: what it has done, and its shelf.
    pub(crate) fn join<R: Threads>(self, rt: &R) -> Returned<N, S>
        ensures end { IsWorkersEnd S.honest result.0 }
        ensures returned { IsReturned S.honest (S.refuses N.place) K.keeps
            (given_one self.picks.value self.to_the_end self.given.value) result.0 result.1 }
    {
        let Thread {
            given: _,
            picks: _,
            to_the_end: _,
            handle,
        } = self;
        match handle {
            Some(handle) => {
                let (end, shelf) = handle.join(rt);
                (end, Some(shelf))
            }
            None => {
                let end = WorkerEnd {
                    installed: 0,
                    fault: Some(WorkerFault::NoThread),
                };
                (end, None)
            }
        }
    }
}
