//! The thread that sweeps beside workers.

ghost use Rattle.std.specs.Prelude.{◌≡◌, option_map};
ghost use Rattle.std.specs.Option.{ForSome};
ghost use Rattle.lsm_store.specs.Compacting.{IsKeptByCompaction};
ghost use Rattle.lsm_store.specs.Sweeping.{HasSwept, IsBroughtBack};

use crate::bell::Bell;
use crate::invariant::Invariant;
use crate::store::Store;
use crate::sweeping::sweep_on;
use lsm_slots::Boarded;
use lsm_table::{NamedShelf, Shelf};
use std::alloc::Global;
use std::marker::PhantomData;
use std::snapshot::Snapshot;
use std::sync::Wait;
use std::thread::{Promise, PromisedHandle, Scope, Threads};

/// What the thread that sweeps promises of its shelf, by what it was given.
#[derive(Drop)]
pub(crate) struct Sweeps<N: Boarded, S: Shelf, K: Invariant> {
    given: Snapshot<NamedShelf<N, S>>,
    fact: PhantomData<K>,
}

impl<N: Boarded, S: Shelf, K: Invariant> Sweeps<N, S, K> {
    fn of(given: Snapshot<NamedShelf<N, S>>) -> Sweeps<N, S, K>
        ensures { result.given.value ≡ given.value }
    {
        Sweeps {
            given,
            fact: PhantomData,
        }
    }
}

impl<N: Boarded, S: Shelf, K: Invariant> Promise<NamedShelf<N, S>> for Sweeps<N, S, K> {
    ghost kept_by = { λ p s. HasSwept (S.refuses N.place) K.keeps p.given.value s };
}

/// The thread that sweeps, if it could be made, and the shelf that it was given, which only clauses
/// read.
#[derive(Drop)]
pub(crate) struct Sweeper<N: Boarded, S: Shelf, K: Invariant> {
    pub(crate) given: Snapshot<NamedShelf<N, S>>,
    handle: Option<PromisedHandle<NamedShelf<N, S>, Sweeps<N, S, K>>>,
    ghost its: { ForSome handle (λ h. h.promise.given.value ≡ given.value) },
}

impl<N: Boarded, S: Shelf, K: Invariant> Sweeper<N, S, K> {
    /// Starts the thread, over this shelf. Without one, as where it cannot be made, nothing is
    /// removed.
    pub(crate) fn start<'s, 'e, R: Threads + Wait + Sync>(
        scope: &'s Scope<'s, &'e ()>,
        rt: &'e R,
        alloc: Global,
        store: &'e Store<N, S, K>,
        bell: &'e Bell,
        shelf: Option<NamedShelf<N, S>>,
    ) -> Option<Sweeper<N, S, K>>
        requires kept { IsKeptByCompaction S.honest K.keeps }
        ensures given { option_map (λ t. t.given.value) result ≡ shelf }
    {
        let shelf = shelf?;
        let given = Snapshot::of(&shelf);
        let handle = scope.spawn_with(
            Sweeps::of(Snapshot::of(&shelf)),
            move || -> NamedShelf<N, S>
                requires kept { IsKeptByCompaction S.honest K.keeps }
                ensures swept { HasSwept (S.refuses N.place) K.keeps shelf result }
            {
                let mut shelf = shelf;
                sweep_on(rt, alloc, store, bell, &mut shelf);
                shelf
            },
        );
        Some(Sweeper {
            given,
            handle: handle.ok(),
        })
    }

    /// Waits for the thread, if there is one: its shelf.
    pub(crate) fn join<R: Threads>(
        sweeper: Option<Sweeper<N, S, K>>,
        rt: &R,
    ) -> Option<NamedShelf<N, S>>
        ensures { IsBroughtBack (S.refuses N.place) K.keeps
            (option_map (λ t. t.given.value) sweeper) result }
    {
        let Sweeper { given: _, handle } = sweeper?;
        match handle {
            Some(handle) => Some(handle.join(rt)),
            None => None,
        }
    }
}
