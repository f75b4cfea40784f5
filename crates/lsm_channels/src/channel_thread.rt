//! The thread of a channel.

ghost use Rattle.std.specs.Prelude.{◌≡◌, IfSome};
ghost use Rattle.std.specs.Option.{ForSome, is_some};
ghost use Rattle.lsm_channels.specs.Serving.{IsServed};

use lsm_slots::Boarded;
use lsm_store::Invariant;
use lsm_table::Shelf;
use lsm_wire::Wire;
use std::marker::PhantomData;
use std::snapshot::Snapshot;
use std::thread::{Promise, PromisedHandle, Threads};

/// What the thread of a channel promises of the wire that comes back, by the one that it was given.
#[derive(Drop)]
pub(crate) struct Serves<N: Boarded, S: Shelf, K: Invariant, W: Wire> {
    given: Snapshot<W>,
    of: PhantomData<(N, S, K)>,
}

impl<N: Boarded, S: Shelf, K: Invariant, W: Wire> Serves<N, S, K, W> {
    pub(crate) fn of(given: Snapshot<W>) -> Serves<N, S, K, W>
        ensures { result.given.value ≡ given.value }
    {
        Serves {
            given,
            of: PhantomData,
        }
    }
}

impl<N: Boarded, S: Shelf, K: Invariant, W: Wire> Promise<W> for Serves<N, S, K, W> {
    ghost kept_by = { λ p r. (W.descriptor r ≡ W.descriptor p.given.value)
        × IsServed S.honest (S.refuses N.place) K.keeps
        (W.happened p.given.value) (W.happened r) };
}

/// The thread of a channel, if it could be made, and the wire that it was given, which only clauses
/// read.
#[derive(Drop)]
pub(crate) struct Thread<N: Boarded, S: Shelf, K: Invariant, W: Wire> {
    pub(crate) given: Snapshot<W>,
    pub(crate) handle: Option<PromisedHandle<W, Serves<N, S, K, W>>>,
    ghost its: { ForSome handle (λ h. h.promise.given.value ≡ given.value) },
}

impl<N: Boarded, S: Shelf, K: Invariant, W: Wire> Thread<N, S, K, W> {
    /// Whether it could be made.
    pub(crate) fn is_made(&self) -> bool
        ensures { result ≡ is_some self.now.handle }
    {
        self.handle.is_some()
    }

    /// Waits for the end of the channel: its wire, if the thread could be made.
    pub(crate) fn join<R: Threads>(self, rt: &R) -> Option<W>
        ensures made { is_some result ≡ is_some self.handle }
        ensures same { IfSome result (λ w. W.descriptor w ≡ W.descriptor self.given.value) }
        ensures served { IfSome result (λ w. IsServed S.honest (S.refuses N.place) K.keeps
            (W.happened self.given.value) (W.happened w)) }
    {
        let Thread { given: _, handle } = self;
        match handle {
            Some(handle) => Some(handle.join(rt)),
            None => None,
        }
    }
}
