//! The state behind its lock.

ghost use Rattle.std.specs.Prelude.{◌≡◌, ◌≤◌, ℕ, [], All, IfErr, IfOk, length, map, vec_capacity};
ghost use Rattle.std.specs.Prelude.{vec_len};
ghost use Rattle.lsm_shelf.specs.Told.{Counted, Forked, NotNamed, fork_at};
ghost use Rattle.lsm_pins.specs.Known.{Known};
ghost use Rattle.lsm_state.specs.Held.{Held};
ghost use Rattle.lsm_store.specs.Compacting.{IsSeated};
ghost use Rattle.lsm_store.specs.Readers.{IsFreeEnd, IsKnownBy, SeatsPinners, known_at, seated};
ghost use Rattle.lsm_store.specs.Readers.{unnumbered};

use crate::guarded::{Fact, Guarded};
use crate::invariant::{Invariant, Lawful};
use crate::reader::Reader;
use crate::reader_cache::ReaderCache;
use lsm_pins::Pinner;
use lsm_slots::Boarded;
use lsm_state::State;
use lsm_table::{NamedShelf, Shelf, ShelfFault};
use std::alloc::Global;
use std::num::NonZeroUsize;
use std::sync::{Mutex, MutexGuard, Wait};

/// A cache for each reader that the options name.
#[tactic(auto, using(lsm_shelf::proofs::CallerLemmas::forked_then, lsm_shelf::proofs::CallerLemmas::forked_none, lsm_shelf::proofs::CallerLemmas::counted_after_forks))]
fn caches_for<N: Boarded, S: Shelf>(
    alloc: Global,
    state: &mut State<N, S>,
    shelf: &mut NamedShelf<N, S>,
) -> Result<Vec<ReaderCache<N, S>>, ShelfFault>
    ensures caches { IfOk result (λ v. All (IsKnownBy state.old N.place) v.items) }
    ensures len { IfOk result (λ v. vec_len v ≡ state.old.options.readers) }
    ensures same { state.new ≡ state.old }
    ensures told { Forked shelf.old shelf.new }
    ensures cause { IfErr result (λ e. NotNamed e × Counted e shelf.old shelf.new) }
{
    let options = state.options();
    let readers = options.readers;
    let Some(blocks) = NonZeroUsize::new(options.cache_blocks) else {
        unreachable!()
    };
    let mut caches = Vec::new(alloc);
    for number in 0..readers {
        let cache = ReaderCache::new(alloc, state, shelf, blocks)?;
        caches.push(cache)?;
    }
    Ok(caches)
}

/// The reader with this cache, whose end of the board learns the current version.
fn seat<N: Boarded, S: Shelf>(
    state: &mut State<N, S>,
    pinner: Pinner,
    cache: ReaderCache<N, S>,
) -> Reader<N, S>
    requires pinner { IsFreeEnd N.board pinner }
    requires cache { IsKnownBy state.old N.place cache }
    ensures seated { unnumbered result ≡ seated state.old N.place pinner }
    ensures rest { state.new
        ≡ record state.old { slots = record state.old.slots { board = state.new.slots.board } } }
    ensures same { known_at state.new N.place ≡ known_at state.old N.place }
    ensures others { (p : Known) → seated state.new N.place p ≡ seated state.old N.place p }
{
    let mut pinner = pinner;
    state.learn(&mut pinner);
    Reader { pinner, cache }
}

/// A reader for each end of the board, in their order, with a cache each; there is room for all.
fn seat_all<N: Boarded, S: Shelf>(
    state: &mut State<N, S>,
    pinners: Vec<Pinner>,
    caches: Vec<ReaderCache<N, S>>,
    readers: Vec<Reader<N, S>>,
) -> Vec<Reader<N, S>>
    requires pinners { All (IsFreeEnd N.board) pinners.items }
    requires caches { All (IsKnownBy state.old N.place) caches.items }
    requires enough { vec_len pinners ≤ vec_len caches }
    requires none { (readers.items ≡ []) × (vec_len readers ≡ 0) }
    requires room { vec_len pinners ≤ vec_capacity readers }
    ensures readers { map unnumbered result.items
        ≡ map (seated state.old N.place) pinners.items }
    ensures len { vec_len result ≡ vec_len pinners }
    ensures rest { state.new
        ≡ record state.old { slots = record state.old.slots { board = state.new.slots.board } } }
    ensures same { known_at state.new N.place ≡ known_at state.old N.place }
{
    let mut caches = caches;
    let mut readers = readers;
    for pinner in pinners {
        let Some(cache) = caches.pop() else {
            unreachable!()
        };
        let reader = seat(state, pinner, cache);
        let Ok(()) = readers.push(reader) else {
            unreachable!()
        };
    }
    readers
}

/// Caches and room for the readers, and nothing is taken of the state yet.
fn make_caches<N: Boarded, S: Shelf>(
    alloc: Global,
    state: &mut State<N, S>,
    shelf: &mut NamedShelf<N, S>,
) -> Result<(Vec<ReaderCache<N, S>>, Vec<Reader<N, S>>), ShelfFault>
    ensures caches { IfOk result (λ r. All (IsKnownBy state.old N.place) r.0.items) }
    ensures len { IfOk result (λ r. vec_len r.0 ≡ state.old.options.readers) }
    ensures none { IfOk result (λ r. (r.1.items ≡ []) × (vec_len r.1 ≡ 0)) }
    ensures room { IfOk result (λ r. vec_capacity r.1 ≡ state.old.options.readers) }
    ensures same { state.new ≡ state.old }
    ensures told { Forked shelf.old shelf.new }
    ensures cause { IfErr result (λ e. NotNamed e × Counted e shelf.old shelf.new) }
{
    let readers = Vec::with_capacity(alloc, state.options().readers)?;
    let caches = caches_for(alloc, state, shelf)?;
    Ok((caches, readers))
}

/// The ends of the board that were not taken yet, each of which holds no pin.
fn take_ends<N: Boarded, S: Shelf>(state: &mut State<N, S>, alloc: Global) -> Vec<Pinner>
    ensures ends { All (IsFreeEnd N.board) result.items }
    ensures all { result.items ≡ state.old.pinners }
    ensures same { state.new ≡ record state.old { pinners = [] } }
{
    // The law of the state is told by this call.
    let _options = state.options();
    state.take_pinners(alloc)
}

/// The state of a database behind its lock.
#[derive(Drop)]
pub struct Store<N: Boarded, S: Shelf, K: Invariant = Lawful> {
    state: Mutex<Guarded<N, S, K>>,
}

impl<N: Boarded, S: Shelf, K: Invariant> Store<N, S, K> {
    /// The store of a state, and a reader for each pinner that was not taken yet, in their order.
    /// Each has a fork of the shelf and an empty cache of blocks, and has learnt the current
    /// version. All of that is made before the pinners are taken. The shelf is a fork to which
    /// nothing was told.
    ///
    /// The state has no more pinners than its options have readers: so it is after `State::create`
    /// and `State::open` with the board that `Board::new` made for these options.
    ///
    /// `OutOfMemory`; `Device` where the shelf failed. A refusal hands the state back as it was,
    /// and the shelf, which was asked for forks alone.
    pub fn new(
        alloc: Global,
        state: State<N, S>,
        shelf: NamedShelf<N, S>,
    ) -> Result<(Store<N, S, K>, Vec<Reader<N, S>>), (State<N, S>, NamedShelf<N, S>, ShelfFault)>
        requires seats { SeatsPinners state }
        requires fork { (number : ℕ) × (shelf ≡ fork_at N.place number) }
        requires kept { (h : Held) → IsSeated state h → K.keeps h }
        ensures readers { IfOk result (λ r.
            map unnumbered r.1.items ≡ map (seated state N.place) state.pinners) }
        ensures len { IfOk result (λ r. vec_len r.1 ≡ length state.pinners) }
        ensures err { IfErr result (λ e. (e.0 ≡ state) × Forked shelf e.1) }
        ensures cause { IfErr result (λ e. NotNamed e.2 × Counted e.2 shelf e.1) }
    {
        let mut state = state;
        let mut shelf = shelf;
        let (caches, readers) = match make_caches(alloc, &mut state, &mut shelf) {
            Ok(made) => made,
            Err(fault) => return Err((state, shelf, fault)),
        };
        let pinners = take_ends(&mut state, alloc);
        let readers = seat_all(&mut state, pinners, caches, readers);
        let store = Store {
            state: Mutex::new(Guarded {
                state,
                fact: Fact::new(),
            }),
        };
        Ok((store, readers))
    }

    /// The store of a state, whose readers are let go: it is read by its state alone, under the
    /// lock. No shelf is asked for a fork.
    pub fn of(alloc: Global, state: State<N, S>) -> Store<N, S, K>
        requires kept { (h : Held) → IsSeated state h → K.keeps h }
    {
        let mut state = state;
        let _ends = take_ends(&mut state, alloc);
        Store {
            state: Mutex::new(Guarded {
                state,
                fact: Fact::new(),
            }),
        }
    }

    /// Lends the state, which keeps its law (`State::options` tells it), and the fact of the store,
    /// which is `kept` of the guard. Calls are made on the guard's `state`.
    pub fn lock<'a, R: Wait>(&'a self, rt: &R) -> MutexGuard<'a, Guarded<N, S, K>> {
        self.state.lock(rt)
    }

    /// The state, of which the fact holds.
    pub fn into_state(self) -> State<N, S>
        ensures kept { ∥ K.keeps result ∥₁ }
    {
        self.state.into_inner().state
    }
}
