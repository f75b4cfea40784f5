//! What a program has of the workers beside it.

ghost use Rattle.std.specs.Prelude.{◌≡◌, All, IfErr, IfOk, false, true, vec_len};
ghost use Rattle.lsm_store.specs.Background.{BringsIn, IsBroughtIn, IsIngestStep, IsKeptByIngest};
ghost use Rattle.lsm_store.specs.Background.{IsKeptOut, KeepsOut};
ghost use Rattle.lsm_store.specs.Compacting.{IsKeptByCompaction};
ghost use Rattle.lsm_store.specs.Workers.{IsWorkersEnd};
ghost use Rattle.lsm_store.specs.Working.{HaveEnded, given_each};

use crate::bell::Bell;
use crate::invariant::Invariant;
use crate::picks::Picks;
use crate::ringing::Ringing;
use crate::store::Store;
use crate::worker_end::WorkerEnd;
use crate::workers::run_workers_by;
use lsm_batch::Batch;
use lsm_history::Memory;
use lsm_slots::Boarded;
use lsm_state::{Ingested, State, StateFault};
use lsm_table::{NamedShelf, Shelf};
use std::alloc::{AllocFailed, Global};
use std::sync::Wait;
use std::thread::Threads;

/// Whether level 0 of a store has room for a batch.
fn has_room_under_lock<N: Boarded, S: Shelf, K: Invariant, R: Wait>(
    rt: &R,
    store: &Store<N, S, K>,
) -> bool {
    store.lock(rt).state.has_room()
}

/// Brings the batch into the state, and remembers the history with it. Where it came in the bell is
/// rung, so that nobody who sees the batch has missed the ring.
fn bring_in<N: Boarded, S: Shelf, R: Wait>(
    state: &mut State<N, S>,
    rt: &R,
    alloc: Global,
    shelf: &mut NamedShelf<N, S>,
    batch: &Batch,
    bell: &Bell,
) -> Result<(Ingested, Memory<N>), StateFault>
    ensures ok { IfOk result (λ r. BringsIn state.old state.new batch.now r.0 shelf.old shelf.new) }
    ensures memory { IfOk result (λ r. r.1 ≡ state.new.history) }
    ensures refused { IfErr result (λ e.
        KeepsOut (S.refuses N.place) state.old state.new batch.now e shelf.old shelf.new) }
    ensures step { IsIngestStep (S.refuses N.place) batch.now state.old state.new }
{
    match state.ingest(rt, alloc, shelf, batch) {
        Ok(came) => {
            bell.ring(rt);
            Ok((came, state.remember()))
        }
        Err(fault) => Err(fault),
    }
}

/// Brings the batch in under the lock, and wakes the workers.
fn bring_in_under_lock<N: Boarded, S: Shelf, K: Invariant, R: Wait>(
    rt: &R,
    alloc: Global,
    store: &Store<N, S, K>,
    shelf: &mut NamedShelf<N, S>,
    batch: &Batch,
    bell: &Bell,
) -> Result<(Ingested, Memory<N>), StateFault>
    requires kept { IsKeptByIngest (S.refuses N.place) batch.now K.keeps }
    ensures ok { IfOk result (λ r. IsBroughtIn K.keeps batch.now r shelf.old shelf.new) }
    ensures refused { IfErr result (λ e.
        IsKeptOut (S.refuses N.place) K.keeps batch.now e shelf.old shelf.new) }
{
    bring_in(&mut store.lock(rt).state, rt, alloc, shelf, batch, bell)
}

/// The workers that compact beside a program, as the program sees them. Threads may share it.
///
/// Hold no guard of the store while you call it: workers need the lock, and some calls wait for
/// workers.
#[derive(Drop)]
pub struct Background {
    pub(crate) bell: Bell,
}

impl Background {
    /// So many workers, none of which has begun.
    pub(crate) fn of(workers: usize) -> Background
        ensures { result.bell.to_the_end ≡ false }
    {
        Background {
            bell: Bell::new(workers),
        }
    }

    /// Wakes the workers that sleep, for a look whether there is something to reserve; and writers
    /// that wait try again. To be called after a call under the lock by which there may be more to
    /// compact, or room at level 0: an ingest, a cancel, an install, a release.
    pub fn wake<R: Wait>(&self, rt: &R) {
        self.bell.ring(rt);
    }

    /// Waits until nothing is due: each worker has looked since this call began and found nothing to
    /// gather and nothing to reserve, or has ended. No worker has a job then.
    pub fn wait_until_idle<R: Wait>(&self, rt: &R) {
        self.bell.ring(rt);
        self.bell.wait_until_idle(rt);
    }

    /// Waits until level 0 of the store of these workers has room for a batch: true; or until no
    /// worker can make room there, as `ingest` has it: false. Where nobody else writes, a batch that
    /// comes next is not refused by `LevelZeroFull` then.
    pub fn wait_for_room<N: Boarded, S: Shelf, K: Invariant, R: Wait>(
        &self,
        rt: &R,
        store: &Store<N, S, K>,
    ) -> bool {
        if has_room_under_lock(rt, store) {
            return true;
        }
        let mut rings = self.bell.ring(rt);
        for _ in rt.forever() {
            if has_room_under_lock(rt, store) {
                return true;
            }
            match self.bell.wait_for_room(rt, rings) {
                Some(rung) => rings = rung,
                None => return false,
            }
        }
        unreachable!()
    }

    /// Brings a batch into the store of these workers, as `State::ingest` does under the lock, and
    /// wakes the workers. Where level 0 is full it waits until they have made room there.
    ///
    /// Ok has the history with the batch, as it was in the same taking of the lock: to be recalled
    /// (`State::recall`) at any later one, whose history goes on from it.
    ///
    /// The refusals are those of `State::ingest`. `LevelZeroFull` only where no worker can make
    /// room: each has ended, or found nothing to do, and nobody is within `compact`; as where a job
    /// of the caller's own holds the files of level 0.
    #[tactic(auto, using(crate::proofs::BackgroundLaws::full_asks_nothing))]
    pub fn ingest<N: Boarded, S: Shelf, K: Invariant, R: Wait>(
        &self,
        rt: &R,
        alloc: Global,
        store: &Store<N, S, K>,
        shelf: &mut NamedShelf<N, S>,
        batch: &Batch,
    ) -> Result<(Ingested, Memory<N>), StateFault>
        requires kept { IsKeptByIngest (S.refuses N.place) batch.now K.keeps }
        ensures ok { IfOk result (λ r. IsBroughtIn K.keeps batch.now r shelf.old shelf.new) }
        ensures refused { IfErr result (λ e.
            IsKeptOut (S.refuses N.place) K.keeps batch.now e shelf.old shelf.new) }
    {
        match bring_in_under_lock(rt, alloc, store, shelf, batch, &self.bell) {
            Err(StateFault::LevelZeroFull) => self.ingest_stalled(rt, alloc, store, shelf, batch),
            came => came,
        }
    }

    /// Compacts what is picked with workers of the caller's own, one for each shelf, as
    /// `run_workers_by` does, while these work on. Until its end they count among the workers that
    /// may make room at level 0: a writer that found it full waits for them too, and tries again
    /// before each of their merges and once they have ended. Just then the thread that sweeps
    /// removes the tables that nothing needs any more, too.
    pub fn compact<N: Boarded, S: Shelf, K: Invariant, R: Threads + Wait + Sync>(
        &self,
        rt: &R,
        alloc: Global,
        store: &Store<N, S, K>,
        shelves: Vec<NamedShelf<N, S>>,
        picks: &Picks,
    ) -> Result<Vec<WorkerEnd>, AllocFailed<Vec<NamedShelf<N, S>>>>
        requires kept { IsKeptByCompaction S.honest K.keeps }
        ensures len { IfOk result (λ v. vec_len v ≡ vec_len shelves) }
        ensures ends { IfOk result (λ v. All (IsWorkersEnd S.honest) v.items) }
        ensures ended { IfOk result (λ v. HaveEnded S.honest (S.refuses N.place) K.keeps
            (given_each picks.now true shelves.items) v.items) }
        ensures back { IfErr result (λ e. e.value ≡ shelves) }
    {
        let bell = &self.bell;
        bell.enter(rt);
        let ended = run_workers_by(rt, alloc, store, shelves, &Ringing { rt, bell }, picks);
        bell.installed(rt);
        bell.leave(rt);
        ended
    }

    // Tries again each time that the bell has rung. It is rung here first: workers look again, also
    // where no one rang after that by which level 0 became full.
    #[tactic(auto, using(crate::proofs::BackgroundLaws::full_asks_nothing))]
    fn ingest_stalled<N: Boarded, S: Shelf, K: Invariant, R: Wait>(
        &self,
        rt: &R,
        alloc: Global,
        store: &Store<N, S, K>,
        shelf: &mut NamedShelf<N, S>,
        batch: &Batch,
    ) -> Result<(Ingested, Memory<N>), StateFault>
        requires kept { IsKeptByIngest (S.refuses N.place) batch.now K.keeps }
        ensures ok { IfOk result (λ r. IsBroughtIn K.keeps batch.now r shelf.old shelf.new) }
        ensures refused { IfErr result (λ e.
            IsKeptOut (S.refuses N.place) K.keeps batch.now e shelf.old shelf.new) }
    {
        let mut rings = self.bell.ring(rt);
        for _ in rt.forever() {
            match bring_in_under_lock(rt, alloc, store, shelf, batch, &self.bell) {
                Err(StateFault::LevelZeroFull) => match self.bell.wait_for_room(rt, rings) {
                    Some(rung) => rings = rung,
                    None => return Err(StateFault::LevelZeroFull),
                },
                came => return came,
            }
        }
        unreachable!()
    }
}
