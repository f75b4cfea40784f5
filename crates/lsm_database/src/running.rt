//! A program runs on the database of a shelf.

ghost use Rattle.std.specs.Prelude.{◌≡◌, ◌+◌, ◌≤◌, List, All, IfErr, IfOk, IfSome, OnErr, OnOk};
ghost use Rattle.std.specs.Prelude.{vec_len};
ghost use Rattle.lsm_batch.specs.declared.write.Write.{Write};
ghost use Rattle.lsm_shelf.specs.Stored.{Stored};
ghost use Rattle.lsm_shelf.specs.Told.{CountedBy, ForkedAtMost, ForkedTimes, GivesForks, NotNamed};
ghost use Rattle.lsm_shelf.specs.Told.{fork_at, forks_behind};
ghost use Rattle.lsm_store.specs.Workers.{IsWorkersEnd};
ghost use Rattle.lsm_store.specs.Working.{HaveEndedBeside};
ghost use Rattle.lsm_opening.specs.Parts.{AreOf, usual};
ghost use Rattle.lsm_database.specs.Calls.{AnswersRead, AnswersWrite};
ghost use Rattle.lsm_database.specs.Databases.{IsUntold, seen};
ghost use Rattle.lsm_database.specs.Keeping.{HasComeTo, HasSaid};
ghost use Rattle.lsm_database.specs.Running.{IsRunRefusal, IsUnforked, Runs};

use crate::asking::{AskedFor, Asking};
use crate::found::Found;
use crate::handle::Handle;
use crate::program::Program;
use crate::served::run_served;
use crate::wanted::Wanted;
use lsm_batch::Batch;
use lsm_history::Memory;
use lsm_opening::{NewParts, Prepared, WriterFault, start};
use lsm_reader::Cached;
use lsm_slots::Boarded;
use lsm_state::{Ingested, State, StateFault};
use lsm_store::{Background, NoGate, Shelves, Store, WorkerEnd, with_workers};
use lsm_table::{NamedShelf, ReadFault, Shelf, ShelfFault};
use std::alloc::Global;
use std::marker::Brand;
use std::num::NonZeroUsize;
use std::sync::Wait;
use std::thread::Threads;

/// How many blocks are kept: those of LevelDB's cache, 8 MiB.
const BLOCKS: usize = 2048;

/// A cache of blocks over the next fork of the shelf.
fn cache_over<N: Boarded, S: Shelf>(
    alloc: Global,
    shelf: &mut NamedShelf<N, S>,
) -> Result<Cached<N, S>, ShelfFault>
    ensures fork { IfOk result (λ c. c ≡ fork_at N.place (shelf.old.forks + 1)) }
    ensures just { OnOk result (ForkedTimes 1 shelf.old shelf.new) }
    ensures fewer { OnErr result (ForkedAtMost 1 shelf.old shelf.new) }
    ensures cause { IfErr result NotNamed }
    ensures counts { CountedBy result shelf.old shelf.new }
{
    let Some(blocks) = NonZeroUsize::new(BLOCKS) else {
        unreachable!()
    };
    let fork = shelf.fork(alloc)?;
    let cache = Cached::new(alloc, fork, blocks)?;
    Ok(cache)
}

/// What a read answers, or why it is refused.
type Answered = Result<Found, ReadFault>;

/// Runs a program on a database.
fn run_on_handle<N: Boarded, S: Shelf, A: Asking, R: Wait, P: Program>(
    handle: Handle<'_, N, S, A, R>,
    program: P,
) -> P::Answer
    requires asks { (ws : List Write) → P.asks program S.honest handle.memory ws → A.asks ws }
    requires found { handle.memory ≡ A.found.history }
    requires untold { IsUntold (seen handle.memory handle.shelf handle.blocks) }
    ensures said { HasSaid A.asks A.found (λ es.
        P.says program S.honest handle.entry.memory es result) }
{
    run_served(
        handle.alloc,
        handle,
        |handle: &mut Handle<'_, N, S, A, R>, batch: &Batch| -> Result<Ingested, StateFault>
            requires asked { A.asks batch.now }
            ensures { AnswersWrite (S.refuses N.place) batch.now result
                (seen handle.old.memory handle.old.shelf handle.old.blocks)
                (seen handle.new.memory handle.new.shelf handle.new.blocks) }
        { handle.write(batch) },
        |handle: &mut Handle<'_, N, S, A, R>, key: &[u8], wanted: Wanted| -> Answered
            ensures { AnswersRead S.honest (S.refuses N.place) key.now wanted result
                (seen handle.old.memory handle.old.shelf handle.old.blocks)
                (seen handle.new.memory handle.new.shelf handle.new.blocks) }
        { handle.read(key, wanted) },
        program,
    )
}

/// Runs a program on the state of a store, while a worker for each shelf compacts: its answer, and
/// the workers' ends, as they may be over these shelves. None where there was no memory and no
/// thread for the workers; then it did not run.
fn run_in_store<N: Boarded, S: Shelf, A: Asking, R: Threads + Wait + Sync, P: Program>(
    rt: &R,
    alloc: Global,
    store: &Store<N, S, AskedFor<N, S, A>>,
    shelves: Vec<NamedShelf<N, S>>,
    shelf: NamedShelf<N, S>,
    blocks: Cached<N, S>,
    memory: Memory<N>,
    program: P,
) -> Option<(P::Answer, Vec<WorkerEnd>)>
    requires asks { (ws : List Write) → P.asks program S.honest memory ws → A.asks ws }
    requires found { memory ≡ A.found.history }
    requires untold { IsUntold (seen memory shelf blocks) }
    ensures said { IfSome result (λ r. HasSaid A.asks A.found (λ es.
        P.says program S.honest memory es r.0)) }
    ensures count { IfSome result (λ r. (vec_len shelves ≤ vec_len r.1)
        × (vec_len r.1 ≤ vec_len shelves + 1)) }
    ensures ends { IfSome result (λ r. All (IsWorkersEnd S.honest) r.1.items) }
    ensures ended { IfSome result (λ r. HaveEndedBeside S.honest (S.refuses N.place)
        (HasComeTo (S.refuses N.place) S.honest A.asks A.found) shelves.items r.1.items) }
{
    let run = with_workers(
        rt,
        alloc,
        store,
        shelves,
        &NoGate,
        move |background: &Background| -> P::Answer
            requires asks { (ws : List Write) → P.asks program S.honest memory ws → A.asks ws }
            requires found { memory ≡ A.found.history }
            requires untold { IsUntold (seen memory shelf blocks) }
            ensures { HasSaid A.asks A.found (λ es. P.says program S.honest memory es result) }
        {
            let handle = Handle {
                rt,
                alloc,
                store,
                background,
                shelf,
                blocks,
                memory,
            };
            run_on_handle(handle, program)
        },
    );
    match run {
        Ok(run) => Some(run),
        Err(refused) => {
            drop(refused);
            None
        }
    }
}

/// Runs a program on a state with this history while so many workers compact. The shelf is asked
/// for forks alone: one for each worker, and two for the program; once one is refused, for no
/// other.
fn run_state<N: Boarded, S: Shelf, A: Asking, R: Threads + Wait + Sync, P: Program>(
    rt: &R,
    alloc: Global,
    state: State<N, S>,
    memory: Memory<N>,
    shelf: &mut NamedShelf<N, S>,
    workers: usize,
    program: P,
) -> Result<(P::Answer, Vec<WorkerEnd>), WriterFault>
    requires known { memory ≡ state.history }
    requires asks { (ws : List Write) → P.asks program S.honest state.history ws → A.asks ws }
    requires found { A.found ≡ state }
    ensures said { IfOk result (λ r. HasSaid A.asks A.found (λ es.
        P.says program S.honest state.history es r.0)) }
    ensures count { IfOk result (λ r. (workers ≤ vec_len r.1) × (vec_len r.1 ≤ workers + 1)) }
    ensures ends { IfOk result (λ r. All (IsWorkersEnd S.honest) r.1.items) }
    ensures ended { IfOk result (λ r. HaveEndedBeside S.honest (S.refuses N.place)
        (HasComeTo (S.refuses N.place) S.honest A.asks A.found)
        (forks_behind N.place shelf.old.forks workers) r.1.items) }
    ensures just { OnOk result (GivesForks (workers + 2) shelf.old shelf.new) }
    ensures refused { IfErr result (λ e. IsUnforked (workers + 2) e shelf.old shelf.new) }
{
    let Shelves { shelves, own } = match Shelves::of(alloc, shelf, workers) {
        Ok(shelves) => shelves,
        Err(fault) => return Err(WriterFault::of_shelf(fault)),
    };
    let blocks = match cache_over(alloc, shelf) {
        Ok(blocks) => blocks,
        Err(fault) => return Err(WriterFault::of_shelf(fault)),
    };
    let store = Store::of(alloc, state);
    let run = run_in_store::<N, S, A, R, P>(
        rt, alloc, &store, shelves, own, blocks, memory, program,
    );
    match run {
        Some(run) => Ok(run),
        None => Err(WriterFault::OutOfMemory),
    }
}

/// Begins or opens the database of a shelf, and runs a program on it while so many workers compact.
/// Once it is begun or opened the shelf is asked for forks alone.
fn run_named<N: Boarded, S: Shelf, R: Threads + Wait + Sync, P: Program>(
    rt: &R,
    alloc: Global,
    shelf: &mut NamedShelf<N, S>,
    prepared: &Prepared,
    parts: NewParts<S>,
    workers: usize,
    program: P,
) -> Result<(P::Answer, Vec<WorkerEnd>), WriterFault>
    requires parts { AreOf usual N.registry N.board N.history parts }
    requires shelf { shelf.old.place ≡ N.place }
    ensures ran { IfOk result (λ r. Runs (S.refuses N.place) S.honest prepared.now.start
        prepared.now.logs.items workers (P.asks program S.honest)
        (λ es fs. P.says program S.honest es fs r.0) r.1.items shelf.old shelf.new) }
    ensures count { IfOk result (λ r. (workers ≤ vec_len r.1) × (vec_len r.1 ≤ workers + 1)) }
    ensures refused { IfErr result (λ e. IsRunRefusal (Stored S.Receipt (S.is_of N.place)
        S.Receipt.number S.Receipt.image) (S.refuses N.place) S.honest prepared.now.start
        prepared.now.logs.items workers e shelf.old shelf.new) }
{
    let mut state: State<N, S> = match start(rt, alloc, shelf, prepared, parts) {
        Ok(state) => state,
        Err(fault) => return Err(fault),
    };
    let memory = state.remember();
    match run_state::<N, S, Brand, R, P>(rt, alloc, state, memory, shelf, workers, program) {
        Ok(run) => Ok(run),
        Err(fault) => Err(fault),
    }
}

/// The same under the name that was picked for the parts and the shelf, which is given back.
fn run_as<N: Boarded, S: Shelf, R: Threads + Wait + Sync, P: Program>(
    rt: &R,
    alloc: Global,
    shelf: S,
    prepared: &Prepared,
    parts: NewParts<S>,
    workers: usize,
    program: P,
) -> (Result<(P::Answer, Vec<WorkerEnd>), WriterFault>, S)
    requires parts { AreOf usual N.registry N.board N.history parts }
    requires shelf { (S.told shelf).place ≡ N.place }
    ensures ran { IfOk result.0 (λ r. Runs (S.refuses N.place) S.honest prepared.now.start
        prepared.now.logs.items workers (P.asks program S.honest)
        (λ es fs. P.says program S.honest es fs r.0) r.1.items (S.told shelf)
        (S.told result.1)) }
    ensures count { IfOk result.0 (λ r. (workers ≤ vec_len r.1)
        × (vec_len r.1 ≤ workers + 1)) }
    ensures refused { IfErr result.0 (λ e. IsRunRefusal (Stored S.Receipt (S.is_of N.place)
        S.Receipt.number S.Receipt.image) (S.refuses N.place) S.honest prepared.now.start
        prepared.now.logs.items workers e (S.told shelf) (S.told result.1)) }
{
    let mut shelf: NamedShelf<N, S> = NamedShelf::of(shelf);
    let run = run_named(rt, alloc, &mut shelf, prepared, parts, workers, program);
    (run, shelf.into_shelf())
}

/// Begins the database of a shelf, or opens the one that is there, as `prepare` found it, and runs
/// a program on it while so many workers compact: its answer, and what each worker has done. The
/// shelf is given back.
pub(crate) fn run_on<S: Shelf, R: Threads + Wait + Sync, P: Program>(
    rt: &R,
    alloc: Global,
    shelf: S,
    prepared: &Prepared,
    workers: usize,
    program: P,
) -> (Result<(P::Answer, Vec<WorkerEnd>), WriterFault>, S)
    ensures ran { IfOk result.0 (λ r. Runs (S.refuses (S.told shelf).place) S.honest
        prepared.now.start prepared.now.logs.items workers (P.asks program S.honest)
        (λ es fs. P.says program S.honest es fs r.0) r.1.items (S.told shelf)
        (S.told result.1)) }
    ensures count { IfOk result.0 (λ r. (workers ≤ vec_len r.1)
        × (vec_len r.1 ≤ workers + 1)) }
    ensures refused { IfErr result.0 (λ e. IsRunRefusal (Stored S.Receipt
        (S.is_of (S.told shelf).place) S.Receipt.number S.Receipt.image)
        (S.refuses (S.told shelf).place) S.honest prepared.now.start prepared.now.logs.items
        workers e (S.told shelf) (S.told result.1)) }
{
    match NewParts::make(alloc) {
        Ok(parts) => run_as::<Brand, S, R, P>(rt, alloc, shelf, prepared, parts, workers, program),
        Err(_) => (Err(WriterFault::OutOfMemory), shelf),
    }
}
