//! Workers, each in a thread of its own.

ghost use Rattle.std.specs.Prelude.{◌≡◌, ◌≤◌, [], All, IfErr, IfOk, map, reverse, true};
ghost use Rattle.std.specs.Prelude.{vec_capacity, vec_len};
ghost use Rattle.lsm_store.specs.Compacting.{IsKeptByCompaction};
ghost use Rattle.lsm_store.specs.Workers.{IsWorkersEnd};
ghost use Rattle.lsm_store.specs.Working.{AreReturned, HaveEnded, IsWorked, given_each, given_one};
ghost use Rattle.lsm_store.specs.declared.picks.Picks.TheVariants.{Choice};

use crate::bell::Bell;
use crate::drawing::draw_for_all;
use crate::gate::Gate;
use crate::invariant::Invariant;
use crate::number_service::NumberService;
use crate::picks::Picks;
use crate::store::Store;
use crate::worker::work;
use crate::worker_end::WorkerEnd;
use crate::worker_thread::{Returned, Thread, Works};
use lsm_slots::Boarded;
use lsm_table::{NamedShelf, Shelf};
use std::alloc::{AllocFailed, Global};
use std::snapshot::Snapshot;
use std::sync::Wait;
use std::thread;
use std::thread::{Scope, Threads};

/// Starts a worker in a thread of its own, over this shelf.
pub(crate) fn start<
    's,
    'e,
    N: Boarded,
    S: Shelf,
    K: Invariant,
    G: Gate + Sync,
    R: Threads + Wait + Sync,
>(
    scope: &'s Scope<'s, &'e ()>,
    rt: &'e R,
    alloc: Global,
    store: &'e Store<N, S, K>,
    service: &'e NumberService,
    bell: &'e Bell,
    shelf: NamedShelf<N, S>,
    gate: &'e G,
    worker: usize,
    picks: &'e Picks,
) -> Thread<N, S, K>
    requires kept { IsKeptByCompaction S.honest K.keeps }
    ensures given { result.given.value ≡ shelf }
    ensures picks { result.picks.value ≡ picks.now }
    ensures to_the_end { result.to_the_end ≡ bell.now.to_the_end }
{
    let given = Snapshot::of(&shelf);
    let to_the_end = bell.to_the_end;
    let promise = Works::of(Snapshot::of(&shelf), Snapshot::of(picks), to_the_end);
    let handle = scope.spawn_with(
        promise,
        move || -> (WorkerEnd, NamedShelf<N, S>)
            requires kept { IsKeptByCompaction S.honest K.keeps }
            ensures end { IsWorkersEnd S.honest result.0 }
            ensures worked { IsWorked S.honest (S.refuses N.place) K.keeps
                (given_one picks.entry.now bell.entry.now.to_the_end shelf) result.0 result.1 }
        {
            let mut shelf = shelf;
            let end = work(
                rt, alloc, store, service, bell, &mut shelf, gate, worker, picks,
            );
            service.leave(rt);
            bell.leave(rt);
            (end, shelf)
        },
    );
    if handle.is_err() {
        service.leave(rt);
        bell.leave(rt);
    }
    Thread {
        given,
        picks: Snapshot::of(picks),
        to_the_end,
        handle: handle.ok(),
    }
}

/// Starts a worker for each shelf, the last one first.
pub(crate) fn start_all<
    's,
    'e,
    N: Boarded,
    S: Shelf,
    K: Invariant,
    G: Gate + Sync,
    R: Threads + Wait + Sync,
>(
    scope: &'s Scope<'s, &'e ()>,
    rt: &'e R,
    alloc: Global,
    store: &'e Store<N, S, K>,
    service: &'e NumberService,
    bell: &'e Bell,
    shelves: Vec<NamedShelf<N, S>>,
    gate: &'e G,
    picks: &'e Picks,
    threads: Vec<Thread<N, S, K>>,
) -> Vec<Thread<N, S, K>>
    requires kept { IsKeptByCompaction S.honest K.keeps }
    requires none { vec_len threads ≡ 0 }
    requires room { vec_len shelves ≤ vec_capacity threads }
    ensures given { reverse
        (map (λ t. given_one t.picks.value t.to_the_end t.given.value) result.items)
        ≡ given_each picks.now bell.now.to_the_end shelves.items }
    ensures len { vec_len result ≡ vec_len shelves }
{
    let mut shelves = shelves;
    let mut threads = threads;
    while let Some(shelf) = shelves.pop() {
        let worker = shelves.len();
        let thread = start(
            scope, rt, alloc, store, service, bell, shelf, gate, worker, picks,
        );
        let Ok(()) = threads.push(thread) else {
            unreachable!()
        };
    }
    threads
}

/// Waits for each worker, the last one first; there is room for what comes back.
pub(crate) fn join_all<N: Boarded, S: Shelf, K: Invariant, R: Threads + Wait>(
    rt: &R,
    threads: Vec<Thread<N, S, K>>,
    returned: Vec<Returned<N, S>>,
) -> Vec<Returned<N, S>>
    requires none { (returned.items ≡ []) × (vec_len returned ≡ 0) }
    requires room { vec_len threads ≤ vec_capacity returned }
    ensures ends { All (λ r. IsWorkersEnd S.honest r.0) result.items }
    ensures returned { AreReturned S.honest (S.refuses N.place) K.keeps
        (reverse (map (λ t. given_one t.picks.value t.to_the_end t.given.value) threads.items))
        result.items }
    ensures len { vec_len result ≡ vec_len threads }
{
    let mut threads = threads;
    let mut returned = returned;
    while let Some(thread) = threads.pop() {
        let back = thread.join(rt);
        let Ok(()) = returned.push(back) else {
            unreachable!()
        };
    }
    returned
}

/// What workers have done, without their shelves; there is room for it.
pub(crate) fn ends_of<N: Boarded, S: Shelf>(
    returned: Vec<Returned<N, S>>,
    ends: Vec<WorkerEnd>,
) -> Vec<WorkerEnd>
    requires none { (ends.items ≡ []) × (vec_len ends ≡ 0) }
    requires room { vec_len returned ≤ vec_capacity ends }
    ensures ends { result.items ≡ map (λ r. r.0) returned.items }
    ensures len { vec_len result ≡ vec_len returned }
    ensures capacity { vec_capacity ends ≤ vec_capacity result }
{
    let mut ends = ends;
    for back in returned {
        let (end, _shelf) = back;
        let Ok(()) = ends.push(end) else {
            unreachable!()
        };
    }
    ends
}

/// Runs a worker for each shelf, and draws numbers for them; there is room for threads and for what
/// comes back.
fn run_all<N: Boarded, S: Shelf, K: Invariant, G: Gate + Sync, R: Threads + Wait + Sync>(
    rt: &R,
    alloc: Global,
    store: &Store<N, S, K>,
    shelves: Vec<NamedShelf<N, S>>,
    gate: &G,
    picks: &Picks,
    threads: Vec<Thread<N, S, K>>,
    returned: Vec<Returned<N, S>>,
) -> Vec<Returned<N, S>>
    requires kept { IsKeptByCompaction S.honest K.keeps }
    requires none { (vec_len threads ≡ 0) × (returned.items ≡ []) × (vec_len returned ≡ 0) }
    requires room { (vec_len shelves ≤ vec_capacity threads)
        × (vec_len shelves ≤ vec_capacity returned) }
    ensures ends { All (λ r. IsWorkersEnd S.honest r.0) result.items }
    ensures returned { AreReturned S.honest (S.refuses N.place) K.keeps
        (given_each picks.now true shelves.items) result.items }
    ensures len { vec_len result ≡ vec_len shelves }
{
    let service = NumberService::new(shelves.len());
    let service = &service;
    let bell = Bell::closing_when_idle(shelves.len());
    let bell = &bell;
    thread::scope(
        thread::scope_env(),
        rt,
        move |scope| -> Vec<Returned<N, S>>
            requires kept { IsKeptByCompaction S.honest K.keeps }
            requires none { (vec_len threads ≡ 0) × (returned.items ≡ []) × (vec_len returned ≡ 0) }
            requires room { (vec_len shelves ≤ vec_capacity threads)
                × (vec_len shelves ≤ vec_capacity returned) }
            requires bell { bell.now.to_the_end ≡ true }
            ensures ends { All (λ r. IsWorkersEnd S.honest r.0) result.items }
            ensures returned { AreReturned S.honest (S.refuses N.place) K.keeps
                (given_each picks.entry.now true shelves.items) result.items }
            ensures len { vec_len result ≡ vec_len shelves }
        {
            let threads = start_all(
                scope, rt, alloc, store, service, bell, shelves, gate, picks, threads,
            );
            draw_for_all(rt, store, service);
            join_all(rt, threads, returned)
        },
    )
}

/// As `run_workers_returning`, but each worker takes what is picked (`Picks`).
fn run_picking<N: Boarded, S: Shelf, K: Invariant, G: Gate + Sync, R: Threads + Wait + Sync>(
    rt: &R,
    alloc: Global,
    store: &Store<N, S, K>,
    shelves: Vec<NamedShelf<N, S>>,
    gate: &G,
    picks: &Picks,
) -> Result<Vec<Returned<N, S>>, AllocFailed<Vec<NamedShelf<N, S>>>>
    requires kept { IsKeptByCompaction S.honest K.keeps }
    ensures len { IfOk result (λ v. vec_len v ≡ vec_len shelves) }
    ensures ends { IfOk result (λ v. All (λ r. IsWorkersEnd S.honest r.0) v.items) }
    ensures returned { IfOk result (λ v.
        AreReturned S.honest (S.refuses N.place) K.keeps (given_each picks.now true shelves.items)
        v.items) }
    ensures back { IfErr result (λ e. e.value ≡ shelves) }
{
    let Ok(returned) = Vec::with_capacity(alloc, shelves.len()) else {
        return Err(AllocFailed { value: shelves });
    };
    let Ok(threads) = Vec::with_capacity(alloc, shelves.len()) else {
        return Err(AllocFailed { value: shelves });
    };
    Ok(run_all(rt, alloc, store, shelves, gate, picks, threads, returned))
}

/// Compacts with one worker for each shelf, each in a thread of its own, as the state chooses
/// (`State::reserve`), until none of them finds anything left to reserve; answers what each has
/// done, with its shelf, in the order of the shelves. These are forks of the store's, of any number;
/// 1 to 8 are meant. The caller holds no guard of the store: this thread draws under the lock, and
/// would wait for itself.
///
/// A worker reserves under the lock, merges outside it, and installs under it. The numbers of its
/// outputs are drawn under the lock too, by this thread. At a fault it cancels its ticket and ends,
/// and the others go on. Before each merge the gate is told. A thread that cannot be made is that
/// worker's fault, `NoThread`, and its shelf does not come back.
///
/// What a shelf was told is just what its worker did. So a fault of the device, among others, comes
/// only where that shelf counted one (`laws::what_workers_did_is_told`).
///
/// Where there is no memory for the answer nothing is done, and the shelves come back.
pub fn run_workers_returning<
    N: Boarded,
    S: Shelf,
    K: Invariant,
    G: Gate + Sync,
    R: Threads + Wait + Sync,
>(
    rt: &R,
    alloc: Global,
    store: &Store<N, S, K>,
    shelves: Vec<NamedShelf<N, S>>,
    gate: &G,
) -> Result<Vec<Returned<N, S>>, AllocFailed<Vec<NamedShelf<N, S>>>>
    requires kept { IsKeptByCompaction S.honest K.keeps }
    ensures len { IfOk result (λ v. vec_len v ≡ vec_len shelves) }
    ensures ends { IfOk result (λ v. All (λ r. IsWorkersEnd S.honest r.0) v.items) }
    ensures returned { IfOk result (λ v.
        AreReturned S.honest (S.refuses N.place) K.keeps (given_each Choice true shelves.items)
        v.items) }
    ensures back { IfErr result (λ e. e.value ≡ shelves) }
{
    run_picking(rt, alloc, store, shelves, gate, &Picks::Choice)
}

/// As `run_workers_returning`, but each worker takes what is picked (`Picks`), and the shelves are
/// let go. Workers that compact a range end where no file of it is left at its levels, or all that
/// is left waits for a live job; a deletion with nothing below it goes, but where a snapshot needs
/// it.
pub fn run_workers_by<N: Boarded, S: Shelf, K: Invariant, G: Gate + Sync, R: Threads + Wait + Sync>(
    rt: &R,
    alloc: Global,
    store: &Store<N, S, K>,
    shelves: Vec<NamedShelf<N, S>>,
    gate: &G,
    picks: &Picks,
) -> Result<Vec<WorkerEnd>, AllocFailed<Vec<NamedShelf<N, S>>>>
    requires kept { IsKeptByCompaction S.honest K.keeps }
    ensures len { IfOk result (λ v. vec_len v ≡ vec_len shelves) }
    ensures ends { IfOk result (λ v. All (IsWorkersEnd S.honest) v.items) }
    ensures ended { IfOk result (λ v. HaveEnded S.honest (S.refuses N.place) K.keeps
        (given_each picks.now true shelves.items) v.items) }
    ensures back { IfErr result (λ e. e.value ≡ shelves) }
{
    let Ok(ends) = Vec::with_capacity(alloc, shelves.len()) else {
        return Err(AllocFailed { value: shelves });
    };
    match run_picking(rt, alloc, store, shelves, gate, picks) {
        Ok(returned) => Ok(ends_of(returned, ends)),
        Err(refused) => Err(refused),
    }
}

/// As `run_workers_returning`, and the shelves are let go.
pub fn run_workers<N: Boarded, S: Shelf, K: Invariant, G: Gate + Sync, R: Threads + Wait + Sync>(
    rt: &R,
    alloc: Global,
    store: &Store<N, S, K>,
    shelves: Vec<NamedShelf<N, S>>,
    gate: &G,
) -> Result<Vec<WorkerEnd>, AllocFailed<Vec<NamedShelf<N, S>>>>
    requires kept { IsKeptByCompaction S.honest K.keeps }
    ensures len { IfOk result (λ v. vec_len v ≡ vec_len shelves) }
    ensures ends { IfOk result (λ v. All (IsWorkersEnd S.honest) v.items) }
    ensures ended { IfOk result (λ v. HaveEnded S.honest (S.refuses N.place) K.keeps
        (given_each Choice true shelves.items) v.items) }
    ensures back { IfErr result (λ e. e.value ≡ shelves) }
{
    run_workers_by(rt, alloc, store, shelves, gate, &Picks::Choice)
}
