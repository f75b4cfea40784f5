//! Workers that compact in the background of a program.

ghost use Rattle.std.specs.Prelude.{◌≡◌, ◌+◌, ◌<◌, ◌≤◌, ◌++◌, [], All, IfErr, IfOk, option_map};
ghost use Rattle.std.specs.Prelude.{IfSome, false};
ghost use Rattle.std.specs.Prelude.{vec_capacity, vec_len};
ghost use Rattle.lsm_store.specs.Compacting.{IsKeptByCompaction};
ghost use Rattle.lsm_store.specs.Workers.{IsWorkersEnd};
ghost use Rattle.lsm_store.specs.Working.{AreReturnedBeside, HasGathered, HaveEndedBeside};
ghost use Rattle.lsm_store.specs.Working.{end_of};
ghost use Rattle.lsm_store.specs.declared.picks.Picks.TheVariants.{Gathering, Joining};

use crate::background::Background;
use crate::bell::Bell;
use crate::drawing::draw_for_all;
use crate::gate::Gate;
use crate::invariant::Invariant;
use crate::number_service::NumberService;
use crate::picks::Picks;
use crate::store::Store;
use crate::sweeper::Sweeper;
use crate::sweeping::fork_last;
use crate::worker_end::WorkerEnd;
use crate::worker_thread::{Returned, Thread};
use crate::workers::{ends_of, join_all, start, start_all};
use lsm_slots::Boarded;
use lsm_table::{NamedShelf, Shelf};
use std::alloc::{AllocFailed, Global};
use std::sync::Wait;
use std::thread;
use std::thread::{Scope, Threads};

/// What comes back of a body and of those that worked beside it: what it answered; what comes back
/// of each worker; what comes back of the one that only gathered, none where there was none; and
/// the shelf of the thread that swept, none where there was no such thread.
pub type ReturnedBeside<N, S, T> = (
    T,
    Vec<Returned<N, S>>,
    Option<Returned<N, S>>,
    Option<NamedShelf<N, S>>,
);

/// Starts the thread that draws numbers for workers. Whether it could be made.
fn start_drawing<'s, 'e, N: Boarded, S: Shelf, K: Invariant, R: Threads + Wait + Sync>(
    scope: &'s Scope<'s, &'e ()>,
    rt: &'e R,
    store: &'e Store<N, S, K>,
    service: &'e NumberService,
) -> bool
    requires kept { IsKeptByCompaction S.honest K.keeps }
{
    let thread = scope.spawn(
        move ||
            requires kept { IsKeptByCompaction S.honest K.keeps }
        {
            draw_for_all(rt, store, service);
        },
    );
    thread.is_ok()
}

/// Starts a worker that only gathers, over this shelf. None where there is no shelf.
fn start_gathering<
    's,
    'e,
    N: Boarded,
    S: Shelf,
    K: Invariant,
    G: Gate + Sync,
    R: Threads + Wait + Sync,
>(
    scope: &'s Scope<'s, &'e ()>,
    rt: &'e R,
    alloc: Global,
    store: &'e Store<N, S, K>,
    service: &'e NumberService,
    bell: &'e Bell,
    shelf: Option<NamedShelf<N, S>>,
    gate: &'e G,
    worker: usize,
    picks: &'e Picks,
) -> Option<Thread<N, S, K>>
    requires kept { IsKeptByCompaction S.honest K.keeps }
    ensures given { option_map (λ t. t.given.value) result ≡ shelf }
    ensures picks { IfSome result (λ t. t.picks.value ≡ picks.now) }
    ensures to_the_end { IfSome result (λ t. t.to_the_end ≡ bell.now.to_the_end) }
{
    let Some(shelf) = shelf else {
        service.leave(rt);
        bell.leave(rt);
        return None;
    };
    Some(start(
        scope, rt, alloc, store, service, bell, shelf, gate, worker, picks,
    ))
}

/// Waits for the worker that only gathers, if there is one.
fn join_gathering<N: Boarded, S: Shelf, K: Invariant, R: Threads>(
    rt: &R,
    thread: Option<Thread<N, S, K>>,
) -> Option<Returned<N, S>>
    requires picks { IfSome thread (λ t. t.picks.value ≡ Gathering) }
    requires to_the_end { IfSome thread (λ t. t.to_the_end ≡ false) }
    ensures end { IfSome result (λ g. IsWorkersEnd S.honest g.0) }
    ensures returned { HasGathered S.honest (S.refuses N.place) K.keeps
        (option_map (λ t. t.given.value) thread) result }
{
    match thread {
        Some(thread) => Some(thread.join(rt)),
        None => None,
    }
}

/// Runs a worker for each shelf beside the body, which gathers and joins small files; one that only
/// gathers; and threads that draw numbers for them and sweep. There is room for threads and for
/// what comes back.
fn run_beside<
    N: Boarded,
    S: Shelf,
    K: Invariant,
    G: Gate + Sync,
    R: Threads + Wait + Sync,
    T,
    F: FnOnce(&Background) -> T,
>(
    rt: &R,
    alloc: Global,
    store: &Store<N, S, K>,
    shelves: Vec<NamedShelf<N, S>>,
    gate: &G,
    body: F,
    threads: Vec<Thread<N, S, K>>,
    returned: Vec<Returned<N, S>>,
) -> Result<ReturnedBeside<N, S, T>, AllocFailed<(Vec<NamedShelf<N, S>>, F)>>
    requires kept { IsKeptByCompaction S.honest K.keeps }
    requires body { F.IsAlwaysCallable body }
    requires none { (vec_len threads ≡ 0) × (returned.items ≡ []) × (vec_len returned ≡ 0) }
    requires room { (vec_len shelves ≤ vec_capacity threads)
        × (vec_len shelves ≤ vec_capacity returned) }
    ensures answer { IfOk result (λ r. (b : _) × F.post body b r.0) }
    ensures len { IfOk result (λ r. vec_len r.1 ≡ vec_len shelves) }
    ensures ends { IfOk result (λ r. All (λ w. IsWorkersEnd S.honest w.0) r.1.items) }
    ensures beside { IfOk result (λ r. AreReturnedBeside S.honest (S.refuses N.place) K.keeps
        shelves.items r.1.items r.2 r.3) }
    ensures gathered { IfOk result (λ r. IfSome r.2 (λ g. IsWorkersEnd S.honest g.0)) }
    ensures back { IfErr result (λ e. e.value ≡ (shelves, body)) }
{
    let workers = shelves.len();
    // One more only gathers.
    let all = workers.saturating_add(1);
    let service = NumberService::new(all);
    let service = &service;
    let background = Background::of(all);
    let background = &background;
    let joining = Picks::Joining;
    let joining = &joining;
    let gathering = Picks::Gathering;
    let gathering = &gathering;
    thread::scope(
        thread::scope_env(),
        rt,
        move |scope| -> Result<ReturnedBeside<N, S, T>, AllocFailed<(Vec<NamedShelf<N, S>>, F)>>
            requires kept { IsKeptByCompaction S.honest K.keeps }
            requires body { F.IsAlwaysCallable body }
            requires none { (vec_len threads ≡ 0) × (returned.items ≡ []) × (vec_len returned ≡ 0) }
            requires room { (vec_len shelves ≤ vec_capacity threads)
                × (vec_len shelves ≤ vec_capacity returned) }
            requires joining { joining.now ≡ Joining }
            requires gathering { gathering.now ≡ Gathering }
            requires bell { background.now.bell.to_the_end ≡ false }
            ensures answer { IfOk result (λ r. (b : _) × F.post body b r.0) }
            ensures len { IfOk result (λ r. vec_len r.1 ≡ vec_len shelves) }
            ensures ends { IfOk result (λ r. All (λ w. IsWorkersEnd S.honest w.0) r.1.items) }
            ensures beside { IfOk result (λ r. AreReturnedBeside S.honest (S.refuses N.place)
                K.keeps shelves.items r.1.items r.2 r.3) }
            ensures gathered { IfOk result (λ r. IfSome r.2 (λ g. IsWorkersEnd S.honest g.0)) }
            ensures back { IfErr result (λ e. e.value ≡ (shelves, body)) }
        {
            if !start_drawing(scope, rt, store, service) {
                return Err(AllocFailed {
                    value: (shelves, body),
                });
            }
            let bell = &background.bell;
            let mut shelves = shelves;
            let broom = fork_last(alloc, &mut shelves);
            let sweeper = Sweeper::start(scope, rt, alloc, store, bell, broom);
            let fork = fork_last(alloc, &mut shelves);
            let gatherer = start_gathering(
                scope, rt, alloc, store, service, bell, fork, gate, workers, gathering,
            );
            let threads = start_all(
                scope, rt, alloc, store, service, bell, shelves, gate, joining, threads,
            );
            let answer = body(background);
            bell.close(rt);
            let returned = join_all(rt, threads, returned);
            let gathered = join_gathering(rt, gatherer);
            Ok((answer, returned, gathered, Sweeper::join(sweeper, rt)))
        },
    )
}

/// Compacts in the background while the body runs, with one worker for each shelf. Answers what the
/// body answered; what each worker has done, with its shelf, in the order of the shelves; what the
/// worker that only gathers has done, with its shelf, none where there is no such worker; and the
/// shelf of the thread that removed tables, none where there is no such thread. The shelves are
/// forks of the store's, of any number; 1 to 8 are meant.
///
/// Each worker has a thread of its own, in which it gathers the newest small files of level 0 under
/// the lock (`State::gather`); where there are none, it reserves at the same taking of the lock what
/// comes next, so that small files are joined (`State::reserve_next`), merges outside it, and
/// installs under it; before each merge the gate is told. Where nothing is left to do it sleeps,
/// until it is woken (`Background::wake`) or another worker has gathered or installed.
///
/// Three more threads work beside them. One draws the numbers of the outputs under the lock. One,
/// over a fork of the last shelf, only gathers, so that level 0 has room while the others merge. And
/// one, over another fork of it, removes after gathers and installs the tables that nothing needs
/// any more, one at a taking of the lock; what it cannot remove it leaves to the next time. Its
/// shelf was told no more (`laws::what_sweeping_did_is_told`).
///
/// The body runs in the thread of the caller, and is lent the workers. Once it has answered, each
/// worker ends after the merge at hand, and all threads are joined. A body after which workers
/// shall have nothing left to do calls `Background::wait_until_idle` at its end. It holds no guard
/// of the store when it answers.
///
/// At a fault a worker cancels its ticket and ends, and the others go on. A thread that cannot be
/// made is that worker's fault, `NoThread`, and its shelf does not come back. Where there is no
/// memory for the answer, or no thread to draw numbers, nothing is done, and the shelves come back
/// with the body.
pub fn with_workers_returning<
    N: Boarded,
    S: Shelf,
    K: Invariant,
    G: Gate + Sync,
    R: Threads + Wait + Sync,
    T,
    F: FnOnce(&Background) -> T,
>(
    rt: &R,
    alloc: Global,
    store: &Store<N, S, K>,
    shelves: Vec<NamedShelf<N, S>>,
    gate: &G,
    body: F,
) -> Result<ReturnedBeside<N, S, T>, AllocFailed<(Vec<NamedShelf<N, S>>, F)>>
    requires kept { IsKeptByCompaction S.honest K.keeps }
    requires body { F.IsAlwaysCallable body }
    ensures answer { IfOk result (λ r. (b : _) × F.post body b r.0) }
    ensures len { IfOk result (λ r. vec_len r.1 ≡ vec_len shelves) }
    ensures ends { IfOk result (λ r. All (λ w. IsWorkersEnd S.honest w.0) r.1.items) }
    ensures beside { IfOk result (λ r. AreReturnedBeside S.honest (S.refuses N.place) K.keeps
        shelves.items r.1.items r.2 r.3) }
    ensures gathered { IfOk result (λ r. IfSome r.2 (λ g. IsWorkersEnd S.honest g.0)) }
    ensures back { IfErr result (λ e. e.value ≡ (shelves, body)) }
{
    let Ok(returned) = Vec::with_capacity(alloc, shelves.len()) else {
        return Err(AllocFailed {
            value: (shelves, body),
        });
    };
    let Ok(threads) = Vec::with_capacity(alloc, shelves.len()) else {
        return Err(AllocFailed {
            value: (shelves, body),
        });
    };
    run_beside(rt, alloc, store, shelves, gate, body, threads, returned)
}

/// The ends of workers, and behind them that of the one which only gathered, where its thread was
/// made; there is room for one more.
fn with_gathered<N: Boarded, S: Shelf>(
    ends: Vec<WorkerEnd>,
    gathered: Option<Returned<N, S>>,
) -> Vec<WorkerEnd>
    requires end { IfSome gathered (λ g. IsWorkersEnd S.honest g.0) }
    requires room { vec_len ends < vec_capacity ends }
    ensures ends { result.items ≡ ends.items ++ end_of gathered }
    ensures each { All (IsWorkersEnd S.honest) (end_of gathered) }
    ensures len { (vec_len ends ≤ vec_len result) × (vec_len result ≤ vec_len ends + 1) }
{
    let Some((end, Some(_shelf))) = gathered else {
        return ends;
    };
    let mut ends = ends;
    let Ok(()) = ends.push(end) else {
        unreachable!()
    };
    ends
}

/// As `with_workers_returning`, and the shelves are let go. Behind the ends of the workers, one for
/// each shelf, is that of the worker that only gathers, where it had a thread.
pub fn with_workers<
    N: Boarded,
    S: Shelf,
    K: Invariant,
    G: Gate + Sync,
    R: Threads + Wait + Sync,
    T,
    F: FnOnce(&Background) -> T,
>(
    rt: &R,
    alloc: Global,
    store: &Store<N, S, K>,
    shelves: Vec<NamedShelf<N, S>>,
    gate: &G,
    body: F,
) -> Result<(T, Vec<WorkerEnd>), AllocFailed<(Vec<NamedShelf<N, S>>, F)>>
    requires kept { IsKeptByCompaction S.honest K.keeps }
    requires body { F.IsAlwaysCallable body }
    ensures answer { IfOk result (λ r. (b : _) × F.post body b r.0) }
    ensures len { IfOk result (λ r. (vec_len shelves ≤ vec_len r.1)
        × (vec_len r.1 ≤ vec_len shelves + 1)) }
    ensures ends { IfOk result (λ r. All (IsWorkersEnd S.honest) r.1.items) }
    ensures ended { IfOk result (λ r. HaveEndedBeside S.honest (S.refuses N.place) K.keeps
        shelves.items r.1.items) }
    ensures back { IfErr result (λ e. e.value ≡ (shelves, body)) }
{
    let Some(room) = shelves.len().checked_add(1) else {
        return Err(AllocFailed {
            value: (shelves, body),
        });
    };
    let Ok(ends) = Vec::with_capacity(alloc, room) else {
        return Err(AllocFailed {
            value: (shelves, body),
        });
    };
    match with_workers_returning(rt, alloc, store, shelves, gate, body) {
        Ok(done) => {
            let (answer, returned, gathered, _swept) = done;
            let ends = ends_of(returned, ends);
            Ok((answer, with_gathered(ends, gathered)))
        }
        Err(refused) => Err(refused),
    }
}
