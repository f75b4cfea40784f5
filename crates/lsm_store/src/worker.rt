//! What a worker does in its thread.

ghost use Rattle.std.specs.Prelude.{◌≡◌, ℕ, ◌-◌, ◌^◌, min, List, ◌∷◌, IfErr, IfOk, MatchBool};
ghost use Rattle.std.specs.Prelude.{MatchOption, OnErr, OnOk};
ghost use Rattle.lsm_live.specs.Booked.{HasTicket, without};
ghost use Rattle.lsm_state.specs.Gathering.{GatherRefused, Gathers, HasNoneToGather};
ghost use Rattle.lsm_state.specs.Gathering.{IsGatherRefusal};
ghost use Rattle.lsm_store.specs.Compacting.{IsCompactingStep, IsKeptByCompaction};
ghost use Rattle.lsm_store.specs.Picking.{DoesGather, IsBooked, IsManual, IsPicked};
ghost use Rattle.lsm_store.specs.declared.picks.Picks.TheVariants.{Choice, Joining};
ghost use Rattle.lsm_store.specs.declared.turn.Turn.{Turn};
ghost use Rattle.lsm_store.specs.Workers.{IsOfInstalling, IsOfReserving, IsOfTurn, IsWorkersEnd};
ghost use Rattle.lsm_store.specs.Working.{FindsNone, IsDone, IsLook, IsLookRefused, IsStoppedBy};
ghost use Rattle.lsm_store.specs.Working.{IsTaken, IsTurn, IsUndone, IsUntaken, IsWorked};
ghost use Rattle.lsm_store.specs.Working.{LeavesOut, LooksUnder, TakesIn, compactions, given_one};

use crate::bell::Bell;
use crate::gate::Gate;
use crate::invariant::Invariant;
use crate::look::Look;
use crate::manual_compaction::ManualCompaction;
use crate::number_service::NumberService;
use crate::picks::Picks;
use crate::store::Store;
use crate::ticket_numbers::TicketNumbers;
use crate::turn::Turn;
use crate::worker_end::WorkerEnd;
use crate::worker_fault::WorkerFault;
use lsm_merge::{Finished, Job, compact};
use lsm_slots::Boarded;
use lsm_state::{GatherFault, State, StateFault};
use lsm_table::{NamedShelf, Registry, Shelf};
use std::alloc::{AllocError, Global};
use std::sync::{Arc, Wait};

/// Gathers files of level 0. Whether there were any to be gathered.
fn gather_in<N: Boarded, S: Shelf, R: Wait>(
    state: &mut State<N, S>,
    rt: &R,
    alloc: Global,
    shelf: &mut NamedShelf<N, S>,
) -> Result<bool, GatherFault>
    ensures gathers { IfOk result (λ did. MatchBool did
        ((n : ℕ) × Gathers S.honest state.old state.new n shelf.old shelf.new)
        (HasNoneToGather state.old × (state.new ≡ state.old) × (shelf.new ≡ shelf.old))) }
    ensures refused { IfErr result (λ e.
        IsGatherRefusal S.honest state.old state.new e shelf.old shelf.new) }
    ensures asked { IfErr result (GatherRefused (S.refuses N.place) state.old) }
    ensures step { IsCompactingStep S.honest state.old state.new }
{
    match state.gather(rt, alloc, shelf) {
        Ok(Some(_number)) => Ok(true),
        Ok(None) => Ok(false),
        Err(fault) => Err(fault),
    }
}

/// Gathers files of level 0, where a worker who picks so gathers. Whether it has gathered any.
fn gather<N: Boarded, S: Shelf, R: Wait>(
    state: &mut State<N, S>,
    rt: &R,
    alloc: Global,
    shelf: &mut NamedShelf<N, S>,
    picks: &Picks,
) -> Result<bool, GatherFault>
    ensures gathers { IfOk result (λ did. MatchBool did
        (DoesGather picks.now
        × ((n : ℕ) × Gathers S.honest state.old state.new n shelf.old shelf.new))
        ((DoesGather picks.now → HasNoneToGather state.old)
        × (state.new ≡ state.old) × (shelf.new ≡ shelf.old))) }
    ensures refused { IfErr result (λ e. DoesGather picks.now
        × IsGatherRefusal S.honest state.old state.new e shelf.old shelf.new
        × GatherRefused (S.refuses N.place) state.old e) }
    ensures step { IsCompactingStep S.honest state.old state.new }
{
    match picks {
        Picks::Joining | Picks::Gathering => gather_in(state, rt, alloc, shelf),
        Picks::Choice | Picks::Manual(_) => Ok(false),
    }
}

/// The job of the chosen compaction; none where there is no choice.
#[tactic(auto, using(crate::proofs::CompactingLaws::step_none))]
fn chosen_job<N: Boarded, S: Shelf>(
    state: &mut State<N, S>,
    alloc: Global,
) -> Result<Option<Job<N, S>>, StateFault>
    ensures next { S.honest → IfOk result (λ r. IsPicked Choice state.old r) }
    ensures booked { IfOk result (λ r. IsBooked r state.old state.new) }
    ensures step { IsCompactingStep S.honest state.old state.new }
    ensures refused { IfErr result IsOfReserving }
    ensures err { OnErr result (state.new ≡ state.old) }
{
    match state.reserve(alloc) {
        Ok(Some(job)) => Ok(Some(job)),
        Ok(None) => Ok(None),
        Err(fault) => Err(fault),
    }
}

/// The job that comes next, where small files are joined; none where there is none.
#[tactic(auto, using(crate::proofs::CompactingLaws::step_none))]
fn joining_job<N: Boarded, S: Shelf>(
    state: &mut State<N, S>,
    alloc: Global,
) -> Result<Option<Job<N, S>>, StateFault>
    ensures next { S.honest → IfOk result (λ r. IsPicked Joining state.old r) }
    ensures booked { IfOk result (λ r. IsBooked r state.old state.new) }
    ensures step { IsCompactingStep S.honest state.old state.new }
    ensures refused { IfErr result IsOfReserving }
    ensures err { OnErr result (state.new ≡ state.old) }
{
    match state.reserve_next(alloc) {
        Ok(Some(job)) => Ok(Some(job)),
        Ok(None) => Ok(None),
        Err(fault) => Err(fault),
    }
}

/// The job of a range of keys; none where no file of it can be reserved.
#[tactic(auto, using(crate::proofs::CompactingLaws::step_none))]
fn manual_job<N: Boarded, S: Shelf>(
    state: &mut State<N, S>,
    alloc: Global,
    manual: &ManualCompaction,
) -> Result<Option<Job<N, S>>, StateFault>
    ensures next { S.honest → IfOk result (λ r. IsManual manual.now state.old r) }
    ensures booked { IfOk result (λ r. IsBooked r state.old state.new) }
    ensures step { IsCompactingStep S.honest state.old state.new }
    ensures refused { IfErr result IsOfReserving }
    ensures err { OnErr result (state.new ≡ state.old) }
{
    match manual.reserve(state, alloc) {
        Ok(Some(job)) => Ok(Some(job)),
        Ok(None) => Ok(None),
        Err(fault) => Err(fault),
    }
}

/// The job that the state has for a worker; none where there is none.
fn next_job<N: Boarded, S: Shelf>(
    state: &mut State<N, S>,
    alloc: Global,
    picks: &Picks,
) -> Result<Option<Job<N, S>>, StateFault>
    ensures next { S.honest → IfOk result (λ r. IsPicked picks.now state.old r) }
    ensures booked { IfOk result (λ r. IsBooked r state.old state.new) }
    ensures step { IsCompactingStep S.honest state.old state.new }
    ensures refused { IfErr result IsOfReserving }
    ensures err { OnErr result (state.new ≡ state.old) }
{
    match picks {
        Picks::Choice => chosen_job(state, alloc),
        Picks::Joining => joining_job(state, alloc),
        Picks::Gathering => Ok(None),
        Picks::Manual(manual) => manual_job(state, alloc, manual),
    }
}

/// Looks for something to do: files of level 0 are gathered, where a worker who picks so gathers
/// and there are some; else the job that the state has for it is reserved.
fn look<N: Boarded, S: Shelf, R: Wait>(
    state: &mut State<N, S>,
    rt: &R,
    alloc: Global,
    shelf: &mut NamedShelf<N, S>,
    picks: &Picks,
) -> Result<Look<N, S>, WorkerFault>
    ensures looks { IfOk result (λ l.
        IsLook S.honest picks.now state.old state.new l shelf.old shelf.new) }
    ensures refused { IfErr result (λ e. IsLookRefused S.honest (S.refuses N.place) picks.now
        state.old state.new e shelf.old shelf.new) }
    ensures step { IsCompactingStep S.honest state.old state.new }
{
    if gather(state, rt, alloc, shelf, picks)? {
        return Ok(Look::Gathered);
    }
    match next_job(state, alloc, picks) {
        Ok(Some(job)) => Ok(Look::Reserved(job)),
        Ok(None) => Ok(Look::Nothing),
        Err(fault) => Err(WorkerFault::State(fault)),
    }
}

/// Looks for something to do, at one taking of the lock.
fn look_under_lock<N: Boarded, S: Shelf, K: Invariant, R: Wait>(
    rt: &R,
    alloc: Global,
    store: &Store<N, S, K>,
    shelf: &mut NamedShelf<N, S>,
    picks: &Picks,
) -> Result<Look<N, S>, WorkerFault>
    requires kept { IsKeptByCompaction S.honest K.keeps }
    ensures looks { IfOk result (λ l.
        LooksUnder S.honest K.keeps picks.now l shelf.old shelf.new) }
    ensures stopped { IfErr result (λ e.
        IsStoppedBy S.honest (S.refuses N.place) K.keeps picks.now e shelf.old shelf.new) }
    ensures refused { IfErr result (IsOfTurn S.honest) }
{
    look(&mut store.lock(rt).state, rt, alloc, shelf, picks)
}

/// Puts the result into the state. A refused one is let go.
fn put_in<N: Boarded, S: Shelf, R: Wait>(
    state: &mut State<N, S>,
    rt: &R,
    alloc: Global,
    shelf: &mut NamedShelf<N, S>,
    done: Finished<N, S>,
) -> Result<(), StateFault>
    ensures step { IsCompactingStep S.honest state.old state.new }
    ensures refused { IfErr result IsOfInstalling }
    ensures takes { OnOk result (TakesIn state.old state.new done shelf.old shelf.new) }
    ensures leaves { IfErr result (λ e.
        LeavesOut (S.refuses N.place) state.old state.new done e shelf.old shelf.new) }
{
    match state.install(rt, alloc, shelf, done) {
        Ok(_numbers) => Ok(()),
        Err((fault, _done)) => Err(fault),
    }
}

/// Installs the result under the lock. A refused one is let go.
fn install<N: Boarded, S: Shelf, K: Invariant, R: Wait>(
    rt: &R,
    alloc: Global,
    store: &Store<N, S, K>,
    shelf: &mut NamedShelf<N, S>,
    done: Finished<N, S>,
) -> Result<(), StateFault>
    requires kept { IsKeptByCompaction S.honest K.keeps }
    ensures refused { IfErr result IsOfInstalling }
    ensures taken { OnOk result (IsTaken K.keeps done shelf.old shelf.new) }
    ensures untaken { IfErr result (λ e.
        IsUntaken (S.refuses N.place) K.keeps done e shelf.old shelf.new) }
{
    put_in(&mut store.lock(rt).state, rt, alloc, shelf, done)
}

/// Cancels the job of the ticket, if it is still live.
#[tactic(auto, using(crate::proofs::WorkerLaws::without_absent, crate::proofs::CompactingLaws::step_none, crate::proofs::CompactingLaws::step_cancelled))]
fn withdraw<N: Boarded, S: Shelf>(state: &mut State<N, S>, ticket: u64)
    ensures gone { HasTicket state.new.live ticket → ⊥ }
    ensures rest { state.new ≡ record state.old { live = without ticket state.old.live } }
    ensures step { IsCompactingStep S.honest state.old state.new }
{
    match state.cancel(ticket) {
        Ok(()) => {}
        // A job that is not live needs no cancel.
        Err(_) => {}
    }
}

/// Cancels the job of the ticket under the lock.
fn give_up<N: Boarded, S: Shelf, K: Invariant, R: Wait>(rt: &R, store: &Store<N, S, K>, ticket: u64)
    requires kept { IsKeptByCompaction S.honest K.keeps }
{
    withdraw(&mut store.lock(rt).state, ticket);
}

/// Merges a job outside the lock, with numbers that it asks for, and installs the result.
fn finish<N: Boarded, S: Shelf, K: Invariant, R: Wait>(
    rt: &R,
    alloc: Global,
    store: &Store<N, S, K>,
    registry: &Registry<N, S>,
    service: &NumberService,
    shelf: &mut NamedShelf<N, S>,
    job: Job<N, S>,
) -> Result<(), WorkerFault>
    requires kept { IsKeptByCompaction S.honest K.keeps }
    ensures refused { IfErr result (IsOfTurn S.honest) }
    ensures done { OnOk result (IsDone S.honest K.keeps job shelf.old shelf.new) }
    ensures undone { IfErr result (λ e.
        IsUndone S.honest (S.refuses N.place) K.keeps e shelf.old shelf.new) }
{
    let mut numbers = TicketNumbers::of(service);
    let done = match compact(rt, alloc, shelf, registry, job, &mut numbers) {
        Ok(done) => done,
        Err((fault, _job, _put)) => return Err(WorkerFault::Merge(fault)),
    };
    // What holds of the result is told by this call.
    let _job = done.job();
    match install(rt, alloc, store, shelf, done) {
        Ok(()) => Ok(()),
        Err(fault) => Err(WorkerFault::State(fault)),
    }
}

/// Does a compaction whose job is reserved. After a fault the job is not live.
fn do_job<N: Boarded, S: Shelf, K: Invariant, G: Gate, R: Wait>(
    rt: &R,
    alloc: Global,
    store: &Store<N, S, K>,
    registry: &Registry<N, S>,
    service: &NumberService,
    shelf: &mut NamedShelf<N, S>,
    gate: &G,
    worker: usize,
    job: Job<N, S>,
) -> Result<(), WorkerFault>
    requires kept { IsKeptByCompaction S.honest K.keeps }
    ensures refused { IfErr result (IsOfTurn S.honest) }
    ensures done { OnOk result (IsDone S.honest K.keeps job shelf.old shelf.new) }
    ensures undone { IfErr result (λ e.
        IsUndone S.honest (S.refuses N.place) K.keeps e shelf.old shelf.new) }
{
    let ticket = job.ticket();
    gate.merging(worker, ticket);
    let done = finish(rt, alloc, store, registry, service, shelf, job);
    if done.is_err() {
        give_up(rt, store, ticket);
    }
    done
}

/// One turn: files are gathered, where a worker who picks so gathers and there are some; and else
/// there is a compaction. None where there was neither to do.
fn turn<N: Boarded, S: Shelf, K: Invariant, G: Gate, R: Wait>(
    rt: &R,
    alloc: Global,
    store: &Store<N, S, K>,
    registry: &Registry<N, S>,
    service: &NumberService,
    shelf: &mut NamedShelf<N, S>,
    gate: &G,
    worker: usize,
    picks: &Picks,
) -> Result<Option<Turn>, WorkerFault>
    requires kept { IsKeptByCompaction S.honest K.keeps }
    ensures refused { IfErr result (IsOfTurn S.honest) }
    ensures turn { IfOk result (λ did. MatchOption did
        (FindsNone S.honest K.keeps picks.now × (shelf.new ≡ shelf.old))
        (λ t. IsTurn S.honest K.keeps picks.now t shelf.old shelf.new)) }
    ensures stopped { IfErr result (λ e.
        IsStoppedBy S.honest (S.refuses N.place) K.keeps picks.now e shelf.old shelf.new) }
{
    let job = match look_under_lock(rt, alloc, store, shelf, picks)? {
        Look::Gathered => return Ok(Some(Turn::Gathered)),
        Look::Reserved(job) => job,
        Look::Nothing => return Ok(None),
    };
    do_job(
        rt, alloc, store, registry, service, shelf, gate, worker, job,
    )?;
    Ok(Some(Turn::Compacted))
}

/// So many results are installed after a turn more.
#[tactic(auto, using(crate::proofs::WorkingLaws::one_turn_more))]
fn counted(installed: u64, did: Turn) -> u64
    ensures more { (turns : List Turn) → installed ≡ min (compactions turns) (2 ^ 64 - 1)
        → result ≡ min (compactions (did ∷ turns)) (2 ^ 64 - 1) }
{
    match did {
        Turn::Gathered => installed,
        Turn::Compacted => installed.saturating_add(1),
    }
}

/// The registry of the store's tables.
fn registry_of<N: Boarded, S: Shelf, K: Invariant, R: Wait>(
    rt: &R,
    store: &Store<N, S, K>,
) -> Result<Arc<Registry<N, S>>, AllocError> {
    Arc::try_clone(store.lock(rt).state.registry())
}

/// One turn after another, until the bell is closed, or a fault; where it closes at the end, until
/// nothing is left to gather or to reserve. Meanwhile, where there is nothing, it sleeps until the
/// bell rings. It rings after each install and each gather.
pub(crate) fn work<N: Boarded, S: Shelf, K: Invariant, G: Gate, R: Wait>(
    rt: &R,
    alloc: Global,
    store: &Store<N, S, K>,
    service: &NumberService,
    bell: &Bell,
    shelf: &mut NamedShelf<N, S>,
    gate: &G,
    worker: usize,
    picks: &Picks,
) -> WorkerEnd
    requires kept { IsKeptByCompaction S.honest K.keeps }
    ensures end { IsWorkersEnd S.honest result }
    ensures worked { IsWorked S.honest (S.refuses N.place) K.keeps
        (given_one picks.now bell.now.to_the_end shelf.old) result shelf.new }
{
    let mut installed = 0u64;
    let Ok(registry) = registry_of(rt, store) else {
        return WorkerEnd {
            installed,
            fault: Some(WorkerFault::State(StateFault::OutOfMemory)),
        };
    };
    for _ in rt.forever() {
        let Some(rings) = bell.rings(rt) else {
            return WorkerEnd {
                installed,
                fault: None,
            };
        };
        match turn(
            rt, alloc, store, &registry, service, shelf, gate, worker, picks,
        ) {
            Ok(Some(did)) => {
                installed = counted(installed, did);
                bell.installed(rt);
            }
            Ok(None) => {
                if !bell.wait_for_work(rt, rings) {
                    return WorkerEnd {
                        installed,
                        fault: None,
                    };
                }
            }
            Err(fault) => {
                return WorkerEnd {
                    installed,
                    fault: Some(fault),
                };
            }
        }
    }
    unreachable!()
}
