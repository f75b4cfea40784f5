//! Compaction until there is nothing to compact, or nothing is left of a range.

ghost use Rattle.std.specs.Prelude.{◌≡◌, ◌+◌, [], ◌∷◌, IfErr, IfOk, IsTrue, OnErr, OnOk, Some};
ghost use Rattle.std.specs.Prelude.{vec_len};
ghost use Rattle.lsm_history.specs.History.{IsLater};
ghost use Rattle.lsm_channels.specs.Compacting.{AimsAt, AreWorkedBy, ClearsRange, HasNoneOf};
ghost use Rattle.lsm_channels.specs.Compacting.{IsAimed, IsCleared, IsCompactFault, IsCompacted};
ghost use Rattle.lsm_channels.specs.Compacting.{IsLastWorker, IsSettled, StopsRange, StopsWorking};
ghost use Rattle.lsm_channels.specs.Compacting.{Works};
ghost use Rattle.lsm_channels.specs.Keeping.{IsKeptQuietly, IsKnown, IsQuietStep};
ghost use Rattle.lsm_channels.specs.Served.{IsToldBy};
ghost use Rattle.lsm_frames.specs.Views.{between_of};
ghost use Rattle.lsm_shelf.specs.Told.{Becomes, Counted, ForkedTimes, NotNamed, fork_at};
ghost use Rattle.lsm_store.specs.Workers.{IsOfReserving};
ghost use Rattle.lsm_store.specs.declared.picks.Picks.TheVariants.{Choice};

use crate::knowing::catch_up;
use lsm_codec::Bytes;
use lsm_frames::Bounds;
use lsm_history::Memory;
use lsm_slots::Boarded;
use lsm_state::{State, StateFault};
use lsm_store::{Background, Invariant, ManualCompaction, Picks, Store, WorkerEnd, WorkerFault};
use lsm_table::{NamedShelf, Shelf, ShelfFault};
use std::alloc::{AllocError, Global};
use std::sync::Wait;
use std::thread::Threads;

/// The next fork of a shelf, for one worker. There is room for it before it is asked for.
fn fork_for_one<N: Boarded, S: Shelf>(
    alloc: Global,
    shelf: &mut NamedShelf<N, S>,
) -> Result<Vec<NamedShelf<N, S>>, ShelfFault>
    ensures new { IfOk result (λ v. v.items ≡ fork_at N.place (shelf.old.forks + 1) ∷ []) }
    ensures one { IfOk result (λ v. vec_len v ≡ 1) }
    ensures ok { OnOk result (ForkedTimes 1 shelf.old shelf.new) }
    ensures err { OnErr result (Becomes shelf.old shelf.new) }
    ensures cause { IfErr result (λ e. NotNamed e × Counted e shelf.old shelf.new) }
{
    let Ok(mut shelves) = Vec::with_capacity(alloc, 1) else {
        return Err(ShelfFault::OutOfMemory);
    };
    let fork = shelf.fork(alloc)?;
    let Ok(()) = shelves.push(fork) else {
        unreachable!()
    };
    Ok(shelves)
}

/// What the only worker has done.
fn end_of(ends: Vec<WorkerEnd>) -> WorkerEnd
    requires { vec_len ends ≡ 1 }
    ensures { ends.items ≡ result ∷ [] }
{
    let mut ends = ends;
    let Some(end) = ends.pop() else {
        unreachable!()
    };
    end
}

/// One more worker compacts what is picked, with the next fork of the shelf, beside those of the
/// background. Ok where it has no fault.
fn work<N: Boarded, S: Shelf, K: Invariant, R: Threads + Wait + Sync>(
    rt: &R,
    alloc: Global,
    store: &Store<N, S, K>,
    background: &Background,
    shelf: &mut NamedShelf<N, S>,
    picks: &Picks,
) -> Result<(), WorkerFault>
    requires quiet { IsKeptQuietly S.honest K.keeps }
    ensures worked { OnOk result (AreWorkedBy S.honest (S.refuses N.place) K.keeps picks.now 1
        shelf.old shelf.new) }
    ensures stopped { IfErr result (λ fault. IsLastWorker S.honest (S.refuses N.place) K.keeps
        picks.now fault shelf.old shelf.new) }
    ensures refused { IfErr result (IsCompactFault S.honest) }
{
    let shelves = match fork_for_one(alloc, shelf) {
        Ok(shelves) => shelves,
        Err(fault) => return Err(WorkerFault::State(StateFault::Shelf(fault))),
    };
    let ends = match background.compact(rt, alloc, store, shelves, picks) {
        Ok(ends) => ends,
        Err(_) => return Err(WorkerFault::State(StateFault::OutOfMemory)),
    };
    match end_of(ends).fault {
        Some(fault) => Err(fault),
        None => Ok(()),
    }
}

/// Whether there is no compaction to choose in a state. One that there is, is left.
fn is_settled<N: Boarded, S: Shelf>(
    state: &mut State<N, S>,
    alloc: Global,
    memory: &mut Memory<N>,
) -> Result<bool, StateFault>
    ensures told { IsToldBy state.old memory.old memory.new }
    ensures settled { S.honest → IfOk result (λ b. IsTrue b → IsSettled state.old) }
    ensures refused { IfErr result IsOfReserving }
    ensures quiet { IsQuietStep S.honest state.old state.new }
{
    catch_up(state, memory);
    match state.reserve(alloc) {
        Ok(Some(job)) => {
            let _is_given_up = state.cancel(job.ticket());
            Ok(false)
        }
        Ok(None) => Ok(true),
        Err(fault) => Err(fault),
    }
}

/// Whether there is no compaction to choose.
#[tactic(auto, using(crate::proofs::KnownLaws::told_later))]
fn look<N: Boarded, S: Shelf, K: Invariant, R: Wait>(
    rt: &R,
    alloc: Global,
    store: &Store<N, S, K>,
    memory: &mut Memory<N>,
) -> Result<bool, StateFault>
    requires quiet { IsKeptQuietly S.honest K.keeps }
    ensures settled { IfOk result (λ b. IsTrue b → IsCompacted S.honest K.keeps memory.old
        memory.new) }
    ensures known { IsLater memory.new memory.old }
    ensures refused { IfErr result IsOfReserving }
    ensures kept { IsKnown K.keeps memory.new }
{
    is_settled(&mut store.lock(rt).state, alloc, memory)
}

/// Waits until no worker finds anything to compact. One more looks then, which does what they left
/// where they ended by a fault, or where there is none. Whether there is no compaction to choose.
fn compact_once<N: Boarded, S: Shelf, K: Invariant, R: Threads + Wait + Sync>(
    rt: &R,
    alloc: Global,
    store: &Store<N, S, K>,
    background: &Background,
    memory: &mut Memory<N>,
    shelf: &mut NamedShelf<N, S>,
) -> Result<bool, WorkerFault>
    requires quiet { IsKeptQuietly S.honest K.keeps }
    ensures settled { IfOk result (λ b. IsTrue b → IsCompacted S.honest K.keeps memory.old
        memory.new) }
    ensures known { IsLater memory.new memory.old }
    ensures worked { OnOk result (AreWorkedBy S.honest (S.refuses N.place) K.keeps Choice 1
        shelf.old shelf.new) }
    ensures stopped { IfErr result (λ fault. StopsWorking S.honest (S.refuses N.place) K.keeps
        Choice fault shelf.old shelf.new) }
    ensures refused { IfErr result (IsCompactFault S.honest) }
    ensures kept { IsKnown K.keeps memory.old → IsKnown K.keeps memory.new }
{
    background.wait_until_idle(rt);
    work(rt, alloc, store, background, shelf, &Picks::Choice)?;
    match look(rt, alloc, store, memory) {
        Ok(settled) => Ok(settled),
        Err(fault) => Err(WorkerFault::State(fault)),
    }
}

/// Compacts until there is nothing to choose: again where others wrote meanwhile.
pub(crate) fn compact<N: Boarded, S: Shelf, K: Invariant, R: Threads + Wait + Sync>(
    rt: &R,
    alloc: Global,
    store: &Store<N, S, K>,
    background: &Background,
    memory: &mut Memory<N>,
    shelf: &mut NamedShelf<N, S>,
) -> Result<(), WorkerFault>
    requires quiet { IsKeptQuietly S.honest K.keeps }
    ensures compacted { OnOk result (IsCompacted S.honest K.keeps memory.old memory.new) }
    ensures known { IsLater memory.new memory.old }
    ensures worked { OnOk result (Works S.honest (S.refuses N.place) K.keeps Choice
        shelf.old shelf.new) }
    ensures stopped { IfErr result (λ fault. StopsWorking S.honest (S.refuses N.place) K.keeps
        Choice fault shelf.old shelf.new) }
    ensures refused { IfErr result (IsCompactFault S.honest) }
    ensures kept { IsKnown K.keeps memory.old → IsKnown K.keeps memory.new }
{
    'tries: for _ in rt.forever() {
        let is_settled = compact_once(rt, alloc, store, background, memory, shelf)?;
        if is_settled {
            return Ok(());
        }
    }
    unreachable!()
}

/// A bound of its own.
fn owned(alloc: Global, key: &[u8]) -> Result<Option<Bytes>, AllocError>
    ensures { IfOk result (λ k. k ≡ Some key.now) }
{
    Ok(Some(Bytes::of(Vec::from_slice(alloc, key)?)))
}

/// The compaction of these keys over the files of a state.
fn over<N: Boarded, S: Shelf>(
    state: &State<N, S>,
    alloc: Global,
    bounds: Bounds<'_>,
) -> Result<Picks, AllocError>
    ensures { IfOk result (AimsAt state.now.slots.version (between_of bounds.entry)) }
{
    let from = owned(alloc, bounds.from)?;
    let to = match bounds.to {
        Some(key) => owned(alloc, key)?,
        None => None,
    };
    Ok(Picks::Manual(ManualCompaction::of(alloc, state, &from, &to)?))
}

/// The same, and all that has come in in the state is known from then on.
fn aim_at<N: Boarded, S: Shelf>(
    state: &mut State<N, S>,
    alloc: Global,
    memory: &mut Memory<N>,
    bounds: Bounds<'_>,
) -> Result<Picks, AllocError>
    ensures told { IsToldBy state.old memory.old memory.new }
    ensures aimed { IfOk result (AimsAt state.old.slots.version (between_of bounds.entry)) }
    ensures same { state.new ≡ state.old }
{
    catch_up(state, memory);
    over(state, alloc, bounds)
}

/// What a worker is to pick, so that these keys are compacted.
#[tactic(auto, using(crate::proofs::KnownLaws::told_later))]
fn aim<N: Boarded, S: Shelf, K: Invariant, R: Wait>(
    rt: &R,
    alloc: Global,
    store: &Store<N, S, K>,
    memory: &mut Memory<N>,
    bounds: Bounds<'_>,
) -> Result<Picks, AllocError>
    requires quiet { IsKeptQuietly S.honest K.keeps }
    ensures aimed { IfOk result (λ p. IsAimed K.keeps (between_of bounds.entry) p memory.old
        memory.new) }
    ensures known { IsLater memory.new memory.old }
    ensures kept { IsKnown K.keeps memory.new }
{
    aim_at(&mut store.lock(rt).state, alloc, memory, bounds)
}

/// Whether a state has no file of a range that is picked at its levels.
fn is_clear<N: Boarded, S: Shelf>(
    state: &mut State<N, S>,
    memory: &mut Memory<N>,
    picks: &Picks,
) -> bool
    ensures told { IsToldBy state.old memory.old memory.new }
    ensures clear { IsTrue result → HasNoneOf state.old.slots.version picks.now }
    ensures same { state.new ≡ state.old }
{
    catch_up(state, memory);
    match picks {
        Picks::Manual(manual) => manual.is_done(state),
        Picks::Choice | Picks::Joining | Picks::Gathering => false,
    }
}

/// Whether no file is left of a range that is picked.
#[tactic(auto, using(crate::proofs::KnownLaws::told_later))]
fn look_over<N: Boarded, S: Shelf, K: Invariant, R: Wait>(
    rt: &R,
    store: &Store<N, S, K>,
    memory: &mut Memory<N>,
    picks: &Picks,
) -> bool
    requires quiet { IsKeptQuietly S.honest K.keeps }
    ensures clear { IsTrue result → IsCleared K.keeps picks.now memory.old memory.new }
    ensures known { IsLater memory.new memory.old }
    ensures kept { IsKnown K.keeps memory.new }
{
    is_clear(&mut store.lock(rt).state, memory, picks)
}

/// Waits until no worker finds anything to compact. One more compacts the range that is picked then.
/// Whether no file of it is left.
fn clear_once<N: Boarded, S: Shelf, K: Invariant, R: Threads + Wait + Sync>(
    rt: &R,
    alloc: Global,
    store: &Store<N, S, K>,
    background: &Background,
    memory: &mut Memory<N>,
    shelf: &mut NamedShelf<N, S>,
    picks: &Picks,
) -> Result<bool, WorkerFault>
    requires quiet { IsKeptQuietly S.honest K.keeps }
    ensures clear { IfOk result (λ b. IsTrue b → IsCleared K.keeps picks.now memory.old
        memory.new) }
    ensures known { IsLater memory.new memory.old }
    ensures worked { OnOk result (AreWorkedBy S.honest (S.refuses N.place) K.keeps picks.now 1
        shelf.old shelf.new) }
    ensures stopped { IfErr result (λ fault. StopsWorking S.honest (S.refuses N.place) K.keeps
        picks.now fault shelf.old shelf.new) }
    ensures refused { IfErr result (IsCompactFault S.honest) }
    ensures kept { IsKnown K.keeps memory.old → IsKnown K.keeps memory.new }
{
    background.wait_until_idle(rt);
    work(rt, alloc, store, background, shelf, picks)?;
    Ok(look_over(rt, store, memory, picks))
}

/// Compacts until no file is left of a range that is picked: again where a live job was in the way,
/// or others wrote meanwhile.
fn clear<N: Boarded, S: Shelf, K: Invariant, R: Threads + Wait + Sync>(
    rt: &R,
    alloc: Global,
    store: &Store<N, S, K>,
    background: &Background,
    memory: &mut Memory<N>,
    shelf: &mut NamedShelf<N, S>,
    picks: &Picks,
) -> Result<(), WorkerFault>
    requires quiet { IsKeptQuietly S.honest K.keeps }
    ensures clear { OnOk result (IsCleared K.keeps picks.now memory.old memory.new) }
    ensures known { IsLater memory.new memory.old }
    ensures worked { OnOk result (Works S.honest (S.refuses N.place) K.keeps picks.now
        shelf.old shelf.new) }
    ensures stopped { IfErr result (λ fault. StopsWorking S.honest (S.refuses N.place) K.keeps
        picks.now fault shelf.old shelf.new) }
    ensures refused { IfErr result (IsCompactFault S.honest) }
    ensures kept { IsKnown K.keeps memory.old → IsKnown K.keeps memory.new }
{
    'tries: for _ in rt.forever() {
        let is_clear = clear_once(rt, alloc, store, background, memory, shelf, picks)?;
        if is_clear {
            return Ok(());
        }
    }
    unreachable!()
}

/// Compacts these keys, due or not, from level 0 down to the deepest level that has a file which
/// meets them.
pub(crate) fn compact_range<N: Boarded, S: Shelf, K: Invariant, R: Threads + Wait + Sync>(
    rt: &R,
    alloc: Global,
    store: &Store<N, S, K>,
    background: &Background,
    memory: &mut Memory<N>,
    shelf: &mut NamedShelf<N, S>,
    bounds: Bounds<'_>,
) -> Result<(), WorkerFault>
    requires quiet { IsKeptQuietly S.honest K.keeps }
    ensures compacted { OnOk result (ClearsRange S.honest (S.refuses N.place) K.keeps
        (between_of bounds.entry) memory.old memory.new shelf.old shelf.new) }
    ensures known { IsLater memory.new memory.old }
    ensures stopped { IfErr result (λ fault. StopsRange S.honest (S.refuses N.place) K.keeps
        (between_of bounds.entry) fault memory.old shelf.old shelf.new) }
    ensures refused { IfErr result (IsCompactFault S.honest) }
    ensures kept { IsKnown K.keeps memory.old → IsKnown K.keeps memory.new }
{
    let Ok(picks) = aim(rt, alloc, store, memory, bounds) else {
        return Err(WorkerFault::State(StateFault::OutOfMemory));
    };
    clear(rt, alloc, store, background, memory, shelf, &picks)
}
