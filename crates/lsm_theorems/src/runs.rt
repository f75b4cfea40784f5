//! Any chain of calls, by any threads.

ghost use Rattle.std.specs.Prelude.{◌≡◌, ℕ, List};
ghost use Rattle.atomic_table.specs.Seated.{TableId};
ghost use Rattle.lsm_batch.specs.declared.write.Write.{Write};
ghost use Rattle.lsm_codec.specs.Keys.{UserKey};
ghost use Rattle.lsm_model.specs.Plain.{IsReadable, created};
ghost use Rattle.lsm_model.specs.Runs.{Event, Run, ingested};
ghost use Rattle.lsm_state.specs.Held.{Held, IsLawfulState, plain};
ghost use Rattle.lsm_store.specs.Background.{IsKeptByIngest};
ghost use Rattle.lsm_store.specs.Compacting.{IsKeptByCompaction, IsSeated};
ghost use Rattle.lsm_theorems.specs.Calls.{Call, Chain, IsCall, IsReached};
ghost use Rattle.lsm_theorems.specs.Database.{IsAnswered, came_in, database_of};
ghost use Rattle.lsm_theorems.specs.Newest.{IsReadOf};
ghost use Rattle.lsm_theorems.specs.SmallRun.{events, left};
ghost use Rattle.lsm_theorems.specs.Unchanged.{read_of};

use crate::calls::ingests_are_calls;
use lsm_batch::Batch;
use lsm_model::machine::Premise;
use lsm_slots::Boarded;
use lsm_state::{Ingested, State, StateFault};
use lsm_store::{Invariant, NoGate, Store, run_workers};
use lsm_table::{NamedShelf, Shelf};
use std::alloc::Global;
use std::marker::Brand;
use std::sync::Wait;
use std::thread::Threads;

/// Any chain of calls of a state, in any order, with any number of live jobs, each call as its
/// contract says. Whoever makes the calls, the chain is the order in which they had the lock.
///
/// It is a run of the plain machine (`run`). The history is that which was found, with the batches
/// that came in, in their order (`came`). Behind it each read at the last sequence or at a live
/// snapshot's gives the newest of the history that it may see (`reads`). And every call on the way
/// is answered as by a database that knows of no tables, versions and jobs (`answered`).
pub fn chains_of_calls_are_runs<P: Premise>()
    ensures run { (calls : List Call) (was is : Held) → Chain (IsCall P.holds) calls was is
        → (events : List Event) × Run P.holds (plain was) events (plain is)
        × (is.history ≡ ingested events was.history) }
    ensures came { (calls : List Call) (was is : Held) → Chain (IsCall P.holds) calls was is
        → is.history ≡ came_in was.slots.version.last calls was.history }
    ensures reads { (board : TableId) (calls : List Call) (was is : Held) → P.holds
        → IsLawfulState P.holds board was → Chain (IsCall P.holds) calls was is
        → (k : UserKey) (seq : ℕ) → IsReadable (plain is) seq
        → IsReadOf is.history k seq (read_of is k seq) }
    ensures answered { (board : TableId) (calls : List Call) (was is : Held)
        → IsLawfulState P.holds board was → Chain (IsCall P.holds) calls was is
        → Chain (IsAnswered P.holds) calls (database_of was) (database_of is) }
{}

/// A fact for a store's lock: the state was reached by a chain of calls from the one that was
/// found. It holds of the state that goes into the store (`found`), every call keeps it (`called`),
/// and so does what workers do (`worked`). So where a store's lock keeps it, whatever threads do
/// under that lock is one chain, and the laws of chains are of it.
pub fn what_is_reached_is_kept<P: Premise>()
    ensures found { (found h : Held) → IsSeated found h → IsReached P.holds found h }
    ensures called { (found was is : Held) (call : Call) → IsCall P.holds call was is
        → IsReached P.holds found was → IsReached P.holds found is }
    ensures worked { (found : Held) → IsKeptByCompaction P.holds (IsReached P.holds found) }
{}

/// A batch keeps it too that is brought in beside workers (`Background::ingest`), or refused there.
pub fn what_is_reached_is_kept_by_ingests<N: Boarded, S: Shelf>()
    ensures { (found : Held) (writes : List Write)
        → IsKeptByIngest (S.refuses N.place) writes (IsReached S.honest found) }
{}

/// So of the state that threads leave: workers, each in a thread of its own, and a batch that is
/// brought in at a later taking of the lock. All that was done to it is one chain of calls.
pub fn what_threads_leave_was_reached<N: Boarded, S: Shelf, R: Threads + Wait + Sync>(
    rt: &R,
    alloc: Global,
    state: State<N, S>,
    shelves: Vec<NamedShelf<N, S>>,
    shelf: &mut NamedShelf<N, S>,
    batch: &Batch,
) -> State<N, S>
    ensures { ∥ IsReached S.honest state result ∥₁ }
{
    what_is_reached_is_kept::<State<N, S>>();
    let_call::<N, S, Brand, R>(rt, alloc, state, shelves, shelf, batch)
}

/// The state that is left, of which the fact holds that the lock kept.
fn let_call<N: Boarded, S: Shelf, K: Invariant, R: Threads + Wait + Sync>(
    rt: &R,
    alloc: Global,
    state: State<N, S>,
    shelves: Vec<NamedShelf<N, S>>,
    shelf: &mut NamedShelf<N, S>,
    batch: &Batch,
) -> State<N, S>
    requires found { (h : Held) → IsSeated state h → K.keeps h }
    requires called { (was is : Held) (call : Call) → IsCall S.honest call was is → K.keeps was
        → K.keeps is }
    requires worked { IsKeptByCompaction S.honest K.keeps }
    ensures { ∥ K.keeps result ∥₁ }
{
    let store: Store<N, S, K> = Store::of(alloc, state);
    let _ends = run_workers(rt, alloc, &store, shelves, &NoGate);
    let _came = ingest_under_lock(rt, alloc, &store, shelf, batch);
    store.into_state()
}

/// Any thread's ingest: it keeps every fact that calls keep.
fn ingest_under_lock<N: Boarded, S: Shelf, K: Invariant, R: Wait>(
    rt: &R,
    alloc: Global,
    store: &Store<N, S, K>,
    shelf: &mut NamedShelf<N, S>,
    batch: &Batch,
) -> Result<Ingested, StateFault>
    requires { (was is : Held) (call : Call) → IsCall S.honest call was is → K.keeps was
        → K.keeps is }
{
    ingests_are_calls(rt, alloc, &mut store.lock(rt).state, shelf, batch)
}

/// There are runs in which batches come in before and after a reservation and its install, with a
/// snapshot that is taken and given up: this is one, from a store that was just created.
pub fn runs_can_be_made<P: Premise>()
    ensures { Run P.holds created events left }
{}
