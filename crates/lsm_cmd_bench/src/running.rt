//! Benchmarks on a new database, beside workers.

ghost use Rattle.std.specs.Prelude.{◌≡◌, ◌≤◌, ℕ, IfErr, IfOk, Ok, OnErr, OnOk, vec_len};
ghost use Rattle.lsm_cmd_bench.specs.Benched.{IsBenchedOn, IsUnbenched, Leaves};
ghost use Rattle.lsm_cmd_bench.specs.Filled.{IsKeptByPairs, RunsAll};
ghost use Rattle.lsm_bulk_load.specs.Keeping.{IsKeptByLearning, IsTaken};
ghost use Rattle.lsm_bulk_load.specs.Marks.{IsEven, marked_in};
ghost use Rattle.lsm_shelf.specs.Told.{Forked, fork_at};
ghost use Rattle.lsm_state.specs.Held.{Held};
ghost use Rattle.lsm_store.specs.Compacting.{IsKeptByCompaction};
ghost use Rattle.lsm_store.specs.Readers.{SeatsPinners};
ghost use Rattle.lsm_opening.specs.Parts.{AreOf, usual};

use crate::bench::{Tools, mark_after, measure_all};
use crate::bench_fault::BenchFault;
use crate::draws::Draws;
use crate::report::write_head;
use lsm_bulk_load::{Grown, Mark, Origin};
use lsm_opening::{NewParts, begin};
use lsm_requests::BenchOptions;
use lsm_slots::Boarded;
use lsm_state::State;
use lsm_store::{Background, NoGate, Reader, Store, WorkerEnd, forks, with_workers};
use lsm_table::{NamedShelf, Shelf, ShelfFault};
use std::alloc::{AllocError, Global};
use std::io::Write;
use std::marker::Brand;
use std::rt::Clock;
use std::sync::Wait;
use std::thread::Threads;

/// What benchmarks run on, with this shelf and these readers.
fn tools_for<N: Boarded, S: Shelf>(
    alloc: Global,
    shelf: NamedShelf<N, S>,
    readers: Vec<Reader<N, S>>,
) -> Result<Tools<N, S>, AllocError> {
    let draws = Draws::new(alloc, 301)?;
    let more_draws = Draws::new(alloc, 1000)?;
    Ok(Tools {
        shelf,
        readers,
        draws,
        more_draws,
    })
}

/// That no worker ended early.
fn judge(ends: &[WorkerEnd]) -> Result<(), BenchFault> {
    for end in ends {
        if let Some(fault) = end.fault {
            return Err(BenchFault::Worker(fault));
        }
    }
    Ok(())
}

/// What benchmarks came to beside workers that ended so.
fn judged<N: Boarded, O: Origin>(
    came: Result<Mark<N, O>, BenchFault>,
    ends: Vec<WorkerEnd>,
) -> Result<Mark<N, O>, BenchFault>
    ensures { IfOk result (λ m. came ≡ Ok m) }
{
    match came {
        Ok(mark) => mark_after(judge(&ends), mark),
        Err(fault) => Err(fault),
    }
}

/// Writes the head, and runs the benchmarks on a store while its workers compact. How far the store
/// is then.
fn run_beside<N, S, O, R, W>(
    rt: &R,
    alloc: Global,
    store: &Store<N, S, Grown<O>>,
    shelves: Vec<NamedShelf<N, S>>,
    tools: &mut Tools<N, S>,
    mark: Mark<N, O>,
    options: &BenchOptions,
    out: &mut W,
) -> Result<Mark<N, O>, BenchFault>
where
    N: Boarded,
    S: Shelf,
    O: Origin,
    R: Threads + Wait + Clock + Sync,
    W: Write,
    requires kept { IsKeptByPairs (S.refuses N.place) options.now.num options.now.value_size
        O.keeps }
    requires readers { IsKeptByLearning O.keeps }
    requires workers { IsKeptByCompaction S.honest O.keeps }
    ensures { IfOk result (RunsAll options.now.num options.now.value_size
        options.now.benchmarks.items mark) }
{
    let run = with_workers(
        rt,
        alloc,
        store,
        shelves,
        &NoGate,
        move |background: &Background| -> Result<Mark<N, O>, BenchFault>
            requires kept { IsKeptByPairs (S.refuses N.place) options.now.num options.now.value_size
                O.keeps }
            requires readers { IsKeptByLearning O.keeps }
            ensures { IfOk result (RunsAll options.entry.now.num options.entry.now.value_size
                options.entry.now.benchmarks.items mark) }
        {
            let Ok(()) = write_head(out, options) else {
                return Err(BenchFault::Write);
            };
            let benchmarks = options.benchmarks.as_slice();
            measure_all(
                rt, alloc, store, background, tools, mark, benchmarks, options, out,
            )
        },
    );
    match run {
        Ok((came, ends)) => judged(came, ends),
        Err(refused) => {
            drop(refused);
            Err(BenchFault::from(AllocError))
        }
    }
}

/// Runs the benchmarks on a store with these readers, and shelves for its workers and for batches.
/// How far the store is then.
fn run_with<N, S, O, R, W>(
    rt: &R,
    alloc: Global,
    store: &Store<N, S, Grown<O>>,
    readers: Vec<Reader<N, S>>,
    shelves: Vec<NamedShelf<N, S>>,
    mark: Mark<N, O>,
    options: &BenchOptions,
    out: &mut W,
) -> Result<Mark<N, O>, BenchFault>
where
    N: Boarded,
    S: Shelf,
    O: Origin,
    R: Threads + Wait + Clock + Sync,
    W: Write,
    requires shelves { 1 ≤ vec_len shelves }
    requires kept { IsKeptByPairs (S.refuses N.place) options.now.num options.now.value_size
        O.keeps }
    requires readers { IsKeptByLearning O.keeps }
    requires workers { IsKeptByCompaction S.honest O.keeps }
    ensures { IfOk result (RunsAll options.now.num options.now.value_size
        options.now.benchmarks.items mark) }
{
    let mut shelves = shelves;
    let Some(own) = shelves.pop() else {
        unreachable!()
    };
    match tools_for(alloc, own, readers) {
        Ok(tools) => {
            let mut tools = tools;
            run_beside(rt, alloc, store, shelves, &mut tools, mark, options, out)
        }
        Err(error) => Err(BenchFault::from(error)),
    }
}

/// That the state behind the benchmarks is just as far as the mark behind them.
fn judge_state<N: Boarded, S: Shelf, O: Origin>(
    state: &mut State<N, S>,
    mark: Mark<N, O>,
) -> Result<(), BenchFault>
    requires { IsEven O.found (marked_in state.old) }
    ensures { OnOk result (marked_in state.old ≡ mark) }
{
    if mark.is_of(state) {
        return Ok(());
    }
    Err(BenchFault::Other)
}

/// Runs the benchmarks on a store. A lawful state is behind them, and is let go.
fn run_store<N, S, O, R, W>(
    rt: &R,
    alloc: Global,
    store: Store<N, S, Grown<O>>,
    readers: Vec<Reader<N, S>>,
    shelves: Vec<NamedShelf<N, S>>,
    mark: Mark<N, O>,
    options: &BenchOptions,
    out: &mut W,
) -> Result<(), BenchFault>
where
    N: Boarded,
    S: Shelf,
    O: Origin,
    R: Threads + Wait + Clock + Sync,
    W: Write,
    requires shelves { 1 ≤ vec_len shelves }
    requires kept { IsKeptByPairs (S.refuses N.place) options.now.num options.now.value_size
        O.keeps }
    requires readers { IsKeptByLearning O.keeps }
    requires workers { IsKeptByCompaction S.honest O.keeps }
    ensures ran { OnOk result (Leaves S.honest N.board O.keeps (λ h. RunsAll options.now.num
        options.now.value_size options.now.benchmarks.items mark (marked_in h))) }
    ensures stopped { OnErr result (Leaves S.honest N.board O.keeps (λ _. Unit {0})) }
{
    let came = run_with(rt, alloc, &store, readers, shelves, mark, options, out);
    let mut state = store.into_state();
    // The law of the state is told by this call.
    let _options = state.options();
    match came {
        Ok(mark) => judge_state(&mut state, mark),
        Err(fault) => Err(fault),
    }
}

/// The store of a state, and its readers.
fn store_of<N: Boarded, S: Shelf, O: Origin>(
    alloc: Global,
    state: State<N, S>,
    reading: NamedShelf<N, S>,
) -> Result<(Store<N, S, Grown<O>>, Vec<Reader<N, S>>), BenchFault>
    requires seats { SeatsPinners state }
    requires fork { (number : ℕ) × (reading ≡ fork_at N.place number) }
    requires found { O.found ≡ marked_in state }
    requires first { (h : Held) → IsTaken state h → O.keeps h }
{
    match Store::new(alloc, state, reading) {
        Ok(made) => Ok(made),
        Err(refused) => {
            let fault = refused.2;
            drop(refused);
            Err(BenchFault::of_shelf(fault))
        }
    }
}

/// A shelf for each worker and one for batches; and one for the store's readers.
fn shelves_for<N: Boarded, S: Shelf>(
    alloc: Global,
    shelf: &mut NamedShelf<N, S>,
    workers: usize,
) -> Result<(Vec<NamedShelf<N, S>>, NamedShelf<N, S>), ShelfFault>
    ensures shelves { IfOk result (λ r. 1 ≤ vec_len r.0) }
    ensures fork { IfOk result (λ r. (number : ℕ) × (r.1 ≡ fork_at N.place number)) }
    ensures told { Forked shelf.old shelf.new }
{
    let shelves = forks(alloc, shelf, workers.saturating_add(1))?;
    let reading = shelf.fork(alloc)?;
    Ok((shelves, reading))
}

/// Runs the benchmarks on a state, with a shelf for each worker, one for batches, and one for the
/// store's readers. A lawful state is behind them, and is let go.
#[tactic(auto, using(lsm_bulk_load::proofs::CallerLemmas::even_first))]
fn run_shelves<N, S, O, R, W>(
    rt: &R,
    alloc: Global,
    state: State<N, S>,
    shelves: Vec<NamedShelf<N, S>>,
    reading: NamedShelf<N, S>,
    options: &BenchOptions,
    out: &mut W,
) -> Result<(), BenchFault>
where
    N: Boarded,
    S: Shelf,
    O: Origin,
    R: Threads + Wait + Clock + Sync,
    W: Write,
    requires seats { SeatsPinners state }
    requires found { O.found ≡ marked_in state }
    requires shelves { 1 ≤ vec_len shelves }
    requires fork { (number : ℕ) × (reading ≡ fork_at N.place number) }
    requires first { (h : Held) → IsTaken state h → O.keeps h }
    requires kept { IsKeptByPairs (S.refuses N.place) options.now.num options.now.value_size
        O.keeps }
    requires readers { IsKeptByLearning O.keeps }
    requires workers { IsKeptByCompaction S.honest O.keeps }
    ensures ran { OnOk result (Leaves S.honest N.board O.keeps (λ h. RunsAll options.now.num
        options.now.value_size options.now.benchmarks.items (marked_in state) (marked_in h))) }
    ensures stopped { OnErr result (Leaves S.honest N.board O.keeps (λ _. Unit {0})) }
{
    let mut state = state;
    // The law of the state is told by this call.
    let _options = state.options();
    let mark: Mark<N, O> = Mark::of(&mut state);
    match store_of::<N, S, O>(alloc, state, reading) {
        Ok((store, readers)) => run_store(rt, alloc, store, readers, shelves, mark, options, out),
        Err(fault) => Err(fault),
    }
}

/// Runs the benchmarks on a state, of whose shelf only forks are asked. A lawful state is behind
/// them, and is let go.
fn run_state<N, S, O, R, W>(
    rt: &R,
    alloc: Global,
    state: State<N, S>,
    shelf: &mut NamedShelf<N, S>,
    options: &BenchOptions,
    out: &mut W,
) -> Result<(), BenchFault>
where
    N: Boarded,
    S: Shelf,
    O: Origin,
    R: Threads + Wait + Clock + Sync,
    W: Write,
    requires seats { SeatsPinners state }
    requires found { O.found ≡ marked_in state }
    requires first { (h : Held) → IsTaken state h → O.keeps h }
    requires kept { IsKeptByPairs (S.refuses N.place) options.now.num options.now.value_size
        O.keeps }
    requires readers { IsKeptByLearning O.keeps }
    requires workers { IsKeptByCompaction S.honest O.keeps }
    ensures ran { OnOk result (Leaves S.honest N.board O.keeps (λ h. RunsAll options.now.num
        options.now.value_size options.now.benchmarks.items (marked_in state) (marked_in h))) }
    ensures stopped { OnErr result (Leaves S.honest N.board O.keeps (λ _. Unit {0})) }
    ensures told { Forked shelf.old shelf.new }
{
    // The law of the state is told by this call.
    let _options = state.options();
    match shelves_for::<N, S>(alloc, shelf, options.workers) {
        Ok((shelves, reading)) => {
            run_shelves::<N, S, O, R, W>(rt, alloc, state, shelves, reading, options, out)
        }
        Err(fault) => {
            drop(state);
            Err(BenchFault::of_shelf(fault))
        }
    }
}

/// Begins a database on the shelf, and runs the benchmarks on it.
fn run_named<N: Boarded, S: Shelf, R: Threads + Wait + Clock + Sync, W: Write>(
    rt: &R,
    alloc: Global,
    shelf: &mut NamedShelf<N, S>,
    number: u64,
    parts: NewParts<S>,
    options: &BenchOptions,
    out: &mut W,
) -> Result<(), BenchFault>
    requires parts { AreOf usual N.registry N.board N.history parts }
    ensures done { OnOk result (IsBenchedOn (S.refuses N.place) S.honest number options.now
        shelf.old shelf.new) }
    ensures fault { IfErr result (λ e. IsUnbenched (S.refuses N.place) S.honest number options.now
        e shelf.old shelf.new) }
{
    let state: State<N, S> = begin(rt, alloc, shelf, number, parts)?;
    match run_state::<N, S, Brand, R, W>(rt, alloc, state, shelf, options, out) {
        Ok(()) => Ok(()),
        Err(fault) => Err(fault),
    }
}

/// The same under the name that was picked for the parts and the shelf, which is given back.
fn run_as<N: Boarded, S: Shelf, R: Threads + Wait + Clock + Sync, W: Write>(
    rt: &R,
    alloc: Global,
    shelf: S,
    number: u64,
    parts: NewParts<S>,
    options: &BenchOptions,
    out: &mut W,
) -> (Result<(), BenchFault>, S)
    requires parts { AreOf usual N.registry N.board N.history parts }
    requires shelf { (S.told shelf).place ≡ N.place }
    ensures done { OnOk result.0 (IsBenchedOn (S.refuses N.place) S.honest number options.now
        (S.told shelf) (S.told result.1)) }
    ensures fault { IfErr result.0 (λ e. IsUnbenched (S.refuses N.place) S.honest number
        options.now e (S.told shelf) (S.told result.1)) }
{
    let mut shelf: NamedShelf<N, S> = NamedShelf::of(shelf);
    let done = run_named(rt, alloc, &mut shelf, number, parts, options, out);
    (done, shelf.into_shelf())
}

/// Begins a database on the shelf, whose manifest has this number, and runs the benchmarks on it.
/// The shelf is given back.
pub(crate) fn run_on<S: Shelf, R: Threads + Wait + Clock + Sync, W: Write>(
    rt: &R,
    alloc: Global,
    shelf: S,
    number: u64,
    options: &BenchOptions,
    out: &mut W,
) -> (Result<(), BenchFault>, S)
    ensures done { OnOk result.0 (IsBenchedOn (S.refuses (S.told shelf).place) S.honest number
        options.now (S.told shelf) (S.told result.1)) }
    ensures fault { IfErr result.0 (λ e. IsUnbenched (S.refuses (S.told shelf).place) S.honest
        number options.now e (S.told shelf) (S.told result.1)) }
{
    match NewParts::make(alloc) {
        Ok(parts) => run_as::<Brand, S, R, W>(rt, alloc, shelf, number, parts, options, out),
        Err(_) => (Err(BenchFault::from(AllocError)), shelf),
    }
}
