//! One benchmark after another.

ghost use Rattle.std.specs.Prelude.{◌≡◌, ◌/◌, ◌≤◌, IfOk, false, true};
ghost use Rattle.lsm_bulk_load.specs.Keeping.{IsKeptByLearning};
ghost use Rattle.lsm_cmd_bench.specs.Filled.{Fills, IsKeptByPairs, Runs, RunsAll};

use crate::bench_fault::BenchFault;
use crate::draws::Draws;
use crate::filling::{Filling, fill};
use crate::reading::{Found, read_all, read_drawn};
use crate::report::{Measured, write_line};
use lsm_batch::MOST_ENTRIES;
use lsm_bulk_load::{Grown, Mark, Origin};
use lsm_requests::{BenchOptions, Benchmark};
use lsm_slots::Boarded;
use lsm_store::{Background, Reader, Store};
use lsm_table::{NamedShelf, Shelf};
use std::alloc::Global;
use std::io::Write;
use std::rt::Clock;
use std::sync::Wait;
use std::thread::{Threads, join};
use std::time::Instant;

/// What benchmarks run on beside the store: a shelf for batches, readers, and what draws for the
/// thread of the benchmarks, and for one beside it.
#[derive(Drop)]
pub(crate) struct Tools<N: Boarded, S: Shelf> {
    pub(crate) shelf: NamedShelf<N, S>,
    pub(crate) readers: Vec<Reader<N, S>>,
    pub(crate) draws: Draws,
    pub(crate) more_draws: Draws,
}

/// Pairs by ascending keys, 1,000 in a batch.
fn ascending(options: &BenchOptions) -> Filling
    ensures { result ≡ record {
      pairs = options.now.num;
      keys = options.now.num;
      size = options.now.value_size;
      ascends = true;
      batch = 1000;
    } }
{
    Filling {
        pairs: options.num,
        keys: options.num,
        size: options.value_size as usize,
        ascends: true,
        batch: 1_000,
    }
}

/// So many pairs by drawn keys, and so many in a batch at most.
fn drawn(options: &BenchOptions, pairs: u64, batch: usize) -> Filling
    ensures { result ≡ record {
      pairs = pairs;
      keys = options.now.num;
      size = options.now.value_size;
      ascends = false;
      batch = batch;
    } }
{
    Filling {
        pairs,
        keys: options.num,
        size: options.value_size as usize,
        ascends: false,
        batch,
    }
}

/// What a benchmark came to, which found so much.
fn measured(benchmark: Benchmark, options: &BenchOptions, found: Found) -> Measured {
    match benchmark {
        Benchmark::FillBatch | Benchmark::FillRandom | Benchmark::Overwrite => Measured {
            operations: options.num,
            bytes: options
                .value_size
                .saturating_add(16)
                .saturating_mul(options.num),
            found: None,
        },
        Benchmark::ReadRandom | Benchmark::ReadWhileWriting => Measured {
            operations: options.num,
            bytes: found.bytes,
            found: Some(found.pairs),
        },
        Benchmark::ReadSeq => Measured {
            operations: found.pairs,
            bytes: found.bytes,
            found: None,
        },
        Benchmark::Compact => Measured {
            operations: 1,
            bytes: 0,
            found: None,
        },
    }
}

/// How far the store is, where that is done.
pub(crate) fn mark_after<N: Boarded, O: Origin>(
    done: Result<(), BenchFault>,
    mark: Mark<N, O>,
) -> Result<Mark<N, O>, BenchFault>
    ensures { IfOk result (λ m. m ≡ mark) }
{
    match done {
        Ok(()) => Ok(mark),
        Err(fault) => Err(fault),
    }
}

/// Drawn keys are read by one thread, while another one brings pairs in.
fn run_both<N: Boarded, S: Shelf, O: Origin, R: Threads + Wait + Sync>(
    rt: &R,
    alloc: Global,
    store: &Store<N, S, Grown<O>>,
    background: &Background,
    tools: &mut Tools<N, S>,
    mark: Mark<N, O>,
    filling: Filling,
    keys: u64,
    found: &mut Found,
) -> Result<Mark<N, O>, BenchFault>
    requires within { filling.pairs ≤ filling.keys }
    requires kept { IsKeptByPairs (S.refuses N.place) filling.keys filling.size O.keeps }
    requires readers { IsKeptByLearning O.keeps }
    ensures { IfOk result
        (Fills filling.keys filling.size filling.ascends filling.pairs mark) }
{
    let (shelf, more_draws) = (&mut tools.shelf, &mut tools.more_draws);
    let (readers, draws) = (&mut tools.readers, &mut tools.draws);
    let (read, written) = join(
        rt,
        move || -> Result<(), BenchFault>
            requires readers { IsKeptByLearning O.keeps }
        { read_drawn(rt, alloc, store, readers, keys, draws, found) },
        move || -> Result<Mark<N, O>, BenchFault>
            requires within { filling.pairs ≤ filling.keys }
            requires kept { IsKeptByPairs (S.refuses N.place) filling.keys filling.size O.keeps }
            ensures { IfOk result
                (Fills filling.keys filling.size filling.ascends filling.pairs mark) }
        {
            fill(
                rt, alloc, store, background, shelf, filling, more_draws, mark,
            )
        },
    );
    match read {
        Ok(()) => written,
        Err(fault) => {
            drop(written);
            Err(fault)
        }
    }
}

/// Runs a benchmark. How far the store is then.
fn run_one<N: Boarded, S: Shelf, O: Origin, R: Threads + Wait + Sync>(
    rt: &R,
    alloc: Global,
    store: &Store<N, S, Grown<O>>,
    background: &Background,
    tools: &mut Tools<N, S>,
    mark: Mark<N, O>,
    benchmark: Benchmark,
    options: &BenchOptions,
    found: &mut Found,
) -> Result<Mark<N, O>, BenchFault>
    requires kept { IsKeptByPairs (S.refuses N.place) options.now.num options.now.value_size
        O.keeps }
    requires readers { IsKeptByLearning O.keeps }
    ensures { IfOk result (Runs options.now.num options.now.value_size benchmark mark) }
{
    let keys = options.num;
    match benchmark {
        Benchmark::FillBatch => {
            let (shelf, draws) = (&mut tools.shelf, &mut tools.draws);
            let filling = ascending(options);
            fill(rt, alloc, store, background, shelf, filling, draws, mark)
        }
        Benchmark::FillRandom | Benchmark::Overwrite => {
            let (shelf, draws) = (&mut tools.shelf, &mut tools.draws);
            let filling = drawn(options, keys, MOST_ENTRIES);
            fill(rt, alloc, store, background, shelf, filling, draws, mark)
        }
        Benchmark::ReadRandom => {
            let (readers, draws) = (&mut tools.readers, &mut tools.draws);
            let read = read_drawn(rt, alloc, store, readers, keys, draws, found);
            mark_after(read, mark)
        }
        Benchmark::ReadSeq => {
            let read = read_all(rt, alloc, store, &mut tools.readers, found);
            mark_after(read, mark)
        }
        Benchmark::ReadWhileWriting => {
            // a tenth of the pairs, beside the reads
            let filling = drawn(options, options.num / 10, 1_000);
            run_both(
                rt, alloc, store, background, tools, mark, filling, keys, found,
            )
        }
        Benchmark::Compact => {
            background.wait_until_idle(rt);
            Ok(mark)
        }
    }
}

/// The time now.
fn begin_now<R: Clock>(rt: &R) -> Result<Instant, BenchFault> {
    match Instant::now(rt) {
        Ok(begun) => Ok(begun),
        Err(_) => Err(BenchFault::Clock),
    }
}

/// Writes the line of a benchmark that began then and came to that.
fn write_measured<R: Clock, W: Write>(
    rt: &R,
    out: &mut W,
    benchmark: Benchmark,
    measured: Measured,
    begun: Instant,
) -> Result<(), BenchFault> {
    let Ok(elapsed) = begun.elapsed(rt) else {
        return Err(BenchFault::Clock);
    };
    match write_line(out, benchmark, measured, elapsed.as_nanos()) {
        Ok(()) => Ok(()),
        Err(_) => Err(BenchFault::Write),
    }
}

/// Runs a benchmark, and writes its line.
fn measure<N: Boarded, S: Shelf, O: Origin, R: Threads + Wait + Clock + Sync, W: Write>(
    rt: &R,
    alloc: Global,
    store: &Store<N, S, Grown<O>>,
    background: &Background,
    tools: &mut Tools<N, S>,
    mark: Mark<N, O>,
    benchmark: Benchmark,
    options: &BenchOptions,
    out: &mut W,
) -> Result<Mark<N, O>, BenchFault>
    requires kept { IsKeptByPairs (S.refuses N.place) options.now.num options.now.value_size
        O.keeps }
    requires readers { IsKeptByLearning O.keeps }
    ensures { IfOk result (Runs options.now.num options.now.value_size benchmark mark) }
{
    let begun = begin_now(rt)?;
    let mut found = Found::nothing();
    let mark = run_one(
        rt, alloc, store, background, tools, mark, benchmark, options, &mut found,
    )?;
    let measured = measured(benchmark, options, found);
    mark_after(write_measured(rt, out, benchmark, measured, begun), mark)
}

/// Runs these benchmarks, one after another, and writes a line for each. How far the store is then.
pub(crate) fn measure_all<N, S, O, R, W>(
    rt: &R,
    alloc: Global,
    store: &Store<N, S, Grown<O>>,
    background: &Background,
    tools: &mut Tools<N, S>,
    mark: Mark<N, O>,
    benchmarks: &[Benchmark],
    options: &BenchOptions,
    out: &mut W,
) -> Result<Mark<N, O>, BenchFault>
where
    N: Boarded,
    S: Shelf,
    O: Origin,
    R: Threads + Wait + Clock + Sync,
    W: Write,
    requires kept { IsKeptByPairs (S.refuses N.place) options.now.num options.now.value_size
        O.keeps }
    requires readers { IsKeptByLearning O.keeps }
    ensures { IfOk result
        (RunsAll options.now.num options.now.value_size benchmarks.now mark) }
{
    match benchmarks {
        [] => Ok(mark),
        [first, rest @ ..] => {
            let after = measure(
                rt, alloc, store, background, tools, mark, *first, options, out,
            )?;
            measure_all(
                rt, alloc, store, background, tools, after, rest, options, out,
            )
        }
    }
}
