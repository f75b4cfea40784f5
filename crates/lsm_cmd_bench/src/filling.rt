//! Pairs come in, batch by batch.

ghost use Rattle.std.specs.Prelude.{◌≡◌, ◌∷◌, ◌++◌, ◌+◌, ◌<◌, ◌≤◌, [], List, length, IfOk, OnOk};
ghost use Rattle.lsm_batch.specs.declared.write.Write.{Write};
ghost use Rattle.lsm_lines.specs.LastWrites.{KeepsLast};
ghost use Rattle.lsm_bulk_load.specs.Coming.{ComesNext};
ghost use Rattle.lsm_cmd_bench.specs.Filled.{Fills, IsKeptByPairs};
ghost use Rattle.lsm_cmd_bench.specs.Pairs.{ArePairs, IsPairAt};

use crate::bench_fault::BenchFault;
use crate::draws::Draws;
use crate::key::key_of;
use lsm_batch::{Batch, MOST_BYTES, Write as KeyWrite};
use lsm_bulk_load::{Grown, Mark, Origin, bring_in};
use lsm_codec::Bytes;
use lsm_lines::{PutFault, WriteBuffer};
use lsm_slots::Boarded;
use lsm_state::StateFault;
use lsm_store::{Background, Store};
use lsm_table::{NamedShelf, Shelf};
use std::alloc::{AllocError, Global};
use std::sync::Wait;

/// How pairs come in: so many, of so many keys, by ascending ones or by drawn ones, each with a
/// value of so many bytes, and so many in a batch at most.
#[derive(Clone, Copy)]
pub(crate) struct Filling {
    pub(crate) pairs: u64,
    pub(crate) keys: u64,
    pub(crate) size: usize,
    pub(crate) ascends: bool,
    pub(crate) batch: usize,
}

/// How many pairs come in with the next batch, where so many are left: as many as it has room for.
fn next_count(filling: Filling, left: u64) -> u64
    requires { 0 < left }
    ensures some { 0 < result }
    ensures within { result ≤ left }
{
    let room = MOST_BYTES / filling.size.saturating_add(16);
    let most = room.min(filling.batch).max(1) as u64;
    most.min(left)
}

/// The pair that has this place among those that come in.
fn pair_at(
    alloc: Global,
    filling: Filling,
    place: u64,
    draws: &mut Draws,
) -> Result<KeyWrite, AllocError>
    requires { place < filling.keys }
    ensures { IfOk result (IsPairAt filling.keys filling.size filling.ascends place) }
{
    let number = if filling.ascends {
        place
    } else {
        draws.number_below(filling.keys)
    };
    let key = Vec::from_slice(alloc, &key_of(number))?;
    let value = Vec::from_slice(alloc, draws.value(filling.size))?;
    Ok(KeyWrite {
        key: Bytes::of(key),
        value: Some(Bytes::of(value)),
    })
}

/// Puts a write behind those that are gathered.
fn put(buffer: &mut WriteBuffer, write: KeyWrite) -> Result<(), BenchFault>
    ensures { OnOk result (buffer.new ≡ buffer.old ++ write ∷ []) }
{
    match buffer.put(write) {
        Ok(()) => Ok(()),
        Err(PutFault::Full(_) | PutFault::Large) => Err(BenchFault::State(StateFault::TooLarge)),
        Err(PutFault::OutOfMemory) => Err(BenchFault::State(StateFault::OutOfMemory)),
    }
}

/// Gathers the pairs that come in with the next batch, so many, of which the first has this place.
fn gather(
    alloc: Global,
    filling: Filling,
    first: u64,
    count: u64,
    draws: &mut Draws,
    buffer: &mut WriteBuffer,
) -> Result<(), BenchFault>
    requires within { first + count ≤ filling.keys }
    requires none { buffer.old ≡ [] }
    ensures pairs { OnOk result
        (ArePairs filling.keys filling.size filling.ascends first buffer.new) }
    ensures count { OnOk result (length buffer.new ≡ count) }
{
    'pairs: for place in 0..count {
        let write = pair_at(alloc, filling, first + place, draws)?;
        put(buffer, write)?;
    }
    Ok(())
}

/// The next batch: of so many pairs, of which the first has this place, the last write of each key.
fn next_batch(
    alloc: Global,
    filling: Filling,
    first: u64,
    count: u64,
    draws: &mut Draws,
) -> Result<Batch, BenchFault>
    requires { first + count ≤ filling.keys }
    ensures { IfOk result (λ b. (ws : List Write)
        × ArePairs filling.keys filling.size filling.ascends first ws × (length ws ≡ count)
        × KeepsLast ws b) }
{
    let mut buffer = WriteBuffer::new(alloc);
    gather(alloc, filling, first, count, draws, &mut buffer)?;
    match buffer.into_batch(alloc) {
        Ok(batch) => Ok(batch),
        Err(error) => Err(BenchFault::from(error)),
    }
}

/// Brings the next batch in. Where level 0 is full it waits for the workers.
fn bring_next<N: Boarded, S: Shelf, O: Origin, R: Wait>(
    rt: &R,
    alloc: Global,
    store: &Store<N, S, Grown<O>>,
    background: &Background,
    shelf: &mut NamedShelf<N, S>,
    filling: Filling,
    first: u64,
    count: u64,
    draws: &mut Draws,
    mark: Mark<N, O>,
) -> Result<Mark<N, O>, BenchFault>
    requires within { first + count ≤ filling.keys }
    requires kept { IsKeptByPairs (S.refuses N.place) filling.keys filling.size O.keeps }
    ensures { IfOk result (λ m. (ws : List Write)
        × ArePairs filling.keys filling.size filling.ascends first ws × (length ws ≡ count)
        × (batch : List Write) × KeepsLast ws batch × ComesNext batch mark m) }
{
    let batch = next_batch(alloc, filling, first, count, draws)?;
    match bring_in(rt, alloc, store, background, shelf, &batch, mark) {
        Ok(mark) => Ok(mark),
        Err((fault, _later)) => Err(BenchFault::of_batch(fault)),
    }
}

/// Brings pairs into a store that is as far as a mark says, while its workers compact beside. Each
/// batch is synced. How far it is then.
pub(crate) fn fill<N: Boarded, S: Shelf, O: Origin, R: Wait>(
    rt: &R,
    alloc: Global,
    store: &Store<N, S, Grown<O>>,
    background: &Background,
    shelf: &mut NamedShelf<N, S>,
    filling: Filling,
    draws: &mut Draws,
    mark: Mark<N, O>,
) -> Result<Mark<N, O>, BenchFault>
    requires within { filling.pairs ≤ filling.keys }
    requires kept { IsKeptByPairs (S.refuses N.place) filling.keys filling.size O.keeps }
    ensures { IfOk result
        (Fills filling.keys filling.size filling.ascends filling.pairs mark) }
{
    let mut mark = mark;
    let mut taken = 0;
    'batches: while taken < filling.pairs {
        let count = next_count(filling, filling.pairs - taken);
        mark = bring_next(
            rt, alloc, store, background, shelf, filling, taken, count, draws, mark,
        )?;
        taken += count;
    }
    Ok(mark)
}
