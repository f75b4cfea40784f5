//! One batch comes in.

ghost use Rattle.std.specs.Prelude.{◌≡◌, ◌+◌, ◌≤◌, ◌^◌, IfErr, IfOk};
ghost use Rattle.lsm_history.specs.History.{IsLater};
ghost use Rattle.lsm_store.specs.Background.{IsKeptByIngest};
ghost use Rattle.lsm_bulk_load.specs.Coming.{ComesNext};
ghost use Rattle.lsm_bulk_load.specs.Keeping.{IsKeptByNext};
ghost use Rattle.lsm_bulk_load.specs.Loading.{IsNotTaken, IsToldOf, IsToldOfNext, StaysOut};
ghost use Rattle.lsm_bulk_load.specs.Loading.{TakesBatch};
ghost use Rattle.lsm_bulk_load.specs.Marks.{IsBehind};

use crate::load_fault::LoadFault;
use crate::mark::Mark;
use crate::origin::{Grown, Origin};
use crate::progress::Progress;
use lsm_batch::Batch;
use lsm_history::Memory;
use lsm_lines::{BatchEnd, BatchReader, Gathered};
use lsm_slots::Boarded;
use lsm_state::Ingested;
use lsm_store::{Background, Store};
use lsm_table::{NamedShelf, Shelf};
use std::alloc::Global;
use std::io::Read;
use std::sync::Wait;

/// How far the store is. Ok where the batch that came in behind the mark is all that came in since.
fn mark_behind<N: Boarded, S: Shelf, O: Origin, R: Wait>(
    rt: &R,
    store: &Store<N, S, Grown<O>>,
    mark: Mark<N, O>,
    came: Ingested,
    memory: Memory<N>,
) -> Result<Mark<N, O>, Mark<N, O>>
    ensures next { IfOk result (λ m. IsBehind O.found mark came memory m) }
    ensures later { IfErr result (λ m. IsLater m.history mark.history) }
{
    mark.behind(&mut store.lock(rt).state, came, memory)
}

/// Brings a batch into a store that is as far as a mark says, and marks how far it is then. The
/// fact of the lock is one that the ingest of this batch keeps. The shelf is asked for just what
/// this ingest asks.
///
/// A refusal has a mark too: `Ingest` this one, where the batch is not in; `Other` a later one,
/// where it is in, and another batch is too.
pub fn bring_in<N: Boarded, S: Shelf, O: Origin, R: Wait>(
    rt: &R,
    alloc: Global,
    store: &Store<N, S, Grown<O>>,
    background: &Background,
    shelf: &mut NamedShelf<N, S>,
    batch: &Batch,
    mark: Mark<N, O>,
) -> Result<Mark<N, O>, (LoadFault, Mark<N, O>)>
    requires asked { IsKeptByIngest (S.refuses N.place) batch.now O.keeps }
    ensures came { IfOk result (λ m. ComesNext batch.now mark m) }
    ensures refused { IfErr result (λ e.
        StaysOut (S.refuses N.place) O.keeps batch.now mark e.1 e.0) }
    ensures told { IsToldOf (S.refuses N.place) O.keeps batch.now shelf.old shelf.new }
{
    let (came, memory) = match background.ingest(rt, alloc, store, shelf, batch) {
        Ok(came) => came,
        Err(fault) => return Err((LoadFault::Ingest(fault), mark)),
    };
    match mark_behind(rt, store, mark, came, memory) {
        Ok(next) => Ok(next),
        Err(later) => Err((LoadFault::Other, later)),
    }
}

/// Brings the batch of the next lines in, if there are lines. A refusal has a mark too, as that of
/// `bring_in` has.
pub(crate) fn take_batch<N: Boarded, S: Shelf, O: Origin, R: Wait, I: Read + Drop>(
    rt: &R,
    alloc: Global,
    store: &Store<N, S, Grown<O>>,
    background: &Background,
    shelf: &mut NamedShelf<N, S>,
    lines: &mut BatchReader<I>,
    mark: Mark<N, O>,
    progress: Progress,
) -> Result<(Mark<N, O>, Progress, BatchEnd), (LoadFault, Mark<N, O>)>
    requires lines { progress.lines + 2 ^ 64 ≤ 2 ^ 128 }
    requires batches { progress.batches + 2 ^ 64 ≤ 2 ^ 128 }
    requires asked { IsKeptByNext (S.refuses N.place) lines.old O.keeps }
    ensures taken { IfOk result (λ r.
        TakesBatch lines.old lines.new mark r.0 progress r.1 r.2) }
    ensures refused { IfErr result (λ e.
        IsNotTaken (S.refuses N.place) O.keeps lines.old mark e.1 e.0) }
    ensures told { IsToldOfNext (S.refuses N.place) O.keeps lines.old shelf.old shelf.new }
{
    let Ok(gathered) = lines.next(alloc) else {
        return Err((LoadFault::OutOfMemory, mark));
    };
    let Gathered {
        batch,
        lines: count,
        end,
    } = gathered;
    if count == 0 {
        return Ok((mark, progress, end));
    }
    match bring_in(rt, alloc, store, background, shelf, &batch, mark) {
        Ok(next) => Ok((next, progress.with(count), end)),
        Err(refused) => Err(refused),
    }
}
