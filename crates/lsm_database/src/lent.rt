//! What is done on a state that the store lends.

ghost use Rattle.std.specs.Prelude.{◌≡◌, IfErr, IfOk, take};
ghost use Rattle.std.specs.Option.{option_map};
ghost use Rattle.lsm_codec.specs.Entries.{answer};
ghost use Rattle.lsm_database.specs.Databases.{IsLent};
ghost use Rattle.lsm_history.specs.History.{IsLater};
ghost use Rattle.lsm_iterators.specs.Seeking.{at_or_past};
ghost use Rattle.lsm_model.specs.Files.{all_entries};
ghost use Rattle.lsm_model.specs.Scanning.{IsScan};
ghost use Rattle.lsm_reader.specs.Refusals.{IsSomeReadRefusal};
ghost use Rattle.lsm_shelf.specs.Told.{Becomes};
ghost use Rattle.lsm_store.specs.Background.{BringsIn, KeepsOut};
ghost use Rattle.lsm_table.specs.ReadFault.{IsMemoryOrShelf, ReadCounted};
ghost use Rattle.lsm_version.specs.Versions.{files};

use crate::reads::{newest, pairs_from};
use lsm_batch::Batch;
use lsm_history::Memory;
use lsm_query::Pair;
use lsm_reader::Cached;
use lsm_slots::Boarded;
use lsm_state::{Ingested, State, StateFault};
use lsm_table::{NamedShelf, ReadFault, Shelf};
use std::alloc::Global;
use std::mem;
use std::sync::Wait;

/// The state has all that is known, and all that has come in in it is known from then on.
#[tactic(auto, using(crate::proofs::DatabaseLaws::lent))]
fn catch_up<N: Boarded, S: Shelf>(state: &mut State<N, S>, memory: &mut Memory<N>)
    ensures lent { IsLent S.honest state.old memory.old memory.new }
    ensures later { IsLater state.old.history memory.old }
    ensures same { state.new ≡ state.old }
{
    let now = state.remember();
    let before = mem::replace(memory, now);
    state.recall(before);
    // That its promised reads answer as the history is told by this call.
    state.law();
}

/// The newest value of a key in the state, whose version is read as long as it is lent: then none
/// of its tables is removed.
pub(crate) fn find_in<N: Boarded, S: Shelf>(
    state: &mut State<N, S>,
    memory: &mut Memory<N>,
    blocks: &mut Cached<N, S>,
    alloc: Global,
    key: &[u8],
) -> Result<Option<Vec<u8>>, ReadFault>
    ensures lent { IsLent S.honest state.old memory.old memory.new }
    ensures same { state.new ≡ state.old }
    ensures answer { S.honest → IfOk result (λ v. option_map (λ b. b.items) v
        ≡ answer (all_entries (files state.old.slots.version)) key.now
        state.old.slots.version.last) }
    ensures sound { S.honest → IfErr result IsMemoryOrShelf }
    ensures refused { IfErr result (IsSomeReadRefusal (S.refuses N.place)) }
    ensures told { Becomes blocks.old blocks.new }
    ensures cause { IfErr result (λ e. ReadCounted e blocks.old blocks.new) }
{
    catch_up(state, memory);
    newest(state.current().1, blocks, alloc, key)
}

/// The pairs from a key on in the state, up to so many.
pub(crate) fn scan_in<N: Boarded, S: Shelf>(
    state: &mut State<N, S>,
    memory: &mut Memory<N>,
    blocks: &mut Cached<N, S>,
    alloc: Global,
    from: &[u8],
    limit: usize,
) -> Result<Vec<Pair>, ReadFault>
    ensures lent { IsLent S.honest state.old memory.old memory.new }
    ensures same { state.new ≡ state.old }
    ensures shown { S.honest → IfOk result (λ v. (all : _)
        × IsScan state.old.slots.version.last
        (at_or_past from.now (all_entries (files state.old.slots.version))) all
        × (v.items ≡ take limit all)) }
    ensures sound { S.honest → IfErr result IsMemoryOrShelf }
    ensures refused { IfErr result (IsSomeReadRefusal (S.refuses N.place)) }
    ensures told { Becomes blocks.old blocks.new }
    ensures cause { IfErr result (λ e. ReadCounted e blocks.old blocks.new) }
{
    catch_up(state, memory);
    pairs_from(state.current().1, blocks, alloc, from, limit)
}

/// Brings the batch into the state, and remembers the history with it.
fn ingest<N: Boarded, S: Shelf, R: Wait>(
    state: &mut State<N, S>,
    rt: &R,
    alloc: Global,
    shelf: &mut NamedShelf<N, S>,
    batch: &Batch,
) -> (Result<Ingested, StateFault>, Memory<N>)
    ensures came { IfOk result.0 (λ r.
        BringsIn state.old state.new batch.now r shelf.old shelf.new) }
    ensures refused { IfErr result.0 (λ e.
        KeepsOut (S.refuses N.place) state.old state.new batch.now e shelf.old shelf.new) }
    ensures memory { result.1 ≡ state.new.history }
{
    match state.ingest(rt, alloc, shelf, batch) {
        Ok(came) => (Ok(came), state.remember()),
        Err(fault) => (Err(fault), state.remember()),
    }
}

/// The same on a state that has all that is known. All that has come in in it is known then.
pub(crate) fn bring_in<N: Boarded, S: Shelf, R: Wait>(
    state: &mut State<N, S>,
    rt: &R,
    alloc: Global,
    shelf: &mut NamedShelf<N, S>,
    memory: &mut Memory<N>,
    batch: &Batch,
) -> Result<Ingested, StateFault>
    ensures later { IsLater state.old.history memory.old }
    ensures came { IfOk result (λ r.
        BringsIn state.old state.new batch.now r shelf.old shelf.new) }
    ensures refused { IfErr result (λ e.
        KeepsOut (S.refuses N.place) state.old state.new batch.now e shelf.old shelf.new) }
    ensures known { memory.new ≡ state.new.history }
{
    catch_up(state, memory);
    let (came, known) = ingest(state, rt, alloc, shelf, batch);
    *memory = known;
    came
}
