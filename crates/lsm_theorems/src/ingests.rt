//! An ingest adds just its batch.

ghost use Rattle.std.specs.Prelude.{◌≡◌, ◌++◌, ℕ, OnErr, OnOk};
ghost use Rattle.lsm_codec.specs.Keys.{UserKey};
ghost use Rattle.lsm_codec.specs.Lists.{Has};
ghost use Rattle.lsm_state.specs.Ingesting.{entries_of};
ghost use Rattle.lsm_theorems.specs.Unchanged.{IsUnchanged, read_of};

use lsm_batch::Batch;
use lsm_slots::Boarded;
use lsm_state::{Ingested, State, StateFault};
use lsm_table::{NamedShelf, Shelf};
use std::alloc::Global;
use std::sync::Wait;

/// An ingest that is answered Ok puts just the entries of its batch in front of all that came in
/// before (`brought`), and no live snapshot's read changes (`snapshots`). A refused one changes no
/// answer (`refused`).
pub fn ingests_add_their_batch<N: Boarded, S: Shelf, R: Wait>(
    rt: &R,
    alloc: Global,
    state: &mut State<N, S>,
    shelf: &mut NamedShelf<N, S>,
    batch: &Batch,
) -> Result<Ingested, StateFault>
    ensures brought { OnOk result (state.new.history
        ≡ entries_of state.old batch.now ++ state.old.history) }
    ensures snapshots { S.honest → OnOk result ((id seq : ℕ) (k : UserKey)
        → Has state.old.snapshots.taken (id, seq)
        → read_of state.new k seq ≡ read_of state.old k seq) }
    ensures refused { OnErr result (IsUnchanged S.honest state.old state.new) }
{
    state.law();
    let ingested = state.ingest(rt, alloc, shelf, batch);
    state.law();
    ingested
}
