//! A view of the newest version.

ghost use Rattle.lsm_bulk_load.specs.Keeping.{IsKeptByLearning, IsLearnt};

use lsm_bulk_load::{Grown, Origin};
use lsm_slots::Boarded;
use lsm_state::{State, StateFault};
use lsm_store::{Reader, Store, View};
use lsm_table::Shelf;
use std::sync::Wait;

/// A view of the current version of a state. While the lock is held that one is current, and so no
/// other refusal of a pin comes than `PinsSpent`.
fn view_of<N: Boarded, S: Shelf>(
    state: &mut State<N, S>,
    reader: Reader<N, S>,
) -> Result<View<N, S>, StateFault>
    ensures { IsLearnt state.old state.new }
{
    let mut reader = reader;
    if reader.refresh(state).is_err() {
        drop(reader);
        return Err(StateFault::OutOfMemory);
    }
    match reader.begin() {
        Ok(view) => Ok(view),
        Err(refused) => {
            drop(refused);
            Err(StateFault::PinsSpent)
        }
    }
}

/// A view of the newest version by the last one of the readers, which is taken from them. The lock
/// is taken only where it has not learnt that version.
pub(crate) fn view_now<N: Boarded, S: Shelf, O: Origin, R: Wait>(
    rt: &R,
    store: &Store<N, S, Grown<O>>,
    readers: &mut Vec<Reader<N, S>>,
) -> Result<View<N, S>, StateFault>
    requires readers { IsKeptByLearning O.keeps }
{
    let Some(reader) = readers.pop() else {
        return Err(StateFault::OutOfMemory);
    };
    match reader.begin() {
        Ok(view) => Ok(view),
        Err((reader, _)) => view_of(&mut store.lock(rt).state, reader),
    }
}

/// Ends a view, and puts its reader behind the others, where its room is.
pub(crate) fn end<N: Boarded, S: Shelf>(view: View<N, S>, readers: &mut Vec<Reader<N, S>>) {
    let _ = readers.push(view.end());
}
