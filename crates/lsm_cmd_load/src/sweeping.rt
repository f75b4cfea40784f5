//! What nothing names any more is removed.

ghost use Rattle.std.specs.Prelude.{◌≡◌, IfErr, OnOk};
ghost use Rattle.lsm_slots.specs.Slots.{Looked};
ghost use Rattle.lsm_opening.specs.Compactions.{IsSwept, Refuses};
ghost use Rattle.lsm_bulk_load.specs.Ending.{IsIdle};
ghost use Rattle.lsm_bulk_load.specs.Marks.{marked_in};

use lsm_slots::Boarded;
use lsm_state::{State, StateFault};
use lsm_table::{NamedShelf, Shelf};
use std::alloc::Global;
use std::sync::Wait;

/// Removes the tables that the state does not keep.
pub(crate) fn sweep<N: Boarded, S: Shelf, R: Wait>(
    rt: &R,
    alloc: Global,
    state: &mut State<N, S>,
    shelf: &mut NamedShelf<N, S>,
) -> Result<(), StateFault>
    ensures ok { OnOk result (IsSwept S.honest N.board state.new shelf.old shelf.new) }
    ensures refused { IfErr result (λ e.
        Refuses (S.refuses N.place) S.honest N.board state.new e shelf.old shelf.new) }
    ensures looked { Looked state.old.slots state.new.slots }
    ensures rest { state.new ≡ record state.old { slots = state.new.slots } }
    ensures same { marked_in state.new ≡ marked_in state.old }
    ensures idle { IsIdle state.old → IsIdle state.new }
{
    match lsm_opening::sweep(rt, alloc, state, shelf) {
        Ok(_) => Ok(()),
        Err(fault) => Err(fault),
    }
}
