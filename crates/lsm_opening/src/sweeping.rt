//! What nothing names any more is removed.

ghost use Rattle.std.specs.Prelude.{◌≡◌, IfErr, OnOk};
ghost use Rattle.lsm_opening.specs.Compactions.{IsSwept, Refuses};
ghost use Rattle.lsm_slots.specs.Slots.{Looked};

use lsm_slots::Boarded;
use lsm_state::{State, StateFault};
use lsm_table::{NamedShelf, Shelf};
use std::alloc::Global;
use std::sync::Wait;

/// Removes the tables that the state does not keep. Answers how many. Of the state no more changes
/// than that slots are looked at.
#[tactic(auto, using(crate::proofs::SweepLaws::looked_same))]
pub fn sweep<N: Boarded, S: Shelf, R: Wait>(
    rt: &R,
    alloc: Global,
    state: &mut State<N, S>,
    shelf: &mut NamedShelf<N, S>,
) -> Result<usize, StateFault>
    ensures ok { OnOk result (IsSwept S.honest N.board state.new shelf.old shelf.new) }
    ensures refused { IfErr result (λ e.
        Refuses (S.refuses N.place) S.honest N.board state.new e shelf.old shelf.new) }
    ensures looked { Looked state.old.slots state.new.slots }
    ensures rest { state.new ≡ record state.old { slots = state.new.slots } }
{
    let collected = state.collect(rt, alloc, shelf);
    // The law of the state is told by this call.
    let _options = state.options();
    match collected {
        Ok(removed) => Ok(removed.len()),
        Err((fault, _removed)) => Err(fault),
    }
}
