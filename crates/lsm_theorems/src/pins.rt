//! No table of a version that a reader reads is given up.

ghost use Rattle.std.specs.Prelude.{ℕ, IfOk, IsTrue, OnOk};
ghost use Rattle.lsm_codec.specs.Lists.{Has};
ghost use Rattle.lsm_pins.specs.Laws.{HeldIsNotFree, IsLaw};
ghost use Rattle.lsm_version.specs.Versions.{numbers_in};

use lsm_slots::Boarded;
use lsm_state::{State, StateFault};
use lsm_store::View;
use lsm_table::{NamedShelf, Shelf};
use std::alloc::{AllocError, Global};
use std::sync::Wait;

/// The tables that were removed, and those of the version that a view reads, in one taking of the
/// lock: no table is among both.
pub fn what_a_view_holds_is_kept<N: Boarded, S: Shelf, R: Wait>(
    rt: &R,
    alloc: Global,
    state: &mut State<N, S>,
    shelf: &mut NamedShelf<N, S>,
    view: &mut View<N, S>,
) -> (
    Result<Vec<u64>, (StateFault, Vec<u64>)>,
    Result<Vec<u64>, AllocError>,
)
    ensures { IfOk result.0 (λ removed. OnOk result.1 ((n : ℕ)
        → Has (numbers_in view.old.version) n → Has removed.items n → ⊥)) }
{
    let removed = state.collect(rt, alloc, shelf);
    let held = view.meet(alloc, state);
    (removed, held)
}

/// The same of one table, which the workers beside a program remove so where nothing needs it: it is
/// not one of those that a view reads.
pub fn what_a_view_holds_is_not_removed<N: Boarded, S: Shelf, R: Wait>(
    rt: &R,
    alloc: Global,
    state: &mut State<N, S>,
    shelf: &mut NamedShelf<N, S>,
    number: u64,
    view: &mut View<N, S>,
) -> (Result<bool, StateFault>, Result<Vec<u64>, AllocError>)
    ensures { IfOk result.0 (λ removed. OnOk result.1 (IsTrue removed
        → Has (numbers_in view.old.version) number → ⊥)) }
{
    let gone = state.remove_unkept(rt, alloc, shelf, number);
    let held = view.meet(alloc, state);
    (gone, held)
}

/// Between any two steps of any threads: no slot of a version is free while a reader holds it.
pub fn no_held_slot_is_free()
    ensures { IsLaw HeldIsNotFree }
{
    lsm_pins::held_is_not_free();
}
