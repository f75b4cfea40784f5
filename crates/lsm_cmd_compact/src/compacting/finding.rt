//! Whether the manifest that the directory names is still the one that was written.

ghost use Rattle.std.specs.Prelude.{◌≡◌, ◌↔◌, IfErr, IsTrue, OnOk};
ghost use Rattle.lsm_cmd_compact.specs.Compacting.{IsNamed, IsUnnamed};

use lsm_journal::Journal;
use lsm_opening::CompactFault;
use lsm_slots::Boarded;
use lsm_state::State;
use lsm_table::{NamedShelf, Shelf};
use std::alloc::Global;
use std::sync::Wait;

/// Whether the manifest of this number, with these bytes, is the one that is held.
fn is_held(held: &Journal, number: u64, bytes: &[u8]) -> bool
    ensures { IsTrue result ↔ ((number ≡ held.now.number) × (bytes.now ≡ held.now.bytes)) }
{
    number == held.number() && bytes == held.bytes()
}

/// Reads the manifest that the directory names: it is the one that the state holds.
///
/// `OtherManifest` where it is another one; the shelf's refusals.
pub(crate) fn find_manifest<N: Boarded, S: Shelf, R: Wait>(
    rt: &R,
    alloc: Global,
    state: &State<N, S>,
    shelf: &mut NamedShelf<N, S>,
) -> Result<(), CompactFault>
    ensures named { OnOk result (IsNamed state.now shelf.old shelf.new) }
    ensures refused { IfErr result (λ e.
        IsUnnamed (S.refuses N.place) state.now e shelf.old shelf.new) }
{
    let (number, bytes) = match shelf.read_manifest(rt, alloc) {
        Ok(found) => found,
        Err(fault) => return Err(CompactFault::of_shelf(fault)),
    };
    if is_held(state.journal(), number, &bytes) {
        Ok(())
    } else {
        Err(CompactFault::OtherManifest)
    }
}
