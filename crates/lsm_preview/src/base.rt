//! The database of a view, as its manifest and its logs leave it.

ghost use Rattle.std.specs.Prelude.{◌≡◌, IfErr, IfOk};
ghost use Rattle.lsm_manifest.specs.Shape.{IsShape};
ghost use Rattle.lsm_manifest.specs.WholeEdit.{FitsShape};
ghost use Rattle.lsm_import.specs.Copied.{IsFitting};
ghost use Rattle.lsm_preview.specs.Preview.{AreTaken, IsBase, IsNoBase, IsUnlisted, unmoved};
ghost use Rattle.lsm_preview.specs.Tables.{OnlyLooks};

use crate::preview_fault::PreviewFault;
use lsm_import::Copied;
use lsm_manifest::{Edit, Shape, whole_edit_replays};
use lsm_table::{NamedShelf, Naming, Shelf};
use std::alloc::{AllocError, Global};
use std::sync::Wait;

/// The database of a shape as its manifest has it.
fn unmoved(alloc: Global, shape: &Shape) -> Result<Copied, AllocError>
    requires shape { IsShape shape.now }
    requires keys { FitsShape shape.now }
    ensures is { IfOk result (λ base. base ≡ unmoved shape.now) }
    ensures fits { IfOk result IsFitting }
{
    whole_edit_replays();
    let edit = Edit::whole(alloc, shape)?;
    Ok(Copied {
        edit,
        next: shape.next,
        last: shape.last,
        writes: 0,
    })
}

/// The numbers of logs, and behind them those of the tables that the shelf lists.
fn taken<N: Naming, S: Shelf, R: Wait>(
    rt: &R,
    alloc: Global,
    shelf: &mut NamedShelf<N, S>,
    logs: Vec<u64>,
) -> Result<Vec<u64>, PreviewFault>
    ensures taken { IfOk result (λ v. AreTaken logs.items v.items shelf.old shelf.new) }
    ensures looks { OnlyLooks shelf.old shelf.new }
    ensures refused { IfErr result (IsUnlisted (S.refuses N.place)) }
{
    let mut numbers = logs;
    let tables = match shelf.list(rt, alloc) {
        Ok(tables) => tables,
        Err(fault) => return Err(PreviewFault::Unlisted(fault)),
    };
    numbers.extend_from_slice(&tables)?;
    Ok(numbers)
}

/// The database of a shape, which no log is read for from then on where these were.
pub(crate) fn base_of<N: Naming, S: Shelf, R: Wait>(
    rt: &R,
    alloc: Global,
    shelf: &mut NamedShelf<N, S>,
    shape: &Shape,
    logs: Vec<u64>,
) -> Result<Copied, PreviewFault>
    requires shape { IsShape shape.now }
    requires keys { FitsShape shape.now }
    ensures base { IfOk result (λ base. IsBase shape.now logs.items base shelf.old shelf.new) }
    ensures fits { IfOk result IsFitting }
    ensures none { IfOk result (λ base. base.writes ≡ 0) }
    ensures looks { OnlyLooks shelf.old shelf.new }
    ensures refused { IfErr result (IsNoBase (S.refuses N.place) shape.now logs.items shelf.old) }
{
    let count = logs.len();
    if count == 0 {
        let base = unmoved(alloc, shape)?;
        return Ok(base);
    }
    let numbers = taken(rt, alloc, shelf, logs)?;
    let base = Copied::standing(alloc, shape, &numbers)?;
    Ok(base)
}
