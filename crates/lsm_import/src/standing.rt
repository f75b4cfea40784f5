//! A database that stays where it is, with a manifest to come that reads none of its logs.

ghost use Rattle.std.specs.Prelude.{◌≡◌, ◌≤◌, ◌-◌, ◌^◌, IfErr, IfOk};
ghost use Rattle.lsm_codec.specs.Lists.{Has};
ghost use Rattle.lsm_manifest.specs.Shape.{IsShape};
ghost use Rattle.lsm_manifest.specs.WholeEdit.{FitsShape};
ghost use Rattle.lsm_import.specs.Copied.{IsFitting};
ghost use Rattle.lsm_import.specs.Standing.{AreBelow, IsNotStanding, IsStanding};
ghost use Rattle.lsm_import.specs.declared.import_fault.ImportFault.TheVariants.{NumbersSpent};

use crate::copied::Copied;
use crate::fresh_numbers::number_above;
use crate::import_fault::ImportFault;
use lsm_manifest::{Edit, Shape, whole_edit_replays};
use std::alloc::Global;

/// A number that is at least the first one and above all of these; `NumbersSpent` where one of them
/// is 2^64 - 1.
fn number_beyond(from: u64, numbers: &[u64]) -> Result<u64, ImportFault>
    ensures from { IfOk result (λ n. from ≤ n) }
    ensures below { IfOk result (AreBelow numbers.now) }
    ensures spent { IfErr result (λ e. (e ≡ NumbersSpent) × Has numbers.now (2 ^ 64 - 1)) }
{
    let mut next = from;
    for number in numbers {
        if *number == u64::MAX {
            return Err(ImportFault::NumbersSpent);
        }
        next = next.max(*number + 1);
    }
    Ok(next)
}

impl Copied {
    /// The database of a shape as it stands: its tables under their numbers and at their levels.
    /// The next file number is above those of the tables and all of these numbers, and so is the
    /// log number; there is no previous log. So a manifest of it reads none of these logs.
    ///
    /// # Errors
    /// `NumbersSpent` where one of the tables, or of these, has the number 2^64 - 1; `OutOfMemory`.
    pub fn standing(alloc: Global, shape: &Shape, numbers: &[u64]) -> Result<Copied, ImportFault>
        requires shape { IsShape shape.now }
        requires keys { FitsShape shape.now }
        ensures stands { IfOk result (IsStanding shape.now numbers.now) }
        ensures fits { IfOk result IsFitting }
        ensures refused { IfErr result (IsNotStanding shape.now numbers.now) }
    {
        whole_edit_replays();
        let edit = Edit::whole(alloc, shape)?;
        let above = number_above(shape.next.max(shape.log), edit.added.as_slice())?;
        let next = number_beyond(above, numbers)?;
        Ok(Copied {
            edit: Edit {
                comparator: edit.comparator,
                log: Some(next),
                prev_log: Some(0),
                next: Some(next),
                last: Some(shape.last),
                pointers: edit.pointers,
                deleted: edit.deleted,
                added: edit.added,
            },
            next,
            last: shape.last,
            writes: 0,
        })
    }
}
