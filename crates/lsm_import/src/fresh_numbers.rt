//! File numbers that no file of a copy has.

ghost use Rattle.std.specs.Prelude.{◌≡◌, IfErr, IfOk};
ghost use Rattle.lsm_import.specs.Copies.{HasLastNumber, IsAbove};
ghost use Rattle.lsm_import.specs.declared.import_fault.ImportFault.TheVariants.{NumbersSpent};

use crate::import_fault::ImportFault;
use lsm_manifest::AddedFile;

/// A number that is at least the first one and above those of all files; `NumbersSpent` where one
/// of them has the number 2^64 - 1.
pub(crate) fn number_above(from: u64, files: &[AddedFile]) -> Result<u64, ImportFault>
    ensures above { IfOk result (IsAbove from files.now) }
    ensures spent { IfErr result (λ e. (e ≡ NumbersSpent) × HasLastNumber files.now) }
{
    let mut next = from;
    for file in files {
        if file.file.number == u64::MAX {
            return Err(ImportFault::NumbersSpent);
        }
        next = next.max(file.file.number + 1);
    }
    Ok(next)
}
