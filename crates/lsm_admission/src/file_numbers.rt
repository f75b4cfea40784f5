//! The numbers of the files of a shape.

ghost use Rattle.std.specs.Prelude.{◌≡◌, ◌++◌, IfErr, IfOk, OnOk};
ghost use Rattle.lsm_version.specs.FileNumbers.{AreDistinct, file_numbers, first_twice, numbers_of};
ghost use Rattle.lsm_verify.specs.CheckRefusal.{IsNumberRefusal};

use lsm_codec::List;
use lsm_manifest::FileMeta;
use lsm_verify::CheckFault;
use std::alloc::{AllocError, Global};

/// Appends the numbers of the files.
fn push_numbers(numbers: &mut Vec<u64>, files: &[FileMeta]) -> Result<(), AllocError>
    ensures { OnOk result (numbers.new.items ≡ numbers.old.items ++ file_numbers files.now) }
{
    for file in files {
        numbers.push(file.number)?;
    }
    Ok(())
}

/// The numbers of the files of all levels.
fn numbers_of(alloc: Global, levels: &[List<FileMeta>]) -> Result<Vec<u64>, AllocError>
    ensures { IfOk result (λ v. v.items ≡ numbers_of levels.now) }
{
    let mut numbers = Vec::new(alloc);
    for level in levels {
        push_numbers(&mut numbers, level.as_slice())?;
    }
    Ok(numbers)
}

/// The first number that stands beside itself.
fn first_twice(numbers: &[u64]) -> Option<u64>
    ensures { result ≡ first_twice numbers.now }
{
    let mut rest = numbers;
    while let [first, tail @ ..] = rest {
        if let [second, ..] = tail
            && first == second
        {
            return Some(*first);
        }
        rest = tail;
    }
    None
}

/// Refuses the least number that two files have.
pub(crate) fn judge_numbers(alloc: Global, levels: &[List<FileMeta>]) -> Result<(), CheckFault>
    ensures ok { OnOk result (AreDistinct (numbers_of levels.now)) }
    ensures refused { IfErr result (λ e. IsNumberRefusal (numbers_of levels.now) e) }
{
    let mut numbers = numbers_of(alloc, levels)?;
    numbers.sort()?;
    match first_twice(&numbers) {
        None => Ok(()),
        Some(number) => Err(CheckFault::DoubleFile(number)),
    }
}
