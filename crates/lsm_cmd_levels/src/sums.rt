//! What a level counts, by a shape alone. All sums are told in 128 bits, whatever sizes a manifest
//! names; only more files than memory holds could come to more.

ghost use Rattle.std.specs.Prelude.{◌≡◌, ◌+◌, ◌*◌, ◌≤◌, IfOk, cond, length};
ghost use Rattle.std.specs.List.{sum_by};
ghost use Rattle.lsm_cmd_levels.specs.Sums.{bytes_of, files_at, load, weight};

use lsm_codec::List;
use lsm_manifest::{FileMeta, Shape};
use lsm_picker::scale;
use std::alloc::AllocError;

/// The sum of two numbers.
pub(crate) fn sum_of(a: u128, b: u128) -> Result<u128, AllocError>
    ensures { IfOk result (λ n. n ≡ a + b) }
{
    a.checked_add(b).ok_or(AllocError)
}

/// The product of two numbers.
pub(crate) fn product_of(a: u128, b: u128) -> Result<u128, AllocError>
    ensures { IfOk result (λ n. n ≡ a * b) }
{
    a.checked_mul(b).ok_or(AllocError)
}

/// A number, or nothing.
pub(crate) fn counted(counts: bool, n: u64) -> u128
    ensures { result ≡ cond counts n 0 }
{
    if counts { u128::from(n) } else { 0 }
}

/// The files of a level.
pub(crate) fn files_at(shape: &Shape, level: usize) -> &[FileMeta]
    ensures { result.now ≡ files_at shape.now level }
{
    match shape.levels.get(level) {
        Some(files) => files.as_slice(),
        None => &[],
    }
}

/// The bytes of files.
#[tactic(auto)]
pub(crate) fn bytes_of(files: &[FileMeta]) -> Result<u128, AllocError>
    ensures { IfOk result (λ n. n ≡ bytes_of files.now) }
{
    let mut bytes = 0;
    for file in files {
        bytes = sum_of(bytes, u128::from(file.size))?;
    }
    Ok(bytes)
}

/// The bytes of the files of these levels.
#[tactic(auto, using(crate::proofs::LoopLaws::sum_more, crate::proofs::LoopLaws::sum_all))]
pub(crate) fn all_bytes(levels: &[List<FileMeta>]) -> Result<u128, AllocError>
    ensures { IfOk result (λ n. n ≡ sum_by bytes_of levels.now) }
{
    let mut sum = 0;
    for files in levels {
        sum = sum_of(sum, bytes_of(files.as_slice())?)?;
    }
    Ok(sum)
}

/// How many files these levels have.
#[tactic(auto, using(crate::proofs::LoopLaws::sum_more, crate::proofs::LoopLaws::sum_all))]
pub(crate) fn all_files(levels: &[List<FileMeta>]) -> Result<u128, AllocError>
    ensures { IfOk result (λ n. n ≡ sum_by length levels.now) }
{
    let mut sum = 0;
    for files in levels {
        sum = sum_of(sum, files.as_slice().len() as u128)?;
    }
    Ok(sum)
}

/// What counts of a level's files: at level 0 their number, at the others their bytes.
fn load(level: usize, files: &[FileMeta]) -> Result<u128, AllocError>
    ensures { IfOk result (λ n. n ≡ load level files.now) }
{
    match level {
        0 => Ok(files.len() as u128),
        _ => bytes_of(files),
    }
}

/// The score of a level, 0 to 5, over the limit of level 5.
#[tactic(auto, unfolding(crate::specs::Sums::weight))]
pub(crate) fn weight(level: usize, files: &[FileMeta]) -> Result<u128, AllocError>
    requires { level ≤ 5 }
    ensures { IfOk result (λ n. n ≡ weight level files.now) }
{
    product_of(load(level, files)?, scale(level as u8))
}
