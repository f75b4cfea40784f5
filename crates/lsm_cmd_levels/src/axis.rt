//! Where keys are on a picture.

ghost use Rattle.std.specs.Prelude.{◌≡◌, IfOk};
ghost use Rattle.std.specs.List.{sum_by};
ghost use Rattle.lsm_cmd_levels.specs.Axis.{across, before, begin_of, end_of, room, up_to};

use crate::span::user_of;
use crate::sums::{all_bytes, counted, product_of, sum_of};
use lsm_codec::List;
use lsm_manifest::{FileMeta, Shape};
use lsm_model::is_at_most;
use std::alloc::AllocError;

/// How wide a picture is.
const WIDTH: u128 = 100_000;

/// The room of the ends of a file that are before a key.
fn before(key: &[u8], file: &FileMeta) -> Result<u128, AllocError>
    ensures { IfOk result (λ n. n ≡ before key.now file.now) }
{
    let low = counted(
        !is_at_most(key, user_of(file.smallest.as_slice())),
        file.size,
    );
    let high = counted(
        !is_at_most(key, user_of(file.largest.as_slice())),
        file.size,
    );
    sum_of(low, high)
}

/// The room of the ends of a file that are not behind a key.
fn up_to(key: &[u8], file: &FileMeta) -> Result<u128, AllocError>
    ensures { IfOk result (λ n. n ≡ up_to key.now file.now) }
{
    let low = counted(
        is_at_most(user_of(file.smallest.as_slice()), key),
        file.size,
    );
    let high = counted(is_at_most(user_of(file.largest.as_slice()), key), file.size);
    sum_of(low, high)
}

/// The room of the ends in a level that are before a key.
#[tactic(auto, using(crate::proofs::LoopLaws::sum_more, crate::proofs::LoopLaws::sum_all))]
fn before_in(key: &[u8], files: &[FileMeta]) -> Result<u128, AllocError>
    ensures { IfOk result (λ n. n ≡ sum_by (before key.now) files.now) }
{
    let mut sum = 0;
    for file in files {
        sum = sum_of(sum, before(key, file)?)?;
    }
    Ok(sum)
}

/// The room of the ends in a level that are not behind a key.
#[tactic(auto, using(crate::proofs::LoopLaws::sum_more, crate::proofs::LoopLaws::sum_all))]
fn up_to_in(key: &[u8], files: &[FileMeta]) -> Result<u128, AllocError>
    ensures { IfOk result (λ n. n ≡ sum_by (up_to key.now) files.now) }
{
    let mut sum = 0;
    for file in files {
        sum = sum_of(sum, up_to(key, file)?)?;
    }
    Ok(sum)
}

/// The room of the ends in these levels that are before a key.
#[tactic(auto, using(crate::proofs::LoopLaws::sum_more, crate::proofs::LoopLaws::sum_all))]
fn before_all(key: &[u8], levels: &[List<FileMeta>]) -> Result<u128, AllocError>
    ensures { IfOk result (λ n. n ≡ sum_by (λ fs. sum_by (before key.now) fs) levels.now) }
{
    let mut sum = 0;
    for files in levels {
        sum = sum_of(sum, before_in(key, files.as_slice())?)?;
    }
    Ok(sum)
}

/// Where what begins at a key begins.
#[tactic(auto, unfolding(crate::specs::Axis::begin_of))]
pub(crate) fn begin_of(shape: &Shape, key: &[u8]) -> Result<u128, AllocError>
    ensures { IfOk result (λ n. n ≡ begin_of shape.now key.now) }
{
    before_all(key, &shape.levels)
}

/// The room of the ends in these levels that are not behind a key.
#[tactic(auto, using(crate::proofs::LoopLaws::sum_more, crate::proofs::LoopLaws::sum_all))]
fn up_to_all(key: &[u8], levels: &[List<FileMeta>]) -> Result<u128, AllocError>
    ensures { IfOk result (λ n. n ≡ sum_by (λ fs. sum_by (up_to key.now) fs) levels.now) }
{
    let mut sum = 0;
    for files in levels {
        sum = sum_of(sum, up_to_in(key, files.as_slice())?)?;
    }
    Ok(sum)
}

/// Where what ends at a key ends.
#[tactic(auto, unfolding(crate::specs::Axis::end_of))]
pub(crate) fn end_of(shape: &Shape, key: &[u8]) -> Result<u128, AllocError>
    ensures { IfOk result (λ n. n ≡ end_of shape.now key.now) }
{
    up_to_all(key, &shape.levels)
}

/// The room of all ends, at least 1.
#[tactic(auto, unfolding(crate::specs::Axis::room))]
fn room(shape: &Shape) -> Result<u128, AllocError>
    ensures { IfOk result (λ n. n ≡ room shape.now) }
{
    Ok(product_of(2, all_bytes(&shape.levels)?)?.max(1))
}

/// A place along the axis, in parts of the picture's width.
pub(crate) fn across(shape: &Shape, place: u128) -> Result<u128, AllocError>
    ensures { IfOk result (λ n. n ≡ across shape.now place) }
{
    Ok(product_of(place, WIDTH)? / room(shape)?)
}
