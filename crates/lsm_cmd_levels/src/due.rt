//! Which compaction is due next, by a shape alone.

ghost use Rattle.std.specs.Prelude.{◌≡◌, ◌≤◌, [], suc, IfNone, IfOk, IfSome};
ghost use Rattle.lsm_cmd_levels.specs.Dues.{IsDueNext, IsFirstDue, IsStart, bytes_cmp, is_beyond};
ghost use Rattle.lsm_cmd_levels.specs.Dues.{is_taken};
ghost use Rattle.lsm_cmd_levels.specs.Reaching.{IsReach, span_in, span_of};
ghost use Rattle.lsm_cmd_levels.specs.Sums.{files_at};

use crate::reaching::reach;
use crate::span::KeySpan;
use crate::sums::{files_at, weight};
use lsm_codec::{Bytes, key_parts};
use lsm_manifest::{FileMeta, Shape};
use lsm_picker::limit;
use std::alloc::AllocError;
use std::cmp::Ordering;

/// What a compaction that is due takes: the files of a level that meet a range, and those of the
/// next one that meet another.
#[derive(Clone, Copy, Debug)]
pub struct Due<'a> {
    pub(crate) level: u8,
    pub(crate) upper: KeySpan<'a>,
    pub(crate) lower: KeySpan<'a>,
}

/// The level that is due: that of the greatest score of at least 1, the lower one on a tie.
#[tactic(auto, using(crate::proofs::DueLaws::best_none, crate::proofs::DueLaws::best_more, crate::proofs::DueLaws::best_same, crate::proofs::DueLaws::best_done))]
fn due_level(shape: &Shape) -> Result<Option<usize>, AllocError>
    ensures { IfOk result (λ level. IsFirstDue shape.now level) }
{
    let mut best = None;
    let mut most = limit(5) - 1;
    for level in 0..6 {
        let weight = weight(level, files_at(shape, level))?;
        if weight > most {
            best = Some(level);
            most = weight;
        }
    }
    Ok(best)
}

/// The order of internal keys.
fn compare_keys(a: &[u8], b: &[u8]) -> Ordering
    ensures { result ≡ bytes_cmp a.now b.now }
{
    let (user, packed) = key_parts(a);
    let (other_user, other_packed) = key_parts(b);
    user.cmp(other_user).then(other_packed.cmp(&packed))
}

/// Whether a file's largest key is beyond the compaction pointer of its level, or there is none.
fn is_beyond(pointer: &Option<Bytes>, file: &FileMeta) -> bool
    ensures { result ≡ is_beyond pointer.now file.now }
{
    match pointer {
        None => true,
        Some(key) => compare_keys(file.largest.as_slice(), key.as_slice()).is_gt(),
    }
}

/// The file from which a compaction of a level starts.
#[tactic(auto, using(crate::proofs::DueLaws::none_beyond, crate::proofs::DueLaws::none_more, crate::proofs::DueLaws::start_here))]
fn start_of<'a>(pointer: &Option<Bytes>, files: &'a [FileMeta]) -> Option<&'a FileMeta>
    ensures some { IfSome result (λ f. IsStart pointer.now files.now f.now) }
    ensures none { IfNone result (files.now ≡ []) }
{
    for file in files {
        if is_beyond(pointer, file) {
            return Some(file);
        }
    }
    files.first()
}

/// What a compaction takes that starts from a file of a level.
fn due_from<'a>(shape: &'a Shape, level: usize, start: &'a FileMeta) -> Result<Due<'a>, AllocError>
    requires level { level ≤ 5 }
    ensures level { IfOk result (λ d. d.level ≡ level) }
    ensures upper { IfOk result (λ d.
        IsReach (files_at shape.now level) (span_of start.now) (span_in d.upper)) }
    ensures lower { IfOk result (λ d.
        IsReach (files_at shape.now (suc level)) (span_in d.upper) (span_in d.lower)) }
{
    let upper = reach(files_at(shape, level), KeySpan::of(start))?;
    let lower = reach(files_at(shape, level + 1), upper)?;
    Ok(Due {
        level: level as u8,
        upper,
        lower,
    })
}

/// The compaction that is due next; none where no level has a score of 1.
pub(crate) fn due_next(shape: &Shape) -> Result<Option<Due<'_>>, AllocError>
    ensures { IfOk result (λ due. IsDueNext shape.now due) }
{
    let Some(level) = due_level(shape)? else {
        return Ok(None);
    };
    let start = start_of(&shape.pointers[level], files_at(shape, level));
    match start {
        Some(start) => Ok(Some(due_from(shape, level, start)?)),
        None => Ok(None),
    }
}

/// Whether a file of a level is taken by what is due.
pub(crate) fn is_taken(due: Option<Due<'_>>, level: usize, file: &FileMeta) -> bool
    ensures { result ≡ is_taken due.entry level file.now }
{
    let Some(due) = due else {
        return false;
    };
    let own = KeySpan::of(file);
    let at = usize::from(due.level);
    (level == at && due.upper.meets(own)) || (level == at + 1 && due.lower.meets(own))
}
