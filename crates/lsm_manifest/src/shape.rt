//! What a row of edits comes to.

ghost use Rattle.std.specs.Prelude.{◌≡◌, ◌≤◌, ◌↔◌, ◌++◌, ◌∷◌, ℕ, List, [], None, get_or, IfOk};
ghost use Rattle.std.specs.Prelude.{IfErr};
ghost use Rattle.std.specs.Option.{option_or};
ghost use Rattle.lsm_manifest.specs.EditFit.{Change};
ghost use Rattle.lsm_manifest.specs.Replay.{Deletion, FileAt, AreNew, AreApart, AreFresh, Stands};
ghost use Rattle.lsm_manifest.specs.Replay.{StandsIn, IsInnocent, AreInnocent, IsFault, last_log};
ghost use Rattle.lsm_manifest.specs.Replay.{last_prev_log, last_next, last_sequence, last_pointer};
ghost use Rattle.lsm_manifest.specs.Replay.{pointer_in};
ghost use Rattle.lsm_manifest.specs.Standing.{file_at, Tracks};

use crate::edit::Edit;
use crate::file_meta::FileMeta;
use crate::last_values::{LastValues, last_key};
use crate::replay_fault::ReplayFault;
use crate::standing::Standing;
use lsm_codec::{Bytes, List};
use std::alloc::{AllocError, Global};

/// What a row of edits comes to.
#[derive(Debug, Drop)]
pub struct Shape {
    /// The files of the seven levels, each level by smallest internal key, then number.
    pub levels: [List<FileMeta>; 7],
    /// The compaction pointers of the levels, each an internal key.
    pub pointers: [Option<Bytes>; 7],
    /// The number of the write-ahead log.
    pub log: u64,
    /// The number of the write-ahead log before it.
    pub prev_log: u64,
    /// The next file number.
    pub next: u64,
    /// The last sequence.
    pub last: u64,
}

ghost use Rattle.lsm_manifest.specs.HeldLevel.{HoldsLevel};
ghost use Rattle.lsm_manifest.specs.Shape.{Form, IsReplayed, IsRefused};

/// The files that some edit adds and no later edit deletes, of levels 0 to 6, with the last value
/// of each number field and pointer; the previous log number is 0 where no edit has it.
/// `OtherComparator` and `DoubleFile` are those of the first edit that has one of them (the
/// comparator is judged first); then come `NoNextFile`, `NoLogNumber` and `NoLastSequence`.
/// `OutOfMemory` where memory was refused.
pub fn replay(alloc: Global, edits: &[Edit]) -> Result<Shape, ReplayFault>
    // The shape is what the edits come to, and none of them has a fault.
    ensures found { IfOk result (λ shape. IsReplayed edits.now shape) }

    // The shape that the edits come to is returned, unless memory runs out.
    ensures only { (shape : Form) → IsReplayed edits.now shape
        → IfOk result (λ s. s ≡ shape) × IfErr result (λ fault. fault ≡ ReplayFault.OutOfMemory) }

    // Which fault it is.
    ensures refused { IfErr result (λ fault. IsRefused edits.now fault) }
{
    come_to(alloc, edits)
}

fn come_to(alloc: Global, edits: &[Edit]) -> Result<Shape, ReplayFault>
    ensures found { IfOk result (λ shape. IsReplayed edits.now shape) }
    ensures refused { IfErr result (λ fault. IsRefused edits.now fault) }
{
    let standing = stand(alloc, edits)?;
    let numbers = LastValues::of(edits);
    let Some(next) = numbers.next else {
        return Err(ReplayFault::NoNextFile);
    };
    let Some(log) = numbers.log else {
        return Err(ReplayFault::NoLogNumber);
    };
    let Some(last) = numbers.last else {
        return Err(ReplayFault::NoLastSequence);
    };
    let levels = levels(alloc, &standing)?;
    let pointers = pointers(alloc, edits)?;
    Ok(Shape {
        levels,
        pointers,
        log,
        prev_log: numbers.prev_log.unwrap_or(0),
        next,
        last,
    })
}

/// A law: edits come to one shape at most.
pub fn one_shape()
    ensures { (es : List Change) (s t : Form) → IsReplayed es s → IsReplayed es t → s ≡ t }
{}

/// A law: where no edit has a fault, no two files that stand have one number.
pub fn one_file_a_number()
    ensures { (es : List Change) → AreInnocent es → (a b : FileAt) → Stands es a → Stands es b
        → a.file.number ≡ b.file.number → a ≡ b }
{}

/// A law: additions have new numbers where no two of them have one, and none of the files that
/// stand when they come has one.
pub fn fresh_additions()
    ensures { (es : List Change) (ds : List Deletion) (xs : List FileAt) → AreApart xs
        → AreFresh es ds xs → AreNew es ds xs }
{}

/// A law: what stands after one edit more, when it has no fault, and the last values then.
pub fn one_more_edit()
    ensures innocent { (es : List Change) (e : Change) → AreInnocent (es ++ e ∷ [])
        ↔ (AreInnocent es × IsInnocent es e) }
    ensures log { (es : List Change) (e : Change)
        → last_log (es ++ e ∷ []) ≡ option_or e.log (last_log es) }
    ensures prev_log { (es : List Change) (e : Change)
        → last_prev_log (es ++ e ∷ []) ≡ option_or e.prev_log (last_prev_log es) }
    ensures next { (es : List Change) (e : Change)
        → last_next (es ++ e ∷ []) ≡ option_or e.next (last_next es) }
    ensures last { (es : List Change) (e : Change)
        → last_sequence (es ++ e ∷ []) ≡ option_or e.last (last_sequence es) }
    ensures pointer { (level : ℕ) (es : List Change) (e : Change) → last_pointer level
        (es ++ e ∷ []) ≡ option_or (pointer_in level e.pointers) (last_pointer level es) }
    ensures stands { (es : List Change) (e : Change) (a : FileAt) → Stands (es ++ e ∷ []) a
        ↔ StandsIn es e.deleted e.added a }
{}

/// The files that stand after the edits.
fn stand<'a>(alloc: Global, edits: &'a [Edit]) -> Result<Standing<'a>, ReplayFault>
    ensures ok { IfOk result (λ s. Tracks (Stands edits.now) (file_at s) × AreInnocent edits.now) }
    ensures err { IfErr result (λ fault. IsFault edits.now fault) }
{
    let mut standing = Standing::new(alloc);
    for edit in edits {
        standing.apply(edit)?;
    }
    Ok(standing)
}

fn levels(alloc: Global, standing: &Standing<'_>) -> Result<[List<FileMeta>; 7], AllocError>
    ensures { IfOk result (λ levels. (es : List Change) → Tracks (Stands es) (file_at standing.now)
        → (level : ℕ) → level ≤ 6 → HoldsLevel es level (get_or levels level [])) }
{
    let (level_0, level_1) = two_levels(alloc, standing, 0, 1)?;
    let (level_2, level_3) = two_levels(alloc, standing, 2, 3)?;
    let (level_4, level_5) = two_levels(alloc, standing, 4, 5)?;
    let level_6 = standing.level(alloc, 6)?;
    Ok([
        level_0, level_1, level_2, level_3, level_4, level_5, level_6,
    ])
}

/// The files of two levels.
fn two_levels(
    alloc: Global,
    standing: &Standing<'_>,
    first: u8,
    second: u8,
) -> Result<(List<FileMeta>, List<FileMeta>), AllocError>
    ensures first { IfOk result (λ r. (es : List Change)
        → Tracks (Stands es) (file_at standing.now) → HoldsLevel es first r.0) }
    ensures second { IfOk result (λ r. (es : List Change)
        → Tracks (Stands es) (file_at standing.now) → HoldsLevel es second r.1) }
{
    let files = standing.level(alloc, first)?;
    Ok((files, standing.level(alloc, second)?))
}

fn pointers(alloc: Global, edits: &[Edit]) -> Result<[Option<Bytes>; 7], AllocError>
    ensures { IfOk result (λ pointers. (level : ℕ) → level ≤ 6
        → get_or pointers level None ≡ last_pointer level edits.now) }
{
    let (pointer_0, pointer_1) = two_pointers(alloc, edits, 0, 1)?;
    let (pointer_2, pointer_3) = two_pointers(alloc, edits, 2, 3)?;
    let (pointer_4, pointer_5) = two_pointers(alloc, edits, 4, 5)?;
    let pointer_6 = last_key(alloc, edits, 6)?;
    Ok([
        pointer_0, pointer_1, pointer_2, pointer_3, pointer_4, pointer_5, pointer_6,
    ])
}

/// The last pointers of two levels.
fn two_pointers(
    alloc: Global,
    edits: &[Edit],
    first: u8,
    second: u8,
) -> Result<(Option<Bytes>, Option<Bytes>), AllocError>
    ensures first { IfOk result (λ r. r.0 ≡ last_pointer first edits.now) }
    ensures second { IfOk result (λ r. r.1 ≡ last_pointer second edits.now) }
{
    let pointer = last_key(alloc, edits, first)?;
    Ok((pointer, last_key(alloc, edits, second)?))
}
