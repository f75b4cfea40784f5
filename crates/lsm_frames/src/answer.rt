//! Answers of a fixed form, each a whole frame.

ghost use Rattle.std.specs.Prelude.{◌≡◌, ◌+◌, ◌<◌, ◌≤◌, ◌↔◌, ◌++◌, ◌∷◌, length, IfOk, OnOk, Err};
ghost use Rattle.std.specs.List.{flat_map};
ghost use Rattle.lsm_frames.specs.declared.answer_fault.AnswerFault.TheVariants.{TooLong};
ghost use Rattle.lsm_frames.specs.Texts.{number64, frame};
ghost use Rattle.lsm_frames.specs.Answers.{answer_text, size_text, IsDone, IsRefused, IsMalformed};
ghost use Rattle.lsm_frames.specs.Answers.{Wrote, Nothing, Pinned, Removed, Told};

use crate::answer_fault::AnswerFault;
use crate::frame::{begin, put_number, seal};
use crate::length::MOST_ANSWER;
use crate::level_size::LevelSize;
use std::alloc::{AllocError, Global};

/// The answer to a write: the first and the last sequence of its batch.
pub fn wrote(alloc: Global, first: u64, last: u64) -> Result<Vec<u8>, AllocError>
    ensures { IfOk result (λ v. v.items ≡ frame (answer_text (IsDone (Wrote first last)))) }
{
    two_numbers(alloc, first, last)
}

/// The answer that something was done of which there is nothing to tell: a release, a compaction,
/// the opening.
pub fn nothing(alloc: Global) -> Result<Vec<u8>, AllocError>
    ensures { IfOk result (λ v. v.items ≡ frame (answer_text (IsDone Nothing))) }
{
    Ok(seal(begin(alloc, 0)?))
}

/// The answer to a snapshot: its number and its sequence.
pub fn pinned(alloc: Global, number: u64, sequence: u64) -> Result<Vec<u8>, AllocError>
    ensures { IfOk result (λ v. v.items
        ≡ frame (answer_text (IsDone (Pinned number sequence)))) }
{
    two_numbers(alloc, number, sequence)
}

/// The answer to a collection: how many tables were removed.
pub fn removed(alloc: Global, tables: u64) -> Result<Vec<u8>, AllocError>
    ensures { IfOk result (λ v. v.items ≡ frame (answer_text (IsDone (Removed tables)))) }
{
    let mut bytes = begin(alloc, 0)?;
    put_number(&mut bytes, tables)?;
    Ok(seal(bytes))
}

/// The answer to statistics: the last sequence, and what each level has.
pub fn told(alloc: Global, last: u64, levels: &[LevelSize]) -> Result<Vec<u8>, AllocError>
    requires { length levels.now ≡ 7 }
    ensures { IfOk result (λ v. v.items
        ≡ frame (answer_text (IsDone (Told last levels.now)))) }
{
    let mut bytes = begin(alloc, 0)?;
    put_number(&mut bytes, last)?;
    put_sizes(&mut bytes, levels)?;
    Ok(seal(bytes))
}

/// A refusal: its number, which is the status, and its name. `TooLong` for a name that no answer
/// has room for.
pub fn refused(alloc: Global, number: u8, name: &str) -> Result<Vec<u8>, AnswerFault>
    ensures ok { IfOk result (λ v. v.items ≡ frame (answer_text (IsRefused number name.now))) }
    ensures long { result ≡ Err TooLong ↔ MOST_ANSWER < length name.now + 1 }
{
    if name.len() >= MOST_ANSWER {
        return Err(AnswerFault::TooLong);
    }
    let mut bytes = begin(alloc, number)?;
    bytes.extend_from_slice(name.as_bytes())?;
    Ok(seal(bytes))
}

/// The answer to bytes that are no request.
pub fn unread(alloc: Global) -> Result<Vec<u8>, AllocError>
    ensures { IfOk result (λ v. v.items ≡ frame (answer_text IsMalformed)) }
{
    Ok(seal(begin(alloc, 200)?))
}

fn two_numbers(alloc: Global, first: u64, second: u64) -> Result<Vec<u8>, AllocError>
    ensures { IfOk result (λ v. v.items ≡ frame (0 ∷ number64 first ++ number64 second)) }
{
    let mut bytes = begin(alloc, 0)?;
    put_number(&mut bytes, first)?;
    put_number(&mut bytes, second)?;
    Ok(seal(bytes))
}

/// Appends what a level has. After an `Err` some of it may stand there.
fn put_size(out: &mut Vec<u8>, level: &LevelSize) -> Result<(), AllocError>
    ensures { OnOk result (out.new.items ≡ out.old.items ++ size_text level.now) }
{
    put_number(out, level.files)?;
    put_number(out, level.bytes)
}

/// Appends what each level has. After an `Err` some of it may stand there.
fn put_sizes(out: &mut Vec<u8>, levels: &[LevelSize]) -> Result<(), AllocError>
    ensures { OnOk result (out.new.items ≡ out.old.items ++ flat_map size_text levels.now) }
{
    for level in levels {
        put_size(out, level)?;
    }
    Ok(())
}
