//! Reading the fields of an edit.

ghost use Rattle.std.specs.Prelude.{◌≡◌, ◌+◌, ◌-◌, ◌<◌, ◌≤◌, ℕ, List, length, Ok, Err};
ghost use Rattle.lsm_manifest.specs.EditReading.{short_number_at, number_at, level_at, bytes_at};
ghost use Rattle.lsm_manifest.specs.EditReading.{key_at, pointer_at, deleted_at, keys_at};
ghost use Rattle.lsm_manifest.specs.EditReading.{size_keys_at, file_at, added_at, body_at};
ghost use Rattle.lsm_manifest.specs.EditReading.{field_at};

use crate::edit_fault::EditFault;
use crate::file_meta::FileMeta;
use crate::parts::{AddedFile, CompactPointer, DeletedFile};
use lsm_codec::{Bytes, get_varint32, get_varint64, is_internal_key};
use std::alloc::Global;

/// A field of an edit.
#[derive(Drop)]
pub(crate) enum Field {
    Comparator(Bytes),
    Log(u64),
    PrevLog(u64),
    Next(u64),
    Last(u64),
    Pointer(CompactPointer),
    Deleted(DeletedFile),
    Added(AddedFile),
}

ghost use Rattle.lsm_manifest.specs.EditView.{Gives, field_of, added_parts};

impl Field {
    /// The field at the front of a text, and what follows it.
    #[tactic(auto, unfolding(crate::specs::EditReading::field_at))]
    pub(crate) fn next(alloc: Global, text: &[u8]) -> Result<(Field, &[u8]), EditFault>
        ensures { Gives (λ x. (field_of x.0, x.1.now)) result (field_at text.now) }
    {
        let (tag, rest) = short_number(text)?;
        Field::body(alloc, tag, rest)
    }

    /// The parts that follow a tag.
    #[tactic(auto, unfolding(crate::specs::EditReading::body_at))]
    fn body(alloc: Global, tag: u32, text: &[u8]) -> Result<(Field, &[u8]), EditFault>
        ensures { Gives (λ x. (field_of x.0, x.1.now)) result (body_at tag text.now) }
    {
        if tag == 1 {
            let (x, rest) = bytes(text)?;
            return Ok((Field::Comparator(owned(alloc, x)?), rest));
        }
        if tag == 2 {
            let (x, rest) = number(text)?;
            return Ok((Field::Log(x), rest));
        }
        if tag == 9 {
            let (x, rest) = number(text)?;
            return Ok((Field::PrevLog(x), rest));
        }
        if tag == 3 {
            let (x, rest) = number(text)?;
            return Ok((Field::Next(x), rest));
        }
        if tag == 4 {
            let (x, rest) = number(text)?;
            return Ok((Field::Last(x), rest));
        }
        if tag == 5 {
            let (pointer, rest) = pointer(alloc, text)?;
            return Ok((Field::Pointer(pointer), rest));
        }
        if tag == 6 {
            let (deleted, rest) = deleted(text)?;
            return Ok((Field::Deleted(deleted), rest));
        }
        if tag == 7 {
            let (added, rest) = added(alloc, text)?;
            return Ok((Field::Added(added), rest));
        }
        Err(EditFault::UnknownTag(tag))
    }
}

/// A copy of the bytes, in memory of its own.
fn owned(alloc: Global, bytes: &[u8]) -> Result<Bytes, EditFault>
    ensures { Gives (λ x. x) result (Ok bytes.now) }
{
    Ok(Bytes::of(Vec::from_slice(alloc, bytes)?))
}

#[tactic(auto, unfolding(crate::specs::EditReading::short_number_at))]
fn short_number(text: &[u8]) -> Result<(u32, &[u8]), EditFault>
    ensures { Gives (λ x. (x.0, x.1.now)) result (short_number_at text.now) }
{
    let Ok((n, used)) = get_varint32(text) else {
        return Err(EditFault::EditCut);
    };
    let (_, rest) = text.split_at(used);
    Ok((n, rest))
}

#[tactic(auto, unfolding(crate::specs::EditReading::number_at))]
fn number(text: &[u8]) -> Result<(u64, &[u8]), EditFault>
    ensures { Gives (λ x. (x.0, x.1.now)) result (number_at text.now) }
{
    let Ok((n, used)) = get_varint64(text) else {
        return Err(EditFault::EditCut);
    };
    let (_, rest) = text.split_at(used);
    Ok((n, rest))
}

#[tactic(auto, unfolding(crate::specs::EditReading::level_at))]
fn level(text: &[u8]) -> Result<(u8, &[u8]), EditFault>
    ensures { Gives (λ x. (x.0, x.1.now)) result (level_at text.now) }
{
    let (n, rest) = short_number(text)?;
    if n > 6 {
        return Err(EditFault::BadLevel(n));
    }
    Ok((n as u8, rest))
}

/// A length, and so many bytes.
#[tactic(auto, unfolding(crate::specs::EditReading::bytes_at))]
fn bytes(text: &[u8]) -> Result<(&[u8], &[u8]), EditFault>
    ensures { Gives (λ x. (x.0.now, x.1.now)) result (bytes_at text.now) }
{
    let (size, rest) = short_number(text)?;
    if size as usize > rest.len() {
        return Err(EditFault::EditCut);
    }
    let (front, rest) = rest.split_at(size as usize);
    Ok((front, rest))
}

#[tactic(auto, unfolding(crate::specs::EditReading::key_at))]
fn key(text: &[u8]) -> Result<(&[u8], &[u8]), EditFault>
    ensures { Gives (λ x. (x.0.now, x.1.now)) result (key_at text.now) }
{
    let (key, rest) = bytes(text)?;
    if !is_internal_key(key) {
        return Err(EditFault::BadEditKey);
    }
    Ok((key, rest))
}

#[tactic(auto, unfolding(crate::specs::EditReading::pointer_at))]
fn pointer(alloc: Global, text: &[u8]) -> Result<(CompactPointer, &[u8]), EditFault>
    ensures { Gives (λ x. ((x.0.level, x.0.key), x.1.now)) result (pointer_at text.now) }
{
    let (level, rest) = level(text)?;
    let (front, rest) = key(rest)?;
    let key = owned(alloc, front)?;
    Ok((CompactPointer { level, key }, rest))
}

#[tactic(auto, unfolding(crate::specs::EditReading::deleted_at))]
fn deleted(text: &[u8]) -> Result<(DeletedFile, &[u8]), EditFault>
    ensures { Gives (λ x. ((x.0.level, x.0.number), x.1.now)) result (deleted_at text.now) }
{
    let (level, rest) = level(text)?;
    let (number, rest) = number(rest)?;
    Ok((DeletedFile { level, number }, rest))
}

#[tactic(auto, unfolding(crate::specs::EditReading::keys_at))]
fn keys(text: &[u8]) -> Result<((&[u8], &[u8]), &[u8]), EditFault>
    ensures { Gives (λ x. ((x.0.0.now, x.0.1.now), x.1.now)) result (keys_at text.now) }
{
    let (smallest, rest) = key(text)?;
    let (largest, rest) = key(rest)?;
    Ok(((smallest, largest), rest))
}

#[tactic(auto, unfolding(crate::specs::EditReading::size_keys_at, crate::specs::EditReading::file_at, crate::specs::EditReading::added_at))]
fn added(alloc: Global, text: &[u8]) -> Result<(AddedFile, &[u8]), EditFault>
    ensures { Gives (λ x. (added_parts x.0, x.1.now)) result (added_at text.now) }
{
    let (level, rest) = level(text)?;
    let (file, rest) = number(rest)?;
    let (size, rest) = number(rest)?;
    let ((first, last), rest) = keys(rest)?;
    let smallest = owned(alloc, first)?;
    let largest = owned(alloc, last)?;
    let file = FileMeta {
        number: file,
        size,
        smallest,
        largest,
    };
    Ok((AddedFile { level, file }, rest))
}
