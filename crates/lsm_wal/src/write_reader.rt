//! The writes of a batch.

ghost use Rattle.std.specs.Prelude.{◌≡◌, ◌≤◌, length, Ok};
ghost use Rattle.lsm_wal.specs.Reading.{bytes_at, deleted_at, put_at, kind_at, next_at};
ghost use Rattle.lsm_wal.specs.View.{Gives};

use crate::write_log_fault::WriteLogFault;
use lsm_batch::Write;
use lsm_codec::{Bytes, get_varint32};
use std::alloc::Global;

/// The write at the front of a text, and what follows it.
#[tactic(auto, unfolding(crate::specs::Reading::next_at))]
pub(crate) fn next_write(alloc: Global, text: &[u8]) -> Result<(Write, &[u8]), WriteLogFault>
    ensures { Gives (λ x. (x.0, x.1.now)) result (next_at text.now) }
{
    match text {
        [] => Err(WriteLogFault::WriteCut),
        [kind, rest @ ..] => write_of(alloc, *kind, rest),
    }
}

/// The parts that follow a type.
#[tactic(auto, unfolding(crate::specs::Reading::kind_at))]
fn write_of(alloc: Global, kind: u8, text: &[u8]) -> Result<(Write, &[u8]), WriteLogFault>
    ensures { Gives (λ x. (x.0, x.1.now)) result (kind_at kind text.now) }
{
    if kind == 0 {
        return deleted(alloc, text);
    }
    if kind == 1 {
        return put(alloc, text);
    }
    Err(WriteLogFault::WriteKind(kind))
}

/// A key.
#[tactic(auto, unfolding(crate::specs::Reading::deleted_at))]
fn deleted(alloc: Global, text: &[u8]) -> Result<(Write, &[u8]), WriteLogFault>
    ensures { Gives (λ x. (x.0, x.1.now)) result (deleted_at text.now) }
{
    let (front, rest) = bytes(text)?;
    let key = owned(alloc, front)?;
    Ok((Write { key, value: None }, rest))
}

/// A key and a value.
#[tactic(auto, unfolding(crate::specs::Reading::put_at))]
fn put(alloc: Global, text: &[u8]) -> Result<(Write, &[u8]), WriteLogFault>
    ensures { Gives (λ x. (x.0, x.1.now)) result (put_at text.now) }
{
    let (front, rest) = bytes(text)?;
    let (second, rest) = bytes(rest)?;
    let key = owned(alloc, front)?;
    let value = owned(alloc, second)?;
    Ok((
        Write {
            key,
            value: Some(value),
        },
        rest,
    ))
}

/// A copy of the bytes, in memory of its own.
fn owned(alloc: Global, bytes: &[u8]) -> Result<Bytes, WriteLogFault>
    ensures { Gives (λ x. x) result (Ok bytes.now) }
{
    Ok(Bytes::of(Vec::from_slice(alloc, bytes)?))
}

/// A length, and so many bytes.
#[tactic(auto, unfolding(crate::specs::Reading::bytes_at))]
fn bytes(text: &[u8]) -> Result<(&[u8], &[u8]), WriteLogFault>
    ensures { Gives (λ x. (x.0.now, x.1.now)) result (bytes_at text.now) }
{
    let Ok((size, used)) = get_varint32(text) else {
        return Err(WriteLogFault::WriteCut);
    };
    let (_, rest) = text.split_at(used);
    if size as usize > rest.len() {
        return Err(WriteLogFault::WriteCut);
    }
    let (front, rest) = rest.split_at(size as usize);
    Ok((front, rest))
}
