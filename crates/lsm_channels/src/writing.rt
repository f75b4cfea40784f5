//! Writes come in as one batch.

ghost use Rattle.std.specs.Prelude.{◌≡◌, ◌++◌, ◌∷◌, [], IfErr, IfOk, OnOk};
ghost use Rattle.lsm_frames.specs.Views.{written_of};
ghost use Rattle.lsm_history.specs.History.{IsLater};
ghost use Rattle.lsm_lines.specs.LastWrites.{KeepsLast};
ghost use Rattle.lsm_channels.specs.Keeping.{IsKeptByLooks, IsKeptByWrites, IsKnown};
ghost use Rattle.lsm_store.specs.Background.{IsKeptByIngest};
ghost use Rattle.lsm_channels.specs.Writing.{IsIn, IsOut, IsPutFault, IsUngathered};
ghost use Rattle.lsm_channels.specs.Writing.{IsWriteFault, IsWritten};
ghost use Rattle.lsm_channels.specs.Writing.{write_of, writes_of};

use crate::knowing::note;
use lsm_batch::{Batch, Write as KeyWrite};
use lsm_codec::Bytes;
use lsm_frames::{Write, Writes};
use lsm_history::Memory;
use lsm_lines::{PutFault, WriteBuffer};
use lsm_slots::Boarded;
use lsm_state::{Ingested, StateFault};
use lsm_store::{Background, Invariant, Store};
use lsm_table::{NamedShelf, Shelf};
use std::alloc::{AllocError, Global};
use std::sync::Wait;

/// A copy of bytes, in memory of its own.
fn bytes_of(alloc: Global, bytes: &[u8]) -> Result<Bytes, AllocError>
    ensures { IfOk result (λ b. b ≡ bytes.now) }
{
    Ok(Bytes::of(Vec::from_slice(alloc, bytes)?))
}

/// A copy of a write, in memory of its own.
fn copy_of(alloc: Global, write: Write<'_>) -> Result<KeyWrite, AllocError>
    ensures { IfOk result (λ w. w ≡ write_of (written_of write.entry)) }
{
    let key = bytes_of(alloc, write.key)?;
    let value = match write.value {
        Some(value) => Some(bytes_of(alloc, value)?),
        None => None,
    };
    Ok(KeyWrite { key, value })
}

/// Puts a copy of a write into the buffer.
#[tactic(auto, using(crate::proofs::WriteLaws::large_last))]
fn put(alloc: Global, buffer: &mut WriteBuffer, write: Write<'_>) -> Result<(), StateFault>
    ensures ok { OnOk result (buffer.new ≡ buffer.old ++ write_of (written_of write.entry) ∷ []) }
    ensures refused { IfErr result (IsPutFault buffer.old (write_of (written_of write.entry))) }
{
    let copy = copy_of(alloc, write)?;
    match buffer.put(copy) {
        Ok(()) => Ok(()),
        Err(PutFault::OutOfMemory) => Err(StateFault::OutOfMemory),
        Err(PutFault::Full(_)) => Err(StateFault::TooLarge),
        Err(PutFault::Large) => Err(StateFault::TooLarge),
    }
}

/// Copies of these writes, in their order.
fn gathered(alloc: Global, writes: Writes<'_>) -> Result<WriteBuffer, StateFault>
    ensures all { IfOk result (λ b. b ≡ writes_of writes.entry) }
    ensures refused { IfErr result (IsUngathered writes.entry) }
{
    let mut writes = writes;
    let mut buffer = WriteBuffer::new(alloc);
    'writes: while let Some(write) = writes.next() {
        match put(alloc, &mut buffer, write) {
            Ok(()) => {}
            Err(fault) => return Err(fault),
        }
    }
    Ok(buffer)
}

/// The batch of these writes: of each key the last one.
fn batch_of(alloc: Global, writes: Writes<'_>) -> Result<Batch, StateFault>
    ensures last { IfOk result (KeepsLast (writes_of writes.entry)) }
    ensures refused { IfErr result (IsUngathered writes.entry) }
{
    let buffer = gathered(alloc, writes)?;
    Ok(buffer.into_batch(alloc)?)
}

/// Brings a batch in: with it all that had come in then, to be remembered.
fn bring_in<N: Boarded, S: Shelf, K: Invariant, R: Wait>(
    rt: &R,
    alloc: Global,
    store: &Store<N, S, K>,
    background: &Background,
    shelf: &mut NamedShelf<N, S>,
    batch: &Batch,
) -> Result<(Ingested, Memory<N>), StateFault>
    requires kept { IsKeptByIngest (S.refuses N.place) batch.now K.keeps }
    ensures ok { IfOk result (λ r. IsIn K.keeps batch.now r.0 r.1 shelf.old shelf.new) }
    ensures refused { IfErr result (λ e. IsOut (S.refuses N.place) K.keeps batch.now e
        shelf.old shelf.new) }
{
    match background.ingest(rt, alloc, store, shelf, batch) {
        Ok((came, left)) => Ok((came, left)),
        Err(fault) => Err(fault),
    }
}

/// Brings the last write of each key in, all as one batch, and remembers all that had come in then.
/// Where level 0 is full it waits for the workers.
#[tactic(auto, using(crate::proofs::KnownLaws::later_same))]
pub(crate) fn write<N: Boarded, S: Shelf, K: Invariant, R: Wait>(
    rt: &R,
    alloc: Global,
    store: &Store<N, S, K>,
    background: &Background,
    memory: &mut Memory<N>,
    shelf: &mut NamedShelf<N, S>,
    writes: Writes<'_>,
) -> Result<Ingested, StateFault>
    requires looks { IsKeptByLooks K.keeps }
    requires writes { IsKeptByWrites (S.refuses N.place) writes K.keeps }
    ensures ok { IfOk result (λ r. IsWritten K.keeps writes.entry r memory.new shelf.old shelf.new) }
    ensures known { IsLater memory.new memory.old }
    ensures refused { IfErr result (λ e.
        IsWriteFault (S.refuses N.place) K.keeps writes.entry e shelf.old shelf.new) }
    ensures kept { IsKnown K.keeps memory.old → IsKnown K.keeps memory.new }
{
    let batch = batch_of(alloc, writes)?;
    match bring_in(rt, alloc, store, background, shelf, &batch) {
        Ok((came, left)) => {
            note(rt, store, memory, left);
            Ok(came)
        }
        Err(fault) => Err(fault),
    }
}
