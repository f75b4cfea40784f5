//! Writes that are gathered in memory.

ghost use Rattle.std.specs.Prelude.{◌≡◌, ◌<◌, ◌^◌, ◌∷◌, ◌++◌, [], length, sum_by};
ghost use Rattle.std.specs.Prelude.{IfErr, IfNone, IfOk, IfSome, OnErr, OnOk};
ghost use Rattle.lsm_batch.specs.Batches.{IsBatch, IsLarge, IsTooLarge, size_of};
ghost use Rattle.lsm_lines.specs.Buffering.{IsPutRefusal};
ghost use Rattle.lsm_lines.specs.LastWrites.{KeepsLast};

use lsm_batch::{Batch, MOST_BYTES, MOST_ENTRIES, Write, last_of_each};
use std::alloc::{AllocError, Global};
use std::marker::Model;

/// Why a write is not put.
#[derive(Debug, Drop)]
pub enum PutFault {
    /// With it a batch would pass a limit. It is handed back.
    Full(Write),
    /// Its key or its value is over its limit.
    Large,
    /// A growth of memory was refused.
    OutOfMemory,
}

/// Writes in the order in which they are put, of any keys, and no more than a batch may have.
/// Contracts see their list.
#[derive(Debug, Drop)]
pub struct WriteBuffer {
    writes: Vec<Write>,
    bytes: usize,
}

impl Model for WriteBuffer {
    ghost use Rattle.std.specs.Prelude.{◌≡◌, List, sum_by};
    ghost use Rattle.lsm_batch.specs.Batches.{IsTooLarge, size_of};
    ghost use Rattle.lsm_batch.specs.declared.write.Write.{Write};

    ghost Value = { List Write };

    ghost view = { λ b. b.writes.items };

    ghost invariant = { λ b. (b.bytes ≡ sum_by size_of b.writes.items)
        × (IsTooLarge b.writes.items → ⊥) };
}

impl WriteBuffer {
    /// No write is put yet.
    pub fn new(alloc: Global) -> WriteBuffer
        ensures { result ≡ [] }
    {
        WriteBuffer {
            writes: Vec::new(alloc),
            bytes: 0,
        }
    }

    /// How many writes were put. They pass no limit of a batch.
    pub fn len(&self) -> usize
        ensures len { result ≡ length self.now }
        ensures fits { IsTooLarge self.now → ⊥ }
    {
        self.writes.len()
    }

    /// Puts a write behind the others. `Full` where a batch may have it, but not beside them:
    /// 65,536 writes, 4 MiB of keys and values. `Large` where no batch may have it: 4,096 bytes of
    /// a key, 1 MiB of a value. `OutOfMemory`.
    pub fn put(&mut self, write: Write) -> Result<(), PutFault>
        ensures ok { OnOk result (self.new ≡ self.old ++ write ∷ []) }
        ensures err { OnErr result (self.new ≡ self.old) }
        ensures refused { IfErr result (IsPutRefusal self.old write) }
    {
        let Some(size) = write.fitting_size() else {
            return Err(PutFault::Large);
        };
        if self.writes.len() >= MOST_ENTRIES || self.bytes + size > MOST_BYTES {
            return Err(PutFault::Full(write));
        }
        let Ok(()) = self.writes.push(write) else {
            return Err(PutFault::OutOfMemory);
        };
        self.bytes += size;
        Ok(())
    }

    /// The batch of these writes: of each key the last one. One that may come in, where there is a
    /// write. `AllocError` where a growth of memory was refused.
    pub fn into_batch(self, alloc: Global) -> Result<Batch, AllocError>
        ensures last { IfOk result (KeepsLast self) }
        ensures batch { IfOk result (λ b. 0 < length self → IsBatch b) }
    {
        let WriteBuffer { writes, .. } = self;
        last_of_each(alloc, writes)
    }
}
