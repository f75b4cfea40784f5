//! Batches.

ghost use Rattle.std.specs.Prelude.{◌≡◌, ◌∷◌, ◌++◌, [], None, Some, length, IfErr, OnErr, OnOk};
ghost use Rattle.lsm_batch.specs.Batches.{IsBatch, IsBatchRefusal};

use crate::batch_fault::BatchFault;
use crate::limits::{is_too_large, misplaced};
use crate::write::Write;
use lsm_codec::Bytes;
use std::alloc::{AllocError, Global};
use std::marker::Model;

/// Keys with what is to be written of each. Contracts see a batch as that list.
#[derive(Debug, Drop)]
pub struct Batch {
    pub(crate) writes: Vec<Write>,
}

impl Model for Batch {
    ghost use Rattle.std.specs.Prelude.{List};
    ghost use Rattle.lsm_batch.specs.declared.write.Write.{Write};

    ghost Value = { List Write };

    ghost view = { λ b. b.writes.items };
}

impl Batch {
    /// A batch without entries.
    pub fn new(alloc: Global) -> Batch
        ensures { result ≡ [] }
    {
        Batch {
            writes: Vec::new(alloc),
        }
    }

    /// The key gets a value. `AllocError` where a growth was refused; then the batch is as before.
    pub fn put(&mut self, key: Bytes, value: Bytes) -> Result<(), AllocError>
        ensures ok { OnOk result (self.new
            ≡ self.old ++ record { key = key; value = Some value } ∷ []) }
        ensures err { OnErr result (self.new ≡ self.old) }
    {
        self.writes.push(Write {
            key,
            value: Some(value),
        })?;
        Ok(())
    }

    /// The key is deleted. `AllocError` where a growth was refused; then the batch is as before.
    pub fn delete(&mut self, key: Bytes) -> Result<(), AllocError>
        ensures ok { OnOk result (self.new ≡ self.old ++ record { key = key; value = None } ∷ []) }
        ensures err { OnErr result (self.new ≡ self.old) }
    {
        self.writes.push(Write { key, value: None })?;
        Ok(())
    }

    // A write at the end. `AllocError` where a growth was refused; then the batch is as before.
    pub(crate) fn push(&mut self, write: Write) -> Result<(), AllocError>
        ensures ok { OnOk result (self.new ≡ self.old ++ write ∷ []) }
        ensures err { OnErr result (self.new ≡ self.old) }
    {
        self.writes.push(write)?;
        Ok(())
    }

    /// How many entries it has.
    pub fn len(&self) -> usize
        ensures { result ≡ length self.now }
    {
        self.writes.len()
    }

    /// What it writes, in order.
    pub fn writes(&self) -> &[Write]
        ensures { result.now ≡ self.now }
    {
        self.writes.as_slice()
    }

    /// Whether it may come in: it has an entry, no limit is passed, and its keys ascend.
    ///
    /// `EmptyBatch`, then `TooLarge`, then `KeyOrder` with the first key that is not greater than
    /// the one before.
    pub fn check(&self) -> Result<(), BatchFault>
        ensures ok { OnOk result (IsBatch self.now) }
        ensures refused { IfErr result (IsBatchRefusal self.now) }
    {
        if self.writes.is_empty() {
            return Err(BatchFault::EmptyBatch);
        }
        if is_too_large(&self.writes) {
            return Err(BatchFault::TooLarge);
        }
        match misplaced(&self.writes) {
            Some(place) => Err(BatchFault::KeyOrder(place)),
            None => Ok(()),
        }
    }
}
