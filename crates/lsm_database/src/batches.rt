//! Batches of one write.

ghost use Rattle.std.specs.Prelude.{◌≡◌, ◌∷◌, [], Some, None, IfOk};

use lsm_batch::Batch;
use lsm_codec::Bytes;
use std::alloc::{AllocError, Global};

/// A batch that gives a key a value.
pub(crate) fn put_of(alloc: Global, key: &[u8], value: &[u8]) -> Result<Batch, AllocError>
    ensures { IfOk result (λ b. b ≡ record { key = key.now; value = Some value.now } ∷ []) }
{
    let mut batch = Batch::new(alloc);
    let key = Bytes::of(Vec::from_slice(alloc, key)?);
    let value = Bytes::of(Vec::from_slice(alloc, value)?);
    batch.put(key, value)?;
    Ok(batch)
}

/// A batch that deletes a key.
pub(crate) fn delete_of(alloc: Global, key: &[u8]) -> Result<Batch, AllocError>
    ensures { IfOk result (λ b. b ≡ record { key = key.now; value = None } ∷ []) }
{
    let mut batch = Batch::new(alloc);
    batch.delete(Bytes::of(Vec::from_slice(alloc, key)?))?;
    Ok(batch)
}
