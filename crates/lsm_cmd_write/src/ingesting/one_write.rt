//! The batch of one write.

ghost use Rattle.std.specs.Prelude.{◌≡◌, ◌∷◌, [], IfOk};

use lsm_batch::{Batch, Write};
use std::alloc::{AllocError, Global};

/// The batch of one write, in memory of its own. Whether it may come in is not judged here.
pub(crate) fn batch_of(alloc: Global, write: &Write) -> Result<Batch, AllocError>
    ensures { IfOk result (λ b. b ≡ write.now ∷ []) }
{
    let mut batch = Batch::new(alloc);
    let key = write.key.try_copy(alloc)?;
    match &write.value {
        Some(value) => batch.put(key, value.try_copy(alloc)?)?,
        None => batch.delete(key)?,
    }
    Ok(batch)
}
