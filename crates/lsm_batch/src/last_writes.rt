//! Of each key that is written, its last write.

ghost use Rattle.std.specs.Prelude.{◌≡◌, ◌++◌, ◌∷◌, [], ◌<◌, List, true, false, length, IfOk};
ghost use Rattle.std.specs.List.Sorted.{IsPermutation};
ghost use Rattle.lsm_codec.specs.Keys.{UserKey};
ghost use Rattle.lsm_codec.specs.Lists.{Has};
ghost use Rattle.lsm_batch.specs.declared.write.Write.{Write};
ghost use Rattle.lsm_batch.specs.Batches.{IsBatch, IsTooLarge};
ghost use Rattle.lsm_batch.specs.Falling.{Falls};
ghost use Rattle.lsm_batch.specs.LastWrites.{KeepsLast, last_write};

use crate::batch::Batch;
use crate::write::Write;
use std::alloc::{AllocError, Global};

// The writes with the greatest key first, of one key in the order in which they were.
fn greatest_first(mut writes: Vec<Write>) -> Result<Vec<Write>, AllocError>
    ensures order { IfOk result (λ v. Falls v.items) }
    ensures same { IfOk result (λ v. IsPermutation writes.items v.items) }
    ensures last { IfOk result (λ v. (key : UserKey)
        → last_write key v.items ≡ last_write key writes.items) }
{
    writes.sort_by(|a, b| b.key.as_slice().cmp(a.key.as_slice()))?;
    Ok(writes)
}

// Whether this is the key of the batch's last write.
fn ends_with(batch: &Batch, key: &[u8]) -> bool
    ensures yes { result ≡ true → (w : Write) × Has batch.now w × (w.key ≡ key.now) }
    ensures no { result ≡ false → (front : List Write) (w : Write)
        → batch.now ≡ front ++ w ∷ [] → w.key ≡ key.now → ⊥ }
{
    match batch.writes().last() {
        Some(last) => last.key.as_slice() == key,
        None => false,
    }
}

/// The batch of these writes: of each key the last one, in the order of the keys. One that may come
/// in, where there is a write and they pass no limit. `AllocError` where a growth was refused.
pub fn last_of_each(alloc: Global, writes: Vec<Write>) -> Result<Batch, AllocError>
    ensures last { IfOk result (KeepsLast writes.items) }
    ensures batch { IfOk result (λ b. 0 < length writes.items → (IsTooLarge writes.items → ⊥)
        → IsBatch b) }
{
    let mut left = greatest_first(writes)?;
    let mut batch = Batch::new(alloc);
    'writes: while let Some(write) = left.pop() {
        // The newest write of a key stands last, and so comes first here.
        if !ends_with(&batch, write.key.as_slice()) {
            batch.push(write)?;
        }
    }
    Ok(batch)
}
