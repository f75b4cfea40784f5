//! Copies of keys.

ghost use Rattle.std.specs.Prelude.{◌≡◌, IfOk};

use lsm_codec::Bytes;
use std::alloc::{AllocError, Global};

/// A copy of a key, in memory of its own.
pub fn copy_of(alloc: Global, key: &[u8]) -> Result<Bytes, AllocError>
    ensures { IfOk result (λ b. b ≡ key.now) }
{
    let mut bytes = Vec::new(alloc);
    bytes.extend_from_slice(key)?;
    Ok(Bytes::of(bytes))
}

/// A copy of a key, where there is one.
fn copy_of_some(alloc: Global, pointer: &Option<Bytes>) -> Result<Option<Bytes>, AllocError>
    ensures { IfOk result (λ b. b ≡ pointer.now) }
{
    match pointer {
        None => Ok(None),
        Some(key) => Ok(Some(copy_of(alloc, key.as_slice())?)),
    }
}

/// Copies of keys, where there are any.
pub fn copies_of(
    alloc: Global,
    pointers: &[Option<Bytes>],
) -> Result<Vec<Option<Bytes>>, AllocError>
    ensures { IfOk result (λ v. v.items ≡ pointers.now) }
{
    let mut copies = Vec::new(alloc);
    for pointer in pointers {
        copies.push(copy_of_some(alloc, pointer)?)?;
    }
    Ok(copies)
}
