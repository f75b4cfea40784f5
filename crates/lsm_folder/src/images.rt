//! The witness that compares.

ghost use Rattle.std.specs.Prelude.{◌≡◌, take, drop};

use crate::witness::Witness;
use std::alloc::{AllocError, Global};

/// Keeps all bytes of each file that was made, read whole or found, and lets through just that part of
/// them. So a folder with this witness needs the memory of its files, and no premise on its disk: a
/// read that answers other bytes is refused.
pub struct Images;

impl Witness for Images {
    type Kept = Vec<u8>;

    ghost image = { λ v. v.items };

    ghost happened = { λ image offset len bytes. bytes ≡ take len (drop offset image) };

    ghost holds = { λ _ _ _. Unit {0} };

    fn keep(alloc: Global, bytes: &[u8]) -> Result<Vec<u8>, AllocError> {
        Vec::from_slice(alloc, bytes)
    }

    fn unread(_folder: &str, _name: &str, _size: u64) -> Option<Vec<u8>> {
        None
    }

    fn saw(kept: &Vec<u8>, offset: usize, len: usize, bytes: &[u8]) -> bool {
        bytes == &kept.as_slice()[offset..offset + len]
    }
}
