//! A part of an image that is in memory.

ghost use Rattle.std.specs.Prelude.{◌≡◌, ◌⊎◌, ◌+◌, ◌≤◌, ◌<◌, ◌^◌, length, take, drop, IfOk, IfErr};

use lsm_shelf::ShelfFault;
use std::alloc::Global;

/// So many bytes of an image from an offset on. `Device` where it has not so many.
pub(crate) fn part_of(
    image: &[u8],
    alloc: Global,
    offset: u64,
    len: usize,
) -> Result<Vec<u8>, ShelfFault>
    requires { offset + len ≤ 2 ^ 30 }
    ensures bytes { IfOk result (λ v. v.items ≡ take len (drop offset image.now)) }
    ensures refused { IfErr result (λ e. (e ≡ ShelfFault.OutOfMemory)
        ⊎ ((e ≡ ShelfFault.Device) × (length image.now < offset + len))) }
{
    let offset = offset as usize;
    match image.get(offset..offset + len) {
        Some(part) => Ok(Vec::from_slice(alloc, part)?),
        None => Err(ShelfFault::Device),
    }
}
