//! What stands for a table that lies nowhere.

ghost use Rattle.std.specs.Prelude.{◌≡◌, ◌⊎◌, ◌≤◌, ◌<◌, ◌^◌, length, IfOk, IfErr};

use crate::view::MadeTable;
use boxcar::tag::{Names, Tag};
use lsm_shelf::{MAX_IMAGE, ShelfFault};
use std::alloc::Global;

/// Number and size of a table that lies nowhere. Only contracts read its bytes here.
#[derive(Drop)]
pub struct MadeReceipt {
    pub(crate) number: u64,
    pub(crate) size: u64,
    pub(crate) image: Tag,
    ghost sized: { size ≡ length image.numbers },
    ghost limit: { size ≤ 2 ^ 30 },
}

/// The bytes of a slice.
struct Whole;

impl<'a> Names<&'a [u8]> for Whole {
    ghost numbers = { λ b. b.now };
}

/// A list as it is.
struct Same;

impl<'a> Names<&'a Tag> for Same {
    ghost numbers = { λ t. t.now.numbers };
}

impl MadeReceipt {
    /// What stands for this image.
    fn of(number: u64, image: &[u8]) -> MadeReceipt
        requires { length image.now ≤ 2 ^ 30 }
        ensures number { result.number ≡ number }
        ensures image { result.image.numbers ≡ image.now }
    {
        MadeReceipt {
            number,
            size: image.len() as u64,
            image: Tag::of::<&[u8], Whole>(&image),
        }
    }

    /// The same receipt once more.
    pub(crate) fn again(&self) -> MadeReceipt
        ensures { result ≡ self.now }
    {
        MadeReceipt {
            number: self.number,
            size: self.size,
            image: Tag::of::<&Tag, Same>(&&self.image),
        }
    }
}

/// The receipt and the bytes of a table that lies nowhere. `Device` where it has more than 1 GiB.
pub(crate) fn load_made(
    alloc: Global,
    made: &MadeTable,
) -> Result<(MadeReceipt, Vec<u8>), ShelfFault>
    ensures number { IfOk result (λ r. r.0.number ≡ made.now.number) }
    ensures image { IfOk result (λ r. r.0.image.numbers ≡ made.now.image.items) }
    ensures bytes { IfOk result (λ r. r.1.items ≡ made.now.image.items) }
    ensures refused { IfErr result (λ e. (e ≡ ShelfFault.OutOfMemory)
        ⊎ ((e ≡ ShelfFault.Device) × (2 ^ 30 < length made.now.image.items))) }
{
    if made.image.len() > MAX_IMAGE {
        return Err(ShelfFault::Device);
    }
    let image = Vec::from_slice(alloc, &made.image)?;
    Ok((MadeReceipt::of(made.number, &image), image))
}
