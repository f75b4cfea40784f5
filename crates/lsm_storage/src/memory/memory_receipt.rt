//! What a `MemoryShelf` hands out for an image.

ghost use Rattle.std.specs.Prelude.{◌≡◌, ◌≤◌, ◌^◌, length};

use crate::memory::image::Image;
use boxcar::Pushed;
use lsm_shelf::TableReceipt;

/// What a `MemoryShelf` hands out for an image. The image stays in memory while any fork of the
/// shelf lasts, whatever is removed from the directory.
#[derive(Drop)]
pub struct MemoryReceipt {
    pub(crate) number: u64,
    pub(crate) size: u64,
    pub(crate) token: Pushed<Image>,
    ghost named: { number ≡ token.value.number },
    ghost sized: { size ≡ length token.value.bytes.items },
    ghost limit: { size ≤ 2 ^ 30 },
}

impl TableReceipt for MemoryReceipt {
    ghost number = { λ r. r.number };

    ghost image = { λ r. r.token.value.bytes.items };

    fn number(&self) -> u64 {
        self.number
    }

    fn size(&self) -> u64 {
        self.size
    }
}
