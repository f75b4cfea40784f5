//! What stands for a table that is shown plain.

ghost use Rattle.std.specs.Prelude.{◌≡◌, ◌≤◌, ◌^◌, length};
ghost use Rattle.lsm_mirror.specs.Shown.{plain_image};

use lsm_shelf::TableReceipt;

/// The receipt of a table below, with the size of the plain table that is shown of it.
pub struct PlainReceipt<C: TableReceipt> {
    pub(crate) receipt: C,
    pub(crate) size: u64,
    ghost sized: { size ≡ length (plain_image (C.image receipt)) },
    ghost limit: { size ≤ 2 ^ 30 },
}

impl<C: TableReceipt> Drop for PlainReceipt<C> {
    fn drop(self) {
        let Self {
            receipt: _,
            size: _,
        } = self;
    }
}
