//! What is known of a table.

ghost use Rattle.std.specs.Prelude.{◌≡◌, length};

use lsm_codec::Bytes;
use lsm_shelf::TableReceipt;

/// What is known of a table that lies on a shelf: its first and last internal key and the receipt
/// of its image, which has the table's number and its size.
pub struct TableRecord<C: TableReceipt> {
    /// The first internal key of the table.
    pub smallest: Bytes,
    /// The last internal key of the table.
    pub largest: Bytes,
    /// What the shelf gave for the table's image.
    pub receipt: C,
}

impl<C: TableReceipt> Drop for TableRecord<C> {
    fn drop(self) {
        let Self {
            smallest: _,
            largest: _,
            receipt: _,
        } = self;
    }
}

impl<C: TableReceipt> TableRecord<C> {
    /// The number of the table's file.
    pub fn number(&self) -> u64
        ensures { result ≡ C.number self.now.receipt }
    {
        self.receipt.number()
    }

    /// The table's size in bytes.
    pub fn size(&self) -> u64
        ensures { result ≡ length (C.image self.now.receipt) }
    {
        self.receipt.size()
    }
}
