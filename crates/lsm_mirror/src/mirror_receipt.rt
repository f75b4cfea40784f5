//! What a mirror hands out for an image.

use crate::made_receipt::MadeReceipt;
use crate::plain_receipt::PlainReceipt;
use lsm_shelf::TableReceipt;

/// What a mirror hands out for an image.
pub enum MirrorReceipt<C: TableReceipt> {
    /// A table below, as it is.
    Direct(C),
    /// A table below, which is shown plain.
    Plain(PlainReceipt<C>),
    /// The table that lies nowhere.
    Made(MadeReceipt),
}

impl<C: TableReceipt> Drop for MirrorReceipt<C> {
    fn drop(self) {
        match self {
            MirrorReceipt::Direct(_) => {}
            MirrorReceipt::Plain(_) => {}
            MirrorReceipt::Made(_) => {}
        }
    }
}

impl<C: TableReceipt> TableReceipt for MirrorReceipt<C> {
    ghost use Rattle.lsm_mirror.specs.Mirrored.{image_of, number_of};

    ghost number = { number_of C.TableReceipt };

    ghost image = { image_of C.TableReceipt };

    fn number(&self) -> u64 {
        match self {
            MirrorReceipt::Direct(receipt) => receipt.number(),
            MirrorReceipt::Plain(plain) => plain.receipt.number(),
            MirrorReceipt::Made(made) => made.number,
        }
    }

    fn size(&self) -> u64 {
        match self {
            MirrorReceipt::Direct(receipt) => receipt.size(),
            MirrorReceipt::Plain(plain) => plain.size,
            MirrorReceipt::Made(made) => made.size,
        }
    }
}
