//! What a `FileShelf` hands out for an image.

ghost use Rattle.std.specs.Prelude.{◌≡◌, ◌≤◌, ◌^◌, length};
ghost use Rattle.lsm_storage.specs.FileNames.{table_name};

use lsm_folder::Mark;
use lsm_shelf::TableReceipt;

/// What a `FileShelf` hands out for an image: the number and size of the table's file, and the mark
/// that the folder gave for it.
#[derive(Drop)]
pub struct FileReceipt<M: Mark> {
    pub(crate) number: u64,
    pub(crate) size: u64,
    pub(crate) mark: M,
    ghost sized: { size ≡ length (M.Mark.image mark) },
    ghost limit: { size ≤ 2 ^ 30 },
    ghost named: { M.Mark.name mark ≡ table_name number },
}

impl<M: Mark> FileReceipt<M> {
    /// The same receipt once more.
    pub(crate) fn again(&self) -> FileReceipt<M>
        ensures { result ≡ self.now }
    {
        FileReceipt {
            number: self.number,
            size: self.size,
            mark: self.mark.again(),
        }
    }
}

impl<M: Mark + Send + Sync> TableReceipt for FileReceipt<M> {
    ghost number = { λ r. r.number };

    ghost image = { λ r. M.Mark.image r.mark };

    fn number(&self) -> u64 {
        self.number
    }

    fn size(&self) -> u64 {
        self.size
    }
}
