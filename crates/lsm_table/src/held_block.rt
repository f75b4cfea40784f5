//! The blocks of a checked table.

ghost use Rattle.std.specs.Prelude.{◌≡◌, [], ℕ, List};
ghost use Rattle.lsm_codec.specs.Entries.{Entry};
ghost use Rattle.lsm_table.specs.Table.{DataBlock};
ghost use Rattle.std.specs.Prelude.{Ok};
ghost use Rattle.lsm_table.specs.Footer.{body_of};
ghost use Rattle.lsm_table.specs.HeldTable.{BlockAt, block_there};
ghost use Rattle.lsm_table.specs.OpenTable.{IsOpened, opening_at};

use crate::footer::FOOTER;
use crate::handle::Handle;
use lsm_block::BlockRef;

/// The block that stands there.
pub(crate) fn block_at<'a>(body: &'a [u8], handle: Handle) -> BlockRef<'a>
    requires { (es : List Entry) × BlockAt body.now handle es }
    ensures entries { (es : List Entry) → BlockAt body.now handle es → result.entries ≡ es }
    ensures block { result ≡ block_there body.now handle }
{
    let (_, rest) = body.split_at(handle.offset as usize);
    let (contents, _) = rest.split_at(handle.size as usize);
    BlockRef::of(contents)
}

/// The part of an opened table before the footer, and its index block.
pub(crate) fn parts(file: &[u8], index: Handle) -> (&[u8], BlockRef<'_>)
    requires { IsOpened file.now index }
    ensures body { result.0.now ≡ body_of file.now }
    ensures index { opening_at file.now ≡ Ok result.1.entries }
    ensures block { result.1 ≡ block_there (body_of file.now) index }
{
    let (body, _) = file.split_at(file.len() - FOOTER);
    (body, block_at(body, index))
}

/// The data block that the value of an index entry names.
pub(crate) fn data_block<'a>(body: &'a [u8], spelled: &[u8]) -> BlockRef<'a>
    requires { (es : List Entry) × DataBlock body.now spelled.now es }
    ensures { (es : List Entry) → DataBlock body.now spelled.now es → result.entries ≡ es }
{
    block_at(body, Handle::spelled(spelled))
}

/// A block without entries: the restart 0, and the number of restarts.
static NO_ENTRIES: [u8; 8] = [0, 0, 0, 0, 1, 0, 0, 0];

pub(crate) fn no_entries() -> BlockRef<'static>
    ensures { result.entries ≡ [] }
{
    BlockRef::of(&NO_ENTRIES)
}
