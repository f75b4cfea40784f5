//! The contents of a block, by its type byte.

ghost use Rattle.std.specs.Prelude.{◌≡◌, ◌≤◌, ◌+◌, length, IfOk};
ghost use Rattle.lsm_inflate.specs.Reading.{Gives};
ghost use Rattle.lsm_inflate.specs.StoredContents.{contents_at, is_snappy, packed_at};
ghost use Rattle.lsm_inflate.specs.StoredContents.{snappy_or};
ghost use Rattle.lsm_snappy.specs.Reading.{plain_at};

use crate::inflate_fault::InflateFault;
use lsm_snappy::{SnappyFault, plain};
use lsm_table::{Handle, TRAILER, TableFault, unseal};
use std::alloc::Global;

/// The contents of the block at a handle in the part of a file before its footer.
#[tactic(auto, unfolding(crate::specs::StoredContents::contents_at))]
pub(crate) fn contents_of(
    alloc: Global,
    body: &[u8],
    handle: Handle,
) -> Result<Vec<u8>, InflateFault>
    ensures contents { Gives (λ v. v.items) result (contents_at body.now handle) }
    ensures inside { IfOk result (λ _. handle.offset + handle.size + 5 ≤ length body.now) }
{
    let len = body.len() as u64;
    if len < 5 || handle.size > len - 5 || handle.offset > len - 5 - handle.size {
        return Err(InflateFault::Table(TableFault::BadHandle));
    }
    let (_, rest) = body.split_at(handle.offset as usize);
    let (text, _) = rest.split_at(handle.size as usize + TRAILER);
    unpack(alloc, handle.offset, handle.size as usize, text)
}

/// The contents that a stored block stands for, whose type and checksum follow it.
#[tactic(auto, unfolding(crate::specs::StoredContents::packed_at))]
fn unpack(alloc: Global, offset: u64, size: usize, text: &[u8]) -> Result<Vec<u8>, InflateFault>
    requires { length text.now ≡ size + TRAILER }
    ensures { Gives (λ v. v.items) result (packed_at offset size text.now) }
{
    let (stored, _) = text.split_at(size);
    match unseal(offset, size, text) {
        Ok(contents) => {
            let contents = Vec::from_slice(alloc, contents)?;
            Ok(contents)
        }
        Err(fault) => {
            if is_snappy(fault) {
                return expand(alloc, offset, stored);
            }
            Err(InflateFault::Table(fault))
        }
    }
}

/// Whether only its type keeps a block from being plain, and that is Snappy's.
fn is_snappy(fault: TableFault) -> bool
    ensures { result ≡ is_snappy fault }
{
    match fault {
        TableFault::Compressed(kind) => kind == 1,
        _ => false,
    }
}

/// What the stored bytes of a block of Snappy's stand for, which begins at this offset.
fn expand(alloc: Global, offset: u64, stored: &[u8]) -> Result<Vec<u8>, InflateFault>
    ensures { Gives (λ v. v.items) result (snappy_or offset (plain_at stored.now)) }
{
    match plain(alloc, stored) {
        Ok(contents) => Ok(contents.into_vec()),
        Err(SnappyFault::OutOfMemory) => Err(InflateFault::Table(TableFault::OutOfMemory)),
        Err(SnappyFault::BadSnappy(cause)) => Err(InflateFault::BadSnappy(offset, cause)),
    }
}
