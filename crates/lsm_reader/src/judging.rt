//! Bytes that were read of an image, judged.

ghost use Rattle.std.specs.Prelude.{◌≡◌, ◌+◌, ◌-◌, length, nat_le, Ok};
ghost use Rattle.std.specs.Arc.{arc_value};
ghost use Rattle.lsm_block.specs.Held.{HeldBlock};
ghost use Rattle.lsm_block.specs.Reading.{block_at};
ghost use Rattle.lsm_reader.specs.Blocks.{block_of};
ghost use Rattle.lsm_table.specs.Reading.{Gives};
ghost use Rattle.lsm_table.specs.StoredBlock.{unsealed};
ghost use Rattle.lsm_table.specs.TableReading.{block_or};

use lsm_block::Block;
use lsm_table::{FOOTER, Handle, TRAILER, TableFault, unseal};
use std::alloc::Global;
use std::sync::Arc;

/// The last 48 bytes of an image, where so many were read; other numbers of bytes, which only a
/// shelf that is not honest gives, are `ShortFile`.
pub fn footer_from(bytes: Vec<u8>) -> Result<[u8; 48], TableFault>
    ensures { length bytes.items ≡ 48 → result ≡ Ok bytes.items }
{
    if bytes.len() != FOOTER {
        return Err(TableFault::ShortFile);
    }
    let mut footer = [0u8; 48];
    footer.copy_from_slice(&bytes);
    Ok(footer)
}

/// Whether a block with its trailer lies in the part of an image before its footer, where the image
/// has this size.
pub fn is_inside(handle: Handle, size: u64) -> bool
    ensures { result ≡ nat_le (handle.offset + handle.size + 5) (size - 48) }
{
    let Some(len) = size.checked_sub(FOOTER as u64 + TRAILER as u64) else {
        return false;
    };
    handle.size <= len && handle.offset <= len - handle.size
}

/// The contents of a stored block.
fn take_contents(handle: Handle, text: Vec<u8>) -> Result<Vec<u8>, TableFault>
    ensures { length text.items ≡ handle.size + 5
        → Gives (λ v. v.items) result (unsealed handle.offset handle.size text.items) }
{
    let mut text = text;
    let Some(size) = text.len().checked_sub(TRAILER) else {
        return Err(TableFault::BadChecksum(handle.offset));
    };
    // Only a shelf that is not honest gives another number of bytes.
    if size as u64 != handle.size {
        return Err(TableFault::BadChecksum(handle.offset));
    }
    unseal(handle.offset, size, &text)?;
    text.truncate(size);
    Ok(text)
}

/// The block of these contents, to be shared.
fn share(alloc: Global, contents: Vec<u8>) -> Result<Arc<Block>, TableFault>
    ensures { Gives (λ b.
        (arc_value {X = HeldBlock} b).entries) result (block_or (block_at contents.items)) }
{
    let block = Block::check(alloc, contents)?;
    Ok(Arc::new(alloc, block)?)
}

/// The block that a text is which was read for a place: its contents with their trailer, whose
/// checksum is judged first.
#[tactic(auto, unfolding(crate::specs::Blocks::block_of))]
pub fn judge(alloc: Global, handle: Handle, text: Vec<u8>) -> Result<Arc<Block>, TableFault>
    ensures { length text.items ≡ handle.size + 5
        → Gives (λ b. (arc_value {X = HeldBlock} b).entries) result (block_of handle text.items) }
{
    let contents = take_contents(handle, text)?;
    share(alloc, contents)
}
