//! A block with its trailer, as it stands in a table's file:
//!
//! ```text
//! contents | type, 1 byte: 0 for contents as they are | masked CRC-32C of both, fixed32
//! ```

ghost use Rattle.std.specs.Prelude.{◌≡◌, ◌≤◌, ◌+◌, ◌++◌, ℕ, List, length, drop, vec_len, OnOk};
ghost use Rattle.std.specs.Prelude.{OnErr};
ghost use Rattle.lsm_codec.specs.Crc.{crc_of};
ghost use Rattle.lsm_block.specs.Block.{IsBlock};
ghost use Rattle.lsm_block.specs.Building.{block_bytes};
ghost use Rattle.lsm_table.specs.Reading.{Gives};
ghost use Rattle.lsm_table.specs.StoredBlock.{seal, trailer, stored, unsealed, contents_at};

use crate::handle::Handle;
use crate::table_fault::TableFault;
use lsm_block::BlockBuilder;
use lsm_codec::{crc_extend, crc32c, mask};
use std::alloc::AllocError;

/// A type byte and a checksum follow the contents of a block.
pub const TRAILER: usize = 5;

/// The checksum of a text as files store it.
#[tactic(auto, unfolding(crate::specs::StoredBlock::seal))]
fn seal_of(checksum: u32) -> [u8; 4]
    ensures { (text : List ℕ) → checksum ≡ crc_of text → result ≡ seal text }
{
    mask(checksum).to_le_bytes()
}

/// The contents of a stored block, whose type and checksum follow them. The offset is that of the
/// block in its file.
#[tactic(auto, unfolding(crate::specs::StoredBlock::unsealed))]
pub fn unseal(offset: u64, size: usize, text: &[u8]) -> Result<&[u8], TableFault>
    requires { length text.now ≡ size + TRAILER }
    ensures { Gives (λ x. x.now) result (unsealed offset size text.now) }
{
    let (covered, found) = text.split_at(size + 1);
    if found != seal_of(crc32c(covered)).as_slice() {
        return Err(TableFault::BadChecksum(offset));
    }
    let kind = text[size];
    if kind != 0 {
        if kind <= 2 {
            return Err(TableFault::Compressed(kind));
        }
        return Err(TableFault::BadBlockType(kind));
    }
    let (contents, _) = text.split_at(size);
    Ok(contents)
}

/// The contents of the block at a handle in the part of a file before its footer.
#[tactic(auto, unfolding(crate::specs::StoredBlock::contents_at))]
pub(crate) fn contents_of(body: &[u8], handle: Handle) -> Result<&[u8], TableFault>
    ensures { Gives (λ x. x.now) result (contents_at body.now handle) }
{
    let len = body.len() as u64;
    if len < 5 || handle.size > len - 5 || handle.offset > len - 5 - handle.size {
        return Err(TableFault::BadHandle);
    }
    let (_, rest) = body.split_at(handle.offset as usize);
    let (text, _) = rest.split_at(handle.size as usize + TRAILER);
    unseal(handle.offset, handle.size as usize, text)
}

/// Appends the trailer of the contents that stand from the start on. An `Err` leaves `out` as it
/// was.
#[tactic(auto, unfolding(crate::specs::StoredBlock::seal))]
fn put_trailer(out: &mut Vec<u8>, start: usize) -> Result<(), AllocError>
    requires { start ≤ vec_len out.old }
    ensures ok { OnOk result (out.new.items ≡ out.old.items ++ trailer (drop start out.old.items)) }
    ensures err { OnErr result (out.new.items ≡ out.old.items) }
{
    let (_, contents) = out.split_at(start);
    let sum = seal_of(crc_extend(crc32c(contents), &[0]));
    out.extend_from_slice(&[0, sum[0], sum[1], sum[2], sum[3]])
}

/// Appends the block of a builder, and its trailer. An `Err` leaves `out` as it was.
pub(crate) fn put_block(out: &mut Vec<u8>, block: &BlockBuilder) -> Result<(), AllocError>
    ensures ok { OnOk result (out.new.items
        ≡ out.old.items ++ stored (block_bytes block.now.interval block.now.entries)) }
    ensures block { IsBlock (block_bytes block.now.interval block.now.entries) block.now.entries }
    ensures err { OnErr result (out.new.items ≡ out.old.items) }
{
    let start = out.len();
    block.write_to(out)?;
    match put_trailer(out, start) {
        Ok(()) => Ok(()),
        Err(error) => {
            out.truncate(start);
            Err(error)
        }
    }
}
