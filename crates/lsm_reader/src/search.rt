//! The search of a table for the first entry that is not below a key, block by block.

ghost use Rattle.std.specs.Prelude.{◌≡◌, List, false, IfOk, IfErr};
ghost use Rattle.std.specs.Arc.{arc_value};
ghost use Rattle.lsm_codec.specs.KeyRef.{key_of};
ghost use Rattle.lsm_codec.specs.Entries.{Entry};
ghost use Rattle.lsm_block.specs.Held.{HeldBlock};
ghost use Rattle.lsm_block.specs.Seeking.{not_below};
ghost use Rattle.lsm_block.specs.Standing.{but_first, is_end};
ghost use Rattle.lsm_reader.specs.Blocks.{Reads, left_at, or_none, IsSought, IsAtEntry};
ghost use Rattle.lsm_reader.specs.Getting.{first_named, sought_there};
ghost use Rattle.lsm_reader.specs.Refusals.{IsReadRefusal};
ghost use Rattle.lsm_table.specs.Footer.{body_of};
ghost use Rattle.lsm_table.specs.HeldTable.{Names};
ghost use Rattle.lsm_table.specs.ReadFault.{ReadCounted, IsMemoryOrShelf};
ghost use Rattle.lsm_table.specs.Searching.{Sought};
ghost use Rattle.lsm_shelf.specs.Told.{Becomes};

use crate::ahead::Ahead;
use crate::blocks::Blocks;
use crate::opening::data_block_by;
use lsm_block::{Block, BlockIter};
use lsm_codec::KeyRef;
use lsm_table::{Naming, ReadFault, Shelf};
use std::alloc::Global;
use std::sync::Arc;

/// Seeks in the data block of the index entry at which the index stands.
pub(crate) fn seek_here_by<N: Naming, S: Shelf, B: Blocks<N, S>>(
    blocks: &mut B,
    alloc: Global,
    receipt: &S::Receipt,
    index: &BlockIter,
    key: &KeyRef<'_>,
) -> Result<BlockIter, ReadFault>
    requires here { S.is_of N.place receipt.now }
    requires some { is_end index.now ≡ false }
    ensures found { S.honest → (es : List Entry)
        → Sought (key_of key.now) (body_of (S.Receipt.image receipt.now)) index.now es → IfOk result
        (λ i. IsSought (key_of key.now) (S.Receipt.image receipt.now) i (but_first index.now) es) }
    ensures sound { S.honest → (es : List Entry)
        → Sought (key_of key.now) (body_of (S.Receipt.image receipt.now)) index.now es
        → IfErr result IsMemoryOrShelf }
    ensures exact { S.honest → Reads (λ i. i) result
        (sought_there (key_of key.now) (body_of (S.Receipt.image receipt.now)) index.now) }
    ensures told { Becomes (B.told blocks.old) (B.told blocks.new) }
    ensures loan { B.loan blocks.new ≡ B.loan blocks.old }
    ensures cause { IfErr result (λ e. ReadCounted e (B.told blocks.old) (B.told blocks.new)) }
    ensures refused { IfErr result
        (IsReadRefusal (S.refuses N.place) (S.Receipt.number receipt.now)) }
{
    let mut alone = Ahead::none();
    let block = data_block_by(blocks, alloc, receipt, index.value(), &mut alone)?;
    let entries = BlockIter::seek(alloc, block, key)?;
    Ok(entries)
}

/// Of the first data block that has an entry which is not below the key, the entries from that one
/// on; nothing where none has, where this is the table's index block. The index is left alone once
/// it is found.
pub(crate) fn sought_by<N: Naming, S: Shelf, B: Blocks<N, S>>(
    blocks: &mut B,
    alloc: Global,
    receipt: &S::Receipt,
    index: Arc<Block>,
    key: &KeyRef<'_>,
) -> Result<Option<BlockIter>, ReadFault>
    requires here { S.is_of N.place receipt.now }
    ensures found { S.honest → (es : List Entry) → Names (body_of (S.Receipt.image receipt.now))
        (arc_value {X = HeldBlock} index).entries es
        → IfOk result (λ h. (rest : List Entry) × IsAtEntry (or_none h) rest
        × (left_at (S.Receipt.image receipt.now) record { here = or_none h; index = rest }
        ≡ not_below (key_of key.now) es)) }
    // Whatever the image is.
    ensures exact { S.honest → Reads or_none result
        (first_named (key_of key.now) (body_of (S.Receipt.image receipt.now))
        (not_below (key_of key.now) (arc_value {X = HeldBlock} index).entries)) }
    ensures sound { S.honest → (es : List Entry) → Names (body_of (S.Receipt.image receipt.now))
        (arc_value {X = HeldBlock} index).entries es → IfErr result IsMemoryOrShelf }
    ensures told { Becomes (B.told blocks.old) (B.told blocks.new) }
    ensures loan { B.loan blocks.new ≡ B.loan blocks.old }
    ensures cause { IfErr result (λ e. ReadCounted e (B.told blocks.old) (B.told blocks.new)) }
    ensures refused { IfErr result
        (IsReadRefusal (S.refuses N.place) (S.Receipt.number receipt.now)) }
{
    let mut places = BlockIter::seek(alloc, index, key)?;
    while !places.is_at_end() {
        let entries = seek_here_by(blocks, alloc, receipt, &places, key)?;
        if !entries.is_at_end() {
            return Ok(Some(entries));
        }
        places.pass()?;
    }
    Ok(None)
}
