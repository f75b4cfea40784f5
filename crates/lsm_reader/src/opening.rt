//! Opening a table by its footer and its index block.

ghost use Rattle.std.specs.Prelude.{◌≡◌, ◌∷◌, ℕ, List, IfOk, IfErr};
ghost use Rattle.std.specs.Arc.{arc_value};
ghost use Rattle.lsm_codec.specs.Entries.{Entry};
ghost use Rattle.lsm_block.specs.Held.{HeldBlock};
ghost use Rattle.lsm_reader.specs.Blocks.{Reads};
ghost use Rattle.lsm_reader.specs.Refusals.{IsReadRefusal};
ghost use Rattle.lsm_table.specs.Footer.{body_of};
ghost use Rattle.lsm_table.specs.OpenTable.{opening_at, block_named};
ghost use Rattle.lsm_table.specs.ReadFault.{ReadCounted};
ghost use Rattle.lsm_shelf.specs.Told.{Becomes};

use crate::ahead::Ahead;
use crate::blocks::Blocks;
use lsm_block::Block;
use lsm_table::{Handle, Naming, ReadFault, Shelf, TableFault};
use std::alloc::Global;
use std::sync::Arc;

/// The index block of the table of a receipt: its footer is judged, and then that block.
pub fn index_by<N: Naming, S: Shelf, B: Blocks<N, S>>(
    blocks: &mut B,
    alloc: Global,
    receipt: &S::Receipt,
) -> Result<Arc<Block>, ReadFault>
    requires here { S.is_of N.place receipt.now }
    ensures exact { S.honest → Reads (λ b.
        (arc_value {X = HeldBlock} b).entries) result (opening_at (S.Receipt.image receipt.now)) }
    ensures told { Becomes (B.told blocks.old) (B.told blocks.new) }
    ensures loan { B.loan blocks.new ≡ B.loan blocks.old }
    ensures cause { IfErr result (λ e. ReadCounted e (B.told blocks.old) (B.told blocks.new)) }
    ensures refused { IfErr result
        (IsReadRefusal (S.refuses N.place) (S.Receipt.number receipt.now)) }
{
    blocks.index(alloc, receipt)
}

/// The block that the value of an index entry names, from what was read ahead where it is there.
pub(crate) fn data_block_by<N: Naming, S: Shelf, B: Blocks<N, S>>(
    blocks: &mut B,
    alloc: Global,
    receipt: &S::Receipt,
    spelled: &[u8],
    ahead: &mut Ahead<N, S>,
) -> Result<Arc<Block>, ReadFault>
    requires here { S.is_of N.place receipt.now }
    ensures exact { S.honest → Reads (λ b. (arc_value {X = HeldBlock} b).entries) result
        (block_named (body_of (S.Receipt.image receipt.now)) spelled.now) }
    ensures told { Becomes (B.told blocks.old) (B.told blocks.new) }
    ensures loan { B.loan blocks.new ≡ B.loan blocks.old }
    ensures cause { IfErr result (λ e. ReadCounted e (B.told blocks.old) (B.told blocks.new)) }
    ensures refused { IfErr result
        (IsReadRefusal (S.refuses N.place) (S.Receipt.number receipt.now)) }
{
    let (handle, rest) = Handle::get(TableFault::BadIndex, spelled)?;
    if !rest.is_empty() {
        return Err(ReadFault::Table(TableFault::BadIndex));
    }
    blocks.block_ahead(alloc, receipt, handle.offset, handle.size, ahead)
}
