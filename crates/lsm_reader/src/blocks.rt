//! What gives the blocks of tables.

ghost use Rattle.std.specs.Prelude.{◌≡◌, IfErr};
ghost use Rattle.std.specs.Arc.{arc_value};
ghost use Rattle.lsm_block.specs.Held.{HeldBlock};
ghost use Rattle.lsm_reader.specs.Blocks.{Reads, last_part, stored_block};
ghost use Rattle.lsm_reader.specs.Refusals.{IsReadRefusal};
ghost use Rattle.lsm_table.specs.OpenTable.{opening_at};
ghost use Rattle.lsm_table.specs.ReadFault.{ReadCounted};
ghost use Rattle.lsm_shelf.specs.Told.{Becomes};

use crate::ahead::Ahead;
use lsm_block::Block;
use lsm_table::{Naming, ReadFault, Shelf};
use std::alloc::Global;
use std::sync::Arc;

/// Gives the footers, the index blocks and all other blocks of the tables on a shelf of the type
/// `S`: by the shelf itself, or from a cache over one.
///
/// Contracts see it as they see the shelf (`told`), and by the name of the borrow through which it
/// reads (`loan`), so that a caller who lent a shelf knows what became of it.
pub trait Blocks<N: Naming, S: Shelf> {
    ghost use Rattle.lsm_shelf.specs.Told.{Told};
    ghost use base.Fml.{GName};

    /// What the calls told.
    ghost told: { Self → Told };

    /// Which borrow it reads through.
    ghost loan: { Self → GName };

    /// The last 48 bytes of an image. `ShortFile` where it has fewer, else the shelf's `Device` and
    /// `Missing`.
    fn footer(&mut self, alloc: Global, receipt: &S::Receipt) -> Result<[u8; 48], ReadFault>
        requires here { S.is_of N.place receipt.now }
        ensures exact { S.honest → Reads (λ f. f) result (last_part (S.Receipt.image receipt.now)) }
        ensures told { Becomes (told self.old) (told self.new) }
        ensures loan { loan self.new ≡ loan self.old }
        ensures cause { IfErr result (λ e. ReadCounted e (told self.old) (told self.new)) }
        ensures refused { IfErr result
            (IsReadRefusal (S.refuses N.place) (S.Receipt.number receipt.now)) };

    /// The index block of the table of a receipt: its footer is judged, and then that block. The
    /// fault is the first one of both.
    fn index(&mut self, alloc: Global, receipt: &S::Receipt) -> Result<Arc<Block>, ReadFault>
        requires here { S.is_of N.place receipt.now }
        ensures exact { S.honest → Reads (λ b. (arc_value {X = HeldBlock} b).entries) result
            (opening_at (S.Receipt.image receipt.now)) }
        ensures told { Becomes (told self.old) (told self.new) }
        ensures loan { loan self.new ≡ loan self.old }
        ensures cause { IfErr result (λ e. ReadCounted e (told self.old) (told self.new)) }
        ensures refused { IfErr result
            (IsReadRefusal (S.refuses N.place) (S.Receipt.number receipt.now)) };

    /// The block of an image at a place, judged. The first of these refuses it: the place
    /// (`BadHandle`; the block with its trailer has to lie before the footer), the shelf (`Device`,
    /// `Missing`), the checksum (`BadChecksum`), the type (`Compressed`, `BadBlockType`), the
    /// block's own rules (`BadRestarts`, `BadEntry`, `OutOfOrder`). `OutOfMemory` where memory ran
    /// out.
    fn block(
        &mut self,
        alloc: Global,
        receipt: &S::Receipt,
        offset: u64,
        size: u64,
    ) -> Result<Arc<Block>, ReadFault>
        requires here { S.is_of N.place receipt.now }
        ensures exact { S.honest → Reads (λ b. (arc_value {X = HeldBlock} b).entries) result
            (stored_block (S.Receipt.image receipt.now) record { offset = offset; size = size }) }
        ensures told { Becomes (told self.old) (told self.new) }
        ensures loan { loan self.new ≡ loan self.old }
        ensures cause { IfErr result (λ e. ReadCounted e (told self.old) (told self.new)) }
        ensures refused { IfErr result
            (IsReadRefusal (S.refuses N.place) (S.Receipt.number receipt.now)) };

    /// The same for a reader that goes on from block to block of a table: what follows the block is
    /// read with it, in one call of the shelf, and kept in `ahead` for the next ones. Where that
    /// call is refused the block is read alone.
    fn block_ahead(
        &mut self,
        alloc: Global,
        receipt: &S::Receipt,
        offset: u64,
        size: u64,
        ahead: &mut Ahead<N, S>,
    ) -> Result<Arc<Block>, ReadFault>
        requires here { S.is_of N.place receipt.now }
        ensures exact { S.honest → Reads (λ b. (arc_value {X = HeldBlock} b).entries) result
            (stored_block (S.Receipt.image receipt.now) record { offset = offset; size = size }) }
        ensures told { Becomes (told self.old) (told self.new) }
        ensures loan { loan self.new ≡ loan self.old }
        ensures cause { IfErr result (λ e. ReadCounted e (told self.old) (told self.new)) }
        ensures refused { IfErr result
            (IsReadRefusal (S.refuses N.place) (S.Receipt.number receipt.now)) };

    /// The same receipt once more, which its shelf makes. It takes no memory.
    fn copy_receipt(&self, receipt: &S::Receipt) -> S::Receipt
        ensures { result ≡ receipt.now };
}
