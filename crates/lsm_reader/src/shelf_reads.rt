//! Blocks by a shelf that is held: each is read and judged anew.

ghost use Rattle.std.specs.Prelude.{◌≡◌};

use crate::ahead::Ahead;
use crate::blocks::Blocks;
use crate::judging::{footer_from, is_inside, judge};
use crate::reads_ahead::ReadsAhead;
use lsm_block::Block;
use lsm_table::{
    FOOTER, Footer, Handle, NamedShelf, Naming, ReadFault, Shelf, TRAILER, TableFault, TableReceipt,
};
use std::alloc::Global;
use std::sync::Arc;

impl<N: Naming, S: Shelf> Blocks<N, S> for NamedShelf<N, S> {
    ghost told = { λ s. s };

    ghost loan = { λ _. 0 };

    fn footer(&mut self, alloc: Global, receipt: &S::Receipt) -> Result<[u8; 48], ReadFault> {
        let size = receipt.size();
        if size < FOOTER as u64 {
            return Err(ReadFault::Table(TableFault::ShortFile));
        }
        let bytes = self
            .shelf
            .read_at(alloc, receipt, size - FOOTER as u64, FOOTER)?;
        Ok(footer_from(bytes)?)
    }

    fn index(&mut self, alloc: Global, receipt: &S::Receipt) -> Result<Arc<Block>, ReadFault> {
        let bytes = self.footer(alloc, receipt)?;
        let footer = Footer::of(&bytes)?;
        self.block(alloc, receipt, footer.index.offset, footer.index.size)
    }

    fn block(
        &mut self,
        alloc: Global,
        receipt: &S::Receipt,
        offset: u64,
        size: u64,
    ) -> Result<Arc<Block>, ReadFault> {
        let mut ahead = Ahead {
            part: None,
            window: 0,
        };
        self.block_ahead(alloc, receipt, offset, size, &mut ahead)
    }

    fn block_ahead(
        &mut self,
        alloc: Global,
        receipt: &S::Receipt,
        offset: u64,
        size: u64,
        ahead: &mut Ahead<N, S>,
    ) -> Result<Arc<Block>, ReadFault> {
        let handle = Handle { offset, size };
        if !is_inside(handle, receipt.size()) {
            return Err(ReadFault::Table(TableFault::BadHandle));
        }
        let text = self.part_at(alloc, receipt, offset, size as usize + TRAILER, ahead)?;
        Ok(judge(alloc, handle, text)?)
    }

    fn copy_receipt(&self, receipt: &S::Receipt) -> S::Receipt {
        self.shelf.copy_receipt(receipt)
    }
}
