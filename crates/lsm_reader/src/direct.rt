//! Blocks by the shelf itself.

ghost use Rattle.std.specs.Prelude.{◌≡◌};

use crate::ahead::Ahead;
use crate::blocks::Blocks;
use lsm_block::Block;
use lsm_table::{NamedShelf, Naming, ReadFault, Shelf};
use std::alloc::Global;
use std::sync::Arc;

/// Gives blocks by the shelf itself, which it borrows: each is read and judged anew.
#[derive(Drop)]
pub struct Direct<'a, N: Naming, S: Shelf> {
    shelf: &'a mut NamedShelf<N, S>,
}

impl<'a, N: Naming, S: Shelf> Direct<'a, N, S> {
    /// What gives the blocks of this shelf.
    pub fn new(shelf: &'a mut NamedShelf<N, S>) -> Direct<'a, N, S>
        ensures { result.shelf ≡ shelf.entry }
    {
        Direct { shelf }
    }
}

impl<'a, N: Naming, S: Shelf> Blocks<N, S> for Direct<'a, N, S> {
    ghost told = { λ d. d.shelf.now };

    ghost loan = { λ d. d.shelf.ghost_name };

    fn footer(&mut self, alloc: Global, receipt: &S::Receipt) -> Result<[u8; 48], ReadFault> {
        let named = &mut *self.shelf;
        named.footer(alloc, receipt)
    }

    fn index(&mut self, alloc: Global, receipt: &S::Receipt) -> Result<Arc<Block>, ReadFault> {
        let named = &mut *self.shelf;
        named.index(alloc, receipt)
    }

    fn block(
        &mut self,
        alloc: Global,
        receipt: &S::Receipt,
        offset: u64,
        size: u64,
    ) -> Result<Arc<Block>, ReadFault> {
        let named = &mut *self.shelf;
        named.block(alloc, receipt, offset, size)
    }

    fn block_ahead(
        &mut self,
        alloc: Global,
        receipt: &S::Receipt,
        offset: u64,
        size: u64,
        ahead: &mut Ahead<N, S>,
    ) -> Result<Arc<Block>, ReadFault> {
        let named = &mut *self.shelf;
        named.block_ahead(alloc, receipt, offset, size, ahead)
    }

    fn copy_receipt(&self, receipt: &S::Receipt) -> S::Receipt {
        let named = &*self.shelf;
        named.shelf.copy_receipt(receipt)
    }
}
