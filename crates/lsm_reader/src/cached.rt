//! A shelf with a cache of open tables and of blocks.

ghost use Rattle.std.specs.Prelude.{◌≡◌, IfOk};

use crate::ahead::Ahead;
use crate::block_key::BlockKey;
use crate::blocks::Blocks;
use crate::kept_block::KeptBlock;
use crate::open_table::OpenTable;
use crate::parts::share;
use crate::recent::keep;
use crate::recent_blocks::RecentBlocks;
use lru::LruCache;
use lsm_block::Block;
use lsm_table::{Handle, NamedShelf, Naming, ReadFault, Shelf, TableReceipt};
use std::alloc::{AllocError, Global};
use std::marker::{Model, PhantomData};
use std::num::NonZeroUsize;
use std::sync::Arc;

/// How many open tables a cache keeps at most: as many as LevelDB keeps files open
/// (`max_open_files` of its `include/leveldb/options.h`).
pub const MAX_OPEN_TABLES: usize = 1000;

/// Gives index blocks and blocks from those that were used last, and else by a shelf of its own. It
/// keeps `MAX_OPEN_TABLES` open tables at most, each with its index block, and so many blocks that
/// were asked for by their places as it was made for: of large ones fewer, so that they have 8 MiB
/// together at most, or 8 KiB each, where that is more. Data blocks push out no table. An open
/// table is found by its number, and its footer is not read again. Contracts see it as its shelf.
pub struct Cached<N: Naming, S: Shelf> {
    shelf: NamedShelf<N, S>,
    tables: LruCache<u64, OpenTable<N, S>>,
    blocks: RecentBlocks<KeptBlock<N, S>>,
}

impl<N: Naming, S: Shelf> Drop for Cached<N, S> {
    fn drop(self) {
        let Self {
            shelf: _,
            tables: _,
            blocks: _,
        } = self;
    }
}

impl<N: Naming, S: Shelf> Model for Cached<N, S> {
    ghost use Rattle.std.specs.Prelude.{◌≡◌};
    ghost use Rattle.lsm_shelf.specs.Told.{Told};

    ghost Value = { Told };

    ghost view = { λ c. c.shelf };
}

impl<N: Naming, S: Shelf> Cached<N, S> {
    /// An empty cache of so many blocks over this shelf. It asks for the memory of an open
    /// table, or of a block, when that comes. `AllocError` where a growth was refused.
    pub fn new(
        alloc: Global,
        shelf: NamedShelf<N, S>,
        blocks: NonZeroUsize,
    ) -> Result<Cached<N, S>, AllocError>
        ensures { IfOk result (λ c. c ≡ shelf) }
    {
        let Some(tables) = NonZeroUsize::new(MAX_OPEN_TABLES) else {
            unreachable!()
        };
        Ok(Cached {
            tables: LruCache::sparse(alloc, tables)?,
            blocks: RecentBlocks::new(alloc, blocks)?,
            shelf,
        })
    }
}

impl<N: Naming, S: Shelf> Blocks<N, S> for Cached<N, S> {
    ghost use Rattle.lsm_shelf.specs.Told.{Told};

    ghost told = { λ c. c };

    ghost loan = { λ _. 0 };

    fn footer(&mut self, alloc: Global, receipt: &S::Receipt) -> Result<[u8; 48], ReadFault> {
        self.shelf.footer(alloc, receipt)
    }

    fn index(&mut self, alloc: Global, receipt: &S::Receipt) -> Result<Arc<Block>, ReadFault> {
        let Cached { shelf, tables, .. } = self;
        let number = receipt.number();
        if let Some(kept) = tables.get(&number) {
            if shelf.shelf.same(&kept.receipt, receipt) {
                return share(&kept.index);
            }
        }
        let index = shelf.index(alloc, receipt)?;
        let shared = match Arc::try_clone(&index) {
            Ok(shared) => shared,
            // It is used all the same.
            Err(_) => return Ok(index),
        };
        let kept = OpenTable {
            receipt: shelf.shelf.copy_receipt(receipt),
            index: shared,
            of: PhantomData,
        };
        keep(tables, number, kept);
        Ok(index)
    }

    fn block(
        &mut self,
        alloc: Global,
        receipt: &S::Receipt,
        offset: u64,
        size: u64,
    ) -> Result<Arc<Block>, ReadFault> {
        let mut ahead = Ahead {
            part: None,
            window: 0,
        };
        self.block_ahead(alloc, receipt, offset, size, &mut ahead)
    }

    fn block_ahead(
        &mut self,
        alloc: Global,
        receipt: &S::Receipt,
        offset: u64,
        size: u64,
        ahead: &mut Ahead<N, S>,
    ) -> Result<Arc<Block>, ReadFault> {
        let Cached { shelf, blocks, .. } = self;
        let handle = Handle { offset, size };
        let key = BlockKey {
            number: receipt.number(),
            offset,
        };
        if let Some(found) = blocks.blocks.get(&key) {
            let kept = &found.kept;
            if kept.handle == handle && shelf.shelf.same(&kept.receipt, receipt) {
                return share(&kept.block);
            }
        }
        let block = shelf.block_ahead(alloc, receipt, offset, size, ahead)?;
        let shared = match Arc::try_clone(&block) {
            Ok(shared) => shared,
            // It is used all the same.
            Err(_) => return Ok(block),
        };
        let kept = KeptBlock {
            receipt: shelf.shelf.copy_receipt(receipt),
            handle,
            block: shared,
            of: PhantomData,
        };
        blocks.keep(key, kept, size);
        Ok(block)
    }

    fn copy_receipt(&self, receipt: &S::Receipt) -> S::Receipt {
        self.shelf.shelf.copy_receipt(receipt)
    }
}
