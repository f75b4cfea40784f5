//! The blocks that were used last.

use crate::block_key::BlockKey;
use lru::LruCache;
use std::alloc::{AllocError, Global};
use std::num::NonZeroUsize;

/// How many bytes the blocks may have together, however few they may be: LevelDB's `block_cache`
/// (`include/leveldb/options.h`).
const LEAST_BYTES: u64 = 8 << 20;

/// How many bytes there are for each of the blocks that may be kept, where that is more.
const BYTES_A_BLOCK: u64 = 8192;

/// A block that is kept, and how many bytes it takes.
#[derive(Drop)]
pub(crate) struct Measured<V: Drop> {
    pub(crate) kept: V,
    bytes: u64,
}

/// The blocks that were used last: so many at most, and together so many bytes at most, but one
/// block at least. So it is the blocks' number that bounds usual ones, of 4 KiB, and their bytes
/// that bound large ones.
#[derive(Drop)]
pub(crate) struct RecentBlocks<V: Drop> {
    pub(crate) blocks: LruCache<BlockKey, Measured<V>>,
    bytes: u64,
    most: u64,
}

impl<V: Drop> RecentBlocks<V> {
    /// None yet, and room for so many. It asks for the memory of a block when that comes.
    /// `AllocError` where a growth was refused.
    pub(crate) fn new(alloc: Global, blocks: NonZeroUsize) -> Result<RecentBlocks<V>, AllocError> {
        Ok(RecentBlocks {
            blocks: LruCache::sparse(alloc, blocks)?,
            bytes: 0,
            most: LEAST_BYTES.max((blocks.get() as u64).saturating_mul(BYTES_A_BLOCK)),
        })
    }

    /// Keeps a block of so many bytes, unless a growth is refused, in the place of those that were
    /// used longest ago. Itself it stays until the next one, however large it is.
    pub(crate) fn keep(&mut self, key: BlockKey, kept: V, bytes: u64) {
        self.bytes = self.bytes.saturating_add(bytes);
        match self.blocks.push(key, Measured { kept, bytes }) {
            Ok(None) => {}
            Ok(Some((_, gone))) => self.forget(&gone),
            Err(refused) => {
                let (_, lost) = refused.value;
                self.forget(&lost);
            }
        }
        for _ in 1..self.blocks.len() {
            if self.bytes <= self.most {
                break;
            }
            if let Some((_, gone)) = self.blocks.pop_lru() {
                self.forget(&gone);
            }
        }
    }

    /// A block is kept no more.
    fn forget(&mut self, gone: &Measured<V>) {
        self.bytes = self.bytes.saturating_sub(gone.bytes);
    }
}
