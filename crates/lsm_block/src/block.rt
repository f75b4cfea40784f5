//! A block that was checked.

ghost use Rattle.std.specs.Prelude.{◌≡◌, ℕ, List, IfOk, Ok};
ghost use Rattle.lsm_block.specs.Fault.{is_memory};
ghost use Rattle.lsm_codec.specs.KeyRef.{key_of};
ghost use Rattle.lsm_codec.specs.Entries.{Entry};
ghost use Rattle.lsm_block.specs.Block.{IsBlock};
ghost use Rattle.lsm_block.specs.Reading.{block_at};
ghost use Rattle.lsm_codec.specs.Gives.{Gives};
ghost use Rattle.lsm_block.specs.Seeking.{not_below};
ghost use Rattle.lsm_block.specs.Held.{block_in, rest_of};

use crate::block_ref::BlockRef;
use crate::cursor::Cursor;
use crate::fault::BlockFault;
use lsm_codec::KeyRef;
use std::alloc::{AllocError, Global};
use std::marker::Model;

/// A checked block, which holds its bytes. Contracts see it as its entries and the text that spells
/// them.
#[derive(Debug, Drop)]
pub struct Block {
    bytes: Vec<u8>,
    text_len: usize,
}

impl Model for Block {
    ghost use Rattle.std.specs.Prelude.{take};
    ghost use Rattle.lsm_block.specs.Held.{HeldBlock, Holds, text_and_entries};

    ghost Value = { HeldBlock };

    ghost view = { λ b. text_and_entries (take b.text_len b.bytes.items) };

    ghost invariant = { λ b.
        Holds b.bytes.items b.text_len (text_and_entries (take b.text_len b.bytes.items)).entries };
}

impl Block {
    /// The block of these bytes. `BadRestarts`, `BadEntry` and `OutOfOrder` say what is wrong with
    /// them, in this order: restart offsets are judged up to the first entry that cannot be read.
    pub fn check(alloc: Global, bytes: Vec<u8>) -> Result<Block, BlockFault>
        // What is read is the block's.
        ensures found { IfOk result (λ b. IsBlock bytes.items b.entries) }
        // What is a block is read, unless memory runs out.
        ensures only { (es : List Entry) → IsBlock bytes.items es
            → Gives is_memory (λ b. b.entries) result (Ok es) }
        // Which fault it is.
        ensures exact { Gives is_memory (λ b. b.entries) result (block_at bytes.items) }
        // It is the block of just these bytes.
        ensures block { IfOk result (λ b. b ≡ block_in bytes.items) }
    {
        let mut cursor = Cursor::start(alloc);
        match cursor.judge(&bytes) {
            Ok(text_len) => Ok(Block { bytes, text_len }),
            Err(fault) => Err(fault),
        }
    }

    /// The block, lent.
    pub fn as_ref(&self) -> BlockRef<'_>
        ensures { result ≡ self.now }
    {
        BlockRef::at(&self.bytes, self.text_len)
    }

    /// A cursor at the first entry that is not below the key.
    pub fn seek(&self, alloc: Global, key: &KeyRef<'_>) -> Result<Cursor, AllocError>
        ensures { IfOk result (λ c.
            rest_of self.now c ≡ not_below (key_of key.now) self.now.entries) }
    {
        let mut cursor = Cursor::start(alloc);
        self.as_ref().seek(&mut cursor, key)?;
        Ok(cursor)
    }
}
