//! A position at an entry of a block that others may hold too.

ghost use Rattle.std.specs.Prelude.{◌≡◌, [], ℕ, IfOk, IfSome, OnOk, OnErr};
ghost use Rattle.std.specs.Option.{option_map};
ghost use Rattle.std.specs.Arc.{arc_value};
ghost use Rattle.lsm_codec.specs.KeyRef.{key_of};
ghost use Rattle.lsm_block.specs.Seeking.{not_below};
ghost use Rattle.lsm_block.specs.Standing.{StepsTo, IsMovedBy, SharesFront, but_first, is_end};
ghost use Rattle.lsm_block.specs.Standing.{key_of_first, user_of_last, value_of_first};

use crate::block::Block;
use crate::cursor::Cursor;
use lsm_codec::KeyRef;
use std::alloc::{AllocError, Global};
use std::marker::Model;
use std::sync::Arc;

/// A position at an entry of a block that others may hold too, or behind the last one. Contracts
/// see it as the entries from that one on. It lends the key and the value of the first of them.
///
/// The position is numbers and a key of its own, so it needs no reference into the block.
#[derive(Drop)]
pub struct BlockIter {
    block: Arc<Block>,
    // Behind the entry at which it stands.
    cursor: Cursor,
    // The length of that entry's value, if it stands at one. The value ends where the entry does.
    len: Option<usize>,
}

impl Model for BlockIter {
    ghost use Rattle.std.specs.Prelude.{List};
    ghost use Rattle.std.specs.Arc.{arc_value};
    ghost use Rattle.lsm_codec.specs.Entries.{Entry};
    ghost use Rattle.lsm_block.specs.Standing.{from_here, IsStanding};

    ghost Value = { List Entry };

    ghost view = { λ i. from_here (arc_value i.block) i.cursor i.len };

    ghost invariant = { λ i. IsStanding (arc_value i.block) i.cursor i.len };
}

/// Goes to the next entry, and tells the length of its value and how many bytes of its user key are
/// those of the user key before it; stays where there is none. An `Err` leaves the cursor.
fn step(block: &Block, cursor: &mut Cursor) -> Result<Option<(usize, usize)>, AllocError>
    ensures steps { IfOk result (λ r.
        StepsTo block.now cursor.old cursor.new (option_map (λ p. p.0) r)) }
    ensures shared { IfOk result (λ r. IfSome r (λ p.
        SharesFront p.1 (user_of_last cursor.old.last) (user_of_last cursor.new.last))) }
    ensures err { OnErr result (cursor.new ≡ cursor.old) }
{
    let (value, shared) = block.as_ref().step(cursor)?;
    match value {
        None => Ok(None),
        Some(value) => Ok(Some((value.len(), shared))),
    }
}

/// The same, without how many bytes are those of the key before.
fn enter(block: &Block, cursor: &mut Cursor) -> Result<Option<usize>, AllocError>
    ensures steps { IfOk result (λ len. StepsTo block.now cursor.old cursor.new len) }
{
    match step(block, cursor)? {
        None => Ok(None),
        Some((len, _)) => Ok(Some(len)),
    }
}

impl BlockIter {
    /// At the first entry.
    ///
    /// # Errors
    /// `AllocError` where the memory for the key was refused.
    pub fn first(alloc: Global, block: Arc<Block>) -> Result<BlockIter, AllocError>
        ensures { IfOk result (λ i. i ≡ (arc_value block).entries) }
    {
        let mut cursor = Cursor::start(alloc);
        let held: &Block = &block;
        held.as_ref().rewind(&mut cursor);
        let len = enter(held, &mut cursor)?;
        Ok(BlockIter { block, cursor, len })
    }

    /// At the first entry that is not below the key, found by the restarts.
    ///
    /// # Errors
    /// `AllocError` where the memory for a key was refused.
    pub fn seek(alloc: Global, block: Arc<Block>, key: &KeyRef<'_>) -> Result<BlockIter, AllocError>
        ensures { IfOk result (λ i. i ≡ not_below (key_of key.now) (arc_value block).entries) }
    {
        let held: &Block = &block;
        let mut cursor = held.seek(alloc, key)?;
        let len = enter(held, &mut cursor)?;
        Ok(BlockIter { block, cursor, len })
    }

    /// Whether it stands at no entry, behind all of them.
    pub fn is_at_end(&self) -> bool
        ensures { result ≡ is_end self.now }
    {
        self.len.is_none()
    }

    /// The key of the entry at which it stands, if it stands at one.
    pub fn key(&self) -> Option<KeyRef<'_>>
        ensures { option_map key_of result ≡ key_of_first self.now }
    {
        match self.len {
            None => None,
            Some(_) => self.cursor.key(),
        }
    }

    /// The value of the entry at which it stands; no bytes where it stands at none.
    pub fn value(&self) -> &[u8]
        ensures { result.now ≡ value_of_first self.now }
    {
        match self.len {
            None => &[],
            Some(len) => self.cursor.bytes_before(&self.block, len),
        }
    }

    /// Goes on to the next entry, and tells how many bytes of its user key are those of the user
    /// key before it, as far as the block spells them once. Where there is no entry it stays where
    /// it is: so a reader of many blocks leaves an entry only once the next block is read.
    ///
    /// # Errors
    /// `AllocError` where the memory for the key was refused. It stays where it is.
    pub fn advance(&mut self) -> Result<Option<usize>, AllocError>
        ensures moved { IfOk result (λ m. IsMovedBy m self.old self.new) }
        ensures err { OnErr result (self.new ≡ self.old) }
    {
        if self.len.is_none() {
            return Ok(None);
        }
        match step(&self.block, &mut self.cursor)? {
            None => Ok(None),
            Some((len, shared)) => {
                self.len = Some(len);
                Ok(Some(shared))
            }
        }
    }

    /// Goes on to the next entry, or behind the last one.
    ///
    /// # Errors
    /// `AllocError` where the memory for the key was refused. It stays where it is.
    pub fn pass(&mut self) -> Result<(), AllocError>
        ensures ok { OnOk result (self.new ≡ but_first self.old) }
        ensures err { OnErr result (self.new ≡ self.old) }
    {
        if self.advance()?.is_some() {
            return Ok(());
        }
        self.finish();
        Ok(())
    }

    /// Goes behind the last entry.
    pub fn finish(&mut self)
        ensures { self.new ≡ [] }
    {
        self.len = None;
    }
}
