//! A position in a table that is read block by block.

ghost use Rattle.std.specs.Prelude.{◌≡◌, [], ◌∷◌, ℕ, List, false, Ok, IfOk, IfErr, IfSome};
ghost use Rattle.std.specs.Prelude.{MatchOption, OnOk, OnErr};
ghost use Rattle.std.specs.Option.{option_map, IsSome};
ghost use Rattle.std.specs.Arc.{arc_value};
ghost use Rattle.lsm_codec.specs.Entries.{Entry};
ghost use Rattle.lsm_codec.specs.KeyRef.{key_of};
ghost use Rattle.lsm_block.specs.Held.{HeldBlock};
ghost use Rattle.lsm_block.specs.Seeking.{not_below};
ghost use Rattle.lsm_block.specs.Standing.{IsMovedBy, SharesFront, but_first, is_end, key_of_first};
ghost use Rattle.lsm_block.specs.Standing.{user_of_first, value_of_first};
ghost use Rattle.lsm_reader.specs.Blocks.{Reads, left_at, or_none, IsSought, IsAtEntry};
ghost use Rattle.lsm_reader.specs.Getting.{entered_there, first_entered, first_named, sought_there};
ghost use Rattle.lsm_reader.specs.Getting.{stepped_on, stepped_or_stays};
ghost use Rattle.lsm_reader.specs.Refusals.{IsReadRefusal};
ghost use Rattle.lsm_table.specs.Footer.{body_of};
ghost use Rattle.lsm_table.specs.HeldTable.{AreNamed, Names};
ghost use Rattle.lsm_table.specs.ReadFault.{ReadCounted, IsMemoryOrShelf};
ghost use Rattle.lsm_table.specs.Searching.{Sought};
ghost use Rattle.lsm_table.specs.Table.{DataBlock};
ghost use Rattle.lsm_shelf.specs.Told.{Becomes};

use crate::ahead::Ahead;
use crate::blocks::Blocks;
use crate::opening::data_block_by;
use crate::search::seek_here_by;
use lsm_block::{Block, BlockIter};
use lsm_codec::KeyRef;
use lsm_table::{Naming, ReadFault, Shelf, TableFault};
use std::alloc::{AllocError, Global};
use std::marker::Model;
use std::sync::Arc;

/// A position at an entry of a table, of which it holds the index block and one data block.
/// Contracts see it as what is left of that data block, the entry at which it stands first, and the
/// index entries of the data blocks after it.
#[derive(Drop)]
pub struct TableCursor {
    // At the entry of the data block that comes next.
    index: BlockIter,
    // At the entry, if there is one.
    here: Option<BlockIter>,
}

impl Model for TableCursor {
    ghost use Rattle.lsm_reader.specs.Blocks.{Rest, or_none, IsAtEntry};

    ghost Value = { Rest };

    ghost view = { λ c. record { here = or_none c.here; index = c.index } };

    ghost invariant = { λ c. IsAtEntry (or_none c.here) c.index };
}

/// Goes to the first entry of the data block that an index entry names. A data block without
/// entries is `BadIndex`.
fn enter_by<N: Naming, S: Shelf, B: Blocks<N, S>>(
    blocks: &mut B,
    alloc: Global,
    receipt: &S::Receipt,
    spelled: &[u8],
    ahead: &mut Ahead<N, S>,
) -> Result<BlockIter, ReadFault>
    requires here { S.is_of N.place receipt.now }
    ensures some { IfOk result (λ i. IsSome (key_of_first i)) }
    ensures exact { S.honest → Reads (λ i. i) result
        (entered_there (body_of (S.Receipt.image receipt.now)) spelled.now) }
    ensures found { S.honest → (e : Entry) (es : List Entry)
        → DataBlock (body_of (S.Receipt.image receipt.now)) spelled.now (e ∷ es)
        → IfOk result (λ i. i ≡ e ∷ es) }
    ensures sound { S.honest → (e : Entry) (es : List Entry)
        → DataBlock (body_of (S.Receipt.image receipt.now)) spelled.now (e ∷ es)
        → IfErr result IsMemoryOrShelf }
    ensures told { Becomes (B.told blocks.old) (B.told blocks.new) }
    ensures loan { B.loan blocks.new ≡ B.loan blocks.old }
    ensures cause { IfErr result (λ e. ReadCounted e (B.told blocks.old) (B.told blocks.new)) }
    ensures refused { IfErr result
        (IsReadRefusal (S.refuses N.place) (S.Receipt.number receipt.now)) }
{
    let block = data_block_by(blocks, alloc, receipt, spelled, ahead)?;
    let entries = BlockIter::first(alloc, block)?;
    if entries.is_at_end() {
        return Err(ReadFault::Table(TableFault::BadIndex));
    }
    Ok(entries)
}

/// Goes to the first entry of the data block that the next index entry names, and passes that; to
/// no entry where none is left. An `Err` leaves the index.
fn enter_next_by<N: Naming, S: Shelf, B: Blocks<N, S>>(
    blocks: &mut B,
    alloc: Global,
    receipt: &S::Receipt,
    index: &mut BlockIter,
    ahead: &mut Ahead<N, S>,
) -> Result<Option<BlockIter>, ReadFault>
    requires here { S.is_of N.place receipt.now }
    ensures stands { IfOk result (λ h. IsAtEntry (or_none h) index.new) }
    // It stands at an entry, unless no data block was left.
    ensures some { IfOk result (λ h. is_end index.old ≡ false → IsSome (key_of_first (or_none h))) }
    ensures exact { S.honest → Reads or_none result
        (first_entered (body_of (S.Receipt.image receipt.now)) index.old) }
    ensures entered { S.honest → AreNamed (body_of (S.Receipt.image receipt.now)) index.old
        → IfOk result (λ h. AreNamed (body_of (S.Receipt.image receipt.now)) index.new
        × (left_at (S.Receipt.image receipt.now) record { here = or_none h; index = index.new }
        ≡ left_at (S.Receipt.image receipt.now) record { here = []; index = index.old })) }
    ensures sound { S.honest → AreNamed (body_of (S.Receipt.image receipt.now)) index.old
        → IfErr result IsMemoryOrShelf }
    ensures err { OnErr result (index.new ≡ index.old) }
    ensures told { Becomes (B.told blocks.old) (B.told blocks.new) }
    ensures loan { B.loan blocks.new ≡ B.loan blocks.old }
    ensures cause { IfErr result (λ e. ReadCounted e (B.told blocks.old) (B.told blocks.new)) }
    ensures refused { IfErr result
        (IsReadRefusal (S.refuses N.place) (S.Receipt.number receipt.now)) }
{
    if index.is_at_end() {
        return Ok(None);
    }
    let entries = enter_by(blocks, alloc, receipt, index.value(), ahead)?;
    index.pass()?;
    Ok(Some(entries))
}

/// Seeks in the data block of the index entry at which the index stands, and passes that.
fn seek_next_by<N: Naming, S: Shelf, B: Blocks<N, S>>(
    blocks: &mut B,
    alloc: Global,
    receipt: &S::Receipt,
    index: &mut BlockIter,
    key: &KeyRef<'_>,
) -> Result<BlockIter, ReadFault>
    requires here { S.is_of N.place receipt.now }
    requires some { is_end index.old ≡ false }
    ensures found { S.honest → (es : List Entry)
        → Sought (key_of key.now) (body_of (S.Receipt.image receipt.now)) index.old es → IfOk result
        (λ i. IsSought (key_of key.now) (S.Receipt.image receipt.now) i index.new es) }
    ensures sound { S.honest → (es : List Entry)
        → Sought (key_of key.now) (body_of (S.Receipt.image receipt.now)) index.old es
        → IfErr result IsMemoryOrShelf }
    ensures exact { S.honest → Reads (λ i. i) result
        (sought_there (key_of key.now) (body_of (S.Receipt.image receipt.now)) index.old) }
    ensures passed { OnOk result (index.new ≡ but_first index.old) }
    ensures told { Becomes (B.told blocks.old) (B.told blocks.new) }
    ensures loan { B.loan blocks.new ≡ B.loan blocks.old }
    ensures cause { IfErr result (λ e. ReadCounted e (B.told blocks.old) (B.told blocks.new)) }
    ensures refused { IfErr result
        (IsReadRefusal (S.refuses N.place) (S.Receipt.number receipt.now)) }
{
    let entries = seek_here_by(blocks, alloc, receipt, &*index, key)?;
    index.pass()?;
    Ok(entries)
}

impl TableCursor {
    /// At the first entry of a table, where this is the table's index block.
    pub fn first_by<N: Naming, S: Shelf, B: Blocks<N, S>>(
        blocks: &mut B,
        alloc: Global,
        receipt: &S::Receipt,
        index: Arc<Block>,
    ) -> Result<TableCursor, ReadFault>
        requires here { S.is_of N.place receipt.now }
        ensures found { S.honest → (es : List Entry) → Names (body_of (S.Receipt.image receipt.now))
            (arc_value {X = HeldBlock} index).entries es
            → IfOk result (λ c. AreNamed (body_of (S.Receipt.image receipt.now)) c.index
            × (left_at (S.Receipt.image receipt.now) c ≡ es)) }
        // Whatever the image is.
        ensures exact { S.honest → Reads (λ c. c.here) result (first_entered
            (body_of (S.Receipt.image receipt.now)) (arc_value {X = HeldBlock} index).entries) }
        ensures sound { S.honest → (es : List Entry) → Names (body_of (S.Receipt.image receipt.now))
            (arc_value {X = HeldBlock} index).entries es → IfErr result IsMemoryOrShelf }
        ensures told { Becomes (B.told blocks.old) (B.told blocks.new) }
        ensures loan { B.loan blocks.new ≡ B.loan blocks.old }
        ensures cause { IfErr result (λ e. ReadCounted e (B.told blocks.old) (B.told blocks.new)) }
        ensures refused { IfErr result
            (IsReadRefusal (S.refuses N.place) (S.Receipt.number receipt.now)) }
    {
        let mut places = BlockIter::first(alloc, index)?;
        let mut alone = Ahead::none();
        let here = enter_next_by(blocks, alloc, receipt, &mut places, &mut alone)?;
        Ok(TableCursor {
            index: places,
            here,
        })
    }

    /// At the first entry of a table that is not below the key, where this is the table's index
    /// block.
    pub fn seek_by<N: Naming, S: Shelf, B: Blocks<N, S>>(
        blocks: &mut B,
        alloc: Global,
        receipt: &S::Receipt,
        index: Arc<Block>,
        key: &KeyRef<'_>,
    ) -> Result<TableCursor, ReadFault>
        requires here { S.is_of N.place receipt.now }
        ensures found { S.honest → (es : List Entry) → Names (body_of (S.Receipt.image receipt.now))
            (arc_value {X = HeldBlock} index).entries es
            → IfOk result (λ c. AreNamed (body_of (S.Receipt.image receipt.now)) c.index
            × (left_at (S.Receipt.image receipt.now) c ≡ not_below (key_of key.now) es)) }
        // Whatever the image is.
        ensures exact { S.honest → Reads (λ c.
            c.here) result (first_named (key_of key.now) (body_of (S.Receipt.image receipt.now))
            (not_below (key_of key.now) (arc_value {X = HeldBlock} index).entries)) }
        ensures sound { S.honest → (es : List Entry) → Names (body_of (S.Receipt.image receipt.now))
            (arc_value {X = HeldBlock} index).entries es → IfErr result IsMemoryOrShelf }
        ensures told { Becomes (B.told blocks.old) (B.told blocks.new) }
        ensures loan { B.loan blocks.new ≡ B.loan blocks.old }
        ensures cause { IfErr result (λ e. ReadCounted e (B.told blocks.old) (B.told blocks.new)) }
        ensures refused { IfErr result
            (IsReadRefusal (S.refuses N.place) (S.Receipt.number receipt.now)) }
    {
        let mut places = BlockIter::seek(alloc, index, key)?;
        while !places.is_at_end() {
            let entries = seek_next_by(blocks, alloc, receipt, &mut places, key)?;
            if !entries.is_at_end() {
                return Ok(TableCursor {
                    index: places,
                    here: Some(entries),
                });
            }
        }
        Ok(TableCursor {
            index: places,
            here: None,
        })
    }

    /// The key of the entry at which it stands, if it stands at one.
    pub fn key(&self) -> Option<KeyRef<'_>>
        ensures key { option_map key_of result ≡ key_of_first self.now.here }
        // Where it stands at no entry, nothing is left.
        ensures stands { IsAtEntry self.now.here self.now.index }
    {
        match &self.here {
            None => None,
            Some(entries) => entries.key(),
        }
    }

    /// Whether it stands at no entry. Then none is left.
    pub fn is_at_end(&self) -> bool
        ensures { (image : List ℕ) → result ≡ is_end (left_at image self.now) }
    {
        match &self.here {
            None => true,
            Some(entries) => entries.is_at_end(),
        }
    }

    /// The value of the entry at which it stands; no bytes where it stands at none.
    pub fn value(&self) -> &[u8]
        ensures value { result.now ≡ value_of_first self.now.here }
        ensures stands { IsAtEntry self.now.here self.now.index }
    {
        match &self.here {
            None => &[],
            Some(entries) => entries.value(),
        }
    }

    /// Goes on to the next entry of the data block, as `BlockIter::advance` does. Where none is
    /// left there it stays, and so does an `Err` leave it.
    fn advance_here(&mut self) -> Result<Option<usize>, AllocError>
        ensures stands { IsAtEntry self.old.here self.old.index }
        ensures moved { IfOk result (λ m. IsMovedBy m self.old.here self.new.here) }
        ensures index { self.new.index ≡ self.old.index }
        ensures err { OnErr result (self.new ≡ self.old) }
    {
        match &mut self.here {
            None => Ok(None),
            Some(entries) => entries.advance(),
        }
    }

    /// Goes on to the next data block, or to the end. An `Err` leaves it.
    fn next_block_by<N: Naming, S: Shelf, B: Blocks<N, S>>(
        &mut self,
        blocks: &mut B,
        alloc: Global,
        receipt: &S::Receipt,
        ahead: &mut Ahead<N, S>,
    ) -> Result<(), ReadFault>
        requires here { S.is_of N.place receipt.now }
        // It stands at an entry, unless no data block was left.
        ensures some { OnOk result (is_end self.old.index ≡ false
            → IsSome (key_of_first self.new.here)) }
        ensures exact { S.honest → Reads (λ _. self.new.here) result
            (first_entered (body_of (S.Receipt.image receipt.now)) self.old.index) }
        ensures entered { S.honest → AreNamed (body_of (S.Receipt.image receipt.now)) self.old.index
            → OnOk result (AreNamed (body_of (S.Receipt.image receipt.now)) self.new.index
            × (left_at (S.Receipt.image receipt.now) self.new
            ≡ left_at (S.Receipt.image receipt.now) record { here = []; index = self.old.index })) }
        ensures sound { S.honest → AreNamed (body_of (S.Receipt.image receipt.now)) self.old.index
            → IfErr result IsMemoryOrShelf }
        ensures err { OnErr result (self.new ≡ self.old) }
        ensures told { Becomes (B.told blocks.old) (B.told blocks.new) }
        ensures loan { B.loan blocks.new ≡ B.loan blocks.old }
        ensures cause { IfErr result (λ e. ReadCounted e (B.told blocks.old) (B.told blocks.new)) }
        ensures refused { IfErr result
            (IsReadRefusal (S.refuses N.place) (S.Receipt.number receipt.now)) }
    {
        self.here = enter_next_by(blocks, alloc, receipt, &mut self.index, ahead)?;
        Ok(())
    }

    /// Goes on to the next entry, or to the end. What it reads of the next data block it takes from
    /// `ahead`, or reads there. An `Err` leaves it.
    pub fn advance_by<N: Naming, S: Shelf, B: Blocks<N, S>>(
        &mut self,
        blocks: &mut B,
        alloc: Global,
        receipt: &S::Receipt,
        ahead: &mut Ahead<N, S>,
    ) -> Result<(), ReadFault>
        requires here { S.is_of N.place receipt.now }
        ensures steps { S.honest → AreNamed (body_of (S.Receipt.image receipt.now)) self.old.index
            → OnOk result (AreNamed (body_of (S.Receipt.image receipt.now)) self.new.index
            × (left_at (S.Receipt.image receipt.now) self.new
            ≡ but_first (left_at (S.Receipt.image receipt.now) self.old))) }
        // Whatever the image is.
        ensures exact { S.honest → Reads (λ _.
            self.new.here) result (stepped_on (body_of (S.Receipt.image receipt.now)) self.old) }
        ensures sound { S.honest → AreNamed (body_of (S.Receipt.image receipt.now)) self.old.index
            → IfErr result IsMemoryOrShelf }
        ensures err { OnErr result (self.new ≡ self.old) }
        ensures told { Becomes (B.told blocks.old) (B.told blocks.new) }
        ensures loan { B.loan blocks.new ≡ B.loan blocks.old }
        ensures cause { IfErr result (λ e. ReadCounted e (B.told blocks.old) (B.told blocks.new)) }
        ensures refused { IfErr result
            (IsReadRefusal (S.refuses N.place) (S.Receipt.number receipt.now)) }
    {
        if self.advance_here()?.is_some() {
            return Ok(());
        }
        self.next_block_by(blocks, alloc, receipt, ahead)
    }

    /// Goes on to the next entry, and tells how many bytes of its user key are those of the user
    /// key before it, as far as one data block spells them once. Where none is left it stays. What
    /// it reads of the next data block it takes from `ahead`, or reads there. An `Err` leaves it.
    pub fn step_by<N: Naming, S: Shelf, B: Blocks<N, S>>(
        &mut self,
        blocks: &mut B,
        alloc: Global,
        receipt: &S::Receipt,
        ahead: &mut Ahead<N, S>,
    ) -> Result<Option<usize>, ReadFault>
        requires here { S.is_of N.place receipt.now }
        ensures moved { S.honest → AreNamed (body_of (S.Receipt.image receipt.now)) self.old.index
            → IfOk result (λ m. AreNamed (body_of (S.Receipt.image receipt.now)) self.new.index
            × IsMovedBy m (left_at (S.Receipt.image receipt.now) self.old)
            (left_at (S.Receipt.image receipt.now) self.new)) }
        // Whatever the image is.
        ensures stands { IfOk result (λ m.
            MatchOption m (self.new ≡ self.old) (λ _. IsSome (key_of_first self.new.here))) }
        ensures shared { IfOk result (λ m. IfSome m (λ n.
            SharesFront n (user_of_first self.old.here) (user_of_first self.new.here))) }
        ensures exact { S.honest → Reads (λ _. self.new.here) result
            (stepped_or_stays (body_of (S.Receipt.image receipt.now)) self.old) }
        ensures sound { S.honest → AreNamed (body_of (S.Receipt.image receipt.now)) self.old.index
            → IfErr result IsMemoryOrShelf }
        ensures err { OnErr result (self.new ≡ self.old) }
        ensures told { Becomes (B.told blocks.old) (B.told blocks.new) }
        ensures loan { B.loan blocks.new ≡ B.loan blocks.old }
        ensures cause { IfErr result (λ e. ReadCounted e (B.told blocks.old) (B.told blocks.new)) }
        ensures refused { IfErr result
            (IsReadRefusal (S.refuses N.place) (S.Receipt.number receipt.now)) }
    {
        let moved = self.advance_here()?;
        if moved.is_some() {
            return Ok(moved);
        }
        if self.index.is_at_end() {
            return Ok(None);
        }
        self.next_block_by(blocks, alloc, receipt, ahead)?;
        Ok(Some(0))
    }
}
