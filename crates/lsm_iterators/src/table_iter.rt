//! A place in a table.

ghost use Rattle.std.specs.Prelude.{◌≡◌, ◌≢◌, [], false, IfOk, IfErr, IfSome, MatchOption};
ghost use Rattle.std.specs.Prelude.{OnOk, OnErr};
ghost use Rattle.std.specs.Option.{option_map};
ghost use Rattle.lsm_codec.specs.KeyRef.{key_of};
ghost use Rattle.lsm_block.specs.Standing.{IsMovedBy, SharesFront, but_first, is_end, key_of_first};
ghost use Rattle.lsm_block.specs.Standing.{user_of_first, value_of_first};
ghost use Rattle.lsm_table.specs.HeldTable.{entries_in};
ghost use Rattle.lsm_table.specs.ReadFault.{ReadCounted, IsMemoryOrShelf};
ghost use Rattle.lsm_table.specs.Told.{Becomes};
ghost use Rattle.lsm_reader.specs.Refusals.{IsReadRefusal};
ghost use Rattle.lsm_iterators.specs.Runs.{HasEntries};
ghost use Rattle.lsm_iterators.specs.Seeking.{at_or_past};

use lsm_codec::{KeyRef, MAX_SEQ};
use lsm_reader::{Ahead, Blocks, TableCursor, index_by};
use lsm_table::{Naming, ReadFault, Shelf, TableFault, TableReceipt, key_for};
use std::alloc::Global;
use std::marker::{Model, PhantomData};

/// The table at which a run stands: a place in it, with the receipt by which it is read, and what
/// was read ahead. Contracts see it as the number of its file, and the entries that are left, the
/// one at which it stands first.
#[derive(Drop)]
pub(crate) struct TableIter<N: Naming, S: Shelf> {
    receipt: S::Receipt,
    cursor: TableCursor,
    ahead: Ahead<N, S>,
    of: PhantomData<N>,
}

impl<N: Naming, S: Shelf> Model for TableIter<N, S> {
    ghost use Rattle.lsm_reader.specs.Blocks.{left_at, IsAtEntry};
    ghost use Rattle.lsm_table.specs.Footer.{body_of};
    ghost use Rattle.lsm_table.specs.HeldTable.{AreNamed};
    ghost use Rattle.lsm_iterators.specs.Runs.{InFile};

    ghost Value = { InFile };

    ghost view = { λ t. record {
      number = S.Receipt.number t.receipt;
      left = left_at (S.Receipt.image t.receipt) t.cursor;
    } };

    ghost invariant = { λ t. S.is_of N.place t.receipt
        × (S.honest → AreNamed (body_of (S.Receipt.image t.receipt)) t.cursor.index) };
}

impl<N: Naming, S: Shelf> TableIter<N, S> {
    /// At the first entry of the table of a receipt. A table without entries is `BadIndex`.
    pub(crate) fn first_by<B: Blocks<N, S>>(
        blocks: &mut B,
        alloc: Global,
        receipt: S::Receipt,
    ) -> Result<TableIter<N, S>, ReadFault>
        requires named { S.is_of N.place receipt }
        requires table { S.honest → HasEntries (S.Receipt.image receipt) }
        ensures some { IfOk result (λ t. is_end t.left ≡ false) }
        ensures number { IfOk result (λ t. t.number ≡ S.Receipt.number receipt) }
        ensures entries { S.honest
            → IfOk result (λ t. t.left ≡ entries_in (S.Receipt.image receipt)) }
        ensures sound { S.honest → IfErr result IsMemoryOrShelf }
        ensures told { Becomes (B.told blocks.old) (B.told blocks.new) }
        ensures loan { B.loan blocks.new ≡ B.loan blocks.old }
        ensures cause { IfErr result (λ e. ReadCounted e (B.told blocks.old) (B.told blocks.new)) }
        ensures refused { IfErr result
            (IsReadRefusal (S.refuses N.place) (S.Receipt.number receipt)) }
    {
        let index = index_by(blocks, alloc, &receipt)?;
        let cursor = TableCursor::first_by(blocks, alloc, &receipt, index)?;
        if cursor.is_at_end() {
            return Err(ReadFault::Table(TableFault::BadIndex));
        }
        Ok(TableIter {
            receipt,
            cursor,
            ahead: Ahead::none(),
            of: PhantomData,
        })
    }

    /// At the first entry of the table of a receipt whose user key is at or past this one: the
    /// first that does not stand before every entry of it. A table without such an entry is
    /// `BadIndex`.
    pub(crate) fn seek_by<B: Blocks<N, S>>(
        blocks: &mut B,
        alloc: Global,
        receipt: S::Receipt,
        from: &[u8],
    ) -> Result<TableIter<N, S>, ReadFault>
        requires named { S.is_of N.place receipt }
        requires table { S.honest → HasEntries (S.Receipt.image receipt) }
        requires reached { S.honest
            → at_or_past from.now (entries_in (S.Receipt.image receipt)) ≢ [] }
        ensures some { IfOk result (λ t. is_end t.left ≡ false) }
        ensures number { IfOk result (λ t. t.number ≡ S.Receipt.number receipt) }
        ensures entries { S.honest → IfOk result
            (λ t. t.left ≡ at_or_past from.now (entries_in (S.Receipt.image receipt))) }
        ensures sound { S.honest → IfErr result IsMemoryOrShelf }
        ensures told { Becomes (B.told blocks.old) (B.told blocks.new) }
        ensures loan { B.loan blocks.new ≡ B.loan blocks.old }
        ensures cause { IfErr result (λ e. ReadCounted e (B.told blocks.old) (B.told blocks.new)) }
        ensures refused { IfErr result
            (IsReadRefusal (S.refuses N.place) (S.Receipt.number receipt)) }
    {
        let index = index_by(blocks, alloc, &receipt)?;
        let key = key_for(from, MAX_SEQ);
        let cursor = TableCursor::seek_by(blocks, alloc, &receipt, index, &key)?;
        if cursor.is_at_end() {
            return Err(ReadFault::Table(TableFault::BadIndex));
        }
        Ok(TableIter {
            receipt,
            cursor,
            ahead: Ahead::none(),
            of: PhantomData,
        })
    }

    /// The key of the entry at which it stands, if it stands at one.
    pub(crate) fn key(&self) -> Option<KeyRef<'_>>
        ensures { option_map key_of result ≡ key_of_first self.now.left }
    {
        self.cursor.key()
    }

    /// The number of the table's file.
    pub(crate) fn number(&self) -> u64
        ensures { result ≡ self.now.number }
    {
        self.receipt.number()
    }

    /// Whether it stands at no entry. Then none is left.
    pub(crate) fn is_at_end(&self) -> bool
        ensures { result ≡ is_end self.now.left }
    {
        self.cursor.is_at_end()
    }

    /// The value of the entry at which it stands; no bytes where it stands at none.
    pub(crate) fn value(&self) -> &[u8]
        ensures { result.now ≡ value_of_first self.now.left }
    {
        self.cursor.value()
    }

    /// Goes on to the next entry, or to the end. An `Err` leaves it.
    pub(crate) fn advance_by<B: Blocks<N, S>>(
        &mut self,
        blocks: &mut B,
        alloc: Global,
    ) -> Result<(), ReadFault>
        ensures ok { S.honest → OnOk result (self.new.left ≡ but_first self.old.left) }
        ensures sound { S.honest → IfErr result IsMemoryOrShelf }
        ensures err { OnErr result (self.new ≡ self.old) }
        ensures told { Becomes (B.told blocks.old) (B.told blocks.new) }
        ensures loan { B.loan blocks.new ≡ B.loan blocks.old }
        ensures cause { IfErr result (λ e. ReadCounted e (B.told blocks.old) (B.told blocks.new)) }
        ensures refused { IfErr result (IsReadRefusal (S.refuses N.place) self.old.number) }
        ensures file { self.new.number ≡ self.old.number }
    {
        self.cursor
            .advance_by(blocks, alloc, &self.receipt, &mut self.ahead)
    }

    /// Goes on to the next entry, and tells how many bytes of its user key are those of the user
    /// key before it, as far as one data block spells them once. Where none is left it stays. An
    /// `Err` leaves it.
    pub(crate) fn step_by<B: Blocks<N, S>>(
        &mut self,
        blocks: &mut B,
        alloc: Global,
    ) -> Result<Option<usize>, ReadFault>
        ensures moved { S.honest → IfOk result (λ m. IsMovedBy m self.old.left self.new.left) }
        // Whatever the image is.
        ensures stands { IfOk result (λ m.
            MatchOption m (self.new ≡ self.old) (λ _. is_end self.new.left ≡ false)) }
        ensures shared { IfOk result (λ m.
            IfSome m (λ n. SharesFront n (user_of_first self.old.left)
            (user_of_first self.new.left))) }
        ensures sound { S.honest → IfErr result IsMemoryOrShelf }
        ensures err { OnErr result (self.new ≡ self.old) }
        ensures told { Becomes (B.told blocks.old) (B.told blocks.new) }
        ensures loan { B.loan blocks.new ≡ B.loan blocks.old }
        ensures cause { IfErr result (λ e. ReadCounted e (B.told blocks.old) (B.told blocks.new)) }
        ensures refused { IfErr result (IsReadRefusal (S.refuses N.place) self.old.number) }
        ensures file { self.new.number ≡ self.old.number }
    {
        self.cursor
            .step_by(blocks, alloc, &self.receipt, &mut self.ahead)
    }
}
