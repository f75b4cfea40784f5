//! A table as a source of a merge.

ghost use Rattle.std.specs.Prelude.{◌≡◌, [], ℕ, List, false, IfOk, IfErr, IfSome, MatchOption};
ghost use Rattle.std.specs.Prelude.{OnOk, OnErr};
ghost use Rattle.std.specs.Option.{option_map};
ghost use Rattle.lsm_codec.specs.KeyRef.{key_of};
ghost use Rattle.lsm_block.specs.Standing.{IsMovedBy, SharesFront, but_first, is_end, key_of_first};
ghost use Rattle.lsm_block.specs.Standing.{user_of_first, value_of_first};
ghost use Rattle.lsm_codec.specs.Entries.{Entry};
ghost use Rattle.lsm_table.specs.Table.{IsTable};
ghost use Rattle.lsm_table.specs.ReadFault.{ReadCounted, IsMemoryOrShelf};
ghost use Rattle.lsm_shelf.specs.Told.{Becomes};
ghost use Rattle.lsm_reader.specs.Refusals.{IsReadRefusal, IsSomeReadRefusal};

use crate::ahead::Ahead;
use crate::blocks::Blocks;
use crate::opening::index_by;
use crate::table_cursor::TableCursor;
use lsm_codec::KeyRef;
use lsm_table::{Naming, ReadFault, Shelf};
use std::alloc::Global;
use std::marker::{Model, PhantomData};

/// A table that is read block by block, with the receipt by which it is read. Contracts see it as
/// the entries that are left, the one at which it stands first.
#[derive(Drop)]
pub struct TableStream<N: Naming, S: Shelf> {
    receipt: S::Receipt,
    cursor: TableCursor,
    ahead: Ahead<N, S>,
    of: PhantomData<N>,
}

impl<N: Naming, S: Shelf> Model for TableStream<N, S> {
    ghost use Rattle.std.specs.Prelude.{List};
    ghost use Rattle.lsm_codec.specs.Entries.{Entry};
    ghost use Rattle.lsm_reader.specs.Blocks.{left_at, IsAtEntry};
    ghost use Rattle.lsm_table.specs.Footer.{body_of};
    ghost use Rattle.lsm_table.specs.HeldTable.{AreNamed};

    ghost Value = { List Entry };

    ghost view = { λ t. left_at (S.Receipt.image t.receipt) t.cursor };

    ghost invariant = { λ t. S.is_of N.place t.receipt
        × (S.honest → AreNamed (body_of (S.Receipt.image t.receipt)) t.cursor.index) };
}

impl<N: Naming, S: Shelf> TableStream<N, S> {
    /// At the first entry of the table of a receipt, which over an honest shelf has to be one.
    pub fn open_by<B: Blocks<N, S>>(
        blocks: &mut B,
        alloc: Global,
        receipt: S::Receipt,
    ) -> Result<TableStream<N, S>, ReadFault>
        requires named { S.is_of N.place receipt }
        requires table { S.honest → (es : List Entry) × IsTable (S.Receipt.image receipt) es }
        ensures entries { S.honest → (es : List Entry) → IsTable (S.Receipt.image receipt) es
            → IfOk result (λ t. t ≡ es) }
        ensures sound { S.honest → IfErr result IsMemoryOrShelf }
        ensures told { Becomes (B.told blocks.old) (B.told blocks.new) }
        ensures loan { B.loan blocks.new ≡ B.loan blocks.old }
        ensures cause { IfErr result (λ e. ReadCounted e (B.told blocks.old) (B.told blocks.new)) }
        ensures refused { IfErr result
            (IsReadRefusal (S.refuses N.place) (S.Receipt.number receipt)) }
    {
        let index = index_by(blocks, alloc, &receipt)?;
        let cursor = TableCursor::first_by(blocks, alloc, &receipt, index)?;
        Ok(TableStream {
            receipt,
            cursor,
            ahead: Ahead::none(),
            of: PhantomData,
        })
    }

    /// The key of the entry at which it stands, if it stands at one.
    pub fn key(&self) -> Option<KeyRef<'_>>
        ensures { option_map key_of result ≡ key_of_first self.now }
    {
        self.cursor.key()
    }

    /// Whether it stands at no entry. Then none is left.
    pub fn is_at_end(&self) -> bool
        ensures { result ≡ is_end self.now }
    {
        self.cursor.is_at_end()
    }

    /// The value of the entry at which it stands; no bytes where it stands at none.
    pub fn value(&self) -> &[u8]
        ensures { result.now ≡ value_of_first self.now }
    {
        self.cursor.value()
    }

    /// Goes on to the next entry, or to the end. An `Err` leaves it.
    pub fn advance_by<B: Blocks<N, S>>(
        &mut self,
        blocks: &mut B,
        alloc: Global,
    ) -> Result<(), ReadFault>
        ensures ok { S.honest → OnOk result (self.new ≡ but_first self.old) }
        ensures sound { S.honest → IfErr result IsMemoryOrShelf }
        ensures err { OnErr result (self.new ≡ self.old) }
        ensures told { Becomes (B.told blocks.old) (B.told blocks.new) }
        ensures loan { B.loan blocks.new ≡ B.loan blocks.old }
        ensures cause { IfErr result (λ e. ReadCounted e (B.told blocks.old) (B.told blocks.new)) }
        ensures refused { IfErr result (IsSomeReadRefusal (S.refuses N.place)) }
    {
        self.cursor
            .advance_by(blocks, alloc, &self.receipt, &mut self.ahead)
    }

    /// Goes on to the next entry, and tells how many bytes of its user key are those of the user
    /// key before it, as far as one data block spells them once. Where none is left it stays. An
    /// `Err` leaves it.
    pub fn step_by<B: Blocks<N, S>>(
        &mut self,
        blocks: &mut B,
        alloc: Global,
    ) -> Result<Option<usize>, ReadFault>
        ensures moved { S.honest → IfOk result (λ m. IsMovedBy m self.old self.new) }
        // Whatever the image is.
        ensures stands { IfOk result (λ m.
            MatchOption m (self.new ≡ self.old) (λ _. is_end self.new ≡ false)) }
        ensures shared { IfOk result (λ m.
            IfSome m (λ n. SharesFront n (user_of_first self.old) (user_of_first self.new))) }
        ensures sound { S.honest → IfErr result IsMemoryOrShelf }
        ensures err { OnErr result (self.new ≡ self.old) }
        ensures told { Becomes (B.told blocks.old) (B.told blocks.new) }
        ensures loan { B.loan blocks.new ≡ B.loan blocks.old }
        ensures cause { IfErr result (λ e. ReadCounted e (B.told blocks.old) (B.told blocks.new)) }
        ensures refused { IfErr result (IsSomeReadRefusal (S.refuses N.place)) }
    {
        self.cursor
            .step_by(blocks, alloc, &self.receipt, &mut self.ahead)
    }
}
