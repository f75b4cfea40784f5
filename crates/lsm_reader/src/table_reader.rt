//! Going through an open table.

ghost use Rattle.std.specs.Prelude.{◌≡◌, ◌∷◌, [], None, IfOk, IfErr, OnErr, List};
ghost use Rattle.std.specs.Option.{option_map};
ghost use Rattle.std.specs.Arc.{arc_value};
ghost use Rattle.lsm_codec.specs.KeyRef.{key_of};
ghost use Rattle.lsm_codec.specs.Entries.{Entry, internal_key};
ghost use Rattle.lsm_block.specs.Held.{HeldBlock};
ghost use Rattle.lsm_shelf.specs.Told.{Becomes};
ghost use Rattle.lsm_table.specs.Footer.{body_of};
ghost use Rattle.lsm_table.specs.HeldTable.{AreNamed, Names};
ghost use Rattle.lsm_table.specs.ReadFault.{ReadCounted, IsMemoryOrShelf};
ghost use Rattle.lsm_reader.specs.Stepping.{StepsOn, value_in};
ghost use Rattle.lsm_reader.specs.Refusals.{IsSomeReadRefusal};

use crate::ahead::Ahead;
use crate::blocks::Blocks;
use crate::table_cursor::TableCursor;
use lsm_block::Block;
use lsm_codec::KeyRef;
use lsm_table::{NamedShelf, Naming, ReadFault, Shelf};
use std::alloc::Global;
use std::marker::{Model, PhantomData};
use std::sync::Arc;

/// Goes through an open table, of which it holds the index block, one data block, and what was read
/// ahead. Contracts see it as the entry at which it stands, if it stands at one, and the entries
/// that are left after it.
#[derive(Drop)]
pub struct TableReader<N: Naming, S: Shelf> {
    receipt: S::Receipt,
    index: Arc<Block>,
    // None before the first entry.
    cursor: Option<TableCursor>,
    ahead: Ahead<N, S>,
    of: PhantomData<N>,
}

impl<N: Naming, S: Shelf> Model for TableReader<N, S> {
    ghost use Rattle.std.specs.Arc.{arc_value};
    ghost use Rattle.lsm_block.specs.Held.{HeldBlock};
    ghost use Rattle.lsm_reader.specs.Stepping.{Reading, reading_of, IsNamedFrom};

    ghost Value = { Reading };

    ghost view = { λ t. reading_of (S.Receipt.image t.receipt)
        (arc_value {X = HeldBlock} t.index).entries t.cursor };

    ghost invariant = { λ t. S.is_of N.place t.receipt × (S.honest → IsNamedFrom
        (S.Receipt.image t.receipt) (arc_value {X = HeldBlock} t.index).entries t.cursor) };
}

impl<N: Naming, S: Shelf> TableReader<N, S> {
    /// Before the first entry of the table of a receipt, where this is its index block.
    pub(crate) fn over(receipt: S::Receipt, index: Arc<Block>) -> TableReader<N, S>
        requires named { S.is_of N.place receipt }
        requires table { S.honest → AreNamed (body_of (S.Receipt.image receipt))
            (arc_value {X = HeldBlock} index).entries }
        ensures entry { result.entry ≡ None }
        ensures left { (es : List Entry)
            → Names (body_of (S.Receipt.image receipt)) (arc_value {X = HeldBlock} index).entries es
            → result.left ≡ es }
    {
        TableReader {
            receipt,
            index,
            cursor: None,
            ahead: Ahead::none(),
            of: PhantomData,
        }
    }

    /// The key of the entry at which it stands, if it stands at one.
    pub fn key(&self) -> Option<KeyRef<'_>>
        ensures { option_map key_of result ≡ option_map internal_key self.now.entry }
    {
        match &self.cursor {
            None => None,
            Some(cursor) => cursor.key(),
        }
    }

    /// The value of the entry at which it stands; no bytes where it stands at none.
    pub fn value(&self) -> &[u8]
        ensures { result.now ≡ value_in self.now.entry }
    {
        match &self.cursor {
            None => &[],
            Some(cursor) => cursor.value(),
        }
    }

    /// Goes to the next entry, whose key and value `key` and `value` then lend. Where none is left
    /// it stands at none, and the answer is false. An `Err` leaves it.
    pub fn next_by<B: Blocks<N, S>>(
        &mut self,
        blocks: &mut B,
        alloc: Global,
    ) -> Result<bool, ReadFault>
        ensures steps { S.honest → IfOk result (λ more. StepsOn more self.old self.new) }
        ensures sound { S.honest → IfErr result IsMemoryOrShelf }
        ensures err { OnErr result (self.new ≡ self.old) }
        ensures told { Becomes (B.told blocks.old) (B.told blocks.new) }
        ensures loan { B.loan blocks.new ≡ B.loan blocks.old }
        ensures cause { IfErr result (λ e. ReadCounted e (B.told blocks.old) (B.told blocks.new)) }
        ensures refused { IfErr result (IsSomeReadRefusal (S.refuses N.place)) }
    {
        if let Some(cursor) = &mut self.cursor {
            cursor.advance_by(blocks, alloc, &self.receipt, &mut self.ahead)?;
            return Ok(!cursor.is_at_end());
        }
        let index = Arc::try_clone(&self.index)?;
        let first = TableCursor::first_by(blocks, alloc, &self.receipt, index)?;
        let more = !first.is_at_end();
        self.cursor = Some(first);
        Ok(more)
    }

    /// The same by the shelf itself.
    pub fn next(&mut self, shelf: &mut NamedShelf<N, S>, alloc: Global) -> Result<bool, ReadFault>
        ensures steps { S.honest → IfOk result (λ more. StepsOn more self.old self.new) }
        ensures sound { S.honest → IfErr result IsMemoryOrShelf }
        ensures err { OnErr result (self.new ≡ self.old) }
        ensures told { Becomes shelf.old shelf.new }
        ensures cause { IfErr result (λ e. ReadCounted e shelf.old shelf.new) }
        ensures refused { IfErr result (IsSomeReadRefusal (S.refuses N.place)) }
    {
        self.next_by(shelf, alloc)
    }
}
