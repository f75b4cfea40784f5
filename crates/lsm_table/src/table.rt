//! A table that was checked.

ghost use Rattle.std.specs.Prelude.{◌≡◌, List, ℕ, None, IfOk, Ok};
ghost use Rattle.lsm_codec.specs.Entries.{Entry, newest};
ghost use Rattle.lsm_table.specs.Reading.{Gives};
ghost use Rattle.lsm_table.specs.Table.{IsTable};
ghost use Rattle.lsm_table.specs.TableReading.{table_at};
ghost use Rattle.lsm_table.specs.HeldTable.{HeldTable, entries_in, Names};
ghost use Rattle.lsm_table.specs.Found.{seen, found_in};

use crate::check::judge;
use crate::found::Found;
use crate::handle::Handle;
use crate::held_block::{data_block, parts};
use crate::search::{Search, key_for, search_block};
use crate::table_fault::TableFault;
use crate::table_iter::TableIter;
use lsm_block::{BlockRef, Cursor};
use std::alloc::Global;
use std::marker::Model;

/// A checked table, which holds its file. Contracts see it as its entries.
#[derive(Debug, Drop)]
pub struct Table {
    file: Vec<u8>,
    // Where the index block stands.
    index: Handle,
}

impl Model for Table {
    ghost use Rattle.std.specs.Prelude.{List};
    ghost use Rattle.lsm_codec.specs.Entries.{Entry};
    ghost use Rattle.lsm_table.specs.HeldTable.{HeldTable, entries_in};

    ghost Value = { List Entry };

    ghost view = { λ t. entries_in t.file.items };

    ghost invariant = { λ t. HeldTable t.file.items t.index };
}

impl Table {
    /// The table of a file. What is wrong with it is named by the first fault in this order: the
    /// footer (length, magic number, handles), the index block, and then for each index entry its
    /// value, its data block (handle, checksum, type, the block's own rules) and its keys.
    pub fn check(alloc: Global, file: Vec<u8>) -> Result<Table, TableFault>
        // What is read is the table's.
        ensures found { IfOk result (λ t. IsTable file.items t) }
        // What is a table is read, unless memory runs out.
        ensures only { (es : List Entry) → IsTable file.items es → Gives (λ t. t) result (Ok es) }
        // Which fault it is.
        ensures exact { Gives (λ t. t) result (table_at file.items) }
    {
        let index = judge(alloc, &file)?;
        Ok(Table { file, index })
    }

    /// The part before the footer, and the index block.
    fn parts(&self) -> (&[u8], BlockRef<'_>)
        ensures { Names result.0.now result.1.entries self.now }
    {
        parts(&self.file, self.index)
    }

    /// What a read of the user key finds at the sequence: the newest entry with a sequence at most
    /// `seq`. The one fault is `OutOfMemory`.
    pub fn get(&self, alloc: Global, user: &[u8], seq: u64) -> Result<Option<Found>, TableFault>
        ensures { Gives seen result (Ok (found_in (newest user.now seq self.now))) }
    {
        let (body, index) = self.parts();
        let key = key_for(user, seq);
        let mut next_block = Cursor::start(alloc);
        let mut here = Cursor::start(alloc);
        index.seek(&mut next_block, &key)?;
        while let Some(spelled) = index.next(&mut next_block)? {
            match search_block(alloc, &data_block(body, spelled), &mut here, &key)? {
                Search::GoesOn => {}
                Search::Ended(found) => return Ok(found),
            }
        }
        Ok(None)
    }

    /// Before the first entry: no key was given yet. Takes no memory.
    pub fn iter(&self, alloc: Global) -> TableIter<'_>
        ensures left { result.left ≡ self.now }
        ensures last { result.last ≡ None }
    {
        let (body, index) = self.parts();
        TableIter::over(alloc, body, index)
    }

    /// Sets a position in this table, or in another one, before the first entry of this one: no key
    /// was given yet. The room that it has for keys stays, so that a second walk through a table
    /// asks for no memory.
    pub fn restart<'t>(&'t self, entries: &mut TableIter<'t>)
        ensures left { entries.new.left ≡ self.now }
        ensures last { entries.new.last ≡ None }
    {
        let (body, index) = self.parts();
        entries.begin_again(body, index);
    }
}

/// At most one list of entries fits a table's bytes.
pub fn one_table()
    ensures { (bytes : List ℕ) (es fs : List Entry) → IsTable bytes es → IsTable bytes fs
        → es ≡ fs }
{}

/// What a table's bytes hold, as contracts name it, is the table's entries.
pub fn entries_are()
    ensures same { (bytes : List ℕ) (es : List Entry) → IsTable bytes es → entries_in bytes ≡ es }
    ensures table { (bytes : List ℕ) (es : List Entry) → IsTable bytes es
        → IsTable bytes (entries_in bytes) }
{}
