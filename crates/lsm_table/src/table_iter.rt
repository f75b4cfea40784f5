//! Going through a table.

ghost use Rattle.std.specs.Prelude.{◌≡◌, [], None, IfOk, IfErr, OnErr};
ghost use Rattle.std.specs.Option.{option_map};
ghost use Rattle.lsm_codec.specs.KeyRef.{key_of};
ghost use Rattle.lsm_block.specs.Held.{rest_of};
ghost use Rattle.lsm_table.specs.declared.table_fault.TableFault.TheVariants.{OutOfMemory};
ghost use Rattle.lsm_table.specs.HeldTable.{AreNamed, Refused, Steps, left_of};

use crate::held_block::{data_block, no_entries};
use crate::table_fault::TableFault;
use lsm_block::{BlockRef, Cursor};
use lsm_codec::KeyRef;
use std::alloc::Global;
use std::marker::Model;

/// A position in a checked table. Contracts see it as the entries that are left, and the key of the
/// one given last.
#[derive(Drop)]
pub struct TableIter<'t> {
    body: &'t [u8],
    index: BlockRef<'t>,
    // The data block whose entries are given.
    block: BlockRef<'t>,
    next_block: Cursor,
    here: Cursor,
}

impl<'t> Model for TableIter<'t> {
    ghost use Rattle.lsm_block.specs.Held.{rest_of};
    ghost use Rattle.lsm_table.specs.HeldTable.{Walk, AreNamed, left_of};

    ghost Value = { Walk };

    ghost view = { λ t. record {
      last = t.here.last;
      left = left_of t.body.now (rest_of t.block t.here) (rest_of t.index t.next_block);
    } };

    ghost invariant = { λ t. AreNamed t.body.now (rest_of t.index t.next_block) };
}

impl<'t> TableIter<'t> {
    /// Before the first entry of the data blocks that an index names.
    pub(crate) fn over(alloc: Global, body: &'t [u8], index: BlockRef<'t>) -> TableIter<'t>
        requires { AreNamed body.now index.entries }
        ensures left { result.left ≡ left_of body.now [] index.entry.entries }
        ensures last { result.last ≡ None }
    {
        let mut next_block = Cursor::start(alloc);
        index.rewind(&mut next_block);
        let block = no_entries();
        let mut here = Cursor::start(alloc);
        block.rewind(&mut here);
        TableIter {
            body,
            index,
            block,
            next_block,
            here,
        }
    }

    /// Before the first entry again, of the data blocks that an index names. The room for keys
    /// stays.
    pub(crate) fn begin_again(&mut self, body: &'t [u8], index: BlockRef<'t>)
        requires { AreNamed body.now index.entries }
        ensures left { self.new.left ≡ left_of body.now [] index.entry.entries }
        ensures last { self.new.last ≡ None }
    {
        index.rewind(&mut self.next_block);
        self.body = body;
        self.index = index;
        let block = no_entries();
        block.rewind(&mut self.here);
        self.block = block;
    }

    /// The key of the entry that was given last, if one was.
    pub fn key(&self) -> Option<KeyRef<'_>>
        ensures { option_map key_of result ≡ self.now.last }
    {
        self.here.key()
    }

    /// Goes to the next entry, and lends its value for as long as the table is lent; `key` then
    /// lends its key. Where no entry is left, that key stays. The one fault is `OutOfMemory`: the
    /// entries that are left stay, and `key` lends the last key still, or none.
    pub fn next(&mut self) -> Result<Option<&'t [u8]>, TableFault>
        ensures given { IfOk result (λ r. Steps self.old self.new (option_map (λ v. v.now) r)) }
        ensures err { OnErr result (Refused self.old self.new) }
        ensures memory { IfErr result (λ e. e ≡ OutOfMemory) }
    {
        if let Some(value) = self.block.next(&mut self.here)? {
            return Ok(Some(value));
        }
        let Some(spelled) = self.index.next(&mut self.next_block)? else {
            return Ok(None);
        };
        self.block = data_block(self.body, spelled);
        self.block.rewind(&mut self.here);
        Ok(self.block.next(&mut self.here)?)
    }
}
