//! A position in a block.

ghost use Rattle.std.specs.Prelude.{◌≡◌, ◌≤◌, ℕ, List, None, length, take, IfOk, IfErr, OnOk};
ghost use Rattle.std.specs.Prelude.{OnErr};
ghost use Rattle.std.specs.Option.{option_map};
ghost use Rattle.lsm_block.specs.Fault.{is_memory};
ghost use Rattle.lsm_codec.specs.KeyRef.{key_of};
ghost use Rattle.lsm_codec.specs.Entries.{Entry};
ghost use Rattle.lsm_block.specs.Seeking.{not_below, ArePartsOf};
ghost use Rattle.lsm_block.specs.Reading.{block_at};
ghost use Rattle.lsm_codec.specs.Gives.{Fails};
ghost use Rattle.lsm_block.specs.Held.{rest_of, text_and_entries, last_after, Holds, Given};
ghost use Rattle.lsm_block.specs.Standing.{Stands, SharesFront, bytes_before, user_of_last};

use crate::block::Block;
use crate::check::check_text;
use crate::fault::BlockFault;
use crate::key::shared_by_users;
use crate::search::{find_restart, scan_to, step};
use lsm_codec::KeyRef;
use std::alloc::{AllocError, Global};
use std::marker::Model;

/// A position in a block: the next entry's offset, and the key before it. Contracts see it so. One
/// cursor with its memory may go through many blocks, one after another.
#[derive(Debug, Drop)]
pub struct Cursor {
    offset: usize,
    before: Vec<u8>,
}

impl Model for Cursor {
    ghost use Rattle.lsm_block.specs.Held.{Position, Kept, last_of};

    ghost Value = { Position };

    ghost view = { λ c. record { offset = c.offset; last = last_of c.before.items } };

    ghost invariant = { λ c. Kept (last_of c.before.items) c.before.items };
}

impl Cursor {
    /// A cursor before the first entry of any block. Takes no memory.
    pub fn start(alloc: Global) -> Cursor
        ensures { result ≡ record { offset = 0; last = None } }
    {
        Cursor {
            offset: 0,
            before: Vec::new(alloc),
        }
    }

    /// Goes before the first entry.
    pub fn restart(&mut self)
        ensures { self.new ≡ record { offset = 0; last = None } }
    {
        self.offset = 0;
        self.before.clear();
    }

    /// The key of the entry that was read last, if one was. After `next` that is the entry given
    /// last, and it stays so where no entry is left. After a search it is the key of an entry that
    /// the search passed, or there is none: no clause says which.
    pub fn key(&self) -> Option<KeyRef<'_>>
        ensures { option_map key_of result ≡ self.now.last }
    {
        match KeyRef::split(&self.before) {
            Ok(key) => Some(key),
            Err(_) => None,
        }
    }

    /// Goes to the next entry of a block, and lends its value; `key` then lends its key. An `Err`
    /// leaves the cursor.
    pub fn next<'b>(&mut self, block: &'b Block) -> Result<Option<&'b [u8]>, AllocError>
        ensures given { IfOk result (λ r.
            Given block.now self.old self.new (option_map (λ v. v.now) r)) }
        // Where no entry is left it stays, and else the value ends where it stands.
        ensures stands { IfOk result (λ r.
            Stands block.now.text self.old self.new (option_map (λ v. v.now) r)) }
        ensures err { OnErr result (self.new ≡ self.old) }
    {
        block.as_ref().next(self)
    }

    /// The bytes of a block before the next entry, so many: the value of the entry that was given
    /// last, where that is its length.
    pub(crate) fn bytes_before<'b>(&self, block: &'b Block, len: usize) -> &'b [u8]
        requires within { len ≤ self.now.offset }
        requires inside { self.now.offset ≤ length block.now.text }
        ensures { result.now ≡ bytes_before block.now.text self.now.offset len }
    {
        block.as_ref().bytes_before(self.offset, len)
    }

    /// Judges bytes, and goes after their last entry; how long the text of the entries is comes
    /// back. An `Err` goes before the first entry.
    pub(crate) fn judge(&mut self, bytes: &[u8]) -> Result<usize, BlockFault>
        ensures holds { IfOk result (λ n.
            Holds bytes.now n (text_and_entries (take n bytes.now)).entries) }
        ensures fault { IfErr result (λ f. Fails is_memory f (block_at bytes.now)) }
        ensures last { IfOk result (λ n. self.new ≡ record {
          offset = n;
          last = last_after None (text_and_entries (take n bytes.now)).entries;
        }) }
        ensures err { OnErr result (self.new ≡ record { offset = 0; last = None }) }
    {
        self.restart();
        match check_text(bytes, &mut self.before) {
            Ok(text_len) => {
                self.offset = text_len;
                Ok(text_len)
            }
            Err(fault) => {
                self.before.clear();
                Err(fault)
            }
        }
    }

    /// Goes before the first entry that is not below the key. An `Err` goes before the first entry.
    pub(crate) fn seek_in(
        &mut self,
        text: &[u8],
        offsets: &[u8],
        key: &KeyRef<'_>,
    ) -> Result<(), AllocError>
        requires { 4 ≤ length offsets.now }
        ensures found { OnOk result ((es : List Entry) → ArePartsOf text.now offsets.now es
            → rest_of (text_and_entries text.now) self.new ≡ not_below (key_of key.now) es) }
        ensures err { OnErr result (self.new ≡ record { offset = 0; last = None }) }
    {
        self.restart();
        let start = find_restart(text, offsets, key);
        match scan_to(text, start, key, &mut self.before) {
            Ok(offset) => {
                self.offset = offset;
                Ok(())
            }
            Err(error) => {
                self.before.clear();
                Err(error)
            }
        }
    }

    /// Goes to the next entry of a text of entries, and lends its value. An `Err` leaves the
    /// cursor.
    pub(crate) fn next_in<'b>(&mut self, text: &'b [u8]) -> Result<Option<&'b [u8]>, AllocError>
        ensures given { IfOk result (λ r.
            Given (text_and_entries text.now) self.old self.new (option_map (λ v. v.now) r)) }
        ensures stands { IfOk result (λ r.
            Stands text.now self.old self.new (option_map (λ v. v.now) r)) }
        ensures err { OnErr result (self.new ≡ self.old) }
    {
        let (value, _) = self.step_in(text)?;
        Ok(value)
    }

    /// The same, and tells how many bytes of its user key are those of the user key before it, as
    /// far as the text spells them once.
    pub(crate) fn step_in<'b>(
        &mut self,
        text: &'b [u8],
    ) -> Result<(Option<&'b [u8]>, usize), AllocError>
        ensures given { IfOk result (λ r.
            Given (text_and_entries text.now) self.old self.new (option_map (λ v. v.now) r.0)) }
        ensures stands { IfOk result (λ r.
            Stands text.now self.old self.new (option_map (λ v. v.now) r.0)) }
        ensures shared { IfOk result (λ r.
            SharesFront r.1 (user_of_last self.old.last) (user_of_last self.new.last)) }
        ensures err { OnErr result (self.new ≡ self.old) }
    {
        let before_len = self.before.as_slice().len();
        let (value, offset, shared) = step(text, self.offset, &mut self.before)?;
        self.offset = offset;
        let users = shared_by_users(shared, before_len, self.before.as_slice().len());
        Ok((value, users))
    }
}
