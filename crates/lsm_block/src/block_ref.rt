//! A block whose bytes lie elsewhere.

ghost use Rattle.std.specs.Prelude.{◌≡◌, ◌≤◌, ℕ, List, [], None, length, take, IfOk, OnOk, OnErr};
ghost use Rattle.std.specs.Prelude.{Ok};
ghost use Rattle.std.specs.Option.{option_map};
ghost use Rattle.lsm_block.specs.Fault.{is_memory};
ghost use Rattle.lsm_codec.specs.KeyRef.{key_of};
ghost use Rattle.lsm_block.specs.Block.{IsBlock};
ghost use Rattle.lsm_block.specs.Seeking.{not_below};
ghost use Rattle.lsm_codec.specs.Entries.{Entry};
ghost use Rattle.lsm_block.specs.Reading.{block_at};
ghost use Rattle.lsm_codec.specs.Gives.{Gives};
ghost use Rattle.lsm_block.specs.Held.{Holds, rest_of, last_after, text_and_entries, held};
ghost use Rattle.lsm_block.specs.Held.{block_in, Given};
ghost use Rattle.lsm_block.specs.Standing.{Stands, SharesFront, bytes_before, user_of_last};

use crate::check::parts;
use crate::cursor::Cursor;
use crate::fault::BlockFault;
use lsm_codec::KeyRef;
use std::alloc::AllocError;
use std::marker::Model;

/// A checked block whose bytes lie elsewhere, as in the image of a table. Contracts see it as they
/// see a `Block`.
#[derive(Drop)]
pub struct BlockRef<'a> {
    text: &'a [u8],
    offsets: &'a [u8],
}

impl<'a> Model for BlockRef<'a> {
    ghost use Rattle.lsm_block.specs.Seeking.{ArePartsOf};
    ghost use Rattle.lsm_block.specs.Held.{HeldBlock, text_and_entries};

    ghost Value = { HeldBlock };

    ghost view = { λ b. text_and_entries b.text.now };

    ghost invariant = { λ b.
        ArePartsOf b.text.now b.offsets.now (text_and_entries b.text.now).entries };
}

impl<'a> BlockRef<'a> {
    /// The block that bytes are which were checked before. Takes no memory, and reads but the
    /// number of restarts.
    pub fn of(bytes: &'a [u8]) -> BlockRef<'a>
        requires { IsBlock bytes.now (held bytes.now) }
        ensures entries { result.entries ≡ held bytes.now }
        ensures block { result ≡ block_in bytes.now }
    {
        let Some((text, _)) = parts(bytes) else {
            unreachable!()
        };
        BlockRef::at(bytes, text.len())
    }

    /// The block that bytes are, judged as `Block::check` does; the cursor goes after the last
    /// entry. An `Err` sets it before the first entry.
    pub fn check(bytes: &'a [u8], cursor: &mut Cursor) -> Result<BlockRef<'a>, BlockFault>
        ensures found { IfOk result (λ b. IsBlock bytes.now b.entries) }
        ensures only { (es : List Entry) → IsBlock bytes.now es
            → Gives is_memory (λ b. b.entries) result (Ok es) }
        ensures exact { Gives is_memory (λ b. b.entries) result (block_at bytes.now) }
        ensures block { IfOk result (λ b. b ≡ block_in bytes.now) }
        ensures last { IfOk result (λ b. cursor.new.last ≡ last_after None b.entries) }
        ensures rest { IfOk result (λ b. rest_of b cursor.new ≡ []) }
        ensures err { OnErr result (cursor.new ≡ record { offset = 0; last = None }) }
    {
        match cursor.judge(bytes) {
            Ok(text_len) => Ok(BlockRef::at(bytes, text_len)),
            Err(fault) => Err(fault),
        }
    }

    /// The block that bytes are whose text of entries is so long.
    pub(crate) fn at(bytes: &'a [u8], text_len: usize) -> BlockRef<'a>
        requires { Holds bytes.now text_len (text_and_entries (take text_len bytes.now)).entries }
        ensures { result ≡ text_and_entries (take text_len bytes.now) }
    {
        let (text, tail) = bytes.split_at(text_len);
        let (offsets, _) = tail.split_at(tail.len() - 4);
        BlockRef { text, offsets }
    }

    /// Sets the cursor before the first entry.
    pub fn rewind(&self, cursor: &mut Cursor)
        ensures front { cursor.new ≡ record { offset = 0; last = None } }
        ensures rest { rest_of self.now cursor.new ≡ self.now.entries }
    {
        // Reads the field, so that the type's invariant is at hand.
        let _text = self.text;
        cursor.restart();
    }

    /// Sets the cursor before the first entry that is not below the key. An `Err` sets it before
    /// the first entry.
    pub fn seek(&self, cursor: &mut Cursor, key: &KeyRef<'_>) -> Result<(), AllocError>
        ensures found { OnOk result (rest_of self.now cursor.new
            ≡ not_below (key_of key.now) self.now.entries) }
        ensures err { OnErr result (cursor.new ≡ record { offset = 0; last = None }) }
    {
        cursor.seek_in(self.text, self.offsets, key)
    }

    /// Goes to the next entry, and lends its value; `Cursor::key` then lends its key. An `Err`
    /// leaves the cursor.
    pub fn next(&self, cursor: &mut Cursor) -> Result<Option<&'a [u8]>, AllocError>
        ensures given { IfOk result (λ r.
            Given self.now cursor.old cursor.new (option_map (λ v. v.now) r)) }
        // Where no entry is left it stays, and else the value ends where it stands.
        ensures stands { IfOk result (λ r.
            Stands self.now.text cursor.old cursor.new (option_map (λ v. v.now) r)) }
        ensures err { OnErr result (cursor.new ≡ cursor.old) }
    {
        cursor.next_in(self.text)
    }

    /// The same, and tells how many bytes of its user key are those of the user key before it, as
    /// far as the block spells them once.
    pub(crate) fn step(&self, cursor: &mut Cursor) -> Result<(Option<&'a [u8]>, usize), AllocError>
        ensures given { IfOk result (λ r.
            Given self.now cursor.old cursor.new (option_map (λ v. v.now) r.0)) }
        ensures stands { IfOk result (λ r.
            Stands self.now.text cursor.old cursor.new (option_map (λ v. v.now) r.0)) }
        ensures shared { IfOk result (λ r.
            SharesFront r.1 (user_of_last cursor.old.last) (user_of_last cursor.new.last)) }
        ensures err { OnErr result (cursor.new ≡ cursor.old) }
    {
        cursor.step_in(self.text)
    }

    /// The bytes of the text before an offset, so many.
    pub(crate) fn bytes_before(&self, offset: usize, len: usize) -> &'a [u8]
        requires within { len ≤ offset }
        requires inside { offset ≤ length self.now.text }
        ensures { result.now ≡ bytes_before self.now.text offset len }
    {
        let (_, tail) = self.text.split_at(offset - len);
        let (bytes, _) = tail.split_at(len);
        bytes
    }
}
