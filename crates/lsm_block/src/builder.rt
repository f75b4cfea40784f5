//! A block that is being built.

ghost use Rattle.std.specs.Prelude.{◌≡◌, ℕ, ◌<◌, ◌≤◌, ◌^◌, List, [], ◌∷◌, ◌++◌, length, true, IfOk};
ghost use Rattle.std.specs.Prelude.{OnOk, OnErr, Err};
ghost use Rattle.lsm_codec.specs.KeyRef.{key_of};
ghost use Rattle.lsm_codec.specs.Entries.{Entry};
ghost use Rattle.lsm_block.specs.Block.{IsBlock, Ascends, entry_of};
ghost use Rattle.lsm_block.specs.Building.{Building, block_bytes, last_key, after_last};
ghost use Rattle.std.specs.Option.{option_map};
ghost use Rattle.lsm_block.specs.declared.build_fault.BuildFault.TheVariants.{OutOfMemory};
ghost use Rattle.lsm_block.specs.declared.build_fault.BuildFault.TheVariants.{TooLarge};

use crate::build_fault::BuildFault;
use crate::entry_text::{grown_size, is_later, push_block, push_entry, shared_with};
use lsm_codec::{KeyRef, push_key};
use std::alloc::{AllocError, Global};
use std::marker::Model;
use std::mem::swap;

/// A block that is being built. Contracts see it as its interval and its entries.
#[derive(Debug, Drop)]
pub struct BlockBuilder {
    interval: u32,
    count: u64,
    text: Vec<u8>,
    // The restarts after the first, as they will stand in the block.
    offsets: Vec<u8>,
    last: Vec<u8>,
    // Memory for the next key.
    spare: Vec<u8>,
}

impl Model for BlockBuilder {
    ghost use Rattle.std.specs.Prelude.{List};
    ghost use Rattle.lsm_block.specs.Building.{Building, Built, entries_in};

    ghost Value = { Building };

    ghost view = { λ b. record { interval = b.interval; entries = entries_in b.text.items } };

    ghost invariant = { λ b. Built b.interval (entries_in b.text.items) b.text.items b.offsets.items
        b.last.items b.count };
}

impl BlockBuilder {
    /// A builder without entries, which sets a restart at every interval-th entry. LevelDB's
    /// interval is 16, and 1 for index blocks.
    pub fn new(alloc: Global, interval: u32) -> BlockBuilder
        requires { 0 < interval }
        ensures { result ≡ record { interval = interval; entries = [] } }
    {
        BlockBuilder {
            interval,
            count: 0,
            text: Vec::new(alloc),
            offsets: Vec::new(alloc),
            last: Vec::new(alloc),
            spare: Vec::new(alloc),
        }
    }

    /// How many bytes the block of the entries so far has.
    pub fn size_estimate(&self) -> usize
        ensures { result ≡ length (block_bytes self.now.interval self.now.entries) }
    {
        self.text.len() + self.offsets.len() + 8
    }

    /// How many bytes the block would have with this entry too: exact below 2^32, and 2^32 at least
    /// where it would have as many or more. So `add` answers `TooLarge` just where this is above
    /// 2^32 - 1.
    pub fn size_with(&self, key: &KeyRef<'_>, value: &[u8]) -> u64
        ensures exact { length (block_bytes self.now.interval (self.now.entries
            ++ entry_of (key_of key.now) value.now ∷ [])) < 2 ^ 32 → result ≡ length (block_bytes
            self.now.interval (self.now.entries ++ entry_of (key_of key.now) value.now ∷ [])) }
        ensures over { 2 ^ 32 ≤ length (block_bytes self.now.interval
            (self.now.entries ++ entry_of (key_of key.now) value.now ∷ [])) → 2 ^ 32 ≤ result }
    {
        let shared = shared_with(self.interval, self.count, &self.last, key);
        let later = is_later(self.interval, self.count);
        let unshared = key.user.len() + 8 - shared;
        grown_size(
            self.text.len(),
            self.offsets.len(),
            later,
            shared,
            unshared,
            value.len(),
        )
    }

    /// The key of the last entry, if there is one.
    pub fn last_key(&self) -> Option<KeyRef<'_>>
        ensures { option_map key_of result ≡ last_key self.now.entries }
    {
        match KeyRef::split(&self.last) {
            Ok(key) => Some(key),
            Err(_) => None,
        }
    }

    /// Whether an entry of this key may be added: it stands after the last one.
    pub fn comes_last(&self, key: &KeyRef<'_>) -> bool
        ensures exact { result ≡ after_last (last_key self.now.entries) (key_of key.now) }
        ensures ascends { result ≡ true → (value : List ℕ)
            → Ascends (self.now.entries ++ entry_of (key_of key.now) value ∷ []) }
    {
        // Reads the field, so that the type's invariant is at hand.
        let _text = &self.text;
        match self.last_key() {
            Some(last) => last.compare(key).is_lt(),
            None => true,
        }
    }

    /// Adds an entry after the others. `TooLarge` where the block would pass 2^32 - 1 bytes. An
    /// `Err` leaves the builder as it was.
    pub fn add(&mut self, key: &KeyRef<'_>, value: &[u8]) -> Result<(), BuildFault>
        requires ascends { Ascends (self.old.entries ++ entry_of (key_of key.now) value.now ∷ []) }
        ensures ok { OnOk result (self.new ≡ record {
          interval = self.old.interval;
          entries = self.old.entries ++ entry_of (key_of key.now) value.now ∷ [];
        }) }
        ensures fits { OnOk result (length (block_bytes self.new.interval self.new.entries)
            < 2 ^ 32) }
        ensures err { OnErr result (self.new ≡ self.old) }
        ensures large { result ≡ Err TooLarge → 2 ^ 32 ≤ length (block_bytes self.old.interval
            (self.old.entries ++ entry_of (key_of key.now) value.now ∷ [])) }
        ensures over { 2 ^ 32 ≤ length (block_bytes self.old.interval (self.old.entries
            ++ entry_of (key_of key.now) value.now ∷ [])) → result ≡ Err TooLarge }
    {
        let shared = shared_with(self.interval, self.count, &self.last, key);
        let later = is_later(self.interval, self.count);
        let unshared = key.user.len() + 8 - shared;
        let size = grown_size(
            self.text.len(),
            self.offsets.len(),
            later,
            shared,
            unshared,
            value.len(),
        );
        if size > u32::MAX as u64 {
            return Err(BuildFault::TooLarge);
        }
        self.spare.clear();
        push_key(&mut self.spare, key.user, key.seq, key.kind)?;
        let (_, rest) = self.spare.split_at(shared);
        push_entry(
            &mut self.text,
            &mut self.offsets,
            later,
            shared as u32,
            rest,
            value,
        )?;
        swap(&mut self.last, &mut self.spare);
        self.count += 1;
        Ok(())
    }

    /// Appends the block of the entries. An `Err` leaves the contents of `out` as they were.
    pub fn write_to(&self, out: &mut Vec<u8>) -> Result<(), AllocError>
        ensures ok { OnOk result (out.new.items
            ≡ out.old.items ++ block_bytes self.now.interval self.now.entries) }
        ensures block { IsBlock (block_bytes self.now.interval self.now.entries) self.now.entries }
        ensures err { OnErr result (out.new.items ≡ out.old.items) }
    {
        push_block(out, &self.text, &self.offsets)
    }

    /// Takes all entries out. The builder keeps its memory.
    pub fn clear(&mut self)
        ensures { self.new ≡ record { interval = self.old.interval; entries = [] } }
    {
        self.count = 0;
        self.text.clear();
        self.offsets.clear();
        self.last.clear();
    }

    /// The block of the entries.
    pub fn finish(self) -> Result<Vec<u8>, AllocError>
        ensures bytes { IfOk result (λ v. v.items ≡ block_bytes self.interval self.entries) }
        ensures block { IfOk result (λ v. IsBlock v.items self.entries) }
    {
        let BlockBuilder { text, offsets, .. } = self;
        let mut out = text;
        out.extend_from_slice(&0u32.to_le_bytes())?;
        out.extend_from_slice(&offsets)?;
        out.extend_from_slice(&((offsets.len() / 4 + 1) as u32).to_le_bytes())?;
        Ok(out)
    }
}
