//! A table that is being built.

ghost use Rattle.std.specs.Prelude.{◌≡◌, ◌<◌, ◌≤◌, ◌^◌, true, false, ℕ, List, [], ◌∷◌, ◌++◌};
ghost use Rattle.std.specs.Prelude.{length, IfOk, OnOk, OnErr, Err};
ghost use Rattle.lsm_codec.specs.KeyRef.{key_of};
ghost use Rattle.lsm_codec.specs.Entries.{Entry};
ghost use Rattle.lsm_block.specs.Block.{IsBlock, Ascends, entry_of};
ghost use Rattle.lsm_block.specs.Building.{after_last, block_bytes, last_key};
ghost use Rattle.std.specs.Option.{option_map};
ghost use Rattle.lsm_block.specs.declared.build_fault.BuildFault.TheVariants.{TooLarge};
ghost use Rattle.lsm_table.specs.Options.{AreInRange};
ghost use Rattle.lsm_table.specs.Handle.{handle_text};
ghost use Rattle.lsm_table.specs.Table.{IsTable};
ghost use Rattle.lsm_table.specs.TableBuilding.{is_full, grouped, last_group, data_text, index_of};
ghost use Rattle.lsm_table.specs.StoredBlock.{stored};
ghost use Rattle.lsm_table.specs.TableBuilding.{index_block, file_of, groups_by, table_bytes};
ghost use Rattle.lsm_table.specs.TableBuilding.{place, written_bytes, PassesLimit};
ghost use Rattle.lsm_table.specs.TableMaking.{Made, HasRoom, LacksRoom};

use crate::footer::Footer;
use crate::handle::Handle;
use crate::stored_block::{TRAILER, put_block};
use crate::table_options::TableOptions;
use lsm_block::{BlockBuilder, BuildFault};
use lsm_codec::{KeyRef, Kind, MAX_SEQ};
use std::alloc::{AllocError, Global};
use std::marker::Model;

/// A table that is being built. Contracts see it as its options and the entries that were added.
#[derive(Debug, Drop)]
pub struct TableBuilder {
    alloc: Global,
    options: TableOptions,
    // The closed data blocks with their trailers, as they will stand in the file.
    front: Vec<u8>,
    // The open data block. A full one is moved to the closed ones only when the next entry comes:
    // then an entry either stands in the open block, or nothing has changed.
    taken: BlockBuilder,
    index: BlockBuilder,
    // Memory for the handle of a block.
    spelled: Vec<u8>,
}

impl Model for TableBuilder {
    ghost use Rattle.std.specs.Prelude.{List};
    ghost use Rattle.lsm_table.specs.TableMaking.{Making, Made, entries_made};

    ghost Value = { Making };

    ghost view = { λ b. record {
      options = b.options;
      entries = entries_made b.front.items b.index.entries b.taken.entries;
    } };

    ghost invariant = { λ b. Made b.options (entries_made b.front.items b.index.entries
        b.taken.entries) b.front.items b.taken b.index };
}

impl TableBuilder {
    /// A builder of a table without entries.
    pub fn new(alloc: Global, options: TableOptions) -> TableBuilder
        requires { AreInRange options }
        ensures { result ≡ record { options = options; entries = [] } }
    {
        TableBuilder {
            alloc,
            options,
            front: Vec::new(alloc),
            taken: BlockBuilder::new(alloc, options.restart_interval),
            index: BlockBuilder::new(alloc, 1),
            spelled: Vec::new(alloc),
        }
    }

    /// The key of the last entry, if there is one.
    pub fn last_key(&self) -> Option<KeyRef<'_>>
        ensures key { option_map key_of result ≡ last_key self.now.entries }
        ensures ascends { Ascends self.now.entries }
    {
        match self.taken.last_key() {
            Some(key) => Some(key),
            None => self.index.last_key(),
        }
    }

    /// Whether an entry of this key may be added: it stands after the last one.
    pub fn comes_last(&self, key: &KeyRef<'_>) -> bool
        ensures exact { result ≡ after_last (last_key self.now.entries) (key_of key.now) }
        ensures ascends { result ≡ true → (value : List ℕ)
            → Ascends (self.now.entries ++ entry_of (key_of key.now) value ∷ []) }
    {
        match self.last_key() {
            Some(last) => last.compare(key).is_lt(),
            None => true,
        }
    }

    /// Adds an entry after the others. `TooLarge` just where its data block would pass 2^32 - 1
    /// bytes, or where the entry fills it and the index block would. An `Err` leaves the builder as
    /// it was.
    pub fn add(&mut self, user: &[u8], seq: u64, kind: Kind, value: &[u8]) -> Result<(), BuildFault>
        requires seq { seq ≤ MAX_SEQ }
        requires ascends { Ascends (self.old.entries ++ record {
          user = user.now;
          seq = seq;
          kind = kind;
          value = value.now;
        } ∷ []) }
        ensures ok { OnOk result (self.new ≡ record {
          options = self.old.options;
          entries = self.old.entries ++ record {
            user = user.now;
            seq = seq;
            kind = kind;
            value = value.now;
          } ∷ [];
        }) }
        ensures err { OnErr result (self.new ≡ self.old) }
        ensures large { result ≡ Err TooLarge → PassesLimit self.old.options self.old.entries
            (record { user = user.now; seq = seq; kind = kind; value = value.now }) }
        ensures fits { OnOk result (PassesLimit self.old.options self.old.entries
            (record { user = user.now; seq = seq; kind = kind; value = value.now }) → ⊥) }
    {
        let key = KeyRef { user, seq, kind };
        settle(
            self.options,
            &mut self.front,
            &mut self.taken,
            &mut self.index,
            &mut self.spelled,
        )?;
        let offset = self.front.len() as u64;
        if !has_room(
            self.options,
            offset,
            &self.taken,
            &self.index,
            &key,
            value,
            &mut self.spelled,
        )? {
            return Err(BuildFault::TooLarge);
        }
        self.taken.add(&key, value)
    }

    /// How many bytes the finished data blocks have, with their trailers.
    pub fn written(&self) -> u64
        ensures { result ≡ length (written_bytes self.now.options self.now.entries) }
    {
        let open = self.taken.size_estimate();
        if open < self.options.block_size {
            self.front.len() as u64
        } else {
            self.front.len() as u64 + open as u64 + TRAILER as u64
        }
    }

    /// The table of the entries. `TooLarge` just where the index block would pass 2^32 - 1 bytes.
    pub fn finish(self) -> Result<Vec<u8>, BuildFault>
        ensures bytes { IfOk result (λ v. v.items ≡ table_bytes self.options self.entries) }
        ensures table { IfOk result (λ v. IsTable v.items self.entries) }
        ensures large { result ≡ Err TooLarge → 2 ^ 32 ≤ length
            (index_block self.options.restart_interval (groups_by self.options self.entries)) }
        ensures fits { OnOk result (length (index_block self.options.restart_interval
            (groups_by self.options self.entries)) < 2 ^ 32) }
    {
        let TableBuilder {
            alloc,
            mut front,
            mut taken,
            mut index,
            mut spelled,
            ..
        } = self;
        close(&mut front, &mut taken, &mut index, &mut spelled)?;
        Ok(end(alloc, front, &index)?)
    }
}

/// Whether the index block stays below 2^32 bytes with the entry of a data block that ends with
/// this key.
fn has_index_room(
    index: &BlockBuilder,
    key: &KeyRef<'_>,
    handle: Handle,
    spelled: &mut Vec<u8>,
) -> Result<bool, AllocError>
    ensures yes { IfOk result (λ r. r ≡ true → length (block_bytes index.now.interval
        (index.now.entries ++ entry_of (key_of key.now) (handle_text handle) ∷ [])) < 2 ^ 32) }
    ensures no { IfOk result (λ r. r ≡ false → 2 ^ 32 ≤ length (block_bytes index.now.interval
        (index.now.entries ++ entry_of (key_of key.now) (handle_text handle) ∷ []))) }
{
    spelled.clear();
    handle.put(spelled)?;
    Ok(index.size_with(key, spelled) <= u32::MAX as u64)
}

/// Whether an entry more passes no limit: that of the open block, and that of the index block where
/// the entry fills it.
fn has_room(
    options: TableOptions,
    offset: u64,
    taken: &BlockBuilder,
    index: &BlockBuilder,
    key: &KeyRef<'_>,
    value: &[u8],
    spelled: &mut Vec<u8>,
) -> Result<bool, AllocError>
    ensures yes { IfOk result (λ r. r ≡ true
        → HasRoom options offset taken.now index.now (entry_of (key_of key.now) value.now)) }
    ensures no { IfOk result (λ r. r ≡ false
        → LacksRoom options offset taken.now index.now (entry_of (key_of key.now) value.now)) }
{
    let size = taken.size_with(key, value);
    if size > u32::MAX as u64 {
        return Ok(false);
    }
    if size < options.block_size as u64 {
        return Ok(true);
    }
    let has = has_index_room(index, key, Handle { offset, size }, spelled)?;
    Ok(has)
}

/// Moves the open block to the closed ones, if it has an entry. An `Err` changes nothing.
fn close(
    front: &mut Vec<u8>,
    taken: &mut BlockBuilder,
    index: &mut BlockBuilder,
    spelled: &mut Vec<u8>,
) -> Result<(), BuildFault>
    requires { Ascends (index.old.entries
        ++ index_of taken.old.interval (length front.old.items) (last_group taken.old.entries)) }
    ensures block { OnOk result
        (IsBlock (block_bytes taken.old.interval taken.old.entries) taken.old.entries) }
    ensures ok { OnOk result (front.new.items
        ≡ front.old.items ++ data_text taken.old.interval (last_group taken.old.entries)) }
    ensures cleared { OnOk result (taken.new
        ≡ record { interval = taken.old.interval; entries = [] }) }
    ensures indexed { OnOk result (index.new
        ≡ record {
          interval = index.old.interval;
          entries = index.old.entries ++ index_of taken.old.interval
              (length front.old.items) (last_group taken.old.entries);
        }) }
    ensures err { OnErr result (front.new.items ≡ front.old.items) }
    ensures err_taken { OnErr result (taken.new ≡ taken.old) }
    ensures err_index { OnErr result (index.new ≡ index.old) }
    ensures large { result ≡ Err TooLarge
        → 2 ^ 32 ≤ length (block_bytes index.old.interval (index.old.entries
        ++ index_of taken.old.interval (length front.old.items) (last_group taken.old.entries))) }
    ensures fits { OnOk result (length (block_bytes index.old.interval index.old.entries) < 2 ^ 32
        → length (block_bytes index.new.interval index.new.entries) < 2 ^ 32) }
{
    let Some(key) = taken.last_key() else {
        return Ok(());
    };
    let start = front.len();
    let handle = Handle {
        offset: start as u64,
        size: taken.size_estimate() as u64,
    };
    spelled.clear();
    handle.put(spelled)?;
    put_block(front, taken)?;
    match index.add(&key, spelled) {
        Ok(()) => {}
        Err(fault) => {
            front.truncate(start);
            return Err(fault);
        }
    }
    taken.clear();
    Ok(())
}

/// Moves the open block to the closed ones, if it is full. An `Err` changes nothing.
fn settle(
    options: TableOptions,
    front: &mut Vec<u8>,
    taken: &mut BlockBuilder,
    index: &mut BlockBuilder,
    spelled: &mut Vec<u8>,
) -> Result<(), BuildFault>
    requires { (entries : List Entry) × Made options entries front.old.items taken.old index.old }
    ensures ok { (entries : List Entry) → Made options entries front.old.items taken.old index.old
        → OnOk result (Made options entries front.new.items taken.new index.new) }
    ensures not_full { OnOk result (is_full options taken.new.entries ≡ false) }
    ensures err { OnErr result (front.new.items ≡ front.old.items) }
    ensures err_taken { OnErr result (taken.new ≡ taken.old) }
    ensures err_index { OnErr result (index.new ≡ index.old) }
    ensures memory { result ≡ Err TooLarge → ⊥ }
{
    if taken.size_estimate() < options.block_size {
        return Ok(());
    }
    close(front, taken, index, spelled)?;
    Ok(())
}

/// Puts the block of a builder behind what a file has, with its trailer, and gives its place.
fn put_at_end(file: &mut Vec<u8>, block: &BlockBuilder) -> Result<Handle, AllocError>
    ensures ok { OnOk result (file.new.items
        ≡ file.old.items ++ stored (block_bytes block.now.interval block.now.entries)) }
    ensures place { IfOk result (λ h. h
        ≡ place (length file.old.items) (block_bytes block.now.interval block.now.entries)) }
    ensures block { OnOk result
        (IsBlock (block_bytes block.now.interval block.now.entries) block.now.entries) }
{
    let handle = Handle {
        offset: file.len() as u64,
        size: block.size_estimate() as u64,
    };
    put_block(file, block)?;
    Ok(handle)
}

/// The same of a block without entries.
fn put_empty(alloc: Global, file: &mut Vec<u8>) -> Result<Handle, AllocError>
    ensures ok { OnOk result (file.new.items ≡ file.old.items ++ stored (block_bytes 1 [])) }
    ensures place { IfOk result (λ h. h ≡ place (length file.old.items) (block_bytes 1 [])) }
{
    let none = BlockBuilder::new(alloc, 1);
    put_at_end(file, &none)
}

/// The file that begins with the data blocks: an empty metaindex block, the index block and the
/// footer follow them.
fn end(alloc: Global, front: Vec<u8>, index: &BlockBuilder) -> Result<Vec<u8>, AllocError>
    ensures bytes { IfOk result (λ v. v.items ≡ file_of front.items (block_bytes 1 [])
        (block_bytes index.now.interval index.now.entries)) }
    ensures block { OnOk result
        (IsBlock (block_bytes index.now.interval index.now.entries) index.now.entries) }
{
    let mut file = front;
    let metaindex = put_empty(alloc, &mut file)?;
    let index = put_at_end(&mut file, index)?;
    let footer = Footer { metaindex, index };
    file.extend_from_slice(&footer.text(alloc)?)?;
    Ok(file)
}
