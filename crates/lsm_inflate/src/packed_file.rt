//! A table's file whose blocks may be compressed, made a plain table.

ghost use Rattle.std.specs.Prelude.{◌≡◌, ◌<◌, ◌≤◌, ◌+◌, ℕ, List, None, [], length, slice_index};
ghost use Rattle.std.specs.Prelude.{IfOk};
ghost use Rattle.std.specs.Option.{option_map};
ghost use Rattle.lsm_codec.specs.Entries.{Entry};
ghost use Rattle.lsm_codec.specs.KeyRef.{key_of};
ghost use Rattle.lsm_table.specs.Footer.{body_of};
ghost use Rattle.lsm_table.specs.Options.{AreInRange};
ghost use Rattle.lsm_table.specs.TableReading.{end_of};
ghost use Rattle.lsm_inflate.specs.Filling.{plain_bytes};
ghost use Rattle.lsm_inflate.specs.PackedReading.{block_behind, block_there, data_at, entries_at};
ghost use Rattle.lsm_inflate.specs.PackedReading.{filled_at, handle_behind, index_at};
ghost use Rattle.lsm_inflate.specs.PackedReading.{inflated_at};
ghost use Rattle.lsm_inflate.specs.PackedTable.{IsPackedTable, IsPlain, MakesPlain};
ghost use Rattle.lsm_inflate.specs.Reading.{Gives, Leaves};

use crate::filling::Filling;
use crate::inflate_fault::InflateFault;
use crate::plain_table::PlainTable;
use crate::stored_contents::contents_of;
use lsm_block::{Block, BlockRef, Cursor};
use lsm_codec::KeyRef;
use lsm_table::{FOOTER, Footer, Handle, TRAILER, TableFault, TableOptions};
use std::alloc::Global;

/// The plain table of the entries of a file, whose blocks may be plain or Snappy's; none where it
/// has no entry. Filter blocks are left out. What is wrong with the file is named by the first
/// fault in this order: the footer, the index block, and then for each index entry its value, its
/// data block (handle, checksum, type, Snappy, the block's own rules) and the keys of its entries.
///
/// # Errors
/// Those of `Table::check` of `lsm_table`, but that `Compressed` is left for type 2 (Zstandard)
/// alone; `BadSnappy` with the block's offset and its cause; `TooLarge` where a block of the plain
/// table would pass 2^32 - 1 bytes.
pub fn inflate(
    alloc: Global,
    options: TableOptions,
    file: &[u8],
) -> Result<Option<PlainTable>, InflateFault>
    requires { AreInRange options }
    // What is made is the plain table of just the entries that the file spells.
    ensures found { IfOk result (λ plain.
        (es : List Entry) × IsPackedTable file.now es × IsPlain es plain) }
    // Of what spells entries the plain table is made, unless there is no room.
    ensures only { (es : List Entry) → IsPackedTable file.now es → MakesPlain es result }
    // Which bytes, and which fault it is.
    ensures exact { Gives plain_bytes result (inflated_at options file.now) }
{
    let table = filled(alloc, options, file)?;
    table.finish()
}

/// A law: at most one list of entries is spelled by a file.
pub fn one_packed_table()
    ensures { (bytes : List ℕ) (es fs : List Entry) → ((i : ℕ) → slice_index bytes i < 256)
        → IsPackedTable bytes es → IsPackedTable bytes fs → es ≡ fs }
{}

/// The table with the entries of a file.
#[tactic(auto, unfolding(crate::specs::PackedReading::entries_at))]
fn filled(alloc: Global, options: TableOptions, file: &[u8]) -> Result<Filling, InflateFault>
    requires { AreInRange options }
    ensures options { IfOk result (λ t. t.options ≡ options) }
    ensures entries { Gives (λ t. t.entries) result (entries_at options file.now) }
{
    let index = index_of(alloc, file)?;
    let (body, _) = file.split_at(file.len() - FOOTER);
    let mut table = Filling::new(alloc, options);
    fill(alloc, &mut table, body, &index.as_ref())?;
    Ok(table)
}

/// The index block of a file.
#[tactic(auto, unfolding(crate::specs::PackedReading::index_at))]
fn index_of(alloc: Global, file: &[u8]) -> Result<Block, InflateFault>
    ensures long { IfOk result (λ _. FOOTER ≤ length file.now) }
    ensures entries { Gives (λ b. b.entries) result (index_at file.now) }
{
    let footer = Footer::of(file)?;
    let (body, _) = file.split_at(file.len() - FOOTER);
    block_there(alloc, body, footer.index)
}

/// Adds the entries of the data blocks that an index names, one block after another.
fn fill(
    alloc: Global,
    table: &mut Filling,
    body: &[u8],
    index: &BlockRef<'_>,
) -> Result<(), InflateFault>
    ensures options { table.new.options ≡ table.old.options }
    ensures left { Leaves result table.new.entries
        (data_at table.old.options body.now 0 None table.old.entries index.now.entries) }
{
    let mut cursor = Cursor::start(alloc);
    let mut before = Cursor::start(alloc);
    let mut here = Cursor::start(alloc);
    let mut end = 0u64;
    index.rewind(&mut before);
    index.rewind(&mut here);
    while let Some(spelled) = index.next(&mut here)? {
        let Some(last) = here.key() else {
            return Err(InflateFault::Table(TableFault::BadIndex));
        };
        let (group, after) = block_behind(alloc, body, end, spelled)?;
        add_block(table, &group.as_ref(), &mut cursor, before.key(), &last)?;
        end = after;
        let _ = index.next(&mut before)?;
    }
    Ok(())
}

/// The handle that the value of an index entry is, which may not begin before `from`, where the
/// data block before it ends.
#[tactic(auto, unfolding(crate::specs::PackedReading::handle_behind))]
fn handle_behind(from: u64, spelled: &[u8]) -> Result<Handle, InflateFault>
    ensures handle { Gives (λ h. h) result (handle_behind from spelled.now) }
    ensures end { IfOk result (λ h. h.offset + h.size + 5 ≡ end_of spelled.now) }
{
    let (handle, rest) = Handle::get(TableFault::BadIndex, spelled)?;
    if !rest.is_empty() {
        return Err(InflateFault::Table(TableFault::BadIndex));
    }
    if handle.offset < from {
        return Err(InflateFault::Table(TableFault::BadIndex));
    }
    Ok(handle)
}

/// The block at a handle.
#[tactic(auto, unfolding(crate::specs::PackedReading::block_there))]
fn block_there(alloc: Global, body: &[u8], handle: Handle) -> Result<Block, InflateFault>
    ensures entries { Gives (λ b. b.entries) result (block_there body.now handle) }
    ensures inside { IfOk result (λ _. handle.offset + handle.size + 5 ≤ length body.now) }
{
    let contents = contents_of(alloc, body, handle)?;
    Ok(Block::check(alloc, contents)?)
}

/// The data block that the value of an index entry names, which may not begin before `from`, and
/// where it ends.
#[tactic(auto, unfolding(crate::specs::PackedReading::block_behind))]
fn block_behind(
    alloc: Global,
    body: &[u8],
    from: u64,
    spelled: &[u8],
) -> Result<(Block, u64), InflateFault>
    ensures entries { Gives (λ r. r.0.entries) result (block_behind body.now from spelled.now) }
    ensures end { IfOk result (λ r. r.1 ≡ end_of spelled.now) }
{
    let handle = handle_behind(from, spelled)?;
    let block = block_there(alloc, body, handle)?;
    Ok((block, handle.offset + handle.size + TRAILER as u64))
}

/// Adds the entries of a data block, which lie after the index key `bound` and not behind `last`.
fn add_block(
    table: &mut Filling,
    block: &BlockRef<'_>,
    cursor: &mut Cursor,
    bound: Option<KeyRef<'_>>,
    last: &KeyRef<'_>,
) -> Result<(), InflateFault>
    ensures options { table.new.options ≡ table.old.options }
    ensures left { Leaves result table.new.entries (filled_at table.old.options
        (option_map key_of bound.entry) (key_of last.now) table.old.entries block.now.entries) }
{
    block.rewind(cursor);
    while let Some(value) = block.next(cursor)? {
        let Some(key) = cursor.key() else {
            return Err(InflateFault::Table(TableFault::BadIndex));
        };
        table.put(bound, last, &key, value)?;
    }
    Ok(())
}
