//! Whether a file is a table.

ghost use Rattle.std.specs.Prelude.{◌≡◌, ℕ, List, ◌∷◌, None, IfOk, OnOk};
ghost use Rattle.std.specs.Option.{option_map};
ghost use Rattle.lsm_codec.specs.KeyRef.{key_of};
ghost use Rattle.lsm_block.specs.Block.{Ascends, entry_of};
ghost use Rattle.lsm_table.specs.Reading.{Gives, settled};
ghost use Rattle.lsm_table.specs.TableReading.{are_placed, block_behind, data_block_at, data_at};
ghost use Rattle.lsm_table.specs.TableReading.{end_of, table_at};
ghost use Rattle.lsm_table.specs.HeldTable.{HeldTable, entries_in};
ghost use Rattle.lsm_table.specs.OpenTable.{IsOpened, opening_at, block_named};
ghost use Rattle.lsm_block.specs.Held.{last_after};
ghost use Rattle.lsm_table.specs.Judging.{comes_after};

use crate::footer::{FOOTER, Footer};
use crate::handle::Handle;
use crate::held_block::parts;
use crate::stored_block::{TRAILER, contents_of};
use crate::table_fault::TableFault;
use lsm_block::{BlockRef, Cursor, check_bytes};
use lsm_codec::KeyRef;
use std::alloc::{AllocError, Global};
use std::cmp::Ordering;

/// Judges a file: its footer, its index block, and its data blocks. What comes back is the handle
/// of the index block.
pub(crate) fn judge(alloc: Global, file: &[u8]) -> Result<Handle, TableFault>
    ensures held { IfOk result (λ index. HeldTable file.now index) }
    ensures exact { Gives (λ _. entries_in file.now) result (table_at file.now) }
{
    let index = judge_opening(alloc, file)?;
    judge_rest(alloc, file, index)?;
    Ok(index)
}

/// Whether a key comes after the index key before it, where there is one.
fn follows(bound: Option<KeyRef<'_>>, key: &KeyRef<'_>) -> bool
    ensures { result ≡ comes_after (option_map key_of bound.entry) (key_of key.now) }
{
    match bound {
        None => true,
        Some(before) => before.compare(key) == Ordering::Less,
    }
}

/// Whether a block has an entry, and its entries lie between the index key before and its own. The
/// cursor stands after the last entry; where it is left does not matter.
fn is_placed(
    block: &BlockRef<'_>,
    bound: Option<KeyRef<'_>>,
    key: &KeyRef<'_>,
    cursor: &mut Cursor,
) -> Result<bool, AllocError>
    requires { cursor.old.last ≡ last_after None block.now.entries }
    ensures { (value : List ℕ) → IfOk result (λ r. r ≡ are_placed (option_map key_of bound.entry)
        (entry_of (key_of key.now) value) block.now.entries) }
{
    let Some(last) = cursor.key() else {
        return Ok(false);
    };
    if last.compare(key).is_gt() {
        return Ok(false);
    }
    block.rewind(cursor);
    let Some(_value) = block.next(cursor)? else {
        return Ok(false);
    };
    let Some(first) = cursor.key() else {
        return Ok(false);
    };
    Ok(follows(bound, &first))
}

/// The block that the value of an index entry names, whatever the file holds. Leaves the cursor
/// after its last entry.
#[tactic(auto, unfolding(crate::specs::OpenTable::block_named))]
fn named_block<'a>(
    body: &'a [u8],
    spelled: &[u8],
    cursor: &mut Cursor,
) -> Result<BlockRef<'a>, TableFault>
    ensures exact { Gives (λ b. b.entries) result (block_named body.now spelled.now) }
    ensures last { IfOk result (λ b. cursor.new.last ≡ last_after None b.entries) }
    ensures ascends { IfOk result (λ b. Ascends b.entries) }
{
    let (handle, rest) = Handle::get(TableFault::BadIndex, spelled)?;
    if !rest.is_empty() {
        return Err(TableFault::BadIndex);
    }
    let contents = contents_of(body, handle)?;
    Ok(BlockRef::check(contents, cursor)?)
}

/// Judges the data block of an index entry: its handle, the block, and its keys.
fn judge_block(
    body: &[u8],
    bound: Option<KeyRef<'_>>,
    key: &KeyRef<'_>,
    spelled: &[u8],
    cursor: &mut Cursor,
) -> Result<(), TableFault>
    ensures { Gives (λ _. tt) result (settled (data_block_at body.now
        (option_map key_of bound.entry) (entry_of (key_of key.now) spelled.now))) }
{
    let block = named_block(body, spelled, cursor)?;
    if !is_placed(&block, bound, key, cursor)? {
        return Err(TableFault::BadIndex);
    }
    Ok(())
}

/// Judges the data block of an index entry, which may not begin before `from`, where the one before
/// it ends. Answers where it ends itself.
fn judge_block_behind(
    body: &[u8],
    from: u64,
    bound: Option<KeyRef<'_>>,
    key: &KeyRef<'_>,
    spelled: &[u8],
    cursor: &mut Cursor,
) -> Result<u64, TableFault>
    ensures judged { Gives (λ _. tt) result (settled (block_behind body.now from
        (option_map key_of bound.entry) (entry_of (key_of key.now) spelled.now))) }
    ensures end { IfOk result (λ n. n ≡ end_of spelled.now) }
{
    let (handle, _rest) = Handle::get(TableFault::BadIndex, spelled)?;
    if handle.offset < from {
        return Err(TableFault::BadIndex);
    }
    judge_block(body, bound, key, spelled, cursor)?;
    Ok(handle.offset + handle.size + TRAILER as u64)
}

/// Judges the data blocks that an index names, one after another.
fn judge_data(alloc: Global, body: &[u8], index: &BlockRef<'_>) -> Result<(), TableFault>
    ensures { Gives (λ _. tt) result (settled (data_at body.now 0 None index.now.entries)) }
{
    let mut cursor = Cursor::start(alloc);
    let mut before = Cursor::start(alloc);
    let mut here = Cursor::start(alloc);
    let mut end = 0u64;
    index.rewind(&mut before);
    index.rewind(&mut here);
    while let Some(spelled) = index.next(&mut here)? {
        let Some(key) = here.key() else {
            return Err(TableFault::BadIndex);
        };
        end = judge_block_behind(body, end, before.key(), &key, spelled, &mut cursor)?;
        let _ = index.next(&mut before)?;
    }
    Ok(())
}

/// Judges the footer and the index block of a file. What comes back is the handle of the index
/// block.
#[tactic(auto, unfolding(crate::specs::OpenTable::opening_at))]
fn judge_opening(alloc: Global, file: &[u8]) -> Result<Handle, TableFault>
    ensures whole { Gives (λ _. tt) result (settled (opening_at file.now)) }
    ensures opened { IfOk result (λ index. IsOpened file.now index) }
{
    let footer = Footer::of(file)?;
    let (body, _) = file.split_at(file.len() - FOOTER);
    let contents = contents_of(body, footer.index)?;
    check_bytes(alloc, contents)?;
    Ok(footer.index)
}

/// Judges the data blocks of a file whose footer and index block were judged.
fn judge_rest(alloc: Global, file: &[u8], index: Handle) -> Result<(), TableFault>
    requires { IsOpened file.now index }
    ensures held { OnOk result (HeldTable file.now index) }
    ensures exact { Gives (λ _. entries_in file.now) result (table_at file.now) }
{
    let (body, block) = parts(file, index);
    judge_data(alloc, body, &block)?;
    Ok(())
}
