//! One walk over the entries of a block and its restart offsets side by side.

ghost use Rattle.std.specs.Prelude.{◌≡◌, [], ◌∷◌, ◌/◌, ◌<◌, ◌≤◌, ℕ, List, length, drop, true};
ghost use Rattle.std.specs.Prelude.{nat_le, None, Some, IfOk};
ghost use Rattle.std.specs.List.{list_all};
ghost use Rattle.std.specs.Option.{option_map};
ghost use Rattle.lsm_codec.specs.Keys.{is_internal};
ghost use Rattle.lsm_block.specs.Reading.{words, comes_after, if_not, entry_at, scan, entries_of};
ghost use Rattle.lsm_block.specs.Reading.{first_fault};
ghost use Rattle.lsm_block.specs.KeyParts.{joined};
ghost use Rattle.lsm_block.specs.Held.{Kept, last_of, last_after};
ghost use Rattle.lsm_block.specs.Walking.{begun, passed, if_none, fault_from, fault_at_stop};
ghost use Rattle.lsm_block.specs.Walking.{is_nothing, fault_at_end};

use crate::entry::RawEntry;
use crate::fault::BlockFault;
use crate::shared_key::{SharedKey, put_together};
use std::alloc::AllocError;

/// The first number of a row of numbers of four bytes.
fn first_word(bytes: &[u8]) -> u32
    requires { 4 ≤ length bytes.now }
    ensures { (words (length bytes.now / 4) bytes.now)
        ≡ result ∷ words (length (drop 4 bytes.now) / 4) (drop 4 bytes.now) }
{
    u32::from_le_bytes([bytes[0], bytes[1], bytes[2], bytes[3]])
}

/// The offset before the walk, and those that are left.
fn begin(offsets: &[u8]) -> (u32, &[u8])
    requires { 4 ≤ length offsets.now }
    ensures { (result.0, words (length result.1.now / 4) result.1.now)
        ≡ begun (words (length offsets.now / 4) offsets.now) }
{
    let first = first_word(offsets);
    if first == 0 {
        let (_, rest) = offsets.split_at(4);
        (0, rest)
    } else {
        (first, offsets)
    }
}

/// The last offset that is passed, and those that are left, when an entry that starts here was
/// read.
#[tactic(auto, unfolding(crate::specs::Walking::passed))]
fn pass(before: u32, offsets: &[u8], start: u64, shared: u32) -> Option<(u32, &[u8])>
    ensures { option_map (λ r. (r.0, words (length r.1.now / 4) r.1.now)) result
        ≡ passed before (words (length offsets.now / 4) offsets.now) start shared }
{
    if offsets.len() < 4 {
        return Some((before, offsets));
    }
    let offset = first_word(offsets);
    if offset as u64 > start {
        return Some((before, offsets));
    }
    if offset as u64 == start && shared == 0 && offset > before {
        let (_, rest) = offsets.split_at(4);
        return Some((offset, rest));
    }
    None
}

/// Where the first entry stands that is out of order, the one of this key that starts here
/// included.
fn note(out: Option<u64>, key: &SharedKey<'_, '_>, start: u64) -> Option<u64>
    requires before { 0 < length key.now.before → is_internal key.now.before ≡ true }
    requires key { is_internal (joined key.now) ≡ true }
    ensures { result
        ≡ if_none out (if_not (comes_after key.now.before (joined key.now)) start None) }
{
    if out.is_some() || key.is_after() {
        out
    } else {
        Some(start)
    }
}

/// The fault of a block whose reading stops here: the restart offsets below this place are judged.
fn fault_where_stopped(start: u64, offsets: &[u8]) -> BlockFault
    ensures { Some result ≡ fault_at_stop start (words (length offsets.now / 4) offsets.now) }
{
    let mut rest = offsets;
    while rest.len() >= 4 {
        if (first_word(rest) as u64) < start {
            return BlockFault::BadRestarts;
        }
        let (_, after) = rest.split_at(4);
        rest = after;
    }
    BlockFault::BadEntry(start)
}

/// The fault of a block whose entries can all be read.
fn fault_at_last(out: Option<u64>, offsets: &[u8]) -> Option<BlockFault>
    ensures { result ≡ fault_at_end out (words (length offsets.now / 4) offsets.now) }
{
    if offsets.len() >= 4 {
        return Some(BlockFault::BadRestarts);
    }
    match out {
        Some(offset) => Some(BlockFault::OutOfOrder(offset)),
        None => None,
    }
}

/// The first fault of a block, by the text of its entries and its restart offsets. Where there is
/// none, `key` is the last key.
pub(crate) fn find_fault(
    text: &[u8],
    offsets: &[u8],
    key: &mut Vec<u8>,
) -> Result<Option<BlockFault>, AllocError>
    requires offsets { 4 ≤ length offsets.now }
    requires key { key.old.items ≡ [] }
    ensures fault { IfOk result (λ f. f ≡ first_fault (scan (length text.now) (length text.now) []
        text.now) (words (length offsets.now / 4) offsets.now)) }
    ensures last { IfOk result (λ f. f ≡ None → last_of key.new.items ≡ last_after None
        (entries_of (scan (length text.now) (length text.now) [] text.now).placed)) }
    ensures kept { Kept (last_of key.new.items) key.new.items }
{
    let (mut last, mut left) = begin(offsets);
    let mut out: Option<u64> = None;
    let mut rest = text;
    while !rest.is_empty() {
        let start = (text.len() - rest.len()) as u64;
        let Some(entry) = RawEntry::read(key, rest) else {
            return Ok(Some(fault_where_stopped(start, left)));
        };
        let Some((passed, further)) = pass(last, left, start, entry.shared) else {
            return Ok(Some(BlockFault::BadRestarts));
        };
        let shared = entry.shared as usize;
        out = note(out, &SharedKey::of(key, shared, entry.own), start);
        put_together(key, shared, entry.own)?;
        last = passed;
        left = further;
        rest = entry.after;
    }
    Ok(fault_at_last(out, left))
}
