//! The check of bytes that may be a block.

ghost use Rattle.std.specs.Prelude.{◌≡◌, ◌/◌, ◌≤◌, ℕ, List, [], None, length, take, IfOk, IfErr};
ghost use Rattle.std.specs.Prelude.{IfSome, OnOk, Ok};
ghost use Rattle.std.specs.Option.{option_map};
ghost use Rattle.lsm_block.specs.Fault.{is_memory};
ghost use Rattle.lsm_codec.specs.Entries.{Entry};
ghost use Rattle.lsm_block.specs.Block.{IsBlock};
ghost use Rattle.lsm_block.specs.Reading.{words, parts_at, block_at};
ghost use Rattle.lsm_codec.specs.Gives.{Gives, Fails};
ghost use Rattle.lsm_block.specs.Held.{Holds, Kept, last_of, last_after, text_and_entries, held};

use crate::cursor::Cursor;
use crate::fault::BlockFault;
use crate::walk::find_fault;
use std::alloc::Global;

/// The text of the entries, and the restart offsets.
#[tactic(auto, unfolding(crate::specs::Reading::parts_at))]
pub(crate) fn parts(bytes: &[u8]) -> Option<(&[u8], &[u8])>
    ensures some { IfSome result (λ r. 4 ≤ length r.1.now) }
    ensures reads { option_map (λ x. (x.0.now, words (length x.1.now / 4) x.1.now)) result
        ≡ parts_at bytes.now }
{
    if bytes.len() < 4 {
        return None;
    }
    let (front, last) = bytes.split_at(bytes.len() - 4);
    let count = u32::from_le_bytes([last[0], last[1], last[2], last[3]]) as usize;
    if count == 0 || count > front.len() / 4 {
        return None;
    }
    let (text, offsets) = front.split_at(front.len() - 4 * count);
    Some((text, offsets))
}

/// How long the text of the entries is, if there is no fault; `key` is the last key then.
pub(crate) fn check_text(bytes: &[u8], key: &mut Vec<u8>) -> Result<usize, BlockFault>
    requires { key.old.items ≡ [] }
    ensures holds { IfOk result (λ n.
        Holds bytes.now n (text_and_entries (take n bytes.now)).entries) }
    ensures fault { IfErr result (λ f. Fails is_memory f (block_at bytes.now)) }
    ensures last { IfOk result (λ n.
        last_of key.new.items ≡ last_after None (text_and_entries (take n bytes.now)).entries) }
    ensures kept { Kept (last_of key.new.items) key.new.items }
{
    let Some((text, offsets)) = parts(bytes) else {
        return Err(BlockFault::BadRestarts);
    };
    match find_fault(text, offsets, key)? {
        Some(fault) => Err(fault),
        None => Ok(text.len()),
    }
}

/// Whether bytes that lie elsewhere are a block: `Block::check` without taking them.
pub fn check_bytes(alloc: Global, bytes: &[u8]) -> Result<(), BlockFault>
    ensures found { OnOk result (IsBlock bytes.now (held bytes.now)) }
    ensures only { (es : List Entry) → IsBlock bytes.now es
        → Gives is_memory (λ _. es) result (Ok es) }
    ensures exact { Gives is_memory (λ _. held bytes.now) result (block_at bytes.now) }
{
    let mut cursor = Cursor::start(alloc);
    match cursor.judge(bytes) {
        Ok(_) => Ok(()),
        Err(fault) => Err(fault),
    }
}

/// At most one list of entries fits a block's bytes.
pub fn one_block()
    ensures { (bytes : List ℕ) (es fs : List Entry) → IsBlock bytes es → IsBlock bytes fs
        → es ≡ fs }
{}
