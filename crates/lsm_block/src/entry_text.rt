//! The text of an entry as it is written: three numbers, each a varint32 in its shortest form, then
//! the key bytes that the key before does not share, then the value.
//!
//! ```text
//! shared | unshared | value's length | unshared key bytes | value
//! ```

ghost use Rattle.std.specs.Prelude.{◌≡◌, ℕ, ◌+◌, ◌/◌, ◌^◌, ◌<◌, ◌≤◌, ◌++◌, List, length, take};
ghost use Rattle.std.specs.Prelude.{drop, vec_len, OnOk, OnErr};
ghost use Rattle.std.specs.Int.{w32, w64, to_le_bytes};
ghost use Rattle.std.specs.List.{flat_map};
ghost use Rattle.lsm_codec.specs.Varint.{varint32, shortest};
ghost use Rattle.lsm_codec.specs.Keys.{key_bytes};
ghost use Rattle.lsm_codec.specs.KeyRef.{key_of};
ghost use Rattle.lsm_block.specs.Building.{common, offset_if, parts_text, grown_len, is_restart};
ghost use Rattle.lsm_block.specs.Building.{is_later_restart, shared_at};

use lsm_codec::{KeyRef, put_varint32};
use std::alloc::AllocError;

/// The eight bytes at a place of a text, as one number.
fn eight_at(bytes: &[u8], i: usize) -> u64
    requires { i + 8 ≤ length bytes.now }
    ensures { to_le_bytes w64 result ≡ take 8 (drop i bytes.now) }
{
    let (_, rest) = bytes.split_at(i);
    let (eight, _) = rest.split_at(8);
    u64::from_le_bytes([
        eight[0], eight[1], eight[2], eight[3], eight[4], eight[5], eight[6], eight[7],
    ])
}

/// How far two texts are the same at their fronts, looked at eight bytes at a time.
fn common_words(a: &[u8], b: &[u8]) -> usize
    ensures same { common a.now b.now ≡ result + common (drop result a.now) (drop result b.now) }
    ensures first { result ≤ length a.now }
    ensures second { result ≤ length b.now }
{
    let mut i: usize = 0;
    while i + 8 <= a.len() && i + 8 <= b.len() && eight_at(a, i) == eight_at(b, i) {
        i += 8;
    }
    i
}

/// How many bytes two texts have in common at their fronts.
pub fn common_prefix(a: &[u8], b: &[u8]) -> usize
    ensures { result ≡ common a.now b.now }
{
    let mut i = common_words(a, b);
    while i < a.len() && i < b.len() && a[i] == b[i] {
        i += 1;
    }
    i
}

/// How many bytes of a key stand at the front of the key before it.
fn common_key(before: &[u8], key: &KeyRef<'_>) -> usize
    ensures { result ≡ common before.now (key_bytes (key_of key.now)) }
{
    let user = common_prefix(before, key.user);
    if user < key.user.len() {
        return user;
    }
    let (_, rest) = before.split_at(user);
    user + common_prefix(rest, &key.packed().to_le_bytes())
}

/// How much of its key the entry of this index shares.
pub(crate) fn shared_with(interval: u32, index: u64, before: &[u8], key: &KeyRef<'_>) -> usize
    requires { 0 < interval }
    ensures { result ≡ shared_at interval index before.now (key_bytes (key_of key.now)) }
{
    if index % interval as u64 == 0 {
        0
    } else {
        common_key(before, key)
    }
}

/// Whether the entry of this index stands at a restart that is not the first.
pub(crate) fn is_later(interval: u32, index: u64) -> bool
    requires { 0 < interval }
    ensures { result ≡ is_later_restart interval index }
{
    index > 0 && index % interval as u64 == 0
}

/// How many bytes the shortest spelling of a number has.
fn varint_len(n: u64) -> u64
    ensures len { (most : ℕ) → 0 < most → n < 128 ^ most → result ≡ length (shortest most n) }
    ensures small { result ≤ n + 1 }
{
    if n < 128 {
        return 1;
    }
    1 + varint_len(n / 128)
}

/// How many bytes a block has with an entry more, by the lengths of its parts: exact below 2^32,
/// and 2^32 at least elsewhere.
pub(crate) fn grown_size(
    text: usize,
    offsets: usize,
    restarts: bool,
    shared: usize,
    unshared: usize,
    value: usize,
) -> u64
    requires text { text < 2 ^ 32 }
    requires offsets { offsets < 2 ^ 32 }
    requires shared { shared < 2 ^ 32 }
    ensures exact { grown_len text offsets restarts shared unshared value < 2 ^ 32
        → result ≡ grown_len text offsets restarts shared unshared value }
    ensures over { 2 ^ 32 ≤ grown_len text offsets restarts shared unshared value
        → 2 ^ 32 ≤ result }
{
    if unshared > u32::MAX as usize || value > u32::MAX as usize {
        return u64::MAX;
    }
    let own = varint_len(shared as u64)
        + varint_len(unshared as u64)
        + varint_len(value as u64)
        + unshared as u64
        + value as u64;
    let offset = if restarts { 4 } else { 0 };
    text as u64 + own + (offsets as u64 + offset) + 8
}

/// Appends the text of an entry. After an `Err` a part of it may stand there.
fn push_parts(
    out: &mut Vec<u8>,
    shared: u32,
    unshared: &[u8],
    value: &[u8],
) -> Result<(), AllocError>
    requires unshared { length unshared.now < 2 ^ 32 }
    requires value { length value.now < 2 ^ 32 }
    ensures ok { OnOk result (out.new.items
        ≡ out.old.items ++ parts_text shared unshared.now value.now) }
    ensures front { take (vec_len out.old) out.new.items ≡ out.old.items }
{
    put_varint32(out, shared)?;
    put_varint32(out, unshared.len() as u32)?;
    put_varint32(out, value.len() as u32)?;
    out.extend_from_slice(unshared)?;
    out.extend_from_slice(value)?;
    Ok(())
}

/// Appends an entry's text, and its offset where that is a restart. An `Err` leaves the contents as
/// they were.
pub(crate) fn push_entry(
    text: &mut Vec<u8>,
    offsets: &mut Vec<u8>,
    restarts: bool,
    shared: u32,
    unshared: &[u8],
    value: &[u8],
) -> Result<(), AllocError>
    requires text { length text.old.items < 2 ^ 32 }
    requires unshared { length unshared.now < 2 ^ 32 }
    requires value { length value.now < 2 ^ 32 }
    ensures ok { OnOk result (text.new.items
        ≡ text.old.items ++ parts_text shared unshared.now value.now) }
    ensures offsets { OnOk result (offsets.new.items ≡ offsets.old.items
        ++ flat_map (to_le_bytes w32) (offset_if restarts (length text.old.items))) }
    ensures err { OnErr result (text.new.items ≡ text.old.items) }
    ensures err_offsets { OnErr result (offsets.new.items ≡ offsets.old.items) }
{
    let len = text.len();
    match push_parts(text, shared, unshared, value) {
        Ok(()) => {}
        Err(error) => {
            text.truncate(len);
            return Err(error);
        }
    }
    if restarts {
        match offsets.extend_from_slice(&(len as u32).to_le_bytes()) {
            Ok(()) => Ok(()),
            Err(error) => {
                text.truncate(len);
                Err(error)
            }
        }
    } else {
        Ok(())
    }
}

/// Appends the parts of a block. After an `Err` some of them may stand there.
fn push_block_parts(out: &mut Vec<u8>, text: &[u8], offsets: &[u8]) -> Result<(), AllocError>
    requires { length offsets.now < 2 ^ 32 }
    ensures ok { OnOk result (out.new.items ≡ out.old.items ++ (text.now
        ++ (to_le_bytes w32 0 ++ (offsets.now ++ to_le_bytes w32 (length offsets.now / 4 + 1))))) }
    ensures front { take (vec_len out.old) out.new.items ≡ out.old.items }
{
    out.extend_from_slice(text)?;
    out.extend_from_slice(&0u32.to_le_bytes())?;
    out.extend_from_slice(offsets)?;
    out.extend_from_slice(&((offsets.len() / 4 + 1) as u32).to_le_bytes())?;
    Ok(())
}

/// Appends a block by its parts. An `Err` leaves the contents as they were.
pub(crate) fn push_block(out: &mut Vec<u8>, text: &[u8], offsets: &[u8]) -> Result<(), AllocError>
    requires { length offsets.now < 2 ^ 32 }
    ensures ok { OnOk result (out.new.items ≡ out.old.items ++ (text.now
        ++ (to_le_bytes w32 0 ++ (offsets.now ++ to_le_bytes w32 (length offsets.now / 4 + 1))))) }
    ensures err { OnErr result (out.new.items ≡ out.old.items) }
{
    let len = out.len();
    match push_block_parts(out, text, offsets) {
        Ok(()) => Ok(()),
        Err(error) => {
            out.truncate(len);
            Err(error)
        }
    }
}
