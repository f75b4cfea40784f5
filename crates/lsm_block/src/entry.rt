//! The entries of a block, one at a time, as they lie in its text:
//!
//! ```text
//! shared: varint32 | unshared: varint32 | value's length: varint32 | key bytes | value
//! ```
//!
//! The key is `shared` bytes of the key before, then the `unshared` key bytes that stand here.

ghost use Rattle.std.specs.Prelude.{◌≡◌, ◌≤◌, [], ℕ, List, length, IfSome};
ghost use Rattle.std.specs.Option.{option_map};
ghost use Rattle.lsm_block.specs.Reading.{number_at, numbers_at, piece_of, entry_at};
ghost use Rattle.lsm_codec.specs.Keys.{IsKey, key_at};
ghost use Rattle.lsm_block.specs.Walking.{seen, raw_key, raw_seen, ReadsOwn};

use crate::shared_key::SharedKey;
use lsm_codec::{get_varint32, is_internal_key};

/// A varint32 and what follows it.
fn number(bytes: &[u8]) -> Option<(u32, &[u8])>
    ensures reads { option_map (λ r. (r.0, r.1.now)) result ≡ number_at bytes.now }
{
    match get_varint32(bytes) {
        Ok((n, used)) => {
            let (_, rest) = bytes.split_at(used);
            Some((n, rest))
        }
        Err(_) => None,
    }
}

#[tactic(auto, unfolding(crate::specs::Reading::numbers_at))]
fn long_numbers(text: &[u8]) -> Option<(u32, u32, u32, &[u8])>
    ensures reads { option_map (λ r. (r.0, r.1, r.2, r.3.now)) result ≡ numbers_at text.now }
{
    let (shared, rest) = number(text)?;
    let (unshared, rest) = number(rest)?;
    let (len, rest) = number(rest)?;
    Some((shared, unshared, len, rest))
}

/// The three numbers of an entry, and what follows them. Where each is below 128 it is one byte.
fn numbers(text: &[u8]) -> Option<(u32, u32, u32, &[u8])>
    ensures reads { option_map (λ r. (r.0, r.1, r.2, r.3.now)) result ≡ numbers_at text.now }
{
    if let [shared, unshared, len, rest @ ..] = text {
        if *shared < 128 && *unshared < 128 && *len < 128 {
            return Some((*shared as u32, *unshared as u32, *len as u32, rest));
        }
    }
    long_numbers(text)
}

/// An entry as it lies in a text: how much of its key it shares with the key before it, the bytes
/// of its key beyond that, its value, and what follows it.
#[derive(Clone, Copy)]
pub(crate) struct RawEntry<'a> {
    pub(crate) shared: u32,
    pub(crate) own: &'a [u8],
    pub(crate) value: &'a [u8],
    pub(crate) after: &'a [u8],
}

impl<'a> RawEntry<'a> {
    /// The entry whose three numbers are read.
    #[tactic(auto, unfolding(crate::specs::Reading::piece_of))]
    fn of(
        before: &[u8],
        shared: u32,
        unshared: u32,
        len: u32,
        rest: &'a [u8],
    ) -> Option<RawEntry<'a>>
        ensures reads { option_map (raw_seen before.now) result
            ≡ option_map seen (piece_of before.now shared unshared len rest.now) }
        ensures within { IfSome result (λ e. e.shared ≤ length before.now) }
        ensures kept { IfSome result (λ e.
            IsKey (raw_key before.now e) (key_at (raw_key before.now e))) }
    {
        if shared as usize > before.len() {
            return None;
        }
        if rest.len() < unshared as usize + len as usize {
            return None;
        }
        let (own, after) = rest.split_at(unshared as usize);
        let (value, after) = after.split_at(len as usize);
        if !SharedKey::of(before, shared as usize, own).is_internal() {
            return None;
        }
        Some(RawEntry {
            shared,
            own,
            value,
            after,
        })
    }

    /// The entry at the front of a text, after the key before it, if one can be read.
    #[tactic(auto, unfolding(crate::specs::Reading::entry_at))]
    pub(crate) fn read(before: &[u8], text: &'a [u8]) -> Option<RawEntry<'a>>
        ensures reads { option_map (raw_seen before.now) result
            ≡ option_map seen (entry_at before.now text.now) }
        ensures within { IfSome result (λ e. e.shared ≤ length before.now) }
        ensures kept { IfSome result (λ e.
            IsKey (raw_key before.now e) (key_at (raw_key before.now e))) }
    {
        let (shared, unshared, len, rest) = numbers(text)?;
        RawEntry::of(before, shared, unshared, len, rest)
    }

    /// The entry at the front of a text, after a key of this length that is not at hand. `None`
    /// also where the last eight bytes of its key are not all its own.
    pub(crate) fn read_own(before_len: usize, text: &'a [u8]) -> Option<RawEntry<'a>>
        ensures { IfSome result (ReadsOwn before_len text.now) }
    {
        let (shared, unshared, len, rest) = numbers(text)?;
        if shared as usize > before_len {
            return None;
        }
        if rest.len() < unshared as usize + len as usize {
            return None;
        }
        let (own, after) = rest.split_at(unshared as usize);
        if !is_internal_key(own) {
            return None;
        }
        let (value, after) = after.split_at(len as usize);
        Some(RawEntry {
            shared,
            own,
            value,
            after,
        })
    }
}

/// The key of the entry at the front of a text that follows no key, if it can be read.
pub(crate) fn first_key(text: &[u8]) -> Option<&[u8]>
    ensures { option_map (λ k. k.now) result ≡ option_map (λ f. f.0.key) (entry_at [] text.now) }
{
    let Some((shared, unshared, len, rest)) = numbers(text) else {
        return None;
    };
    if shared != 0 {
        return None;
    }
    if rest.len() < unshared as usize + len as usize {
        return None;
    }
    let (key, _) = rest.split_at(unshared as usize);
    if !is_internal_key(key) {
        return None;
    }
    Some(key)
}
