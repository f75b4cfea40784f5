//! Going through the entries of a block, and the search for a key.

ghost use Rattle.std.specs.Prelude.{◌≡◌, ◌≤◌, ◌<◌, ℕ, ◌+◌, ◌-◌, ◌*◌, ◌/◌};
ghost use Rattle.std.specs.Prelude.{List, [], ◌++◌, length};
ghost use Rattle.std.specs.Prelude.{take, drop, false, IfOk, IfSome, IfNone, OnErr};
ghost use Rattle.std.specs.Option.{option_map};
ghost use Rattle.lsm_codec.specs.KeyRef.{key_of};
ghost use Rattle.lsm_codec.specs.Entries.{Entry};
ghost use Rattle.lsm_block.specs.Seeking.{readable, not_below, word_of, ArePartsOf, starts_below};
ghost use Rattle.lsm_block.specs.Seeking.{StartsSearch, PassesTo, Steps};
ghost use Rattle.lsm_block.specs.KeyParts.{IsBelowAt};
ghost use Rattle.lsm_block.specs.Walking.{GoesOn};
ghost use Rattle.lsm_block.specs.Held.{Kept, last_of};
ghost use Rattle.lsm_block.specs.Standing.{StepStands, SharesFront};

use crate::entry::{RawEntry, first_key};
use crate::entry_text::common_prefix;
use crate::key::is_below;
use crate::shared_key::{SharedKey, put_together};
use lsm_codec::{KeyRef, push_key};
use std::alloc::AllocError;

/// What follows an offset.
fn rest_from(text: &[u8], offset: usize) -> &[u8]
    ensures { result.now ≡ drop offset text.now }
{
    if offset >= text.len() {
        return &[];
    }
    let (_, rest) = text.split_at(offset);
    rest
}

/// The number at this place of a row of numbers of four bytes.
fn word_at(bytes: &[u8], i: usize) -> u32
    requires { 4 * i + 4 ≤ length bytes.now }
    ensures { result ≡ word_of bytes.now i }
{
    let (_, rest) = bytes.split_at(4 * i);
    let (word, _) = rest.split_at(4);
    u32::from_le_bytes([word[0], word[1], word[2], word[3]])
}

/// Whether the entry at a restart stands before the key.
fn starts_below(text: &[u8], restart: usize, key: &KeyRef<'_>) -> bool
    ensures { result ≡ starts_below text.now restart (key_of key.now) }
{
    match first_key(rest_from(text, restart)) {
        Some(first) => is_below(first, key),
        None => false,
    }
}

/// The offset of a restart from which on the search finds the same as from the front: the last
/// whose key is below this one, or the first.
pub(crate) fn find_restart(text: &[u8], offsets: &[u8], key: &KeyRef<'_>) -> usize
    requires { 4 ≤ length offsets.now }
    ensures restart { StartsSearch text.now offsets.now (key_of key.now) result }
    ensures same { (es : List Entry) → ArePartsOf text.now offsets.now es
        → not_below (key_of key.now) (readable (length text.now) [] (drop result text.now))
        ≡ not_below (key_of key.now) es }
    ensures last { (es : List Entry) → ArePartsOf text.now offsets.now es → (i : ℕ)
        → i < length offsets.now / 4 → result < word_of offsets.now i
        → starts_below text.now (word_of offsets.now i) (key_of key.now) ≡ false }
{
    let mut low: usize = 0;
    let mut high: usize = offsets.len() / 4 - 1;
    while low < high {
        let middle = low + (high - low + 1) / 2;
        if starts_below(text, word_at(offsets, middle) as usize, key) {
            low = middle;
        } else {
            high = middle - 1;
        }
    }
    word_at(offsets, low) as usize
}

/// Where a key is below a user key, at a byte that is its own: both have so many bytes in common at
/// their fronts. `None` also where it is not below, or has no such byte.
fn place_below(shared: usize, own: &[u8], user: &[u8]) -> Option<usize>
    requires own { 8 ≤ length own.now }
    requires within { shared ≤ length user.now }
    ensures { IfSome result (λ place. IsBelowAt place
        (take shared user.now ++ take (length own.now - 8) own.now) user.now) }
{
    let (own, _) = own.split_at(own.len() - 8);
    let (_, rest) = user.split_at(shared);
    let common = common_prefix(own, rest);
    if common < own.len() && common < rest.len() && own[common] < rest[common] {
        Some(shared + common)
    } else {
        None
    }
}

/// The same for the next entry, behind a key that is below at this place. What shares more with
/// that key than so many bytes is below at the same place.
fn next_place(place: usize, entry: &RawEntry<'_>, user: &[u8]) -> Option<usize>
    requires own { 8 ≤ length entry.now.own.now }
    requires within { place ≤ length user.now }
    ensures some { IfSome result (λ next. GoesOn place next user.now entry.now) }
    ensures none { IfNone result (entry.now.shared ≤ place) }
{
    let shared = entry.shared as usize;
    if shared > place {
        return Some(place);
    }
    place_below(shared, entry.own, user)
}

/// Passes entries from a restart on whose user keys are below the key's: the offset behind them.
/// Looks at a key only where it differs, and puts none together. Where an entry's own bytes do not
/// tell its place it gives up, and is where it began.
fn pass_below(text: &[u8], start: usize, key: &KeyRef<'_>) -> usize
    ensures { PassesTo text.now start (key_of key.now) result }
{
    let mut offset = start;
    // How long the key before is, and where it is below.
    let mut len: usize = 0;
    let mut place: usize = 0;
    while offset < text.len() {
        let Some(entry) = RawEntry::read_own(len, rest_from(text, offset)) else {
            return start;
        };
        let Some(next) = next_place(place, &entry, key.user) else {
            return offset;
        };
        place = next;
        len = entry.shared as usize + entry.own.len();
        offset = text.len() - entry.after.len();
    }
    offset
}

/// Goes on from an offset and the key before it to the first entry that is not below the key: its
/// offset, and `before` is the key before it.
fn scan_on(
    text: &[u8],
    start: usize,
    key: &KeyRef<'_>,
    before: &mut Vec<u8>,
) -> Result<usize, AllocError>
    requires { Kept (last_of before.old.items) before.old.items }
    ensures found { IfOk result (λ o. readable (length text.now) before.new.items (drop o text.now)
        ≡ not_below (key_of key.now)
        (readable (length text.now) before.old.items (drop start text.now))) }
    ensures kept { IfOk result (λ _. Kept (last_of before.new.items) before.new.items) }
{
    let mut offset = start;
    while offset < text.len() {
        let rest = rest_from(text, offset);
        let Some(entry) = RawEntry::read(before, rest) else {
            return Ok(offset);
        };
        let shared = entry.shared as usize;
        if !SharedKey::of(before, shared, entry.own).is_below(key) {
            return Ok(offset);
        }
        put_together(before, shared, entry.own)?;
        offset = text.len() - entry.after.len();
    }
    Ok(offset)
}

/// Goes on from a restart to the first entry that is not below the key: its offset, and `before`
/// has of the key before it what that entry shares.
pub(crate) fn scan_to(
    text: &[u8],
    start: usize,
    key: &KeyRef<'_>,
    before: &mut Vec<u8>,
) -> Result<usize, AllocError>
    requires { before.old.items ≡ [] }
    ensures found { IfOk result (λ o. readable (length text.now) before.new.items (drop o text.now)
        ≡ not_below (key_of key.now) (readable (length text.now) [] (drop start text.now))) }
    ensures kept { IfOk result (λ _. Kept (last_of before.new.items) before.new.items) }
{
    let offset = pass_below(text, start, key);
    if offset == start {
        return scan_on(text, start, key, before);
    }
    before.reserve(key.user.len() + 8)?;
    push_key(before, key.user, key.seq, key.kind)?;
    scan_on(text, offset, key, before)
}

/// Reads the entry at an offset, whose key goes to `before`, and lends its value; the numbers are
/// the next offset and how many bytes the key shares with the key before it. An `Err` leaves
/// `before`.
pub(crate) fn step<'b>(
    text: &'b [u8],
    offset: usize,
    before: &mut Vec<u8>,
) -> Result<(Option<&'b [u8]>, usize, usize), AllocError>
    requires { Kept (last_of before.old.items) before.old.items }
    ensures steps { IfOk result (λ r.
        Steps text.now offset before.old.items r.1 before.new.items (option_map (λ v. v.now) r.0)) }
    ensures stands { IfOk result (λ r. StepStands text.now offset before.old.items r.1
        before.new.items (option_map (λ v. v.now) r.0)) }
    ensures shared { IfOk result (λ r. SharesFront r.2 before.old.items before.new.items) }
    ensures kept { Kept (last_of before.new.items) before.new.items }
    ensures err { OnErr result (before.new.items ≡ before.old.items) }
{
    if offset >= text.len() {
        return Ok((None, offset, 0));
    }
    let rest = rest_from(text, offset);
    let Some(entry) = RawEntry::read(before, rest) else {
        return Ok((None, offset, 0));
    };
    let shared = entry.shared as usize;
    put_together(before, shared, entry.own)?;
    Ok((Some(entry.value), text.len() - entry.after.len(), shared))
}
