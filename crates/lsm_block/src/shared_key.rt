//! A key that shares its front with the key before it.

ghost use Rattle.std.specs.Prelude.{◌≡◌, ◌++◌, ◌+◌, ◌<◌, ◌≤◌, ℕ, List, length, take, slice_index};
ghost use Rattle.std.specs.Prelude.{true, OnOk, OnErr};
ghost use Rattle.std.specs.Ordering.{nat_cmp, is_lt};
ghost use Rattle.std.specs.Cmp.Lexicographic.{slice_cmp};
ghost use Rattle.lsm_codec.specs.Keys.{key_cmp, is_internal, user_of, tail_of, key_at};
ghost use Rattle.lsm_codec.specs.KeyRef.{key_of};
ghost use Rattle.lsm_block.specs.KeyParts.{joined};
ghost use Rattle.lsm_block.specs.Reading.{comes_after};

use crate::key::{compare, compare_by_first, tail};
use lsm_codec::KeyRef;
use std::alloc::AllocError;
use std::cmp::Ordering;
use std::marker::Model;

/// A key that is judged before it is put together: the key before it, how much of that it shares,
/// and its own bytes. So going through a block takes time by its bytes, however long the keys are
/// that they spell.
#[derive(Drop)]
pub(crate) struct SharedKey<'b, 'a> {
    before: &'b [u8],
    shared: usize,
    own: &'a [u8],
}

impl<'b, 'a> Model for SharedKey<'b, 'a> {
    ghost use Rattle.lsm_block.specs.KeyParts.{KeyParts, AreParts};

    ghost Value = { KeyParts };

    ghost view = { λ k. record { before = k.before.now; shared = k.shared; own = k.own.now } };

    ghost invariant = { λ k.
        AreParts (record { before = k.before.now; shared = k.shared; own = k.own.now }) };
}

impl<'b, 'a> SharedKey<'b, 'a> {
    pub(crate) fn of(before: &'b [u8], shared: usize, own: &'a [u8]) -> SharedKey<'b, 'a>
        requires { shared ≤ length before.now }
        ensures { result ≡ record { before = before.now; shared = shared; own = own.now } }
    {
        SharedKey {
            before,
            shared,
            own,
        }
    }

    fn len(&self) -> usize
        ensures { result ≡ length (joined self.now) }
    {
        self.shared + self.own.len()
    }

    /// The byte at this place of the key.
    fn byte(&self, i: usize) -> u8
        requires { i < length (joined self.now) }
        ensures { result ≡ slice_index (joined self.now) i }
    {
        if i < self.shared {
            self.before[i]
        } else {
            self.own[i - self.shared]
        }
    }

    /// Whether it is an internal key: eight bytes at least, and the kind is 0 or 1.
    #[tactic(auto, unfolding(lsm_codec::specs::Keys::is_internal))]
    pub(crate) fn is_internal(&self) -> bool
        ensures { result ≡ is_internal (joined self.now) }
    {
        self.len() >= 8 && self.byte(self.len() - 8) <= 1
    }

    /// The last eight bytes of the key as a number.
    fn tail(&self) -> u64
        requires { 8 ≤ length (joined self.now) }
        ensures { result ≡ tail_of (joined self.now) }
    {
        let start = self.len() - 8;
        u64::from_le_bytes([
            self.byte(start),
            self.byte(start + 1),
            self.byte(start + 2),
            self.byte(start + 3),
            self.byte(start + 4),
            self.byte(start + 5),
            self.byte(start + 6),
            self.byte(start + 7),
        ])
    }

    /// The user key before, compared with its own: what they share is not looked at.
    fn compare_before(&self) -> Ordering
        requires before { 8 ≤ length self.now.before }
        requires key { 8 ≤ length (joined self.now) }
        ensures { result ≡ slice_cmp nat_cmp (user_of self.now.before) (user_of (joined self.now)) }
    {
        if self.own.len() < 8 || self.shared + 8 > self.before.len() {
            return self.before.len().cmp(&self.len());
        }
        let (user, _) = self.before.split_at(self.before.len() - 8);
        let (_, user) = user.split_at(self.shared);
        let (own, _) = self.own.split_at(self.own.len() - 8);
        compare_by_first(user, own)
    }

    /// Whether it comes after the key before it, of which there are no bytes where there is none.
    #[tactic(auto, unfolding(crate::specs::Reading::comes_after))]
    pub(crate) fn is_after(&self) -> bool
        requires before { 0 < length self.now.before → is_internal self.now.before ≡ true }
        requires key { is_internal (joined self.now) ≡ true }
        ensures { result ≡ comes_after self.now.before (joined self.now) }
    {
        if self.before.is_empty() {
            return true;
        }
        match self.compare_before() {
            Ordering::Less => true,
            Ordering::Equal => self.tail() < tail(self.before),
            Ordering::Greater => false,
        }
    }

    /// Its user key, compared with another.
    fn compare_user(&self, other: &[u8]) -> Ordering
        requires { 8 ≤ length (joined self.now) }
        ensures compares { result ≡ slice_cmp nat_cmp (user_of (joined self.now)) other.now }
        ensures bytes { (i : ℕ) → slice_index (joined self.now) i < 256 }
    {
        let len = self.len() - 8;
        if len <= self.shared {
            let (user, _) = self.before.split_at(len);
            return user.cmp(other);
        }
        let (front, _) = self.before.split_at(self.shared);
        if other.len() < self.shared {
            return front.cmp(other);
        }
        let (other_front, rest) = other.split_at(self.shared);
        let (own, _) = self.own.split_at(self.own.len() - 8);
        compare(front, other_front).then(compare_by_first(own, rest))
    }

    /// Whether it stands before the one that is searched for.
    pub(crate) fn is_below(&self, search: &KeyRef<'_>) -> bool
        requires { is_internal (joined self.now) ≡ true }
        ensures { result ≡ is_lt (key_cmp (key_at (joined self.now)) (key_of search.now)) }
    {
        match self.compare_user(search.user) {
            Ordering::Less => true,
            Ordering::Equal => search.packed() < self.tail(),
            Ordering::Greater => false,
        }
    }
}

/// Puts a key together in place of the one before it. An `Err` leaves that.
pub(crate) fn put_together(key: &mut Vec<u8>, shared: usize, own: &[u8]) -> Result<(), AllocError>
    ensures ok { OnOk result (key.new.items ≡ take shared key.old.items ++ own.now) }
    ensures err { OnErr result (key.new.items ≡ key.old.items) }
{
    // What it grows by, so that no room is asked for which the key before has.
    let more = shared.saturating_add(own.len()).saturating_sub(key.len());
    key.reserve(more)?;
    key.truncate(shared);
    key.extend_from_slice(own)
}
