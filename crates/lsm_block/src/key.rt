//! Internal keys as they lie in a block.

ghost use Rattle.std.specs.Prelude.{◌≡◌, ◌-◌, ◌≤◌, ℕ, List, length, min, true};
ghost use Rattle.std.specs.Int.{w64, from_be_bytes};
ghost use Rattle.std.specs.Ordering.{nat_cmp, is_lt};
ghost use Rattle.std.specs.Cmp.Lexicographic.{slice_cmp};
ghost use Rattle.lsm_codec.specs.Keys.{key_cmp, is_internal, tail_of, key_at};
ghost use Rattle.lsm_codec.specs.KeyRef.{key_of};

use lsm_codec::KeyRef;
use std::cmp::Ordering;

/// The last eight bytes of an internal key as a number.
pub(crate) fn tail(key: &[u8]) -> u64
    requires { 8 ≤ length key.now }
    ensures { result ≡ tail_of key.now }
{
    let (_, tail) = key.split_at(key.len() - 8);
    u64::from_le_bytes([
        tail[0], tail[1], tail[2], tail[3], tail[4], tail[5], tail[6], tail[7],
    ])
}

/// How many bytes the user keys of two keys have in common at their fronts, where the keys have so
/// many in common and are so long: the last eight bytes of a key are none of its user key.
pub(crate) fn shared_by_users(shared: usize, before_len: usize, len: usize) -> usize
    ensures { result ≡ min (min shared (before_len - 8)) (len - 8) }
{
    shared
        .min(before_len.saturating_sub(8))
        .min(len.saturating_sub(8))
}

/// Eight bytes as a number, the first of them the highest.
fn high_first(eight: &[u8]) -> u64
    requires { length eight.now ≡ 8 }
    ensures { result ≡ from_be_bytes w64 eight.now }
{
    u64::from_be_bytes([
        eight[0], eight[1], eight[2], eight[3], eight[4], eight[5], eight[6], eight[7],
    ])
}

/// Compares two texts of which the first bytes mostly tell the order.
#[tactic(auto, using(crate::proofs::OrderByWords::first_less, crate::proofs::OrderByWords::first_greater))]
pub(crate) fn compare_by_first(a: &[u8], b: &[u8]) -> Ordering
    ensures { result ≡ slice_cmp nat_cmp a.now b.now }
{
    if !a.is_empty() && !b.is_empty() {
        match a[0].cmp(&b[0]) {
            Ordering::Less => return Ordering::Less,
            Ordering::Greater => return Ordering::Greater,
            Ordering::Equal => {}
        }
    }
    a.cmp(b)
}

/// The order of two texts, bytewise, a proper prefix first. Looks at eight bytes at a time.
pub fn compare(a: &[u8], b: &[u8]) -> Ordering
    ensures { result ≡ slice_cmp nat_cmp a.now b.now }
{
    let mut left = a;
    let mut right = b;
    while left.len() >= 8 && right.len() >= 8 {
        let (first, more) = left.split_at(8);
        let (second, others) = right.split_at(8);
        match high_first(first).cmp(&high_first(second)) {
            Ordering::Less => return Ordering::Less,
            Ordering::Greater => return Ordering::Greater,
            Ordering::Equal => {
                left = more;
                right = others;
            }
        }
    }
    compare_by_first(left, right)
}

/// Whether an internal key stands before the one that is searched for.
pub(crate) fn is_below(key: &[u8], search: &KeyRef<'_>) -> bool
    requires { is_internal key.now ≡ true }
    ensures { result ≡ is_lt (key_cmp (key_at key.now) (key_of search.now)) }
{
    let (user, _) = key.split_at(key.len() - 8);
    match compare(user, search.user) {
        Ordering::Less => true,
        Ordering::Equal => search.packed() < tail(key),
        Ordering::Greater => false,
    }
}
