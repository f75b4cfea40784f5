//! Comparing keys that share a front by what stands behind it.

ghost use Rattle.std.specs.Prelude.{◌≡◌};
ghost use Rattle.std.specs.Option.{option_map};
ghost use Rattle.std.specs.Ordering.{is_le, nat_cmp};
ghost use Rattle.std.specs.Cmp.Lexicographic.{slice_cmp};
ghost use Rattle.lsm_codec.specs.KeyRef.{key_of};
ghost use Rattle.lsm_codec.specs.Keys.{key_cmp};
ghost use Rattle.lsm_block.specs.Building.{common};
ghost use Rattle.lsm_block.specs.Standing.{SharesFront};
ghost use Rattle.lsm_iterators.specs.Heads.{leads_by, user_named};

use lsm_block::common_prefix;
use lsm_codec::KeyRef;
use std::cmp::Ordering;

/// The order of two texts that share no front: their first bytes tell it, or one of them has none.
fn compare_first(a: &[u8], b: &[u8]) -> Ordering
    requires { common a.now b.now ≡ 0 }
    ensures { result ≡ slice_cmp nat_cmp a.now b.now }
{
    if a.is_empty() || b.is_empty() {
        return a.len().cmp(&b.len());
    }
    a[0].cmp(&b[0])
}

/// The order of two texts that share a front of so many bytes, and how many they share in all. The
/// front is not looked at, and each byte behind it that both share once.
pub(crate) fn compare_behind(a: &[u8], b: &[u8], front: usize) -> (Ordering, usize)
    requires { SharesFront front a.now b.now }
    ensures order { result.0 ≡ slice_cmp nat_cmp a.now b.now }
    ensures shared { SharesFront result.1 a.now b.now }
    ensures all { result.1 ≡ common a.now b.now }
{
    let (_, own) = a.split_at(front);
    let (_, other) = b.split_at(front);
    let more = common_prefix(own, other);
    let (_, own) = own.split_at(more);
    let (_, other) = other.split_at(more);
    (compare_first(own, other), front + more)
}

/// Whether a key stands before the other one, or is it; and how many bytes their user keys share in
/// all, of which so many are known.
fn keys_judged(own: &KeyRef<'_>, other: &KeyRef<'_>, front: usize) -> (bool, usize)
    requires { SharesFront front (key_of own.now).user (key_of other.now).user }
    ensures led { result.0 ≡ is_le (key_cmp (key_of own.now) (key_of other.now)) }
    ensures shared { SharesFront result.1 (key_of own.now).user (key_of other.now).user }
    ensures all { result.1 ≡ common (key_of own.now).user (key_of other.now).user }
{
    match compare_behind(own.user, other.user, front) {
        (Ordering::Less, shared) => (true, shared),
        (Ordering::Equal, shared) => (other.packed().cmp(&own.packed()).is_le(), shared),
        (Ordering::Greater, shared) => (false, shared),
    }
}

/// The same where there may be no key: where there is no other one the first stands before it.
pub(crate) fn judged(
    own: Option<KeyRef<'_>>,
    other: Option<KeyRef<'_>>,
    front: usize,
) -> (bool, usize)
    requires { SharesFront front (user_named (option_map key_of own))
        (user_named (option_map key_of other)) }
    ensures led { result.0
        ≡ leads_by (option_map key_of own.entry) (option_map key_of other.entry) }
    ensures shared { SharesFront result.1 (user_named (option_map key_of own.entry))
        (user_named (option_map key_of other.entry)) }
    ensures all { result.1 ≡ common (user_named (option_map key_of own.entry))
        (user_named (option_map key_of other.entry)) }
{
    match (own, other) {
        (None, _) => (false, 0),
        (Some(_own), None) => (true, 0),
        (Some(own), Some(other)) => keys_judged(&own, &other, front),
    }
}
