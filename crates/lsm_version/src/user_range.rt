//! The range of user keys of a table, and of the tables of a level.

ghost use Rattle.std.specs.Prelude.{◌≡◌, ◌≤◌, MatchOption, IsTrue, nat_lt, length};
ghost use Rattle.lsm_codec.specs.Keys.{user_le};
ghost use Rattle.lsm_version.specs.Reads.{HasNoCandidate, IsFirstReaching, IsRising, IsYoungest};
ghost use Rattle.lsm_version.specs.Reads.{begins_by, covers, is_below, is_candidate, reaches};
ghost use Rattle.lsm_version.specs.Versions.{user_of};

use lsm_block::compare;
use lsm_table::{Naming, Registry, Shelf, TableRef};

/// Whether a user key is at most another one.
#[tactic(auto, unfolding(lsm_codec::specs::Keys::user_le))]
fn is_at_most(a: &[u8], b: &[u8]) -> bool
    ensures { result ≡ user_le a.now b.now }
{
    compare(a, b).is_le()
}

/// The user key in the bytes of an internal key.
fn user_of(key: &[u8]) -> &[u8]
    ensures { result.now ≡ user_of key.now }
{
    &key[..key.len().saturating_sub(8)]
}

/// The least user key of a table.
pub fn low_of<'a, N: Naming, S: Shelf>(
    registry: &'a Registry<N, S>,
    table: &TableRef<N, S>,
) -> &'a [u8]
    ensures { result.now ≡ user_of table.now.smallest }
{
    user_of(registry.record(table).smallest.as_slice())
}

/// The greatest user key of a table.
pub fn high_of<'a, N: Naming, S: Shelf>(
    registry: &'a Registry<N, S>,
    table: &TableRef<N, S>,
) -> &'a [u8]
    ensures { result.now ≡ user_of table.now.largest }
{
    user_of(registry.record(table).largest.as_slice())
}

/// Whether the least user key of a table is at most this one.
pub fn begins_by<N: Naming, S: Shelf>(
    registry: &Registry<N, S>,
    table: &TableRef<N, S>,
    user: &[u8],
) -> bool
    ensures { result ≡ begins_by table.now user.now }
{
    is_at_most(low_of(registry, table), user)
}

/// Whether the greatest user key of a table is at least this one.
pub(crate) fn reaches<N: Naming, S: Shelf>(
    registry: &Registry<N, S>,
    table: &TableRef<N, S>,
    user: &[u8],
) -> bool
    ensures { result ≡ reaches table.now user.now }
{
    is_at_most(user, high_of(registry, table))
}

/// How many tables of a level do not reach a user key, where the level's tables rise.
pub fn first_reaching<N: Naming, S: Shelf>(
    registry: &Registry<N, S>,
    level: &[TableRef<N, S>],
    user: &[u8],
) -> usize
    ensures inside { result ≤ length level.now }
    ensures first { IsRising level.now → IsFirstReaching user.now level.now result }
{
    let mut low = 0;
    let mut high = level.len();
    while low < high {
        let middle = low + (high - low) / 2;
        if reaches(registry, &level[middle], user) {
            high = middle;
        } else {
            low = middle + 1;
        }
    }
    low
}

/// Whether the table's number is less than the bound, if there is one, and its range has the user
/// key.
fn is_candidate<N: Naming, S: Shelf>(
    registry: &Registry<N, S>,
    table: &TableRef<N, S>,
    user: &[u8],
    bound: Option<u64>,
) -> bool
    ensures { result ≡ is_candidate user.now bound table.now }
{
    let number = registry.record(table).number();
    let below = match bound {
        None => true,
        Some(bound) => number < bound,
    };
    below && begins_by(registry, table, user) && reaches(registry, table, user)
}

/// Whether the number of a table is greater than that of the one that was found, or none was found.
fn is_newer<N: Naming, S: Shelf>(
    registry: &Registry<N, S>,
    table: &TableRef<N, S>,
    best: Option<&TableRef<N, S>>,
) -> bool
    ensures { MatchOption best.entry (IsTrue result) (λ b.
        result ≡ nat_lt b.now.number table.now.number) }
{
    match best {
        None => true,
        Some(best) => registry.record(best).number() < registry.record(table).number(),
    }
}

/// Of the tables whose range has a user key, and whose number is less than a bound, if there is
/// one, that of the greatest number.
pub fn youngest_below<'a, N: Naming, S: Shelf>(
    registry: &Registry<N, S>,
    level: &'a [TableRef<N, S>],
    user: &[u8],
    bound: Option<u64>,
) -> Option<&'a TableRef<N, S>>
    ensures { MatchOption result (HasNoCandidate user.now bound level.now) (λ t.
        IsYoungest user.now bound level.now t.now) }
{
    let mut best = None;
    for table in level {
        if is_candidate(registry, table, user, bound) && is_newer(registry, table, best) {
            best = Some(table);
        }
    }
    best
}
