//! What a compaction of a range of keys has to clear (LevelDB's `CompactRange`).

ghost use Rattle.std.specs.Prelude.{◌≡◌, ◌≤◌, ◌↔◌, IsTrue, MatchOption, None, Some};
ghost use Rattle.lsm_picker.specs.Manual.{IsCleared, IsDeepest, IsLastKey, IsToClear};
ghost use Rattle.lsm_picker.specs.Manual.{IsUnmet, first_key, first_over};

use crate::span::Span;
use crate::table_range::{highest, meets};
use lsm_codec::Bytes;
use lsm_table::{Naming, Registry, Shelf, TableRef};
use lsm_version::Version;

/// The key; where there is none, the least one.
fn first_key(from: &Option<Bytes>) -> &[u8]
    ensures { result.now ≡ first_key from.now }
{
    match from {
        Some(key) => key.as_slice(),
        None => &[],
    }
}

/// The greatest user key of the files of a version; empty where it has none.
fn last_key<'a, N: Naming, S: Shelf>(
    registry: &'a Registry<N, S>,
    version: &Version<N, S>,
) -> &'a [u8]
    ensures { IsLastKey version.now result.now }
{
    let mut last: &[u8] = &[];
    for level in 0..7usize {
        last = highest(registry, version.level(level), last);
    }
    last
}

/// The first file of a level that meets a range.
fn first_over<'a, N: Naming, S: Shelf>(
    registry: &Registry<N, S>,
    version: &'a Version<N, S>,
    level: u8,
    from: &[u8],
    to: &[u8],
) -> Option<&'a TableRef<N, S>>
    requires level { level ≤ 6 }
    ensures { MatchOption result (first_over version.now level from.now to.now ≡ None) (λ t.
        first_over version.now level from.now to.now ≡ Some t.now) }
{
    for table in version.level(usize::from(level)) {
        if meets(registry, table, from, to) {
            return Some(table);
        }
    }
    None
}

/// The deepest level of which a file meets a range; none where no file does.
fn deepest<N: Naming, S: Shelf>(
    registry: &Registry<N, S>,
    version: &Version<N, S>,
    from: &[u8],
    to: &[u8],
) -> Option<u8>
    ensures { MatchOption result (IsUnmet version.now from.now to.now) (λ n.
        IsDeepest version.now from.now to.now n) }
{
    for up in 0..7u8 {
        let level = 6 - up;
        if first_over(registry, version, level, from, to).is_some() {
            return Some(level);
        }
    }
    None
}

/// What a compaction of the user keys from `from` to `to` has to clear, both included, where none
/// is no bound: the deepest level of which a file meets that range, and so each level above it. Of
/// level 6 nothing is compacted, so it is level 5 there; and level 0 where no file meets the range.
pub fn span_to_clear<'a, N: Naming, S: Shelf>(
    registry: &'a Registry<N, S>,
    version: &Version<N, S>,
    from: &'a Option<Bytes>,
    to: &'a Option<Bytes>,
) -> Span<'a>
    ensures { IsToClear version.now from.now to.now result }
{
    let from = first_key(from);
    let to = match to {
        Some(key) => key.as_slice(),
        None => last_key(registry, version),
    };
    let level = match deepest(registry, version, from, to) {
        Some(level) => level.min(5),
        None => 0,
    };
    Span { level, from, to }
}

/// Whether no file meets a range at these levels, from 0 to the last one.
pub fn is_cleared<N: Naming, S: Shelf>(
    registry: &Registry<N, S>,
    version: &Version<N, S>,
    last: u8,
    from: &[u8],
    to: &[u8],
) -> bool
    requires { last ≤ 6 }
    ensures { IsTrue result
        ↔ IsCleared version.now (record { level = last; from = from.now; to = to.now }) }
{
    for level in 0..=last {
        if first_over(registry, version, level, from, to).is_some() {
            return false;
        }
    }
    true
}
