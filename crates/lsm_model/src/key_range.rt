//! The range of internal keys of a file, and how the files of a level lie.

ghost use Rattle.std.specs.Prelude.{◌≡◌};
ghost use Rattle.lsm_codec.specs.KeyRef.{key_of};
ghost use Rattle.lsm_codec.specs.Keys.{user_le};
ghost use Rattle.lsm_model.specs.Ranges.{IsLevel, IsLaidOut, layout_along, next_layout, worse};

use lsm_codec::KeyRef;
use std::marker::Model;

/// How the files of a level from 1 on lie.
#[derive(Clone, Copy, Debug, PartialEq, Eq)]
pub enum Layout {
    /// Two files meet in internal keys.
    Overlap,
    /// No two files meet in internal keys, but two share a user key.
    Shared,
    /// No two files share a user key.
    Apart,
}

impl Layout {
    fn worse(self, other: Layout) -> Layout
        ensures { result ≡ worse self other }
    {
        match (self, other) {
            (Layout::Overlap, _) => Layout::Overlap,
            (Layout::Shared, Layout::Overlap) => Layout::Overlap,
            (Layout::Shared, _) => Layout::Shared,
            (Layout::Apart, other) => other,
        }
    }
}

/// A file's smallest and largest internal key.
#[derive(Drop)]
pub struct KeyRange<'a> {
    smallest: KeyRef<'a>,
    largest: KeyRef<'a>,
}

impl<'a> Model for KeyRange<'a> {
    ghost use Rattle.lsm_codec.specs.KeyRef.{key_of};
    ghost use Rattle.lsm_model.specs.Ranges.{Range};

    ghost Value = { Range };

    ghost view = { λ r. record { smallest = key_of r.smallest; largest = key_of r.largest } };
}

impl<'a> KeyRange<'a> {
    /// The range of a file with these keys.
    pub fn new(smallest: KeyRef<'a>, largest: KeyRef<'a>) -> KeyRange<'a>
        ensures { result
            ≡ record { smallest = key_of smallest.entry; largest = key_of largest.entry } }
    {
        KeyRange { smallest, largest }
    }

    /// How this range and the next one of its level lie.
    #[tactic(auto, unfolding(crate::specs::Ranges::key_le))]
    fn next_layout(&self, next: &KeyRange<'_>) -> Layout
        ensures { result ≡ next_layout self.now next.now }
    {
        if next.smallest.compare(&self.largest).is_le() {
            Layout::Overlap
        } else if is_at_most(next.smallest.user, self.largest.user) {
            Layout::Shared
        } else {
            Layout::Apart
        }
    }
}

/// Whether a user key is at most another one.
#[tactic(auto, unfolding(lsm_codec::specs::Keys::user_le))]
pub fn is_at_most(a: &[u8], b: &[u8]) -> bool
    ensures { result ≡ user_le a.now b.now }
{
    a.cmp(b).is_le()
}

/// How the files of a level lie, of which these are the ranges in the level's order. Each is
/// compared with the next one alone.
pub fn layout_of(ranges: &[KeyRange<'_>]) -> Layout
    ensures { IsLevel ranges.now → IsLaidOut ranges.now result }
{
    let mut layout = Layout::Apart;
    let mut rest = ranges;
    while let [first, tail @ ..] = rest {
        if let [second, ..] = tail {
            layout = layout.worse(first.next_layout(second));
        }
        rest = tail;
    }
    layout
}
