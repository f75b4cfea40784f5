//! Ranges of user keys.

ghost use Rattle.std.specs.Prelude.{◌≡◌, true};
ghost use Rattle.lsm_codec.specs.Keys.{user_part};
ghost use Rattle.lsm_cmd_levels.specs.Reaching.{IsGreater, IsHull, IsLesser, meets};
ghost use Rattle.lsm_cmd_levels.specs.Reaching.{span_in, span_of};

use lsm_codec::key_parts;
use lsm_manifest::FileMeta;
use lsm_model::is_at_most;

/// A range of user keys: the least and the greatest.
#[derive(Clone, Copy, Debug)]
pub struct KeySpan<'a> {
    low: &'a [u8],
    high: &'a [u8],
}

/// The user key of an internal key.
pub(crate) fn user_of(key: &[u8]) -> &[u8]
    ensures { result.now ≡ user_part key.now }
{
    key_parts(key).0
}

/// The lesser of two keys.
#[tactic(auto, using(crate::proofs::SpanLaws::lesser_first, crate::proofs::SpanLaws::lesser_second))]
fn lesser<'a>(a: &'a [u8], b: &'a [u8]) -> &'a [u8]
    ensures { IsLesser result.now a.now b.now }
{
    if is_at_most(a, b) { a } else { b }
}

/// The greater of two keys.
#[tactic(auto, using(crate::proofs::SpanLaws::greater_first, crate::proofs::SpanLaws::greater_second))]
fn greater<'a>(a: &'a [u8], b: &'a [u8]) -> &'a [u8]
    ensures { IsGreater result.now a.now b.now }
{
    if is_at_most(a, b) { b } else { a }
}

impl<'a> KeySpan<'a> {
    /// The range of a file.
    pub(crate) fn of(file: &'a FileMeta) -> KeySpan<'a>
        ensures { span_in result ≡ span_of file.now }
    {
        KeySpan {
            low: user_of(file.smallest.as_slice()),
            high: user_of(file.largest.as_slice()),
        }
    }

    /// Whether two ranges have a user key in common.
    pub(crate) fn meets(self, other: KeySpan<'_>) -> bool
        ensures { result ≡ meets (span_in self.entry) (span_in other.entry) }
    {
        is_at_most(self.low, other.high) && is_at_most(other.low, self.high)
    }

    /// The least range that has both in it.
    #[tactic(auto, using(crate::proofs::SpanLaws::hull))]
    pub(crate) fn with(self, other: KeySpan<'a>) -> KeySpan<'a>
        ensures { IsHull (span_in self.entry) (span_in other.entry) (span_in result) }
    {
        KeySpan {
            low: lesser(self.low, other.low),
            high: greater(self.high, other.high),
        }
    }

    /// Whether they are the same.
    pub(crate) fn is(self, other: KeySpan<'_>) -> bool
        ensures { result ≡ true → span_in self.entry ≡ span_in other.entry }
    {
        self.low == other.low && self.high == other.high
    }
}
