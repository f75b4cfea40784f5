//! The files of a level that meet a range of user keys.

ghost use Rattle.std.specs.Prelude.{◌≡◌};

use std::marker::Model;

/// The files of a level that meet the range of user keys from `from` to `to`, both included.
#[derive(Drop)]
pub struct Span<'a> {
    pub(crate) level: u8,
    pub(crate) from: &'a [u8],
    pub(crate) to: &'a [u8],
}

impl<'a> Model for Span<'a> {
    ghost use Rattle.lsm_picker.specs.Joining.{Span};

    ghost Value = { Span };

    ghost view = { λ s. record { level = s.level; from = s.from.now; to = s.to.now } };
}

impl<'a> Span<'a> {
    /// The level of the files.
    pub fn level(&self) -> u8
        ensures { result ≡ self.now.level }
    {
        self.level
    }

    /// The least user key of the range.
    pub fn from(&self) -> &'a [u8]
        ensures { result.now ≡ self.now.from }
    {
        self.from
    }

    /// The greatest user key of the range.
    pub fn to(&self) -> &'a [u8]
        ensures { result.now ≡ self.now.to }
    {
        self.to
    }
}
