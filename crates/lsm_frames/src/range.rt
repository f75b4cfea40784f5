//! What a scan shows.

use crate::when::When;

/// What a scan shows, as it lies in a frame.
#[derive(Clone, Copy)]
pub struct Range<'a> {
    /// In which state.
    pub when: When,
    /// The first key that may be shown. The empty one is before each key.
    pub from: &'a [u8],
    /// The first key that is not shown any more, or none: no bound.
    pub to: Option<&'a [u8]>,
    /// How many pairs are shown at most; 0 for no limit.
    pub limit: u32,
}
