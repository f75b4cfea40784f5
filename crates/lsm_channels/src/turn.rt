//! One turn of filling a page.

use lsm_query::Pair;

/// What a turn came to.
#[derive(Drop)]
pub(crate) enum Turn {
    /// A pair was added, and this one is next, if one is left.
    Next(Option<Pair>),
    /// The page is full, and a pair is left.
    Full,
    /// No pair is left.
    Ended,
}
