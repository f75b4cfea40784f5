//! What a read is to answer.

/// What a read is to answer.
#[derive(Clone, Copy, Debug)]
pub enum Wanted {
    /// The newest value of a key.
    Value,
    /// The pairs from a key on, up to so many.
    Pairs(usize),
}
