//! What a read answers.

use lsm_query::Pair;

/// What a read answers.
#[derive(Drop)]
pub enum Found {
    /// The newest value of a key.
    Value(Option<Vec<u8>>),
    /// The pairs from a key on.
    Pairs(Vec<Pair>),
}
