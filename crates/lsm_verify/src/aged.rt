//! The age and the sequences of a table of level 0.

use crate::sequences::Sequences;

/// The number of a table, which is its age at level 0, and its sequences.
#[derive(Clone, Copy, Drop)]
pub struct Aged {
    pub number: u64,
    pub sequences: Sequences,
}
