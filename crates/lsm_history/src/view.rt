//! What a seat at a history knows.

use crate::history::History;

/// What a seat at a history knows: the keeper's, or that of a memory. It is what contracts speak
/// of, and no value of it is made.
pub struct View {
    /// Whether it is the keeper's, which knows the whole history.
    pub keeps: bool,
    /// The history, as the seat knows it.
    pub seen: History,
    /// What another seat remembered, which is to be compared.
    pub asked: History,
}
