//! Why a reader does not begin.

use thiserror::Error;

/// Why a reader does not begin.
#[derive(Clone, Copy, Debug, Drop, Error, PartialEq, Eq)]
pub enum BeginFault {
    /// A version of this id is current, and not the one that the reader has learnt.
    #[error("Moved {0}")]
    Moved(u32),
    /// The reader has made 2^24 pins of the id that it saw last.
    #[error("PinsSpent")]
    PinsSpent,
}
