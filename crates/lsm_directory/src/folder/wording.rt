//! In which words a log is told.

/// In which words a log that is not read is told.
#[derive(Clone, Copy, Debug)]
pub enum Wording {
    /// `log NAME BYTES`, on standard output.
    Listed,
    /// `note: NAME is not flushed: its BYTES bytes are not read`, on standard error.
    Noted,
}
