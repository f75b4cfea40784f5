//! How a file is locked.

/// How a file is locked.
#[derive(Clone, Copy, Debug, PartialEq, Eq)]
pub enum LockKind {
    /// Beside others that are shared: to read.
    Shared,
    /// Alone: to write.
    Exclusive,
}
