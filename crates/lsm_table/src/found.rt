//! What a read finds.

/// What a read finds of a user key: the newest entry that it may see (LevelDB's `doc/impl.md`).
#[derive(Debug, Drop)]
pub enum Found {
    /// The value that was put.
    Value(Vec<u8>),
    /// The key was deleted.
    Deleted,
}
