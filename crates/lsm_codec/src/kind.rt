//! What an entry does to its key.

/// What an entry does to its user key. As stored in a key: 0 for a deletion, 1 for a value
/// (`ValueType` of LevelDB's `db/dbformat.h`).
#[derive(Clone, Copy, Debug, PartialEq, Eq)]
pub enum Kind {
    /// The key has no value from this write on.
    Deletion,
    /// The key has the entry's value from this write on.
    Value,
}
