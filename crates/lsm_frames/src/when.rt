//! The state that a read or a scan shows.

/// Which state is shown.
#[derive(Clone, Copy, Debug, Drop, PartialEq, Eq)]
pub enum When {
    /// The last one that has come in.
    Now,
    /// That of the snapshot of this number.
    Snapshot(u64),
}
