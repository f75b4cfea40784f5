//! Which compactions a worker takes.

use crate::manual_compaction::ManualCompaction;

/// Which compaction a worker reserves when it looks for one.
#[derive(Drop)]
pub enum Picks {
    /// The chosen one, as `State::reserve` does.
    Choice,
    /// The next one, as `State::reserve_next` does, so that small files are joined. Before it looks
    /// for one it gathers the newest small files of level 0 (`State::gather`).
    Joining,
    /// None: it only gathers, as those do that join.
    Gathering,
    /// That of a range of keys, level by level, due or not, and no other.
    Manual(ManualCompaction),
}
