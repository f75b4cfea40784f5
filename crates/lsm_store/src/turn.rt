//! What a worker does in a turn.

/// What a worker has done in one turn.
#[derive(Clone, Copy, Drop)]
pub(crate) enum Turn {
    /// It gathered files of level 0.
    Gathered,
    /// It compacted: a job was finished, and its result installed.
    Compacted,
}
