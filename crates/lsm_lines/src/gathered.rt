//! A batch that was gathered of lines.

use crate::write_line_fault::WriteLineFault;
use lsm_batch::Batch;

/// What ended a batch.
#[derive(Clone, Copy, Debug)]
pub enum BatchEnd {
    /// A limit of batches: with the next line it would be passed, if there is one.
    Full,
    /// The end of the input.
    End,
    /// The next line, which is no write of a batch.
    Stopped(WriteLineFault),
}

/// A batch that was gathered of lines.
#[derive(Debug, Drop)]
pub struct Gathered {
    /// Of each key that these lines write, the last write.
    pub batch: Batch,
    /// How many lines these are.
    pub lines: usize,
    /// What ended it.
    pub end: BatchEnd,
}
