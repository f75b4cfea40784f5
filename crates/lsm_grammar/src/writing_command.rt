//! What is asked of a directory that is written.

use lsm_batch::Write;
use lsm_requests::{CleanOptions, IngestOptions, Input};

/// A command that writes a directory.
#[derive(Debug, Drop)]
pub enum WritingCommand<'a> {
    /// The batch that this input spells comes in.
    Ingest(Input<'a>, IngestOptions),
    /// The batch of this one write comes in.
    WriteKey(Write, IngestOptions),
    /// The files that no version needs any more are removed.
    Clean(CleanOptions),
}
