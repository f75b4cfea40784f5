//! What is known of a folder before its database is begun or opened.

use lsm_directory::FolderFile;

/// Which database is meant.
#[derive(Clone, Copy, Debug, PartialEq, Eq)]
pub enum Start {
    /// The one that is there.
    Open,
    /// A new one, whose first manifest has this number.
    Begin(u64),
}

/// Which database is meant, and the files that may be logs beside it, in the order of their names:
/// none where it may be begun or opened beside a log.
#[derive(Debug, Drop)]
pub struct Prepared {
    pub start: Start,
    pub logs: Vec<FolderFile>,
}
