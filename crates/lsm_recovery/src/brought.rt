//! What came in of logs.

use lsm_log_files::LogStop;

/// What came in: the writes of how many logs; as how many entries; how many bytes at the ends of
/// the manifest and of the logs hold no whole record, and were not read; and where the first fault
/// of a log is, if it was brought in up to that.
#[derive(Clone, Copy, Debug)]
pub struct Brought {
    pub logs: u64,
    pub entries: u64,
    pub rest: u64,
    pub stop: Option<LogStop>,
}
