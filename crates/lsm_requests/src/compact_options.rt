//! How a directory is to be compacted.

use crate::compact_range::CompactRange;

/// By how many workers, 1 to 8; whether it is done also where the manifest ends with bytes that hold
/// no whole record; whether it is to be said on standard error how far they are; and the range whose
/// files are all compacted. Where there is none, all that is due is.
#[derive(Debug, Drop)]
pub struct CompactOptions {
    pub workers: usize,
    pub accepts_rest: bool,
    pub progress: bool,
    pub range: Option<CompactRange>,
}
