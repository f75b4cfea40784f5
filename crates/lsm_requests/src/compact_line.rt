//! A compaction.

use crate::compact_options::CompactOptions;

/// A compaction: of the folder of this path, with these options.
#[derive(Debug, Drop)]
pub struct CompactLine<'a> {
    pub path: &'a str,
    pub options: CompactOptions,
}
