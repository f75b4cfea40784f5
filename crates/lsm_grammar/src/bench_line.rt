//! Measurements of a folder.

use lsm_requests::BenchOptions;

/// Measurements over the folder of this path, with these options.
#[derive(Debug, Drop)]
pub struct BenchLine<'a> {
    pub path: &'a str,
    pub options: BenchOptions,
}
