//! What a scan is to print.

use crate::key_bounds::KeyBounds;
use crate::scan_output::ScanOutput;

/// Of which keys, of how many pairs at most (`None` is no limit), and what of them.
#[derive(Debug, Drop)]
pub struct ScanOptions {
    pub bounds: KeyBounds,
    pub limit: Option<u64>,
    pub output: ScanOutput,
}
