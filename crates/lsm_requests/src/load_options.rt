//! How lines are to be loaded.

use crate::ingest_options::IngestOptions;

/// How each batch is to come in; how many workers compact beside, 1 to 8; the number of the first
/// line that is loaded, from 1; whether the last line is loaded also where no newline stands behind
/// it; whether each line is a JSON object, as `scan --json` prints them; and whether it is to be
/// said on standard error how far it is.
#[derive(Clone, Copy, Debug)]
pub struct LoadOptions {
    pub ingest: IngestOptions,
    pub workers: usize,
    pub from_line: u64,
    pub last_line: bool,
    pub json: bool,
    pub progress: bool,
}
