//! What a scan writes on standard output.

/// What is written of the pairs of a scan.
#[derive(Clone, Copy, Debug)]
pub enum ScanOutput {
    /// A line a pair: `KEY=VALUE`.
    Pairs,
    /// A line a pair: `KEY`.
    Keys,
    /// A line a pair: a JSON object of its key and its value.
    Json,
    /// A line in all: how many pairs there are.
    Count,
}
