//! What is to be measured.

use crate::benchmark::Benchmark;

/// Which benchmarks are to run, one after another; of how many pairs, 1 to 10,000,000; how many
/// bytes a value has, 65,536 at most; and how many workers compact beside, 0 to 8.
#[derive(Debug, Drop)]
pub struct BenchOptions {
    pub benchmarks: Vec<Benchmark>,
    pub num: u64,
    pub value_size: u64,
    pub workers: usize,
}
