//! The benchmarks.

ghost use Rattle.std.specs.Prelude.{◌≡◌};
ghost use Rattle.lsm_requests.specs.Benchmarks.{benchmark_word};

/// One of the benchmarks that are known from LevelDB's `db_bench`.
#[derive(Clone, Copy, Debug)]
pub enum Benchmark {
    FillBatch,
    FillRandom,
    Overwrite,
    ReadRandom,
    ReadWhileWriting,
    ReadSeq,
    Compact,
}

impl Benchmark {
    /// The word that names it.
    pub fn word(self) -> &'static str
        ensures { result.now ≡ benchmark_word self }
    {
        match self {
            Benchmark::FillBatch => "fillbatch",
            Benchmark::FillRandom => "fillrandom",
            Benchmark::Overwrite => "overwrite",
            Benchmark::ReadRandom => "readrandom",
            Benchmark::ReadWhileWriting => "readwhilewriting",
            Benchmark::ReadSeq => "readseq",
            Benchmark::Compact => "compact",
        }
    }
}
