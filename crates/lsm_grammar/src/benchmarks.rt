//! The benchmarks that a word names.

ghost use Rattle.std.specs.Prelude.{◌≡◌, ◌≢◌, IfNone, IfOk, IfSome, List};
ghost use Rattle.lsm_grammar.specs.BenchmarkList.{AreBenchmarks};
ghost use Rattle.lsm_requests.specs.Benchmarks.{benchmark_word};
ghost use Rattle.lsm_requests.specs.declared.benchmark.Benchmark.{Benchmark};

use lsm_requests::Benchmark;
use lsm_text::parts;
use std::alloc::{AllocError, Global};

/// The benchmark that a word names.
fn named(word: &[u8]) -> Option<Benchmark>
    ensures some { IfSome result (λ b. benchmark_word b ≡ word.now) }
    ensures none { IfNone result ((b : Benchmark) → benchmark_word b ≢ word.now) }
{
    if word == b"fillbatch".as_slice() {
        return Some(Benchmark::FillBatch);
    }
    if word == b"fillrandom".as_slice() {
        return Some(Benchmark::FillRandom);
    }
    if word == b"overwrite".as_slice() {
        return Some(Benchmark::Overwrite);
    }
    if word == b"readrandom".as_slice() {
        return Some(Benchmark::ReadRandom);
    }
    if word == b"readwhilewriting".as_slice() {
        return Some(Benchmark::ReadWhileWriting);
    }
    if word == b"readseq".as_slice() {
        return Some(Benchmark::ReadSeq);
    }
    if word == b"compact".as_slice() {
        return Some(Benchmark::Compact);
    }
    None
}

/// The benchmarks whose names are the word, joined by commas. None where it has another name.
#[tactic(auto, using(crate::proofs::BenchmarkLaws::named_none, crate::proofs::BenchmarkLaws::named_more, crate::proofs::BenchmarkLaws::named_all, crate::proofs::BenchmarkLaws::bad_first, crate::proofs::BenchmarkLaws::bad_last))]
pub(crate) fn benchmarks_in(alloc: Global, word: &str) -> Result<Option<Vec<Benchmark>>, AllocError>
    ensures some { IfOk result (λ o. IfSome o (λ found. AreBenchmarks word.now found.items)) }
    ensures none { IfOk result (λ o.
        IfNone o ((found : List Benchmark) → AreBenchmarks word.now found → ⊥)) }
{
    let mut found = Vec::new(alloc);
    let mut rest = word.as_bytes();
    'names: while let Some((name, after)) = parts(b',', rest) {
        let Some(benchmark) = named(name) else {
            return Ok(None);
        };
        found.push(benchmark)?;
        rest = after;
    }
    let Some(last) = named(rest) else {
        return Ok(None);
    };
    found.push(last)?;
    Ok(Some(found))
}
