//! What is printed.

use lsm_requests::{BenchOptions, Benchmark};
use std::io::{self, Write};

/// What a benchmark came to: how many operations, how many bytes of keys and values, and how many
/// pairs were found of those that were asked for, where it reads by key.
#[derive(Clone, Copy)]
pub(crate) struct Measured {
    pub(crate) operations: u64,
    pub(crate) bytes: u64,
    pub(crate) found: Option<u64>,
}

/// A quotient, or 0 where there is none.
fn quotient(count: u128, of: u128) -> u128 {
    count.checked_div(of).unwrap_or(0)
}

/// Writes how many MiB a second that is, if there are bytes.
fn write_rate<O: Write>(out: &mut O, bytes: u64, nanos: u128) -> io::Result<()> {
    if bytes == 0 {
        return Ok(());
    }
    // 953,674 is the tenths of a MiB a second that a byte a nanosecond is, in hundredths
    let rate = quotient(u128::from(bytes) * 953_674, nanos.saturating_mul(100));
    let (whole, tenth) = (rate / 10, rate % 10);
    write!(out, " {whole:>4}.{tenth} MB/s")
}

/// Writes the line of a benchmark, as `db_bench` does: its name, the microseconds of an operation,
/// the MiB a second, and how many keys were found. It is flushed.
pub(crate) fn write_line<O: Write>(
    out: &mut O,
    benchmark: Benchmark,
    measured: Measured,
    nanos: u128,
) -> io::Result<()> {
    let Measured {
        operations,
        bytes,
        found,
    } = measured;
    let each = quotient(nanos, u128::from(operations));
    let (whole, part) = (each / 1000, each % 1000);
    let name = benchmark.word();
    write!(out, "{name:<12} : {whole:>7}.{part:03} micros/op;")?;
    write_rate(out, bytes, nanos)?;
    match found {
        Some(found) => writeln!(out, " ({found} of {operations} found)")?,
        None => out.write_all(b"\n")?,
    }
    out.flush()
}

/// The MiB of so many keys and values, and its tenths.
fn raw_size(options: &BenchOptions) -> (u64, u64) {
    let pair = options.value_size.saturating_add(16);
    let tenths = pair.saturating_mul(options.num) / 104_858;
    (tenths / 10, tenths % 10)
}

/// Writes what is measured.
pub(crate) fn write_head<O: Write>(out: &mut O, options: &BenchOptions) -> io::Result<()> {
    let (whole, tenth) = raw_size(options);
    let (num, size, workers) = (options.num, options.value_size, options.workers);
    write!(
        out,
        "Keys:       16 bytes each\nValues:     {size} bytes each, not compressed\nEntries:    {num}\nRawSize:    {whole}.{tenth} MB (estimated)\nWorkers:    {workers}\n------------------------------------------------\n"
    )?;
    out.flush()
}
