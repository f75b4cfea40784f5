//! Which logs of a folder LevelDB reads.

ghost use Rattle.std.specs.Prelude.{◌≡◌, ◌↔◌, ℕ, IfOk, MatchOption, OnOk};
ghost use Rattle.std.specs.Prelude.{string_bytes};
ghost use Rattle.std.specs.List.Sorted.{IsStrictlyIncreasing};
ghost use Rattle.lsm_codec.specs.Lists.{Has};
ghost use Rattle.lsm_storage.specs.FileNames.{padded};
ghost use Rattle.lsm_log_files.specs.Logs.{AddsNumber, AreLogs, AreNumbers, IsLogOf, log_name};

use lsm_directory::{FolderFile, first_unread};
use std::alloc::{AllocError, Global};
use std::slice;

/// The number of a file that is a log, is not empty, and that LevelDB reads when it opens the
/// folder.
fn number_read(file: &FolderFile, log: u64, prev_log: u64) -> Option<u64>
    ensures { MatchOption result
        ((n : ℕ) → IsLogOf log prev_log file.now n → ⊥)
        (λ m. IsLogOf log prev_log file.now m
        × ((n : ℕ) → IsLogOf log prev_log file.now n → n ≡ m)) }
{
    first_unread(slice::from_ref(file), log, prev_log)
}

/// Adds the number of a file if it is such a log.
fn add_number(
    numbers: &mut Vec<u64>,
    file: &FolderFile,
    log: u64,
    prev_log: u64,
) -> Result<(), AllocError>
    ensures { OnOk result
        (AddsNumber log prev_log file.now numbers.old.items numbers.new.items) }
{
    match number_read(file, log, prev_log) {
        Some(number) => {
            numbers.push(number)?;
            Ok(())
        }
        None => Ok(()),
    }
}

/// The numbers of the logs among these files that LevelDB reads, in the order of the files.
fn numbers_read(
    alloc: Global,
    files: &[FolderFile],
    log: u64,
    prev_log: u64,
) -> Result<Vec<u64>, AllocError>
    ensures { IfOk result (λ v. AreNumbers log prev_log files.now v.items) }
{
    let mut numbers: Vec<u64> = Vec::new(alloc);
    for file in files {
        add_number(&mut numbers, file, log, prev_log)?;
    }
    Ok(numbers)
}

/// The numbers, each once, ascending.
fn ascending(mut numbers: Vec<u64>) -> Result<Vec<u64>, AllocError>
    ensures ascending { IfOk result (λ v. IsStrictlyIncreasing v.items) }
    ensures all { IfOk result (λ v. (n : ℕ) → Has v.items n ↔ Has numbers.items n) }
{
    numbers.sort()?;
    numbers.dedup();
    Ok(numbers)
}

/// The numbers of the logs among these files that LevelDB reads, ascending, each once. The last two
/// numbers are those of the manifest (tags 2 and 9 of LevelDB's `db/version_edit.cc`).
pub(crate) fn logs_read(
    alloc: Global,
    files: &[FolderFile],
    log: u64,
    prev_log: u64,
) -> Result<Vec<u64>, AllocError>
    ensures { IfOk result (λ v. AreLogs log prev_log files.now v.items) }
{
    let numbers = numbers_read(alloc, files, log, prev_log)?;
    match ascending(numbers) {
        Ok(numbers) => Ok(numbers),
        Err(fault) => Err(fault),
    }
}

/// The number in decimal, with zeros in front to at least six digits.
fn digits_of(alloc: Global, number: u64) -> Result<String, AllocError>
    ensures { IfOk result (λ s. string_bytes s ≡ padded number) }
{
    format!(in alloc; "{number:06}")
}

/// The name of the log of a number: `N.log`.
pub(crate) fn log_file(alloc: Global, number: u64) -> Result<String, AllocError>
    ensures { IfOk result (λ s. string_bytes s ≡ log_name number) }
{
    let digits = digits_of(alloc, number)?;
    format!(in alloc; "{digits}.log")
}
