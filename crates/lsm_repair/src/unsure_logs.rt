//! The logs that may have come in before.

ghost use Rattle.std.specs.Prelude.{◌≡◌, ◌≢◌, ◌↔◌, ℕ, IfOk, MatchBool, MatchOption, OnOk};
ghost use Rattle.std.specs.Prelude.{map, string_bytes};
ghost use Rattle.std.specs.List.Sorted.{IsStrictlyIncreasing};
ghost use Rattle.lsm_codec.specs.Lists.{Has};
ghost use Rattle.lsm_directory.specs.Logs.{IsLogName, IsReached};
ghost use Rattle.lsm_opening.specs.Names.{Among};
ghost use Rattle.lsm_repair.specs.UnsureLogs.{AddsNumber, AreNumbers, AreUnsure, IsLater};
ghost use Rattle.lsm_repair.specs.UnsureLogs.{IsLogToRead, IsSure};

use crate::free_number::kind_of;
use crate::old_logs::OldLogs;
use lsm_directory::FileKind;
use std::alloc::{AllocError, Global};

/// The number of the log of this name.
fn log_in(name: &str) -> Option<u64>
    ensures { MatchOption result ((n : ℕ) → IsLogName name.now n → ⊥)
        (λ m. IsLogName name.now m × ((n : ℕ) → IsLogName name.now n → n ≡ m)) }
{
    match kind_of(name) {
        FileKind::Log(number) => Some(number),
        _ => None,
    }
}

/// Whether LevelDB reads the log of this number.
fn is_reached(number: u64, logs: OldLogs) -> bool
    ensures { MatchBool result (IsReached logs.log logs.prev_log number)
        (IsReached logs.log logs.prev_log number → ⊥) }
{
    logs.log <= number || number == logs.prev_log
}

/// The number of the log of this name, where LevelDB reads it.
fn number_to_read(name: &str, logs: OldLogs) -> Option<u64>
    ensures { MatchOption result ((n : ℕ) → IsLogToRead logs n name.now → ⊥)
        (λ m. IsLogToRead logs m name.now × ((n : ℕ) → IsLogToRead logs n name.now → n ≡ m)) }
{
    match log_in(name) {
        Some(number) => {
            if is_reached(number, logs) {
                return Some(number);
            }
            None
        }
        None => None,
    }
}

/// Adds the number of the log of this name, where LevelDB reads it.
fn add_number(numbers: &mut Vec<u64>, name: &str, logs: OldLogs) -> Result<(), AllocError>
    ensures { OnOk result (AddsNumber logs name.now numbers.old.items numbers.new.items) }
{
    match number_to_read(name, logs) {
        Some(number) => {
            numbers.push(number)?;
            Ok(())
        }
        None => Ok(()),
    }
}

/// The numbers of the logs among these names that LevelDB reads, in the order of the names.
fn numbers_to_read(alloc: Global, names: &[String], logs: OldLogs) -> Result<Vec<u64>, AllocError>
    ensures { IfOk result (λ v. AreNumbers logs (map string_bytes names.now) v.items) }
{
    let mut numbers: Vec<u64> = Vec::new(alloc);
    for name in names {
        add_number(&mut numbers, name.as_str(), logs)?;
    }
    Ok(numbers)
}

/// The numbers, each once, ascending.
fn ascending(mut numbers: Vec<u64>) -> Result<Vec<u64>, AllocError>
    ensures ascending { IfOk result (λ v. IsStrictlyIncreasing v.items) }
    ensures all { IfOk result (λ v. (n : ℕ) → Has v.items n ↔ Has numbers.items n) }
{
    numbers.sort()?;
    numbers.dedup();
    Ok(numbers)
}

/// Whether the name is of a manifest of a higher number.
fn is_later(name: &str, number: u64) -> bool
    ensures { MatchBool result (IsLater number name.now) (IsLater number name.now → ⊥) }
{
    match kind_of(name) {
        FileKind::Manifest(other) => {
            if number < other {
                return true;
            }
            false
        }
        _ => false,
    }
}

/// Whether one of these names is.
fn has_later(names: &[String], number: u64) -> bool
    ensures { MatchBool result (Among (map string_bytes names.now) (IsLater number))
        (Among (map string_bytes names.now) (IsLater number) → ⊥) }
{
    for name in names {
        if is_later(name.as_str(), number) {
            return true;
        }
    }
    false
}

/// Whether the manifest that was read is whole, and none of a higher number is among the names.
fn is_sure(names: &[String], logs: OldLogs) -> bool
    ensures { MatchBool result (IsSure logs (map string_bytes names.now))
        (IsSure logs (map string_bytes names.now) → ⊥) }
{
    if has_later(names, logs.manifest) {
        return false;
    }
    logs.is_whole
}

/// The numbers of the logs among these names that may have come in before, and that the new
/// manifest has one read, ascending: none where a whole manifest said which are to be read, beside
/// which there is no later one.
pub(crate) fn unsure_logs(
    alloc: Global,
    names: &[String],
    logs: OldLogs,
) -> Result<Vec<u64>, AllocError>
    ensures { IfOk result (λ v. AreUnsure logs (map string_bytes names.now) v.items) }
{
    if is_sure(names, logs) {
        return Ok(Vec::new(alloc));
    }
    let numbers = numbers_to_read(alloc, names, logs)?;
    match ascending(numbers) {
        Ok(numbers) => Ok(numbers),
        Err(fault) => Err(fault),
    }
}
