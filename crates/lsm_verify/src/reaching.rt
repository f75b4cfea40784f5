//! The tables of level 0 that reach an older one: their least sequence is at most its greatest.

ghost use Rattle.std.specs.List.Sorted.{IsNonDecreasing, IsNonDecreasingBy};
ghost use Rattle.std.specs.Prelude.{◌≡◌, IfOk, ℕ};
ghost use Rattle.lsm_table.specs.HeldTable.{entries_in};
ghost use Rattle.lsm_verify.specs.Settled.{AreAged, AreSequences, AreSequencesOf, IsAged};
ghost use Rattle.lsm_verify.specs.Settled.{NamesReaching, NamesUnsettled};
ghost use Rattle.lsm_version.specs.Versions.{file_of, files_of};

use crate::aged::Aged;
use crate::sequences::Sequences;
use lsm_table::{Naming, Registry, Shelf, TableRef};
use std::alloc::{AllocError, Global};

/// The number and the sequences of a table.
fn age_of<N: Naming, S: Shelf>(
    registry: &Registry<N, S>,
    table: &TableRef<N, S>,
    sequences: Sequences,
) -> Aged
    requires own { AreSequencesOf (entries_in table.now.image) sequences }
    ensures { (level : ℕ) → IsAged (file_of level table.now) result }
{
    Aged {
        number: registry.record(table).number(),
        sequences,
    }
}

/// Those of each table.
fn aged_tables<N: Naming, S: Shelf>(
    alloc: Global,
    registry: &Registry<N, S>,
    tables: &[TableRef<N, S>],
    sequences: &[Sequences],
) -> Result<Vec<Aged>, AllocError>
    requires beside { AreSequences tables.now sequences.now }
    ensures { IfOk result (λ v. (level : ℕ) → AreAged (files_of level tables.now) v.items) }
{
    let mut aged = Vec::with_capacity(alloc, tables.len())?;
    for index in 0..tables.len() {
        let age = age_of(registry, &tables[index], sequences[index]);
        aged.push(age)?;
    }
    Ok(aged)
}

/// The same by number.
fn by_number<N: Naming, S: Shelf>(
    alloc: Global,
    registry: &Registry<N, S>,
    tables: &[TableRef<N, S>],
    sequences: &[Sequences],
) -> Result<Vec<Aged>, AllocError>
    requires beside { AreSequences tables.now sequences.now }
    ensures ordered { IfOk result (λ v. IsNonDecreasingBy (λ a. a.number) v.items) }
    ensures aged { IfOk result (λ v. (level : ℕ) → AreAged (files_of level tables.now) v.items) }
{
    let mut aged = aged_tables(alloc, registry, tables, sequences)?;
    aged.sort_unstable_by_key(|table| table.number);
    Ok(aged)
}

/// The numbers, ascending, of those that reach one of a lesser number. One walk tells: of what came
/// before only the greatest sequence matters.
fn reaching(alloc: Global, aged: &[Aged]) -> Result<Vec<u64>, AllocError>
    requires { IsNonDecreasingBy (λ (a : Aged). a.number) aged.now }
    ensures ascending { IfOk result (λ v. IsNonDecreasing v.items) }
    ensures named { IfOk result (λ v. NamesReaching aged.now v.items) }
{
    let mut numbers = Vec::new(alloc);
    let mut greatest = 0;
    for table in aged {
        if table.sequences.least <= greatest {
            numbers.push(table.number)?;
        }
        greatest = greatest.max(table.sequences.greatest);
    }
    Ok(numbers)
}

/// The numbers, ascending, of the tables of a level that may lie shallower than another one of it
/// without being settled with that: of level 0 those that reach an older one, of the others none.
pub(crate) fn reaching_tables<N: Naming, S: Shelf>(
    alloc: Global,
    registry: &Registry<N, S>,
    level: usize,
    tables: &[TableRef<N, S>],
    sequences: &[Sequences],
) -> Result<Vec<u64>, AllocError>
    requires beside { AreSequences tables.now sequences.now }
    ensures ascending { IfOk result (λ v. IsNonDecreasing v.items) }
    ensures named { IfOk result (λ v. NamesUnsettled level tables.now v.items) }
{
    if level > 0 {
        return Ok(Vec::new(alloc));
    }
    let aged = by_number(alloc, registry, tables, sequences)?;
    let numbers = reaching(alloc, aged.as_slice())?;
    Ok(numbers)
}
