//! The files of which ranges and sequences alone do not settle the age order.

ghost use Rattle.std.specs.List.Sorted.{IsNonDecreasing};
ghost use Rattle.std.specs.Prelude.{◌≡◌, ◌+◌, ◌++◌, ◌∷◌, ◌≤◌, ◌<◌, ◌↔◌, ◌⊎◌, [], ℕ, IfOk, OnOk};
ghost use Rattle.std.specs.Prelude.{IsTrue, false, get_or, length, map};
ghost use Rattle.lsm_codec.specs.Lists.{Has};
ghost use Rattle.lsm_model.specs.Files.{File};
ghost use Rattle.lsm_table.specs.HeldTable.{entries_in};
ghost use Rattle.lsm_table.specs.Registry.{Table};
ghost use Rattle.lsm_version.specs.Reads.{IsRising, reaches};
ghost use Rattle.lsm_verify.specs.Settled.{Adds, AreLevelSequences, AreSequences, AreSequencesOf};
ghost use Rattle.lsm_verify.specs.Settled.{AreUnsettled, Between, DeeperRise, EachBelow};
ghost use Rattle.lsm_verify.specs.Settled.{IsUnsettled, OneAgainst, OneBelow, OnePair, SomeBelow};
ghost use Rattle.lsm_version.specs.Versions.{file_of, files_from, level_in};

use crate::ages::is_among;
use crate::reaching::reaching_tables;
use crate::sequences::Sequences;
use lsm_table::{Naming, Registry, Shelf, TableRef};
use lsm_version::{begins_by, first_reaching, high_of, low_of};
use std::alloc::{AllocError, Global};

/// Whether a file of this level and number lies shallower than the other one.
fn is_shallower(level: usize, number: u64, deeper: usize, other: u64) -> bool
    ensures { IsTrue result ↔ ((level < deeper) ⊎ ((level ≡ 0) × (deeper ≡ 0) × (other < number))) }
{
    level < deeper || (level == 0 && deeper == 0 && other < number)
}

/// Whether a table lies shallower than another one, their ranges of user keys meet, and the
/// greatest sequence of the deeper one is not below the least of the shallower one.
fn is_unsettled<N: Naming, S: Shelf>(
    registry: &Registry<N, S>,
    level: usize,
    table: &TableRef<N, S>,
    own: Sequences,
    deeper: usize,
    other: &TableRef<N, S>,
    its: Sequences,
) -> bool
    requires own { AreSequencesOf (entries_in table.now.image) own }
    requires its { AreSequencesOf (entries_in other.now.image) its }
    ensures { IsTrue result ↔ IsUnsettled (file_of level table.now) (file_of deeper other.now) }
{
    let number = registry.record(table).number();
    let its_number = registry.record(other).number();
    let shallower = is_shallower(level, number, deeper, its_number);
    let begins = begins_by(registry, table, high_of(registry, other));
    let ends = begins_by(registry, other, high_of(registry, table));
    shallower && begins && ends && own.least <= its.greatest
}

/// Adds the numbers of two files.
fn push_both(numbers: &mut Vec<u64>, first: u64, second: u64) -> Result<(), AllocError>
    ensures { OnOk result (numbers.new.items ≡ (numbers.old.items ++ first ∷ []) ++ second ∷ []) }
{
    numbers.push(first)?;
    numbers.push(second)?;
    Ok(())
}

/// Adds the numbers of two files where the order of their ages is not settled.
fn compare<N: Naming, S: Shelf>(
    registry: &Registry<N, S>,
    level: usize,
    table: &TableRef<N, S>,
    own: Sequences,
    deeper: usize,
    other: &TableRef<N, S>,
    its: Sequences,
    numbers: &mut Vec<u64>,
) -> Result<(), AllocError>
    requires own { AreSequencesOf (entries_in table.now.image) own }
    requires its { AreSequencesOf (entries_in other.now.image) its }
    ensures { OnOk result (Adds (OnePair (file_of level table.now) (file_of deeper other.now))
        numbers.old.items numbers.new.items) }
{
    if is_unsettled(registry, level, table, own, deeper, other, its) {
        let number = registry.record(table).number();
        let its_number = registry.record(other).number();
        push_both(numbers, number, its_number)?;
    }
    Ok(())
}

/// Where the search for tables of a level begins that reach a user key: the level's tables rise
/// from level 1 on.
fn first_of<N: Naming, S: Shelf>(
    registry: &Registry<N, S>,
    level: usize,
    tables: &[TableRef<N, S>],
    user: &[u8],
) -> usize
    requires rising { 1 ≤ level → IsRising tables.now }
    ensures inside { result ≤ length tables.now }
    ensures before { (i : ℕ) (d : Table) → i < result
        → reaches (get_or tables.now i d) user.now ≡ false }
{
    if level == 0 {
        0
    } else {
        first_reaching(registry, tables, user)
    }
}

/// Compares a table with those of one level that its range meets.
fn compare_with_level<N: Naming, S: Shelf>(
    registry: &Registry<N, S>,
    level: usize,
    table: &TableRef<N, S>,
    own: Sequences,
    deeper: usize,
    tables: &[TableRef<N, S>],
    sequences: &[Sequences],
    numbers: &mut Vec<u64>,
) -> Result<(), AllocError>
    requires own { AreSequencesOf (entries_in table.now.image) own }
    requires beside { AreSequences tables.now sequences.now }
    requires rising { 1 ≤ deeper → IsRising tables.now }
    ensures { OnOk result (Adds (OneAgainst (file_of level table.now) deeper tables.now)
        numbers.old.items numbers.new.items) }
{
    let first = first_of(registry, deeper, tables, low_of(registry, table));
    let end = high_of(registry, table);
    for index in first..tables.len() {
        let other = &tables[index];
        if deeper > 0 && !begins_by(registry, other, end) {
            return Ok(());
        }
        compare(
            registry,
            level,
            table,
            own,
            deeper,
            other,
            sequences[index],
            numbers,
        )?;
    }
    Ok(())
}

/// The first level with whose tables a table is compared: its own where its number is among these,
/// else the next one.
fn first_level<N: Naming, S: Shelf>(
    registry: &Registry<N, S>,
    level: usize,
    table: &TableRef<N, S>,
    reaching: &[u64],
) -> usize
    requires ascending { IsNonDecreasing reaching.now }
    ensures near { (level ≤ result) × (result ≤ level + 1) }
    ensures own { Has reaching.now table.now.number → result ≡ level }
{
    if is_among(reaching, registry.record(table).number()) {
        level
    } else {
        level.saturating_add(1)
    }
}

/// Compares a table with those of the levels from this first one on: with what lies before it, the
/// table is settled.
fn compare_below<N: Naming, S: Shelf>(
    registry: &Registry<N, S>,
    level: usize,
    table: &TableRef<N, S>,
    own: Sequences,
    first: usize,
    levels: &[Vec<TableRef<N, S>>],
    sequences: &[Vec<Sequences>],
    numbers: &mut Vec<u64>,
) -> Result<(), AllocError>
    requires own { AreSequencesOf (entries_in table.now.image) own }
    requires beside { AreLevelSequences (map (λ l. l.items) levels.now)
        (map (λ l. l.items) sequences.now) }
    requires rising { DeeperRise (map (λ l. l.items) levels.now) }
    requires first { (level ≤ first) × (first ≤ length levels.now) }
    requires settled { (G : File) → Between level first (map (λ l. l.items) levels.now) G
        → IsUnsettled (file_of level table.now) G → ⊥ }
    ensures { OnOk result (Adds (OneBelow (file_of level table.now) level (length levels.now)
        (map (λ l. l.items) levels.now)) numbers.old.items numbers.new.items) }
{
    for deeper in first..levels.len() {
        let tables = levels[deeper].as_slice();
        let its = sequences[deeper].as_slice();
        compare_with_level(registry, level, table, own, deeper, tables, its, numbers)?;
    }
    Ok(())
}

/// Compares each table of a level with those of the deeper ones, and with those of its own level
/// where that may leave it unsettled.
fn compare_level<N: Naming, S: Shelf>(
    alloc: Global,
    registry: &Registry<N, S>,
    level: usize,
    levels: &[Vec<TableRef<N, S>>],
    sequences: &[Vec<Sequences>],
    numbers: &mut Vec<u64>,
) -> Result<(), AllocError>
    requires beside { AreLevelSequences (map (λ l. l.items) levels.now)
        (map (λ l. l.items) sequences.now) }
    requires rising { DeeperRise (map (λ l. l.items) levels.now) }
    requires inside { level < length levels.now }
    ensures { OnOk result (Adds (SomeBelow level (level_in (map (λ l. l.items) levels.now) level)
        (map (λ l. l.items) levels.now)) numbers.old.items numbers.new.items) }
{
    let tables = levels[level].as_slice();
    let own = sequences[level].as_slice();
    let reaching = reaching_tables(alloc, registry, level, tables, own)?;
    for index in 0..tables.len() {
        let table = &tables[index];
        let first = first_level(registry, level, table, reaching.as_slice());
        compare_below(
            registry, level, table, own[index], first, levels, sequences, numbers,
        )?;
    }
    Ok(())
}

/// The numbers of the files of which ranges and sequences alone do not settle the age order, a
/// number once for each such other file, ascending.
pub(crate) fn unsettled_files<N: Naming, S: Shelf>(
    alloc: Global,
    registry: &Registry<N, S>,
    levels: &[Vec<TableRef<N, S>>],
    sequences: &[Vec<Sequences>],
) -> Result<Vec<u64>, AllocError>
    requires beside { AreLevelSequences (map (λ l. l.items) levels.now)
        (map (λ l. l.items) sequences.now) }
    requires rising { DeeperRise (map (λ l. l.items) levels.now) }
    ensures unsettled { IfOk result (λ v.
        AreUnsettled (files_from 0 (map (λ l. l.items) levels.now)) v.items) }
    ensures ascending { IfOk result (λ v. IsNonDecreasing v.items) }
{
    let mut numbers = Vec::new(alloc);
    for level in 0..levels.len() {
        compare_level(alloc, registry, level, levels, sequences, &mut numbers)?;
    }
    numbers.sort()?;
    Ok(numbers)
}
