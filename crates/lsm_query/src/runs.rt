//! The sources of a merge of all levels.

ghost use Rattle.std.specs.Prelude.{◌≡◌, ◌<◌, length, map, IfOk, IfErr, OnOk};
ghost use Rattle.std.specs.List.{flat_map};
ghost use Rattle.lsm_codec.specs.Lists.{Has};
ghost use Rattle.lsm_table.specs.ReadFault.{IsMemoryOrShelf, ReadCounted};
ghost use Rattle.lsm_table.specs.Told.{Becomes};
ghost use Rattle.lsm_reader.specs.Refusals.{IsReadRefusal};
ghost use Rattle.lsm_query.specs.Unread.{IsOfFile, NamesOne};
ghost use Rattle.lsm_query.specs.Runs.{AddsNamed, AddsRun, AreInRow, AreMergeable, AreNamed};
ghost use Rattle.lsm_query.specs.Runs.{AreRunsFrom, AreRunsOf, IsNumberIn, IsNumberOf};
ghost use Rattle.lsm_version.specs.Versions.{AreWhole, files_from, files_of, level_in};

use crate::depths::{ascending_numbers, newer_count};
use crate::unread::Unread;
use lsm_iterators::{Row, Run, SharedLevels};
use lsm_reader::Blocks;
use lsm_table::{Naming, Shelf};
use lsm_version::first_reaching;
use std::alloc::Global;

/// Opens tables that lie in a row as one source, at its depth, and adds it: from the first on that
/// reaches a user key, at the first entry at or past that key. Nothing where none reaches it.
fn open_row<N: Naming, S: Shelf, B: Blocks<N, S>>(
    blocks: &mut B,
    alloc: Global,
    depth: u64,
    row: Row<N, S>,
    from: &[u8],
    runs: &mut Vec<Run<N, S>>,
) -> Result<(), Unread>
    requires row { S.honest → AreInRow row }
    ensures files { OnOk result (AddsNamed (IsNumberOf row)
        (flat_map (λ r. r.files) runs.old.items) (flat_map (λ r. r.files) runs.new.items)) }
    ensures number { IfErr result (λ e. NamesOne (IsNumberOf row) e.file e.fault) }
    ensures run { S.honest → OnOk result (AddsRun from.now depth row
        (map (λ r. r.placed) runs.old.items) (map (λ r. r.placed) runs.new.items)) }
    ensures sound { S.honest → IfErr result (λ e. IsMemoryOrShelf e.fault) }
    ensures told { Becomes (B.told blocks.old) (B.told blocks.new) }
    ensures loan { B.loan blocks.new ≡ B.loan blocks.old }
    ensures cause { IfErr result (λ e.
        ReadCounted e.fault (B.told blocks.old) (B.told blocks.new)) }
    ensures refused { IfErr result (λ e.
        IsOfFile (IsReadRefusal (S.refuses N.place)) e.file e.fault) }
{
    let mut row = row;
    let first = first_reaching(row.registry(), row.tables(), from);
    row.skip(first);
    if row.tables().is_empty() {
        return Ok(());
    }
    let run = Run::over_from(blocks, alloc, depth, row, from)?;
    runs.push(run)?;
    Ok(())
}

/// Opens each table of level 0 that reaches a user key as a source of its own, at its depth: the
/// greatest number first.
fn open_shallow<N: Naming, S: Shelf, B: Blocks<N, S>>(
    blocks: &mut B,
    alloc: Global,
    levels: &SharedLevels<N, S>,
    from: &[u8],
) -> Result<Vec<Run<N, S>>, Unread>
    requires some { 0 < length levels.now }
    requires whole { S.honest → AreWhole (level_in levels.now 0) }
    ensures runs { S.honest → IfOk result (λ v. AreRunsFrom from.now (level_in levels.now 0)
        (Has (files_of 0 (level_in levels.now 0))) (map (λ r. r.placed) v.items)) }
    ensures files { IfOk result (λ v.
        AreNamed (IsNumberOf (level_in levels.now 0)) (flat_map (λ r. r.files) v.items)) }
    ensures number { IfErr result (λ e.
        NamesOne (IsNumberOf (level_in levels.now 0)) e.file e.fault) }
    ensures sound { S.honest → IfErr result (λ e. IsMemoryOrShelf e.fault) }
    ensures told { Becomes (B.told blocks.old) (B.told blocks.new) }
    ensures loan { B.loan blocks.new ≡ B.loan blocks.old }
    ensures cause { IfErr result (λ e.
        ReadCounted e.fault (B.told blocks.old) (B.told blocks.new)) }
    ensures refused { IfErr result (λ e.
        IsOfFile (IsReadRefusal (S.refuses N.place)) e.file e.fault) }
{
    let level = levels.level(0);
    let numbers = ascending_numbers(alloc, levels.registry(), level)?;
    let mut runs = Vec::new(alloc);
    for (index, table) in level.iter().enumerate() {
        let number = levels.registry().record(table).number();
        let depth = newer_count(numbers.as_slice(), number);
        let row = Row::of(levels, 0, index, index + 1)?;
        open_row(blocks, alloc, depth, row, from, &mut runs)?;
    }
    Ok(runs)
}

/// Opens what tables of seven levels have at or past a user key as the sources of a merge, each at
/// its depth: of level 0 each table by itself, and of a deeper level the tables one after another.
/// Of each source the first table is opened.
pub(crate) fn open_runs_from<N: Naming, S: Shelf, B: Blocks<N, S>>(
    blocks: &mut B,
    alloc: Global,
    levels: &SharedLevels<N, S>,
    from: &[u8],
) -> Result<Vec<Run<N, S>>, Unread>
    requires seven { length levels.now ≡ 7 }
    requires mergeable { S.honest → AreMergeable levels.now }
    ensures runs { S.honest → IfOk result (λ v. AreRunsFrom from.now (level_in levels.now 0)
        (Has (files_from 0 levels.now)) (map (λ r. r.placed) v.items)) }
    ensures files { IfOk result (λ v.
        AreNamed (IsNumberIn levels.now) (flat_map (λ r. r.files) v.items)) }
    ensures number { IfErr result (λ e. NamesOne (IsNumberIn levels.now) e.file e.fault) }
    ensures sound { S.honest → IfErr result (λ e. IsMemoryOrShelf e.fault) }
    ensures told { Becomes (B.told blocks.old) (B.told blocks.new) }
    ensures loan { B.loan blocks.new ≡ B.loan blocks.old }
    ensures cause { IfErr result (λ e.
        ReadCounted e.fault (B.told blocks.old) (B.told blocks.new)) }
    ensures refused { IfErr result (λ e.
        IsOfFile (IsReadRefusal (S.refuses N.place)) e.file e.fault) }
{
    let mut runs = open_shallow(blocks, alloc, levels, from)?;
    let shallow = levels.level(0).len();
    for number in 1..levels.count() {
        let depth = shallow as u64 + number as u64;
        let row = Row::of(levels, number, 0, levels.level(number).len())?;
        open_row(blocks, alloc, depth, row, from, &mut runs)?;
    }
    Ok(runs)
}

/// Opens the tables of seven levels as the sources of a merge, each at its depth: of level 0 each
/// table by itself, and of a deeper level the tables one after another. Of each source the first
/// table is opened.
pub fn open_runs<N: Naming, S: Shelf, B: Blocks<N, S>>(
    blocks: &mut B,
    alloc: Global,
    levels: &SharedLevels<N, S>,
) -> Result<Vec<Run<N, S>>, Unread>
    requires seven { length levels.now ≡ 7 }
    requires mergeable { S.honest → AreMergeable levels.now }
    ensures runs { S.honest → IfOk result (λ v. AreRunsOf (level_in levels.now 0)
        (Has (files_from 0 levels.now)) (map (λ r. r.placed) v.items)) }
    ensures files { IfOk result (λ v.
        AreNamed (IsNumberIn levels.now) (flat_map (λ r. r.files) v.items)) }
    ensures number { IfErr result (λ e. NamesOne (IsNumberIn levels.now) e.file e.fault) }
    ensures sound { S.honest → IfErr result (λ e. IsMemoryOrShelf e.fault) }
    ensures told { Becomes (B.told blocks.old) (B.told blocks.new) }
    ensures loan { B.loan blocks.new ≡ B.loan blocks.old }
    ensures cause { IfErr result (λ e.
        ReadCounted e.fault (B.told blocks.old) (B.told blocks.new)) }
    ensures refused { IfErr result (λ e.
        IsOfFile (IsReadRefusal (S.refuses N.place)) e.file e.fault) }
{
    open_runs_from(blocks, alloc, levels, &[])
}
