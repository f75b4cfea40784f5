//! The files of a shape, read level by level.

ghost use Rattle.std.specs.Prelude.{◌≡◌, IfErr, IfOk, OnOk, List, map};
ghost use Rattle.std.specs.List.Sorted.{IsSortedBy};
ghost use Rattle.lsm_shelf.specs.Asked.{Load};
ghost use Rattle.lsm_table.specs.HeldTable.{entries_in};
ghost use Rattle.lsm_table.specs.Told.{Becomes};
ghost use Rattle.lsm_version.specs.Changes.{placed_in};
ghost use Rattle.lsm_verify.specs.CheckFault.{CheckCounted};
ghost use Rattle.lsm_verify.specs.CheckedFiles.{IsFileOf, IsImageOf};
ghost use Rattle.lsm_verify.specs.FileRefusal.{IsFileRefusal, IsFilesRefusal};
ghost use Rattle.lsm_verify.specs.Loading.{AreRead, IsLevelRead, all_files};
ghost use Rattle.lsm_verify.specs.Settled.{AreSequences, AreSequencesOf};
ghost use Rattle.lsm_version.specs.Versions.{AreInOrder, stands_before};
ghost use Rattle.lsm_shelf.specs.Stored.{Stored};

use crate::check_fault::CheckFault;
use crate::checked_table::want;
use crate::judged_table::{JudgedTable, judge_table};
use crate::judged_tables::JudgedTables;
use crate::sequences::Sequences;
use lsm_codec::List;
use lsm_manifest::{FileMeta, Shape};
use lsm_table::{NamedShelf, Naming, Registry, Shelf, TableRef};
use lsm_version::index_in;
use std::alloc::{AllocError, Global};
use std::sync::Wait;

/// The table of a file: the one that was judged ahead, or it is read and judged.
fn judged_table<N: Naming, S: Shelf, R: Wait>(
    shelf: &mut NamedShelf<N, S>,
    rt: &R,
    alloc: Global,
    ahead: &mut JudgedTables<N, S>,
    file: &FileMeta,
    last: u64,
) -> Result<JudgedTable<N, S>, CheckFault>
    ensures number { IfOk result (λ t. t.number ≡ file.now.number) }
    ensures smallest { IfOk result (λ t. t.smallest ≡ file.now.smallest) }
    ensures largest { IfOk result (λ t. t.largest ≡ file.now.largest) }
    ensures image { IfOk result (λ t. IsImageOf last file.now t.image) }
    ensures refused { IfErr result (λ e. IsFileRefusal
        (λ image. (r : S.Receipt) × S.is_of N.place r × (S.Receipt.number r ≡ file.now.number)
        × (S.Receipt.image r ≡ image)) (S.refuses N.place (Load file.now.number)) last file.now e) }
    ensures told { Becomes shelf.old shelf.new }
    ensures cause { IfErr result (λ e. CheckCounted e shelf.old shelf.new) }
{
    match ahead.take(file, last) {
        Some(table) => Ok(table),
        None => judge_table(shelf, rt, alloc, file, last),
    }
}

/// Adds the record of a file's table. Of the image nothing stays but the receipt.
fn load_file<N: Naming, S: Shelf, R: Wait>(
    shelf: &mut NamedShelf<N, S>,
    rt: &R,
    alloc: Global,
    registry: &Registry<N, S>,
    ahead: &mut JudgedTables<N, S>,
    file: &FileMeta,
    last: u64,
) -> Result<(TableRef<N, S>, Sequences), CheckFault>
    ensures file { IfOk result (λ r. IsFileOf last file.now r.0) }
    ensures stored { IfOk result (λ t. (r : S.Receipt) × S.is_of N.place r
        × (S.Receipt.number r ≡ t.0.number) × (S.Receipt.image r ≡ t.0.image)) }
    ensures sequences { IfOk result (λ r. AreSequencesOf (entries_in r.0.image) r.1) }
    ensures refused { IfErr result (λ e. IsFileRefusal
        (λ image. (r : S.Receipt) × S.is_of N.place r × (S.Receipt.number r ≡ file.now.number)
        × (S.Receipt.image r ≡ image)) (S.refuses N.place (Load file.now.number)) last file.now e) }
    ensures told { Becomes shelf.old shelf.new }
    ensures cause { IfErr result (λ e. CheckCounted e shelf.old shelf.new) }
{
    let table = judged_table(shelf, rt, alloc, ahead, file, last)?;
    match table.record(rt, registry) {
        Ok(recorded) => Ok(recorded),
        Err(AllocError) => Err(want(file)),
    }
}

/// Puts a table where it stands in the order of a level, and its sequences at the same index.
fn insert_in_order<N: Naming, S: Shelf>(
    registry: &Registry<N, S>,
    tables: &mut Vec<TableRef<N, S>>,
    sequences: &mut Vec<Sequences>,
    table: TableRef<N, S>,
    own: Sequences,
) -> Result<(), AllocError>
    requires order { IsSortedBy stands_before tables.old.items }
    requires own { AreSequencesOf (entries_in table.image) own }
    requires beside { AreSequences tables.old.items sequences.old.items }
    ensures placed { OnOk result (tables.new.items ≡ placed_in table tables.old.items) }
    ensures order { OnOk result (IsSortedBy stands_before tables.new.items) }
    ensures beside { OnOk result (AreSequences tables.new.items sequences.new.items) }
{
    let index = index_in(registry, tables.as_slice(), &table);
    tables.insert(index, table)?;
    sequences.insert(index, own)?;
    Ok(())
}

/// Reads the files of a level, and puts their tables in order, one after another.
fn load_level<N: Naming, S: Shelf, R: Wait>(
    shelf: &mut NamedShelf<N, S>,
    rt: &R,
    alloc: Global,
    registry: &Registry<N, S>,
    ahead: &mut JudgedTables<N, S>,
    files: &[FileMeta],
    last: u64,
) -> Result<(Vec<TableRef<N, S>>, Vec<Sequences>), CheckFault>
    ensures read { IfOk result (λ v. IsLevelRead (Stored S.Receipt (S.is_of N.place)
        S.Receipt.number S.Receipt.image) last files.now v.0.items v.1.items) }
    ensures order { IfOk result (λ v. IsSortedBy stands_before v.0.items) }
    ensures refused { IfErr result (λ e.
        IsFilesRefusal (Stored S.Receipt (S.is_of N.place) S.Receipt.number S.Receipt.image)
        (λ number. S.refuses N.place (Load number)) last files.now e) }
    ensures told { Becomes shelf.old shelf.new }
    ensures cause { IfErr result (λ e. CheckCounted e shelf.old shelf.new) }
{
    let mut tables = Vec::new(alloc);
    let mut sequences = Vec::new(alloc);
    for file in files {
        let (table, own) = load_file(shelf, rt, alloc, registry, ahead, file, last)?;
        insert_in_order(registry, &mut tables, &mut sequences, table, own)?;
    }
    Ok((tables, sequences))
}

/// Reads the files of all levels of a shape: the tables of each level, and their sequences. What
/// was judged ahead is not read again.
pub(crate) fn load_levels<N: Naming, S: Shelf, R: Wait>(
    shelf: &mut NamedShelf<N, S>,
    rt: &R,
    alloc: Global,
    registry: &Registry<N, S>,
    ahead: &mut JudgedTables<N, S>,
    shape: &Shape,
) -> Result<(Vec<Vec<TableRef<N, S>>>, Vec<Vec<Sequences>>), CheckFault>
    ensures read { IfOk result (λ v.
        AreRead (Stored S.Receipt (S.is_of N.place) S.Receipt.number S.Receipt.image) shape.now.last
        shape.now.levels (map (λ l. l.items) v.0.items) (map (λ l. l.items) v.1.items)) }
    ensures order { IfOk result (λ v. AreInOrder (map (λ l. l.items) v.0.items)) }
    ensures refused { IfErr result (λ e.
        IsFilesRefusal (Stored S.Receipt (S.is_of N.place) S.Receipt.number S.Receipt.image)
        (λ number. S.refuses N.place (Load number)) shape.now.last (all_files shape.now.levels) e) }
    ensures told { Becomes shelf.old shelf.new }
    ensures cause { IfErr result (λ e. CheckCounted e shelf.old shelf.new) }
{
    let levels: &[List<FileMeta>] = &shape.levels;
    let mut tables = Vec::new(alloc);
    let mut sequences = Vec::new(alloc);
    for level in levels {
        let (here, own) = load_level(
            shelf,
            rt,
            alloc,
            registry,
            ahead,
            level.as_slice(),
            shape.last,
        )?;
        tables.push(here)?;
        sequences.push(own)?;
    }
    Ok((tables, sequences))
}
