//! The tables of a shape, found on the shelf and not read.

ghost use Rattle.std.specs.Prelude.{◌≡◌, IfErr, IfOk, OnOk, Some, length, map};
ghost use Rattle.std.specs.List.Sorted.{IsSortedBy};
ghost use Rattle.lsm_shelf.specs.Asked.{Load};
ghost use Rattle.lsm_table.specs.Told.{Becomes};
ghost use Rattle.lsm_table.specs.ReadFault.{out_of_memory};
ghost use Rattle.lsm_verify.specs.CheckFault.{CheckCounted};
ghost use Rattle.lsm_verify.specs.declared.check_fault.CheckFault.TheVariants.{Read};
ghost use Rattle.lsm_version.specs.Changes.{placed_in};
ghost use Rattle.lsm_version.specs.Versions.{AreInOrder, stands_before};
ghost use Rattle.lsm_admission.specs.AdmitRefusal.{IsFileRefusal, IsFilesRefusal};
ghost use Rattle.lsm_admission.specs.FoundTables.{AreFound, IsBounds, IsFoundFor, IsLevelFound};
ghost use Rattle.lsm_verify.specs.Loading.{all_files};

use crate::layouts::are_bounds;
use lsm_codec::List;
use lsm_finding::Finding;
use lsm_manifest::FileMeta;
use lsm_table::{
    NamedShelf, Naming, ReadFault, Registry, TableFault, TableReceipt, TableRecord, TableRef,
};
use lsm_verify::CheckFault;
use lsm_version::{copy_of, index_in};
use std::alloc::{AllocError, Global};
use std::sync::Wait;

/// Memory ran out over the table of this file.
fn want(file: &FileMeta) -> CheckFault
    ensures { result ≡ Read (Some file.now.number) out_of_memory }
{
    CheckFault::Read(Some(file.number), ReadFault::Table(TableFault::OutOfMemory))
}

/// Finds the table of a file, whose keys are bounds, and measures it. No byte of it is read.
fn find_file<N: Naming, S: Finding, R: Wait>(
    shelf: &mut NamedShelf<N, S>,
    rt: &R,
    alloc: Global,
    file: &FileMeta,
) -> Result<S::Receipt, CheckFault>
    ensures bounds { OnOk result (IsBounds file.now.smallest file.now.largest) }
    ensures receipt { IfOk result (λ r. (S.Receipt.number r ≡ file.now.number)
        × S.is_of N.place r × (length (S.Receipt.image r) ≡ file.now.size)) }
    ensures kept { IfOk result (λ r. S.keeps N.place file.now.number (S.Receipt.image r)) }
    ensures refused { IfErr result (λ e. IsFileRefusal
        (S.keeps N.place file.now.number) (S.refuses N.place (Load file.now.number)) file.now e) }
    ensures told { Becomes shelf.old shelf.new }
    ensures cause { IfErr result (λ e. CheckCounted e shelf.old shelf.new) }
{
    if !are_bounds(file.smallest.as_slice(), file.largest.as_slice()) {
        return Err(CheckFault::WrongRange(file.number));
    }
    let receipt = match shelf.shelf.find(rt, alloc, file.number) {
        Ok(receipt) => receipt,
        Err(fault) => {
            return Err(CheckFault::Read(Some(file.number), ReadFault::Shelf(fault)));
        }
    };
    if receipt.size() == file.size {
        Ok(receipt)
    } else {
        Err(CheckFault::WrongRange(file.number))
    }
}

/// The record of a table that was found for a file: the keys are the file's.
fn record_of<N: Naming, S: Finding, R: Wait>(
    rt: &R,
    alloc: Global,
    registry: &Registry<N, S>,
    file: &FileMeta,
    receipt: S::Receipt,
) -> Result<TableRef<N, S>, AllocError>
    requires here { S.is_of N.place receipt }
    ensures number { IfOk result (λ t. t.number ≡ S.Receipt.number receipt) }
    ensures smallest { IfOk result (λ t. t.smallest ≡ file.now.smallest) }
    ensures largest { IfOk result (λ t. t.largest ≡ file.now.largest) }
    ensures image { IfOk result (λ t. t.image ≡ S.Receipt.image receipt) }
{
    let row = TableRecord {
        smallest: copy_of(alloc, file.smallest.as_slice())?,
        largest: copy_of(alloc, file.largest.as_slice())?,
        receipt,
    };
    match registry.push(rt, row) {
        Ok(table) => Ok(table),
        Err(_row) => Err(AllocError),
    }
}

/// Finds the table of a file, and adds its record.
fn admit_file<N: Naming, S: Finding, R: Wait>(
    shelf: &mut NamedShelf<N, S>,
    rt: &R,
    alloc: Global,
    registry: &Registry<N, S>,
    file: &FileMeta,
) -> Result<TableRef<N, S>, CheckFault>
    ensures found { IfOk result (IsFoundFor (S.keeps N.place) file.now) }
    ensures refused { IfErr result (λ e. IsFileRefusal
        (S.keeps N.place file.now.number) (S.refuses N.place (Load file.now.number)) file.now e) }
    ensures told { Becomes shelf.old shelf.new }
    ensures cause { IfErr result (λ e. CheckCounted e shelf.old shelf.new) }
{
    let receipt = find_file(shelf, rt, alloc, file)?;
    match record_of(rt, alloc, registry, file, receipt) {
        Ok(table) => Ok(table),
        Err(AllocError) => Err(want(file)),
    }
}

/// Puts a table where it stands in the order of a level.
fn insert_in_order<N: Naming, S: Finding>(
    registry: &Registry<N, S>,
    tables: &mut Vec<TableRef<N, S>>,
    table: TableRef<N, S>,
) -> Result<(), AllocError>
    requires order { IsSortedBy stands_before tables.old.items }
    ensures placed { OnOk result (tables.new.items ≡ placed_in table tables.old.items) }
    ensures order { OnOk result (IsSortedBy stands_before tables.new.items) }
{
    let index = index_in(registry, tables.as_slice(), &table);
    tables.insert(index, table)?;
    Ok(())
}

/// Finds the tables of the files of a level, and puts them in order, one after another.
fn admit_level<N: Naming, S: Finding, R: Wait>(
    shelf: &mut NamedShelf<N, S>,
    rt: &R,
    alloc: Global,
    registry: &Registry<N, S>,
    files: &[FileMeta],
) -> Result<Vec<TableRef<N, S>>, CheckFault>
    ensures found { IfOk result (λ v. IsLevelFound (S.keeps N.place) files.now v.items) }
    ensures order { IfOk result (λ v. IsSortedBy stands_before v.items) }
    ensures refused { IfErr result (λ e.
        IsFilesRefusal (S.keeps N.place)
        (λ number. S.refuses N.place (Load number)) files.now e) }
    ensures told { Becomes shelf.old shelf.new }
    ensures cause { IfErr result (λ e. CheckCounted e shelf.old shelf.new) }
{
    let mut tables = Vec::new(alloc);
    for file in files {
        let table = admit_file(shelf, rt, alloc, registry, file)?;
        insert_in_order(registry, &mut tables, table)?;
    }
    Ok(tables)
}

/// Finds the tables of the files of all levels.
pub(crate) fn find_levels<N: Naming, S: Finding, R: Wait>(
    shelf: &mut NamedShelf<N, S>,
    rt: &R,
    alloc: Global,
    registry: &Registry<N, S>,
    levels: &[List<FileMeta>],
) -> Result<Vec<Vec<TableRef<N, S>>>, CheckFault>
    ensures found { IfOk result (λ v.
        AreFound (S.keeps N.place) levels.now (map (λ l. l.items) v.items)) }
    ensures order { IfOk result (λ v. AreInOrder (map (λ l. l.items) v.items)) }
    ensures refused { IfErr result (λ e.
        IsFilesRefusal (S.keeps N.place)
        (λ number. S.refuses N.place (Load number)) (all_files levels.now) e) }
    ensures told { Becomes shelf.old shelf.new }
    ensures cause { IfErr result (λ e. CheckCounted e shelf.old shelf.new) }
{
    let mut tables = Vec::new(alloc);
    for level in levels {
        let here = admit_level(shelf, rt, alloc, registry, level.as_slice())?;
        tables.push(here)?;
    }
    Ok(tables)
}
