//! One file of a shape: its table, read and judged.

ghost use Rattle.std.specs.Prelude.{◌≡◌, IfErr, IfOk, MatchOption, Some};
ghost use Rattle.lsm_shelf.specs.Asked.{Load};
ghost use Rattle.lsm_verify.specs.declared.check_fault.CheckFault.TheVariants.{Read};
ghost use Rattle.lsm_table.specs.HeldTable.{entries_in};
ghost use Rattle.lsm_table.specs.Told.{Becomes};
ghost use Rattle.lsm_table.specs.ReadFault.{out_of_memory};
ghost use Rattle.lsm_verify.specs.CheckFault.{CheckCounted};
ghost use Rattle.lsm_verify.specs.CheckedFiles.{IsImageOf, IsSpanned};
ghost use Rattle.lsm_verify.specs.FileRefusal.{IsFileRefusal};
ghost use Rattle.lsm_verify.specs.Settled.{AreSequencesOf};
ghost use Rattle.lsm_model.specs.Streams.{IsAscending};

use crate::check_fault::CheckFault;
use crate::sequences::Sequences;
use crate::span::sequences_of;
use lsm_manifest::FileMeta;
use lsm_table::{NamedShelf, Naming, ReadFault, Shelf, Table, TableFault};
use std::alloc::{AllocError, Global};
use std::sync::Wait;

/// The sequences of a table of this size, if it is the file's: it has the file's size, and begins
/// and ends at the file's keys.
fn sequences_in(
    alloc: Global,
    file: &FileMeta,
    size: usize,
    table: &Table,
    last: u64,
) -> Result<Option<Sequences>, AllocError>
    requires { IsAscending table.now }
    ensures { IfOk result (λ r. MatchOption r ((size ≡ file.now.size) × IsSpanned last
        file.now.smallest file.now.largest table.now → ⊥) (λ s. (size ≡ file.now.size) × IsSpanned
        last file.now.smallest file.now.largest table.now × AreSequencesOf table.now s)) }
{
    if size as u64 != file.size {
        return Ok(None);
    }
    sequences_of(
        alloc,
        table,
        file.smallest.as_slice(),
        file.largest.as_slice(),
        last,
    )
}

/// Why the table of this file could not be read.
fn unread(file: &FileMeta, fault: ReadFault) -> CheckFault
    ensures { result ≡ Read (Some file.now.number) fault }
{
    CheckFault::Read(Some(file.number), fault)
}

/// Memory ran out over the table of this file.
pub(crate) fn want(file: &FileMeta) -> CheckFault
    ensures { result ≡ Read (Some file.now.number) out_of_memory }
{
    unread(file, ReadFault::Table(TableFault::OutOfMemory))
}

/// Reads the table of a file, and judges whether it is the file's. Its image is given back before
/// the next one is read: a receipt and the sequences stay.
pub(crate) fn read_table<N: Naming, S: Shelf, R: Wait>(
    shelf: &mut NamedShelf<N, S>,
    rt: &R,
    alloc: Global,
    file: &FileMeta,
    last: u64,
) -> Result<(S::Receipt, Sequences), CheckFault>
    ensures receipt { IfOk result (λ r. (S.Receipt.number r.0 ≡ file.now.number)
        × S.is_of N.place r.0) }
    ensures image { IfOk result (λ r. IsImageOf last file.now (S.Receipt.image r.0)
        × AreSequencesOf (entries_in (S.Receipt.image r.0)) r.1) }
    ensures refused { IfErr result (λ e. IsFileRefusal
        (λ image. (r : S.Receipt) × S.is_of N.place r × (S.Receipt.number r ≡ file.now.number)
        × (S.Receipt.image r ≡ image)) (S.refuses N.place (Load file.now.number)) last file.now e) }
    ensures told { Becomes shelf.old shelf.new }
    ensures cause { IfErr result (λ e. CheckCounted e shelf.old shelf.new) }
{
    let (receipt, image) = match shelf.load(rt, alloc, file.number) {
        Ok(loaded) => loaded,
        Err(fault) => return Err(unread(file, ReadFault::from(fault))),
    };
    let size = image.len();
    let table = match Table::check(alloc, image) {
        Ok(table) => table,
        Err(fault) => return Err(unread(file, ReadFault::from(fault))),
    };
    match sequences_in(alloc, file, size, &table, last) {
        Ok(Some(sequences)) => Ok((receipt, sequences)),
        Ok(None) => Err(CheckFault::WrongRange(file.number)),
        Err(AllocError) => Err(want(file)),
    }
}
