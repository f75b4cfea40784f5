//! The table of a file, read and judged.

ghost use Rattle.std.specs.Prelude.{◌≡◌, IfErr, IfOk, IsTrue};
ghost use Rattle.lsm_shelf.specs.Asked.{Load};
ghost use Rattle.lsm_table.specs.HeldTable.{entries_in};
ghost use Rattle.lsm_table.specs.Told.{Becomes};
ghost use Rattle.lsm_verify.specs.CheckFault.{CheckCounted};
ghost use Rattle.lsm_verify.specs.CheckedFiles.{IsImageOf};
ghost use Rattle.lsm_verify.specs.FileRefusal.{IsFileRefusal};
ghost use Rattle.lsm_verify.specs.Settled.{AreSequencesOf};

use crate::check_fault::CheckFault;
use crate::checked_table::{read_table, want};
use crate::sequences::Sequences;
use lsm_manifest::FileMeta;
use lsm_table::{NamedShelf, Naming, Registry, Shelf, TableRecord, TableRef};
use lsm_version::copy_of;
use std::alloc::{AllocError, Global};
use std::marker::{Model, PhantomData};
use std::sync::Wait;

/// The table of a file, which was read from a shelf of the name `N` and judged: the record that a
/// registry is to have of it. Of its image nothing stays but the receipt. It may go to another
/// thread.
#[derive(Drop)]
pub struct JudgedTable<N: Naming, S: Shelf> {
    row: TableRecord<S::Receipt>,
    sequences: Sequences,
    // That none of its entries is above.
    last: u64,
    of: PhantomData<N>,
}

impl<N: Naming, S: Shelf> Model for JudgedTable<N, S> {
    ghost use Rattle.lsm_verify.specs.Loading.{IsJudged, Judged};

    ghost Value = { Judged };

    ghost view = { λ t. record {
      number = S.Receipt.number t.row.receipt;
      smallest = t.row.smallest;
      largest = t.row.largest;
      image = S.Receipt.image t.row.receipt;
      sequences = t.sequences;
      last = t.last;
    } };

    ghost invariant = { λ t. S.is_of N.place t.row.receipt × IsJudged t.last
        t.row.smallest t.row.largest (S.Receipt.image t.row.receipt) t.sequences };
}

/// The table of a file, of which a shelf gave this receipt.
#[tactic(auto, using(crate::proofs::CheckedFiles::judged_from))]
fn judged_as<N: Naming, S: Shelf>(
    alloc: Global,
    file: &FileMeta,
    last: u64,
    receipt: S::Receipt,
    sequences: Sequences,
) -> Result<JudgedTable<N, S>, AllocError>
    requires here { S.is_of N.place receipt }
    requires image { IsImageOf last file.now (S.Receipt.image receipt) }
    requires sequences { AreSequencesOf (entries_in (S.Receipt.image receipt)) sequences }
    ensures number { IfOk result (λ t. t.number ≡ S.Receipt.number receipt) }
    ensures smallest { IfOk result (λ t. t.smallest ≡ file.now.smallest) }
    ensures largest { IfOk result (λ t. t.largest ≡ file.now.largest) }
    ensures image { IfOk result (λ t. t.image ≡ S.Receipt.image receipt) }
{
    Ok(JudgedTable {
        row: TableRecord {
            smallest: copy_of(alloc, file.smallest.as_slice())?,
            largest: copy_of(alloc, file.largest.as_slice())?,
            receipt,
        },
        sequences,
        last,
        of: PhantomData,
    })
}

/// Reads the table of a file, and judges whether it is the file's. Its image is given back before
/// the next one is read.
pub(crate) fn judge_table<N: Naming, S: Shelf, R: Wait>(
    shelf: &mut NamedShelf<N, S>,
    rt: &R,
    alloc: Global,
    file: &FileMeta,
    last: u64,
) -> Result<JudgedTable<N, S>, CheckFault>
    ensures number { IfOk result (λ t. t.number ≡ file.now.number) }
    ensures smallest { IfOk result (λ t. t.smallest ≡ file.now.smallest) }
    ensures largest { IfOk result (λ t. t.largest ≡ file.now.largest) }
    ensures image { IfOk result (λ t. IsImageOf last file.now t.image) }
    ensures refused { IfErr result (λ e. IsFileRefusal
        (λ image. (r : S.Receipt) × S.is_of N.place r × (S.Receipt.number r ≡ file.now.number)
        × (S.Receipt.image r ≡ image)) (S.refuses N.place (Load file.now.number)) last file.now e) }
    ensures told { Becomes shelf.old shelf.new }
    ensures cause { IfErr result (λ e. CheckCounted e shelf.old shelf.new) }
{
    let (receipt, sequences) = read_table(shelf, rt, alloc, file, last)?;
    match judged_as(alloc, file, last, receipt, sequences) {
        Ok(table) => Ok(table),
        Err(AllocError) => Err(want(file)),
    }
}

impl<N: Naming, S: Shelf> JudgedTable<N, S> {
    /// Whether it is the table of this file, with no entry above this last sequence.
    #[tactic(auto, using(crate::proofs::CheckedFiles::judged_is))]
    pub(crate) fn is_of(&self, file: &FileMeta, last: u64) -> bool
        ensures number { IsTrue result → self.now.number ≡ file.now.number }
        ensures smallest { IsTrue result → self.now.smallest ≡ file.now.smallest }
        ensures largest { IsTrue result → self.now.largest ≡ file.now.largest }
        ensures image { IsTrue result → IsImageOf last file.now self.now.image }
    {
        let row = &self.row;
        row.number() == file.number
            && row.size() == file.size
            && row.smallest.as_slice() == file.smallest.as_slice()
            && row.largest.as_slice() == file.largest.as_slice()
            && self.last == last
    }

    /// Adds its record to the registry: what stands for it there, and its sequences.
    pub(crate) fn record<R: Wait>(
        self,
        rt: &R,
        registry: &Registry<N, S>,
    ) -> Result<(TableRef<N, S>, Sequences), AllocError>
        ensures number { IfOk result (λ r. r.0.number ≡ self.number) }
        ensures smallest { IfOk result (λ r. r.0.smallest ≡ self.smallest) }
        ensures largest { IfOk result (λ r. r.0.largest ≡ self.largest) }
        ensures image { IfOk result (λ r. r.0.image ≡ self.image) }
        ensures stored { IfOk result (λ r. (c : S.Receipt) × S.is_of N.place c
            × (S.Receipt.number c ≡ r.0.number) × (S.Receipt.image c ≡ r.0.image)) }
        ensures sequences { IfOk result (λ r. AreSequencesOf (entries_in r.0.image) r.1) }
    {
        let JudgedTable { row, sequences, .. } = self;
        match registry.push(rt, row) {
            Ok(table) => Ok((table, sequences)),
            Err(_row) => Err(AllocError),
        }
    }
}
