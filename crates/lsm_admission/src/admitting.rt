//! The version of a shape, whose tables are found and not read.

ghost use Rattle.std.specs.Prelude.{◌≡◌, IfErr, IfOk, length, map};
ghost use Rattle.lsm_shelf.specs.Asked.{Load};
ghost use Rattle.lsm_table.specs.Told.{Becomes};
ghost use Rattle.lsm_verify.specs.CheckFault.{CheckCounted};
ghost use Rattle.lsm_verify.specs.CheckRefusal.{IsOfShape};
ghost use Rattle.lsm_verify.specs.LevelLayouts.{LieInOrder};
ghost use Rattle.lsm_version.specs.Versions.{IsSound};
ghost use Rattle.lsm_admission.specs.AdmitRefusal.{IsAdmitRefusal};
ghost use Rattle.lsm_admission.specs.FoundTables.{AreTablesFound, IsFoundFrom};
ghost use Rattle.lsm_admission.specs.Keeping.{KeepsTables};

use crate::file_numbers::judge_numbers;
use crate::finding::find_levels;
use crate::layouts::judge_layouts;
use lsm_finding::Finding;
use lsm_manifest::Shape;
use lsm_table::{NamedShelf, Naming, Registry, TableRef};
use lsm_verify::CheckFault;
use lsm_version::{Version, copies_of};
use std::alloc::Global;
use std::sync::{Arc, Wait};

/// Finds the tables of a shape, level by level, and judges what the shape says of them.
fn admit_levels<N: Naming, S: Finding, R: Wait>(
    shelf: &mut NamedShelf<N, S>,
    rt: &R,
    alloc: Global,
    registry: &Registry<N, S>,
    shape: &Shape,
) -> Result<Vec<Vec<TableRef<N, S>>>, CheckFault>
    ensures tables { IfOk result (λ v.
        AreTablesFound (S.keeps N.place) shape.now (map (λ l. l.items) v.items)) }
    ensures apart { IfOk result (λ v. LieInOrder (map (λ l. l.items) v.items)) }
    ensures seven { IfOk result (λ v. length v.items ≡ 7) }
    ensures refused { IfErr result (λ e.
        IsAdmitRefusal (S.keeps N.place) (λ number. S.refuses N.place (Load number)) shape.now e) }
    ensures told { Becomes shelf.old shelf.new }
    ensures cause { IfErr result (λ e. CheckCounted e shelf.old shelf.new) }
{
    judge_numbers(alloc, &shape.levels)?;
    let levels = find_levels(shelf, rt, alloc, registry, &shape.levels)?;
    judge_layouts(alloc, registry, &levels)?;
    Ok(levels)
}

/// The version of a shape: each of its tables is found on the shelf and measured, and none is read.
/// The premise, under an honest shelf, is that the shelf keeps the tables of the shape
/// (`KeepsTables`): then the version is the one that `lsm_verify::check` gives, and sound. Without
/// it the version has a table for each file still, and what it answers is not said.
///
/// `DoubleFile` with the least number that two files have; then the files by level, and in a level
/// in the order of the shape: `WrongRange` where the keys of the shape are no internal keys, or the
/// smallest is above the largest; the shelf's refusals and want of memory with the file's number;
/// `WrongRange` where the table has another size; then `Overlap` with the least level from 1 on in
/// which two files meet in internal keys. Those are the refusals of `lsm_verify::check` that need
/// no byte of a table; what needs one is found by the reads that come to it, or never.
///
/// Time: one call of the shelf for each table, and a search in its level.
pub fn admit<N: Naming, S: Finding, R: Wait>(
    shelf: &mut NamedShelf<N, S>,
    rt: &R,
    alloc: Global,
    shape: &Shape,
    registry: Arc<Registry<N, S>>,
) -> Result<Version<N, S>, CheckFault>
    requires kept { S.honest → KeepsTables (S.keeps N.place) shape.now }
    ensures shape { IfOk result (IsFoundFrom (S.keeps N.place) shape.now) }
    ensures judged { S.honest → IfOk result (λ v. IsOfShape shape.now v) }
    ensures sound { S.honest → IfOk result (λ v. IsSound v) }
    ensures refused { IfErr result (λ e.
        IsAdmitRefusal (S.keeps N.place) (λ number. S.refuses N.place (Load number)) shape.now e) }
    ensures told { Becomes shelf.old shelf.new }
    ensures cause { IfErr result (λ e. CheckCounted e shelf.old shelf.new) }
{
    let levels = admit_levels(shelf, rt, alloc, &registry, shape)?;
    let pointers = copies_of(alloc, &shape.pointers)?;
    let version = Version::of(alloc, registry, levels, pointers, shape.last)?;
    Ok(version)
}
