//! Bytes are read as they are spelled, and written as they are read.

ghost use Rattle.std.specs.Prelude.{◌≡◌, ℕ, List, IfOk, Ok, take};
ghost use Rattle.lsm_manifest.specs.EditFit.{Change, IsFit};
ghost use Rattle.lsm_manifest.specs.EditView as edits;
ghost use Rattle.lsm_manifest.specs.EditWriting.{AreInOrder};
ghost use Rattle.lsm_manifest.specs.Manifest.{IsManifest, SpellsFirst};
ghost use Rattle.lsm_table.specs.Reading as tables;

use lsm_manifest::{Edit, EditFault, first_edits, one_manifest};
use lsm_table::{BuildFault, Table, TableBuilder, TableFault};
use std::alloc::{AllocError, Global};

/// A table that was built is read, and has just the entries that were added to it, in their order;
/// the one other answer of the read is want of memory.
pub fn built_tables_are_read(
    alloc: Global,
    table: TableBuilder,
) -> Result<Result<Table, TableFault>, BuildFault>
    ensures { IfOk result (λ read. tables.Gives (λ t. t) read (Ok table.entries)) }
{
    let bytes = table.finish()?;
    Ok(Table::check(alloc, bytes))
}

/// An edit of the manifest that was written is read, and is the edit; the one other answer of the
/// read is want of memory.
pub fn written_edits_are_read(
    alloc: Global,
    edit: &Edit,
) -> Result<Result<Edit, EditFault>, AllocError>
    requires fit { IsFit edit.now }
    requires ordered { AreInOrder edit.now.deleted }
    ensures { IfOk result (λ read. edits.Gives (λ e. e) read (Ok edit.now)) }
{
    let mut bytes = Vec::new(alloc);
    edit.encode(&mut bytes)?;
    Ok(Edit::decode(alloc, &bytes))
}

/// The bytes of a manifest spell one list of edits (`one`), and the first of its bytes, however
/// many, spell the first of these edits (`torn`).
pub fn manifests_spell_their_edits()
    ensures one { (bytes : List ℕ) (es fs : List Change) (m n : ℕ) → IsManifest bytes es m
        → IsManifest bytes fs n → (es ≡ fs) × (m ≡ n) }
    ensures torn { (bytes : List ℕ) (es : List Change) → IsManifest bytes es 0 → (n : ℕ)
        → SpellsFirst (take n bytes) es }
{
    one_manifest();
    first_edits();
}
