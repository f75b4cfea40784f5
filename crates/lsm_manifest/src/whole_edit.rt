//! The one edit that spells a shape, with which a new manifest begins.

ghost use Rattle.std.specs.Prelude.{◌≡◌, ◌≤◌, ◌++◌, ◌∷◌, [], ℕ, List, length, map, IfOk, OnOk};
ghost use Rattle.std.specs.List.{All};
ghost use Rattle.lsm_manifest.specs.EditFit.{Change, IsFit};
ghost use Rattle.lsm_manifest.specs.Manifest.{IsManifest};
ghost use Rattle.lsm_manifest.specs.Shape.{Form, IsShape, IsReplayed};
ghost use Rattle.lsm_manifest.specs.WholeEdit.{pointers_from, placed_at, files_from, whole_edit};
ghost use Rattle.lsm_manifest.specs.WholeEdit.{FitsShape};

use crate::edit::Edit;
use crate::file_meta::FileMeta;
use crate::parts::{AddedFile, CompactPointer};
use crate::shape::Shape;
use lsm_codec::{Bytes, List};
use std::alloc::{AllocError, Global};

impl Edit {
    /// The one edit that spells a shape: the name of LevelDB's comparator, the numbers, the
    /// pointers by level, and the files by level, each level in its order. A new manifest begins
    /// with it.
    pub fn whole(alloc: Global, shape: &Shape) -> Result<Edit, AllocError>
        ensures { IfOk result (λ edit. edit ≡ whole_edit shape.now) }
    {
        let keys: &[Option<Bytes>] = &shape.pointers;
        let levels: &[List<FileMeta>] = &shape.levels;
        let name = Vec::from_slice(alloc, b"leveldb.BytewiseComparator".as_slice())?;
        let pointers = pointers_of(alloc, keys)?;
        let added = files_of(alloc, levels)?;
        Ok(Edit {
            comparator: Some(Bytes::of(name)),
            log: Some(shape.log),
            prev_log: Some(shape.prev_log),
            next: Some(shape.next),
            last: Some(shape.last),
            pointers: List::of(pointers),
            deleted: List::of(Vec::new(alloc)),
            added: List::of(added),
        })
    }
}

/// The pointers of levels, the first of which is level 0.
fn pointers_of(alloc: Global, keys: &[Option<Bytes>]) -> Result<Vec<CompactPointer>, AllocError>
    requires few { length keys.now ≤ 7 }
    ensures { IfOk result (λ pointers. pointers.items ≡ pointers_from 0 keys.now) }
{
    let mut pointers = Vec::new(alloc);
    let mut level: u8 = 0;
    for key in keys {
        push_pointer(alloc, &mut pointers, level, key)?;
        level += 1;
    }
    Ok(pointers)
}

fn push_pointer(
    alloc: Global,
    pointers: &mut Vec<CompactPointer>,
    level: u8,
    key: &Option<Bytes>,
) -> Result<(), AllocError>
    ensures { OnOk result (pointers.new.items
        ≡ pointers.old.items ++ pointers_from level (key.now ∷ [])) }
{
    let Some(key) = key else {
        return Ok(());
    };
    let key = key.try_copy(alloc)?;
    pointers.push(CompactPointer { level, key })?;
    Ok(())
}

/// The files of levels, the first of which is level 0.
fn files_of(alloc: Global, levels: &[List<FileMeta>]) -> Result<Vec<AddedFile>, AllocError>
    requires few { length levels.now ≤ 7 }
    ensures { IfOk result (λ added. added.items ≡ files_from 0 levels.now) }
{
    let mut added = Vec::new(alloc);
    let mut level: u8 = 0;
    for files in levels {
        push_files(alloc, &mut added, level, files.as_slice())?;
        level += 1;
    }
    Ok(added)
}

fn push_files(
    alloc: Global,
    added: &mut Vec<AddedFile>,
    level: u8,
    files: &[FileMeta],
) -> Result<(), AllocError>
    ensures { OnOk result (added.new.items ≡ added.old.items ++ map (placed_at level) files.now) }
{
    for file in files {
        let file = file.try_copy(alloc)?;
        added.push(AddedFile { level, file })?;
    }
    Ok(())
}

/// A law: the one edit that spells a shape comes to the shape, and fits to be written where the
/// shape's keys fit.
pub fn whole_edit_replays()
    ensures replays { (s : Form) → IsShape s → IsReplayed (whole_edit s ∷ []) s }
    ensures fit { (s : Form) → IsShape s → FitsShape s → IsFit (whole_edit s) }
{}

/// A law: what edits come to is a shape, and its keys fit where each edit fits, as do those of a
/// manifest.
pub fn replayed_shapes()
    ensures shape { (es : List Change) (s : Form) → IsReplayed es s → IsShape s }
    ensures fit { (es : List Change) (s : Form) → All IsFit es → IsReplayed es s → FitsShape s }
    ensures manifest { (bytes : List ℕ) (es : List Change) (rest : ℕ) → IsManifest bytes es rest
        → All IsFit es }
{}
