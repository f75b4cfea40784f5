//! The edits that a journal writes.

ghost use Rattle.std.specs.Prelude.{◌≡◌, ◌+◌, ◌^◌, ◌≤◌, ◌<◌, ◌++◌, [], length, map, get_or, None};
ghost use Rattle.std.specs.Prelude.{IfOk, IfSome, OnErr, OnOk, vec_len, codes};
ghost use Rattle.std.specs.List.{All};
ghost use Rattle.lsm_manifest.specs.Edit.{IsEdit};
ghost use Rattle.lsm_manifest.specs.EditFit.{IsFit};
ghost use Rattle.lsm_manifest.specs.EditWriting.{AreInOrder, edit_text};
ghost use Rattle.lsm_version.specs.Versions.{level_in};
ghost use Rattle.lsm_journal.specs.Recorded.{FitsLevels, meta_of};
ghost use Rattle.lsm_journal.specs.Difference.{FitsComing, FitsPlace};
ghost use Rattle.lsm_journal.specs.Writing.{change_edit, first_edit_under, metas_of, placed};
ghost use Rattle.lsm_journal.specs.Writing.{pointers_of, record_of, shape_of, version_edit};

use crate::journal::Journal;
use crate::version_change::VersionChange;
use lsm_codec::{Bytes, List};
use lsm_manifest::{AddedFile, CompactPointer, Edit, FileMeta, LogWriter, Shape};
use lsm_table::{Naming, Registry, Shelf, TableRef};
use lsm_version::Version;
use std::alloc::{AllocError, Global};

/// Appends the record of an edit to a manifest. After a refusal its bytes are as before.
pub(crate) fn push_record(bytes: &mut Vec<u8>, alloc: Global, edit: &Edit) -> Result<(), AllocError>
    requires fit { IsFit edit.now }
    requires ordered { AreInOrder edit.now.deleted }
    ensures ok { OnOk result (bytes.new.items
        ≡ bytes.old.items ++ record_of bytes.old.items edit.now) }
    ensures spelled { OnOk result (IsEdit (edit_text edit.now) edit.now) }
    ensures err { OnErr result (bytes.new.items ≡ bytes.old.items) }
{
    let mut text = Vec::new(alloc);
    edit.encode(&mut text)?;
    let mut writer = LogWriter::at(bytes.len() as u64);
    writer.append(bytes, &text)
}

/// A manifest of one edit.
pub(crate) fn manifest_of(alloc: Global, edit: &Edit) -> Result<Vec<u8>, AllocError>
    requires fit { IsFit edit.now }
    requires ordered { AreInOrder edit.now.deleted }
    ensures bytes { IfOk result (λ bytes. bytes.items ≡ record_of [] edit.now) }
    ensures spelled { OnOk result (IsEdit (edit_text edit.now) edit.now) }
{
    let mut bytes = Vec::new(alloc);
    push_record(&mut bytes, alloc, edit)?;
    Ok(bytes)
}

/// The first edit of a new database whose manifest has this number: the name of the comparator, no
/// log, one more as the next file number, and no sequence yet.
pub(crate) fn first_edit(alloc: Global, number: u64) -> Result<Edit, AllocError>
    requires { number + 1 < 2 ^ 64 }
    ensures { IfOk result (λ edit. edit ≡ first_edit_under number) }
{
    let name = Vec::from_slice(alloc, b"leveldb.BytewiseComparator".as_slice())?;
    Ok(Edit {
        comparator: Some(Bytes::of(name)),
        log: Some(0),
        prev_log: None,
        next: Some(number + 1),
        last: Some(0),
        pointers: List::of(Vec::new(alloc)),
        deleted: List::of(Vec::new(alloc)),
        added: List::of(Vec::new(alloc)),
    })
}

/// A table as the manifest names it. `AllocError` where memory for its keys was refused.
pub fn meta_of<N: Naming, S: Shelf>(
    alloc: Global,
    registry: &Registry<N, S>,
    table: &TableRef<N, S>,
) -> Result<FileMeta, AllocError>
    ensures { IfOk result (λ file. file ≡ meta_of table.now) }
{
    let record = registry.record(table);
    Ok(FileMeta {
        number: record.number(),
        size: record.size(),
        smallest: record.smallest.try_copy(alloc)?,
        largest: record.largest.try_copy(alloc)?,
    })
}

/// The tables that come, as the manifest names them.
fn added_files<N: Naming, S: Shelf>(
    alloc: Global,
    registry: &Registry<N, S>,
    added: &[(usize, TableRef<N, S>)],
) -> Result<List<AddedFile>, AllocError>
    requires levels { All FitsComing added.now }
    ensures { IfOk result (λ files. files ≡ map placed added.now) }
{
    let mut files = Vec::new(alloc);
    for one in added {
        let file = meta_of(alloc, registry, &one.1)?;
        files.push(AddedFile {
            level: one.0 as u8,
            file,
        })?;
    }
    Ok(List::of(files))
}

/// The pointer that a level gets.
fn pointers_of(
    alloc: Global,
    pointer: &Option<(usize, Bytes)>,
) -> Result<List<CompactPointer>, AllocError>
    requires { IfSome pointer.now FitsPlace }
    ensures { IfOk result (λ pointers. pointers ≡ pointers_of pointer.now) }
{
    let mut pointers = Vec::new(alloc);
    if let Some((level, key)) = pointer {
        let key = key.try_copy(alloc)?;
        pointers.push(CompactPointer {
            level: *level as u8,
            key,
        })?;
    }
    Ok(List::of(pointers))
}

/// The tables of a level, as the manifest names them.
fn metas_of<N: Naming, S: Shelf>(
    alloc: Global,
    registry: &Registry<N, S>,
    level: &[TableRef<N, S>],
) -> Result<List<FileMeta>, AllocError>
    ensures { IfOk result (λ files. files ≡ map meta_of level.now) }
{
    let mut files = Vec::new(alloc);
    for table in level {
        files.push(meta_of(alloc, registry, table)?)?;
    }
    Ok(List::of(files))
}

/// The tables of all levels, as the manifest names them.
fn levels_of<N: Naming, S: Shelf>(
    alloc: Global,
    registry: &Registry<N, S>,
    version: &Version<N, S>,
) -> Result<[List<FileMeta>; 7], AllocError>
    requires seven { length version.now.tables ≡ 7 }
    ensures { IfOk result (λ levels. levels ≡ metas_of version.now.tables) }
{
    let level_0 = metas_of(alloc, registry, version.level(0))?;
    let level_1 = metas_of(alloc, registry, version.level(1))?;
    let level_2 = metas_of(alloc, registry, version.level(2))?;
    let level_3 = metas_of(alloc, registry, version.level(3))?;
    let level_4 = metas_of(alloc, registry, version.level(4))?;
    let level_5 = metas_of(alloc, registry, version.level(5))?;
    let level_6 = metas_of(alloc, registry, version.level(6))?;
    Ok([
        level_0, level_1, level_2, level_3, level_4, level_5, level_6,
    ])
}

/// A copy of a level's pointer.
fn key_of<N: Naming, S: Shelf>(
    alloc: Global,
    version: &Version<N, S>,
    level: usize,
) -> Result<Option<Bytes>, AllocError>
    requires { level ≤ 6 }
    ensures { IfOk result (λ key. key ≡ get_or version.now.pointers level None) }
{
    match version.pointer(level) {
        None => Ok(None),
        Some(key) => Ok(Some(Bytes::of(Vec::from_slice(alloc, key)?))),
    }
}

/// Copies of the pointers of all levels.
fn keys_of<N: Naming, S: Shelf>(
    alloc: Global,
    version: &Version<N, S>,
) -> Result<[Option<Bytes>; 7], AllocError>
    requires { length version.now.pointers ≡ 7 }
    ensures { IfOk result (λ keys. keys ≡ version.now.pointers) }
{
    let key_0 = key_of(alloc, version, 0)?;
    let key_1 = key_of(alloc, version, 1)?;
    let key_2 = key_of(alloc, version, 2)?;
    let key_3 = key_of(alloc, version, 3)?;
    let key_4 = key_of(alloc, version, 4)?;
    let key_5 = key_of(alloc, version, 5)?;
    let key_6 = key_of(alloc, version, 6)?;
    Ok([key_0, key_1, key_2, key_3, key_4, key_5, key_6])
}

impl Journal {
    /// The edit of a change, with the next file number.
    pub(crate) fn change_edit<N: Naming, S: Shelf>(
        &self,
        alloc: Global,
        registry: &Registry<N, S>,
        change: &VersionChange<N, S>,
        next: u64,
    ) -> Result<Edit, AllocError>
        ensures edit { IfOk result (λ edit. edit ≡ change_edit self.now change.now next) }
        ensures fit { IfOk result (λ edit. IsFit edit × AreInOrder edit.deleted) }
    {
        let last = change.last();
        let pointers = pointers_of(alloc, &change.pointer)?;
        let deleted = Vec::from_slice(alloc, &change.deleted)?;
        let added = added_files(alloc, registry, &change.added)?;
        Ok(Edit {
            comparator: None,
            log: Some(self.log),
            prev_log: Some(self.prev_log),
            next: Some(next),
            last: Some(last),
            pointers,
            deleted: List::of(deleted),
            added,
        })
    }

    /// The one edit that spells a version, with the next file number.
    pub(crate) fn version_edit<N: Naming, S: Shelf>(
        &self,
        alloc: Global,
        registry: &Registry<N, S>,
        version: &Version<N, S>,
        next: u64,
    ) -> Result<Edit, AllocError>
        requires keys { FitsLevels version.now }
        ensures edit { IfOk result (λ edit. edit ≡ version_edit self.now version.now next) }
        ensures fit { IfOk result (λ edit. IsFit edit × AreInOrder edit.deleted) }
    {
        let last = version.last();
        let levels = levels_of(alloc, registry, version)?;
        let pointers = keys_of(alloc, version)?;
        let shape = Shape {
            levels,
            pointers,
            log: self.log,
            prev_log: self.prev_log,
            next,
            last,
        };
        Edit::whole(alloc, &shape)
    }
}
