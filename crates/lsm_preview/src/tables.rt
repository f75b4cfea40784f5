//! The tables of a view, with their sizes.

ghost use Rattle.std.specs.Prelude.{◌≡◌, List, length, IfErr, IfOk, IsTrue};
ghost use Rattle.lsm_codec.specs.Entries.{Entry};
ghost use Rattle.lsm_shelf.specs.Stored.{Stored};
ghost use Rattle.lsm_shelf.specs.Told.{Becomes};
ghost use Rattle.lsm_manifest.specs.Replay.{FileAt};
ghost use Rattle.lsm_import.specs.Copied.{IsFitting};
ghost use Rattle.lsm_preview.specs.Preview.{with_tables};
ghost use Rattle.lsm_preview.specs.Tables.{AreNotPlain, ArePlainFiles, AreShownFiles};
ghost use Rattle.lsm_preview.specs.Tables.{IsFileRefusal, IsPlainFile};

use lsm_codec::List;
use lsm_import::{Copied, ImportFault, plain_of};
use lsm_manifest::{AddedFile, Edit, FileMeta};
use lsm_table::{NamedShelf, Naming, Shelf, TableOptions};
use std::alloc::{AllocError, Global};
use std::sync::Wait;

/// The same file with the size of this table.
fn sized(alloc: Global, file: &AddedFile, table: &[u8]) -> Result<AddedFile, AllocError>
    ensures level { IfOk result (λ f. f.level ≡ file.now.level) }
    ensures number { IfOk result (λ f. f.file.number ≡ file.now.file.number) }
    ensures size { IfOk result (λ f. f.file.size ≡ length table.now) }
    ensures smallest { IfOk result (λ f. f.file.smallest ≡ file.now.file.smallest) }
    ensures largest { IfOk result (λ f. f.file.largest ≡ file.now.file.largest) }
{
    Ok(AddedFile {
        level: file.level,
        file: FileMeta {
            number: file.file.number,
            size: table.len() as u64,
            smallest: file.file.smallest.try_copy(alloc)?,
            largest: file.file.largest.try_copy(alloc)?,
        },
    })
}

/// Reads the table of a file, and makes it plain: the file of the plain one, which is let go.
fn plain_file<N: Naming, S: Shelf, R: Wait>(
    rt: &R,
    alloc: Global,
    shelf: &mut NamedShelf<N, S>,
    file: &AddedFile,
) -> Result<AddedFile, ImportFault>
    ensures plain { IfOk result (λ shown. (es : List Entry) × IsPlainFile
        (Stored S.Receipt (S.is_of N.place) S.Receipt.number S.Receipt.image) file.now shown es) }
    ensures read { Becomes shelf.old shelf.new }
    ensures refused { IfErr result (IsFileRefusal
        (Stored S.Receipt (S.is_of N.place) S.Receipt.number S.Receipt.image) (S.refuses N.place)
        file.now.file) }
{
    let packed = match shelf.load(rt, alloc, file.file.number) {
        Ok((_receipt, packed)) => packed,
        Err(fault) => return Err(ImportFault::Unread(file.file.number, fault)),
    };
    if packed.len() as u64 != file.file.size {
        return Err(ImportFault::WrongRange(file.file.number));
    }
    let plain = plain_of(alloc, TableOptions::usual(), &file.file, &packed)?;
    let shown = sized(alloc, file, &plain)?;
    Ok(shown)
}

/// The files of the plain tables of these files, one after another.
fn plain_files<N: Naming, S: Shelf, R: Wait>(
    rt: &R,
    alloc: Global,
    shelf: &mut NamedShelf<N, S>,
    files: &[AddedFile],
) -> Result<Vec<AddedFile>, ImportFault>
    ensures plain { IfOk result (λ shown. (es : List Entry) × ArePlainFiles
        (Stored S.Receipt (S.is_of N.place) S.Receipt.number S.Receipt.image) files.now
        shown.items es) }
    ensures read { Becomes shelf.old shelf.new }
    ensures refused { IfErr result (AreNotPlain
        (Stored S.Receipt (S.is_of N.place) S.Receipt.number S.Receipt.image) (S.refuses N.place)
        files.now) }
{
    let mut shown: Vec<AddedFile> = Vec::new(alloc);
    for file in files {
        let plain = plain_file(rt, alloc, shelf, file)?;
        shown.push(plain)?;
    }
    Ok(shown)
}

/// The same with these tables.
fn with_tables(base: Copied, files: Vec<AddedFile>) -> Copied
    ensures { result ≡ with_tables base files.items }
{
    let Copied {
        edit,
        next,
        last,
        writes,
    } = base;
    Copied {
        edit: Edit {
            comparator: edit.comparator,
            log: edit.log,
            prev_log: edit.prev_log,
            next: edit.next,
            last: edit.last,
            pointers: edit.pointers,
            deleted: edit.deleted,
            added: List::of(files),
        },
        next,
        last,
        writes,
    }
}

/// A database with its tables as they are shown. Each is read where they are shown plain, one at a
/// time.
pub(crate) fn shown<N: Naming, S: Shelf, R: Wait>(
    rt: &R,
    alloc: Global,
    shelf: &mut NamedShelf<N, S>,
    base: Copied,
    inflates: bool,
) -> Result<Copied, ImportFault>
    requires fits { IsFitting base }
    ensures shown { IfOk result (λ c. (files : List FileAt) × (c ≡ with_tables base files)
        × AreShownFiles (Stored S.Receipt (S.is_of N.place) S.Receipt.number S.Receipt.image)
        inflates base.edit.added files) }
    ensures fits { IfOk result IsFitting }
    ensures read { Becomes shelf.old shelf.new }
    ensures refused { IfErr result (λ e. IsTrue inflates × AreNotPlain
        (Stored S.Receipt (S.is_of N.place) S.Receipt.number S.Receipt.image) (S.refuses N.place)
        base.edit.added e) }
{
    if !inflates {
        return Ok(base);
    }
    let files = plain_files(rt, alloc, shelf, base.edit.added.as_slice())?;
    Ok(with_tables(base, files))
}
