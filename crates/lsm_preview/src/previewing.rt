//! A view of a database, made without a write.

ghost use Rattle.std.specs.Prelude.{◌≡◌, IfErr, IfOk};
ghost use Rattle.lsm_shelf.specs.Stored.{Stored};
ghost use Rattle.lsm_manifest.specs.Shape.{IsShape};
ghost use Rattle.lsm_manifest.specs.WholeEdit.{FitsShape};
ghost use Rattle.lsm_mirror.specs.Shown.{made_of, shown_of};
ghost use Rattle.lsm_opening.specs.Tidying.{OnlyReads};
ghost use Rattle.lsm_preview.specs.Preview.{IsNoPreview, IsNoView, IsPreview, IsView, looked_at};
ghost use Rattle.lsm_preview.specs.Preview.{pair_of};
ghost use Rattle.lsm_preview.specs.Tables.{OnlyLooks};

use crate::base::base_of;
use crate::preview_fault::PreviewFault;
use crate::seen::Preview;
use crate::sight::Sight;
use crate::tables::shown;
use lsm_directory::FolderFile;
use lsm_folder::FolderCalls;
use lsm_import::{LogTable, manifest_bytes};
use lsm_log_files::{SourceRead, read_source};
use lsm_mirror::{MadeTable, View};
use lsm_table::{NamedShelf, Naming, Shelf, TableOptions};
use std::alloc::Global;
use std::marker::Brand;
use std::sync::Wait;

/// The files among which logs are looked for.
fn looked_at(files: &[FolderFile], logs: bool) -> &[FolderFile]
    ensures { result.now ≡ looked_at logs files.now }
{
    if logs { files } else { &[] }
}

/// The table of logs, as a view has it.
fn made_of(table: Option<LogTable>) -> Option<MadeTable>
    ensures { made_of result ≡ pair_of table }
{
    match table {
        Some(table) => Some(MadeTable {
            number: table.number,
            image: table.image,
        }),
        None => None,
    }
}

/// The view of a database, of which this was read.
fn view_of<N: Naming, S: Shelf, R: Wait>(
    rt: &R,
    alloc: Global,
    shelf: &mut NamedShelf<N, S>,
    read: SourceRead,
    inflates: bool,
) -> Result<Preview, PreviewFault>
    requires shape { IsShape read.shape }
    requires keys { FitsShape read.shape }
    ensures view { IfOk result (λ p. IsView
        (Stored S.Receipt (S.is_of N.place) S.Receipt.number S.Receipt.image) inflates read.shape
        read.numbers.items read.logs (shown_of p.view) p.entries shelf.old shelf.new) }
    ensures rest { IfOk result (λ p. p.rest ≡ read.rest) }
    ensures looks { OnlyLooks shelf.old shelf.new }
    ensures refused { IfErr result (IsNoView
        (Stored S.Receipt (S.is_of N.place) S.Receipt.number S.Receipt.image) (S.refuses N.place)
        inflates read.shape read.numbers.items read.logs shelf.old) }
{
    let SourceRead {
        shape,
        numbers,
        logs,
        rest,
    } = read;
    let base = base_of(rt, alloc, shelf, &shape, numbers)?;
    let tables = shown(rt, alloc, shelf, base, inflates)?;
    let (whole, table) = tables.with_logs(alloc, TableOptions::usual(), logs)?;
    let manifest = manifest_bytes(alloc, &whole.edit)?;
    Ok(Preview {
        view: View {
            manifest,
            made: made_of(table),
            inflates,
        },
        rest,
        entries: whole.writes,
    })
}

/// A view of the database of a shelf, whose folder has these files.
fn preview_named<C: FolderCalls, N: Naming, S: Shelf, R: Wait>(
    rt: &R,
    alloc: Global,
    folder: &mut C,
    files: &[FolderFile],
    shelf: &mut NamedShelf<N, S>,
    sight: Sight,
) -> Result<Preview, PreviewFault>
    ensures done { IfOk result (λ p. IsPreview
        (Stored S.Receipt (S.is_of N.place) S.Receipt.number S.Receipt.image) sight files.now p
        (C.calls folder.old) (C.calls folder.new) shelf.old shelf.new) }
    ensures refused { IfErr result (λ e. IsNoPreview
        (Stored S.Receipt (S.is_of N.place) S.Receipt.number S.Receipt.image) (S.refuses N.place)
        sight files.now e (C.calls folder.old) (C.calls folder.new) shelf.old shelf.new) }
    ensures reads { OnlyReads (C.calls folder.old) (C.calls folder.new) }
    ensures looks { OnlyLooks shelf.old shelf.new }
    ensures place { C.place folder.new ≡ C.place folder.old }
{
    let read = match read_source(rt, alloc, folder, looked_at(files, sight.logs), shelf) {
        Ok(read) => read,
        Err(fault) => return Err(PreviewFault::Unread(fault)),
    };
    let seen = view_of(rt, alloc, shelf, read, sight.inflates)?;
    Ok(seen)
}

/// The same under the name that was picked for the shelf, which is given back.
fn preview_as<C: FolderCalls, N: Naming, S: Shelf, R: Wait>(
    rt: &R,
    alloc: Global,
    folder: &mut C,
    files: &[FolderFile],
    shelf: S,
    sight: Sight,
) -> (Result<Preview, PreviewFault>, S)
    requires shelf { (S.told shelf).place ≡ N.place }
    ensures done { IfOk result.0 (λ p. IsPreview
        (Stored S.Receipt (S.is_of N.place) S.Receipt.number S.Receipt.image) sight files.now p
        (C.calls folder.old) (C.calls folder.new) (S.told shelf) (S.told result.1)) }
    ensures refused { IfErr result.0 (λ e. IsNoPreview
        (Stored S.Receipt (S.is_of N.place) S.Receipt.number S.Receipt.image) (S.refuses N.place)
        sight files.now e (C.calls folder.old) (C.calls folder.new) (S.told shelf)
        (S.told result.1)) }
    ensures reads { OnlyReads (C.calls folder.old) (C.calls folder.new) }
    ensures looks { OnlyLooks (S.told shelf) (S.told result.1) }
    ensures place { C.place folder.new ≡ C.place folder.old }
{
    let mut shelf: NamedShelf<N, S> = NamedShelf::of(shelf);
    let seen = preview_named(rt, alloc, folder, files, &mut shelf, sight);
    (seen, shelf.into_shelf())
}

/// A view of the database of a shelf, whose folder has these files: as `lsm recover` would leave it
/// where logs are asked for, and as `lsm import` would copy it where plain tables are. The shelf is
/// given back; nothing is written. Of the tables none is held longer than it takes to make it plain
/// and to measure that.
///
/// Of each key that the logs write, the last write is in one table more, at level 0, under a number
/// above all logs and tables; without such writes there is none. The view's manifest is one edit.
/// Where logs were read it has no previous log, and a log number above all of them; else the log
/// numbers of the manifest that was read. The tables are judged by who reads the view.
///
/// # Errors
/// `Unread` of the manifest or the first log at fault; then `Unlisted`; then `Unmade`: of a
/// table that is not made plain (`Unread`, `Packed`, or `WrongRange` where its size or its keys are
/// not those of the manifest), or of the table of the logs (`SequencesSpent`, `NumbersSpent`,
/// `TooLarge`). `OutOfMemory` on the way.
pub fn preview<C: FolderCalls, S: Shelf, R: Wait>(
    rt: &R,
    alloc: Global,
    folder: &mut C,
    files: &[FolderFile],
    shelf: S,
    sight: Sight,
) -> (Result<Preview, PreviewFault>, S)
    ensures done { IfOk result.0 (λ p. IsPreview
        (Stored S.Receipt (S.is_of (S.told shelf).place) S.Receipt.number S.Receipt.image) sight
        files.now p (C.calls folder.old) (C.calls folder.new) (S.told shelf) (S.told result.1)) }
    ensures refused { IfErr result.0 (λ e. IsNoPreview
        (Stored S.Receipt (S.is_of (S.told shelf).place) S.Receipt.number S.Receipt.image)
        (S.refuses (S.told shelf).place) sight files.now e (C.calls folder.old)
        (C.calls folder.new) (S.told shelf) (S.told result.1)) }
    ensures reads { OnlyReads (C.calls folder.old) (C.calls folder.new) }
    ensures looks { OnlyLooks (S.told shelf) (S.told result.1) }
    ensures place { C.place folder.new ≡ C.place folder.old }
{
    preview_as::<C, Brand, S, R>(rt, alloc, folder, files, shelf, sight)
}
