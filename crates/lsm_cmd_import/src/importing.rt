//! The database of a shelf, with the logs of a folder, comes to another shelf.

ghost use Rattle.std.specs.Prelude.{◌≡◌, false, IfErr, IfOk, None};
ghost use Rattle.lsm_shelf.specs.Stored.{Stored};
ghost use Rattle.lsm_cmd_import.specs.Imported.{IsImported, IsUnimported, moment_of};

use crate::copy_fault::CopyFault;
use crate::copying::{Counts, copy};
use crate::reply::CopyMade;
use lsm_directory::FolderFile;
use lsm_folder::FolderCalls;
use lsm_log_files::{SourceFront, SourceRead, read_source_to};
use lsm_table::{NamedShelf, Naming, Records, Shelf};
use std::alloc::Global;
use std::marker::Brand;
use std::sync::Wait;

/// Copies the database of a shelf, and the logs among these files in the folder, to another shelf.
fn import_named<C: FolderCalls, N: Naming, S: Shelf, M: Naming, T: Shelf, R: Wait>(
    rt: &R,
    alloc: Global,
    folder: &mut C,
    files: &[FolderFile],
    source: &mut NamedShelf<N, S>,
    target: &mut NamedShelf<M, T>,
    records: Records<T::Receipt>,
    to_first_fault: bool,
) -> Result<CopyMade, CopyFault>
    requires named { records ≡ M.registry }
    ensures done { IfOk result (λ made. IsImported to_first_fault
        (Stored S.Receipt (S.is_of N.place) S.Receipt.number S.Receipt.image)
        (Stored T.Receipt (T.is_of M.place) T.Receipt.number T.Receipt.image) T.honest files.now
        made (moment_of (C.calls folder.old) source.old target.old)
        (moment_of (C.calls folder.new) source.new target.new)) }
    ensures whole { IfOk result (λ made. to_first_fault ≡ false → made.stop ≡ None) }
    ensures refused { IfErr result (λ e. IsUnimported to_first_fault
        (Stored S.Receipt (S.is_of N.place) S.Receipt.number S.Receipt.image)
        (Stored T.Receipt (T.is_of M.place) T.Receipt.number T.Receipt.image) (S.refuses N.place)
        (T.refuses M.place) T.honest files.now e
        (moment_of (C.calls folder.old) source.old target.old)
        (moment_of (C.calls folder.new) source.new target.new)) }
    ensures place { C.place folder.new ≡ C.place folder.old }
{
    let SourceFront {
        source: read,
        count,
        stop,
    } = read_source_to(rt, alloc, folder, files, source, to_first_fault)?;
    let SourceRead {
        shape,
        logs,
        rest,
        ..
    } = read;
    let Counts { tables, entries } = copy(rt, alloc, source, target, records, &shape, logs)?;
    Ok(CopyMade {
        tables,
        logs: count,
        entries,
        rest,
        stop,
    })
}

/// The same under the names that were picked for the records and the shelves, which are given back.
fn import_as<C: FolderCalls, N: Naming, S: Shelf, M: Naming, T: Shelf, R: Wait>(
    rt: &R,
    alloc: Global,
    folder: &mut C,
    files: &[FolderFile],
    source: S,
    target: T,
    records: Records<T::Receipt>,
    to_first_fault: bool,
) -> (Result<CopyMade, CopyFault>, S, T)
    requires named { records ≡ M.registry }
    requires source { (S.told source).place ≡ N.place }
    requires target { (T.told target).place ≡ M.place }
    ensures done { IfOk result.0 (λ made. IsImported to_first_fault
        (Stored S.Receipt (S.is_of N.place) S.Receipt.number S.Receipt.image)
        (Stored T.Receipt (T.is_of M.place) T.Receipt.number T.Receipt.image) T.honest files.now
        made (moment_of (C.calls folder.old) (S.told source) (T.told target))
        (moment_of (C.calls folder.new) (S.told result.1) (T.told result.2))) }
    ensures whole { IfOk result.0 (λ made. to_first_fault ≡ false → made.stop ≡ None) }
    ensures refused { IfErr result.0 (λ e. IsUnimported to_first_fault
        (Stored S.Receipt (S.is_of N.place) S.Receipt.number S.Receipt.image)
        (Stored T.Receipt (T.is_of M.place) T.Receipt.number T.Receipt.image) (S.refuses N.place)
        (T.refuses M.place) T.honest files.now e
        (moment_of (C.calls folder.old) (S.told source) (T.told target))
        (moment_of (C.calls folder.new) (S.told result.1) (T.told result.2))) }
    ensures place { C.place folder.new ≡ C.place folder.old }
{
    let mut source: NamedShelf<N, S> = NamedShelf::of(source);
    let mut target: NamedShelf<M, T> = NamedShelf::of(target);
    let made = import_named(
        rt,
        alloc,
        folder,
        files,
        &mut source,
        &mut target,
        records,
        to_first_fault,
    );
    (made, source.into_shelf(), target.into_shelf())
}

/// Copies the database of a shelf, and the logs among these files in the folder, to another shelf.
/// The shelves are given back.
pub(crate) fn import<C: FolderCalls, S: Shelf, T: Shelf, R: Wait>(
    rt: &R,
    alloc: Global,
    folder: &mut C,
    files: &[FolderFile],
    source: S,
    target: T,
    to_first_fault: bool,
) -> (Result<CopyMade, CopyFault>, S, T)
    ensures done { IfOk result.0 (λ made. IsImported to_first_fault
        (Stored S.Receipt (S.is_of (S.told source).place) S.Receipt.number S.Receipt.image)
        (Stored T.Receipt (T.is_of (T.told target).place) T.Receipt.number T.Receipt.image)
        T.honest files.now made (moment_of (C.calls folder.old) (S.told source) (T.told target))
        (moment_of (C.calls folder.new) (S.told result.1) (T.told result.2))) }
    ensures whole { IfOk result.0 (λ made. to_first_fault ≡ false → made.stop ≡ None) }
    ensures refused { IfErr result.0 (λ e. IsUnimported to_first_fault
        (Stored S.Receipt (S.is_of (S.told source).place) S.Receipt.number S.Receipt.image)
        (Stored T.Receipt (T.is_of (T.told target).place) T.Receipt.number T.Receipt.image)
        (S.refuses (S.told source).place) (T.refuses (T.told target).place) T.honest files.now e
        (moment_of (C.calls folder.old) (S.told source) (T.told target))
        (moment_of (C.calls folder.new) (S.told result.1) (T.told result.2))) }
    ensures place { C.place folder.new ≡ C.place folder.old }
{
    match Records::new(alloc) {
        Ok(records) => {
            import_as::<C, Brand, S, Brand, T, R>(
                rt,
                alloc,
                folder,
                files,
                source,
                target,
                records,
                to_first_fault,
            )
        }
        Err(fault) => (Err(CopyFault::from(fault)), source, target),
    }
}
