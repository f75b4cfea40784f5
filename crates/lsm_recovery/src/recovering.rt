//! The logs of a folder come into its database.

ghost use Rattle.std.specs.Prelude.{◌≡◌, false, IfErr, IfOk, None};
ghost use Rattle.lsm_shelf.specs.Stored.{Stored};
ghost use Rattle.lsm_recovery.specs.Recovered.{FailsOn, FailsTo, IsRecovered, IsUnrecovered};
ghost use Rattle.lsm_recovery.specs.Recovered.{RecoversOn, RecoversBy, moment_of};

use crate::bring_fault::BringFault;
use crate::bringing::bring_in;
use crate::brought::Brought;
use lsm_directory::FolderFile;
use lsm_folder::FolderCalls;
use lsm_log_files::{SourceFront, SourceRead, read_source_to};
use lsm_storage::FileShelf;
use lsm_table::{NamedShelf, Naming, Records, Shelf};
use std::alloc::Global;
use std::marker::Brand;
use std::sync::Wait;

/// Brings the logs among these files in the folder into the database of a shelf on it. Where none
/// is to be read, nothing is written.
fn recover_named<C: FolderCalls, N: Naming, S: Shelf, R: Wait>(
    rt: &R,
    alloc: Global,
    folder: &mut C,
    files: &[FolderFile],
    shelf: &mut NamedShelf<N, S>,
    records: Records<S::Receipt>,
    to_first_fault: bool,
) -> Result<Brought, BringFault>
    requires named { records ≡ N.registry }
    ensures done { IfOk result (λ brought. IsRecovered to_first_fault
        (Stored S.Receipt (S.is_of N.place) S.Receipt.number S.Receipt.image) S.honest files.now
        brought (moment_of (C.calls folder.old) shelf.old)
        (moment_of (C.calls folder.new) shelf.new)) }
    ensures whole { IfOk result (λ b. to_first_fault ≡ false → b.stop ≡ None) }
    ensures refused { IfErr result (λ e. IsUnrecovered to_first_fault
        (Stored S.Receipt (S.is_of N.place) S.Receipt.number S.Receipt.image) (S.refuses N.place)
        S.honest files.now e (moment_of (C.calls folder.old) shelf.old)
        (moment_of (C.calls folder.new) shelf.new)) }
    ensures place { C.place folder.new ≡ C.place folder.old }
{
    let SourceFront {
        source,
        count,
        stop,
    } = match read_source_to(rt, alloc, folder, files, shelf, to_first_fault) {
        Ok(read) => read,
        Err(fault) => return Err(BringFault::Read(fault)),
    };
    let SourceRead {
        shape,
        numbers,
        logs,
        rest,
    } = source;
    if count == 0 {
        return Ok(Brought {
            logs: 0,
            entries: 0,
            rest,
            stop,
        });
    }
    let entries = bring_in(rt, alloc, shelf, records, files, &shape, numbers, logs)?;
    Ok(Brought {
        logs: count,
        entries,
        rest,
        stop,
    })
}

/// The same under the name that was picked for the records and the shelf, which is given back.
fn recover_as<C: FolderCalls, N: Naming, S: Shelf, R: Wait>(
    rt: &R,
    alloc: Global,
    folder: &mut C,
    files: &[FolderFile],
    shelf: S,
    records: Records<S::Receipt>,
    to_first_fault: bool,
) -> (Result<Brought, BringFault>, S)
    requires named { records ≡ N.registry }
    requires shelf { (S.told shelf).place ≡ N.place }
    ensures done { IfOk result.0 (λ brought. IsRecovered to_first_fault
        (Stored S.Receipt (S.is_of N.place) S.Receipt.number S.Receipt.image) S.honest files.now
        brought (moment_of (C.calls folder.old) (S.told shelf))
        (moment_of (C.calls folder.new) (S.told result.1))) }
    ensures whole { IfOk result.0 (λ b. to_first_fault ≡ false → b.stop ≡ None) }
    ensures refused { IfErr result.0 (λ e. IsUnrecovered to_first_fault
        (Stored S.Receipt (S.is_of N.place) S.Receipt.number S.Receipt.image) (S.refuses N.place)
        S.honest files.now e (moment_of (C.calls folder.old) (S.told shelf))
        (moment_of (C.calls folder.new) (S.told result.1))) }
    ensures place { C.place folder.new ≡ C.place folder.old }
{
    let mut shelf: NamedShelf<N, S> = NamedShelf::of(shelf);
    let brought = recover_named(
        rt,
        alloc,
        folder,
        files,
        &mut shelf,
        records,
        to_first_fault,
    );
    (brought, shelf.into_shelf())
}

/// Brings the logs among these files in the folder into the database of a shelf on it, which is
/// given back.
fn recover<C: FolderCalls, S: Shelf, R: Wait>(
    rt: &R,
    alloc: Global,
    folder: &mut C,
    files: &[FolderFile],
    shelf: S,
    to_first_fault: bool,
) -> (Result<Brought, BringFault>, S)
    ensures done { IfOk result.0 (λ brought. IsRecovered to_first_fault
        (Stored S.Receipt (S.is_of (S.told shelf).place) S.Receipt.number S.Receipt.image)
        S.honest files.now brought (moment_of (C.calls folder.old) (S.told shelf))
        (moment_of (C.calls folder.new) (S.told result.1))) }
    ensures whole { IfOk result.0 (λ b. to_first_fault ≡ false → b.stop ≡ None) }
    ensures refused { IfErr result.0 (λ e. IsUnrecovered to_first_fault
        (Stored S.Receipt (S.is_of (S.told shelf).place) S.Receipt.number S.Receipt.image)
        (S.refuses (S.told shelf).place) S.honest files.now e
        (moment_of (C.calls folder.old) (S.told shelf))
        (moment_of (C.calls folder.new) (S.told result.1))) }
    ensures place { C.place folder.new ≡ C.place folder.old }
{
    match Records::new(alloc) {
        Ok(records) => recover_as::<C, Brand, S, R>(
            rt,
            alloc,
            folder,
            files,
            shelf,
            records,
            to_first_fault,
        ),
        Err(fault) => (Err(BringFault::from(fault)), shelf),
    }
}

/// Brings the logs among these files of a folder into its database, by a shelf on a fork of the
/// folder. Its lock is to be held, and the files are to be those that may be logs
/// (`lsm_opening::prepare`).
///
/// Of each key that the logs write, the last write comes in as one table more, at level 0; then a
/// new manifest names it and the tables that are there, and reads none of the logs. Where none is to
/// be read, nothing is written. A log that is damaged, or begins below the end of the one before,
/// is refused; or, to the first fault, it comes in as far as it has none, and no later one does.
/// After a refusal the database is as it was, but for one of the device while the manifest is
/// begun: then it is as it was, or has the logs.
pub fn recover_to<C: FolderCalls + Send + Sync, R: Wait>(
    rt: &R,
    alloc: Global,
    folder: &mut C,
    files: &[FolderFile],
    to_first_fault: bool,
) -> Result<Brought, BringFault>
where
    C::Mark: Send + Sync,
    ensures done { IfOk result (λ b. RecoversBy C.FolderCalls C.Mark.Mark to_first_fault files.now
        folder.old folder.new b) }

    // Nothing is left out where that is not asked for.
    ensures whole { IfOk result (λ b. to_first_fault ≡ false → b.stop ≡ None) }
    ensures refused { IfErr result
        (FailsTo C.FolderCalls C.Mark.Mark to_first_fault files.now folder.old folder.new) }
    ensures place { C.place folder.new ≡ C.place folder.old }
{
    let Ok(fork) = folder.fork() else {
        return Err(BringFault::OutOfMemory);
    };
    let shelf = FileShelf::over(fork);
    let (brought, _shelf) = recover(rt, alloc, folder, files, shelf, to_first_fault);
    brought
}

/// The same of whole logs alone.
pub fn recover_on<C: FolderCalls + Send + Sync, R: Wait>(
    rt: &R,
    alloc: Global,
    folder: &mut C,
    files: &[FolderFile],
) -> Result<Brought, BringFault>
where
    C::Mark: Send + Sync,
    ensures done { IfOk result (λ b.
        RecoversOn C.FolderCalls C.Mark.Mark files.now folder.old folder.new b) }
    ensures refused { IfErr result
        (FailsOn C.FolderCalls C.Mark.Mark files.now folder.old folder.new) }
    ensures place { C.place folder.new ≡ C.place folder.old }
{
    recover_to(rt, alloc, folder, files, false)
}
