//! A new manifest for a folder, of its whole tables.

ghost use Rattle.std.specs.Prelude.{◌≡◌, ◌+◌, ◌-◌, ◌<◌, ◌^◌, IfErr, IfOk, OnOk, map};
ghost use Rattle.std.specs.Prelude.{string_bytes};
ghost use Rattle.lsm_shelf.specs.Stored.{Stored};
ghost use Rattle.lsm_shelf.specs.declared.shelf_fault.ShelfFault.{ShelfFault};
ghost use Rattle.lsm_storage.specs.Plans.{WriteStopped, done, start_plan};
ghost use Rattle.lsm_repair.specs.Mending.{IsMended, IsUnmended, PutsAtMost};
ghost use Rattle.lsm_repair.specs.Repairing.{FailsOn, IsUnpicked, PicksNumber, RepairsOn};
ghost use Rattle.lsm_repair.specs.declared.mend_fault.MendFault.TheVariants.{Unwritten};

use crate::beginning::begin_manifest;
use crate::free_number::free_number;
use crate::left_out::LeftOut;
use crate::mend_fault::MendFault;
use crate::mending::{Mended, mend};
use crate::unsure_logs::unsure_logs;
use lsm_directory::folder_names;
use lsm_folder::FolderCalls;
use lsm_storage::FileShelf;
use lsm_table::{NamedShelf, Naming, Records, Shelf};
use std::alloc::Global;
use std::marker::Brand;
use std::sync::Wait;

/// A database that was repaired: how many tables are whole, how many entries the new one has, which
/// tables are left out, and the numbers of the logs that may have come in before, and that the new
/// manifest has one read.
#[derive(Drop)]
pub struct Repaired {
    pub tables: u64,
    pub entries: u64,
    pub left: Vec<LeftOut>,
    pub unsure: Vec<u64>,
}

/// The names of a folder's files, and the least number above those of all: it is a new table's, and
/// the next one a manifest's.
#[derive(Drop)]
struct Picked {
    names: Vec<String>,
    number: u64,
}

/// The names of a folder's files, and a number for a new table.
fn pick_number<C: FolderCalls, R: Wait>(
    rt: &R,
    alloc: Global,
    folder: &mut C,
) -> Result<Picked, MendFault>
    ensures picked { IfOk result (λ p. PicksNumber (map string_bytes p.names.items) p.number
        (C.calls folder.old) (C.calls folder.new)) }
    ensures few { IfOk result (λ p. p.number < 2 ^ 64 - 2) }
    ensures refused { IfErr result (λ e.
        IsUnpicked e (C.calls folder.old) (C.calls folder.new)) }
    ensures place { C.place folder.new ≡ C.place folder.old }
{
    let names = match folder_names(rt, alloc, folder) {
        Ok(names) => names,
        Err(fault) => return Err(MendFault::Unlisted(fault)),
    };
    match free_number(&names) {
        Some(number) => Ok(Picked { names, number }),
        None => Err(MendFault::NumbersSpent),
    }
}

/// Mends under the name that was picked for the records and the shelf, which is given back.
fn mend_as<N: Naming, S: Shelf, R: Wait>(
    rt: &R,
    alloc: Global,
    shelf: S,
    records: Records<S::Receipt>,
    number: u64,
) -> (Result<Mended, MendFault>, S)
    requires named { records ≡ N.registry }
    requires shelf { (S.told shelf).place ≡ N.place }
    requires number { number < 2 ^ 64 - 2 }
    ensures mended { IfOk result.0 (λ m. IsMended
        (Stored S.Receipt (S.is_of N.place) S.Receipt.number S.Receipt.image) (S.refuses N.place)
        number m.manifest.items m.logs m.tables m.entries m.left.items (S.told shelf)
        (S.told result.1)) }
    ensures at_most { PutsAtMost number (S.told shelf) (S.told result.1) }
    ensures refused { IfErr result.0 (IsUnmended
        (Stored S.Receipt (S.is_of N.place) S.Receipt.number S.Receipt.image) (S.refuses N.place)
        number (S.told shelf) (S.told result.1)) }
{
    // The records give the shelf its name, and nothing is put into them.
    drop(records);
    let mut shelf: NamedShelf<N, S> = NamedShelf::of(shelf);
    let mended = mend(rt, alloc, &mut shelf, number);
    (mended, shelf.into_shelf())
}

/// Mends a shelf, which is given back.
fn mend_shelf<S: Shelf, R: Wait>(
    rt: &R,
    alloc: Global,
    shelf: S,
    number: u64,
) -> (Result<Mended, MendFault>, S)
    requires number { number < 2 ^ 64 - 2 }
    ensures mended { IfOk result.0 (λ m. IsMended
        (Stored S.Receipt (S.is_of (S.told shelf).place) S.Receipt.number S.Receipt.image)
        (S.refuses (S.told shelf).place)
        number m.manifest.items m.logs m.tables m.entries m.left.items (S.told shelf)
        (S.told result.1)) }
    ensures at_most { PutsAtMost number (S.told shelf) (S.told result.1) }
    ensures refused { IfErr result.0 (IsUnmended
        (Stored S.Receipt (S.is_of (S.told shelf).place) S.Receipt.number S.Receipt.image)
        (S.refuses (S.told shelf).place) number (S.told shelf) (S.told result.1)) }
{
    match Records::new(alloc) {
        Ok(records) => mend_as::<Brand, S, R>(rt, alloc, shelf, records, number),
        Err(fault) => (Err(MendFault::from(fault)), shelf),
    }
}

/// Begins the manifest of what was mended, under the number behind the table's. The logs that may
/// have come in before are these.
fn begin<C: FolderCalls, R: Wait>(
    rt: &R,
    alloc: Global,
    folder: &mut C,
    number: u64,
    mended: Mended,
    unsure: Vec<u64>,
) -> Result<Repaired, MendFault>
    requires number { number < 2 ^ 64 - 2 }
    ensures begun { OnOk result (C.calls folder.new
        ≡ done (start_plan (number + 1) mended.manifest.items) (C.calls folder.old)) }
    ensures told { IfOk result (λ r. (r.tables ≡ mended.tables) × (r.entries ≡ mended.entries)
        × (r.left.items ≡ mended.left.items) × (r.unsure.items ≡ unsure.items)) }
    ensures refused { IfErr result (λ e. (fault : ShelfFault) × (e ≡ Unwritten fault)
        × WriteStopped (number + 1) mended.manifest.items fault (C.calls folder.old)
        (C.calls folder.new)) }
    ensures place { C.place folder.new ≡ C.place folder.old }
{
    let Mended {
        manifest,
        tables,
        entries,
        left,
        logs: _,
    } = mended;
    match begin_manifest(rt, alloc, folder, number + 1, &manifest) {
        Ok(()) => Ok(Repaired {
            tables,
            entries,
            left,
            unsure,
        }),
        Err(fault) => Err(MendFault::Unwritten(fault)),
    }
}

/// Begins a new manifest in a folder, which names one new table of all entries of its whole tables
/// (`N.ldb`), by a shelf on a fork of the folder. Its lock is to be held.
///
/// The new files have the least numbers above those of all files in the folder. No file that was
/// there is changed but `CURRENT`, and none is removed: tables, manifests and logs stay. The log
/// numbers are those of the manifest that `CURRENT` named, as far as that can be read; where none
/// can be, each log is one to read. After a refusal the folder is as it was but for new files; but
/// for one of the device while `CURRENT` gets its new text: then it names the old manifest or the
/// new one.
///
/// # Errors
/// `Unlisted`; `NumbersSpent`; `UnreadManifest`; `OtherComparator`; `Unread`; `NothingWhole`;
/// `TwoValues`; `TooLarge`; `Unwritten`; `OutOfMemory` on the way.
pub fn repair_on<C: FolderCalls + Send + Sync, R: Wait>(
    rt: &R,
    alloc: Global,
    folder: &mut C,
) -> Result<Repaired, MendFault>
where
    C::Mark: Send + Sync,
    ensures done { IfOk result (λ r. RepairsOn C.FolderCalls C.Mark.Mark folder.old folder.new
        r.tables r.entries r.left.items r.unsure.items) }
    ensures refused { IfErr result
        (FailsOn C.FolderCalls C.Mark.Mark folder.old folder.new) }
    ensures place { C.place folder.new ≡ C.place folder.old }
{
    let picked = pick_number(rt, alloc, folder)?;
    let Picked { names, number } = picked;
    let Ok(fork) = folder.fork() else {
        return Err(MendFault::OutOfMemory);
    };
    let shelf = FileShelf::over(fork);
    let (mended, _shelf) = mend_shelf(rt, alloc, shelf, number);
    let mended = match mended {
        Ok(mended) => mended,
        Err(fault) => return Err(fault),
    };
    let unsure = match unsure_logs(alloc, &names, mended.logs) {
        Ok(unsure) => unsure,
        Err(_) => return Err(MendFault::OutOfMemory),
    };
    begin(rt, alloc, folder, number, mended, unsure)
}
