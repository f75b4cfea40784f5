//! Which files of a folder its database needs.

ghost use Rattle.std.specs.Prelude.{◌≡◌, ◌↔◌, ℕ, IfErr, IfOk, MatchBool};
ghost use Rattle.std.specs.List.Sorted.{IsStrictlyIncreasing};
ghost use Rattle.lsm_codec.specs.Lists.{Has};
ghost use Rattle.lsm_cmd_write.specs.Cleaning.{HasNone, IsKept, IsSpare, IsUnkept, IsUnneeded};
ghost use Rattle.lsm_cmd_write.specs.Cleaning.{Needs};
ghost use Rattle.lsm_directory.specs.Logs.{IsReached};
ghost use Rattle.lsm_shelf.specs.Stored.{Stored};

use lsm_directory::FileKind;
use lsm_folder::FolderCalls;
use lsm_journal::{Found, Journal, ManifestLimit};
use lsm_opening::WriterFault;
use lsm_storage::FileShelf;
use lsm_table::{NamedShelf, Naming, Records, Registry, Shelf};
use std::alloc::{AllocError, Global};
use std::marker::Brand;
use std::sync::Wait;

/// The numbers, each once, ascending.
fn ascending(mut numbers: Vec<u64>) -> Result<Vec<u64>, AllocError>
    ensures ascending { IfOk result (λ v. IsStrictlyIncreasing v.items) }
    ensures all { IfOk result (λ v. (n : ℕ) → Has v.items n ↔ Has numbers.items n) }
{
    numbers.sort()?;
    numbers.dedup();
    Ok(numbers)
}

/// Whether a number is one of ascending ones.
fn is_among(numbers: &[u64], number: u64) -> bool
    requires { IsStrictlyIncreasing numbers.now }
    ensures { MatchBool result (Has numbers.now number) (Has numbers.now number → ⊥) }
{
    numbers.binary_search(&number).is_ok()
}

/// The manifest that `CURRENT` names, how many bytes at its end hold no whole record, and the
/// numbers of its version's tables, ascending.
#[derive(Debug, Drop)]
pub(crate) struct Kept {
    pub(crate) journal: Journal,
    pub(crate) rest: u64,
    pub(crate) tables: Vec<u64>,
    ghost ascending: { IsStrictlyIncreasing tables.items },
}

impl Kept {
    /// Whether LevelDB reads the log of this number when it opens the folder: the manifest's log
    /// number is not above it, or it is the previous log's.
    fn reads(&self, number: u64) -> bool
        ensures { MatchBool result
            (IsReached self.now.journal.log self.now.journal.prev_log number)
            (IsReached self.now.journal.log self.now.journal.prev_log number → ⊥) }
    {
        self.journal.log() <= number || number == self.journal.prev_log()
    }

    /// Whether the database does not need a file of this kind: it is another manifest, a table that
    /// the version does not have, a temporary file, or a log that LevelDB does not read.
    fn spares_kind(&self, kind: FileKind) -> bool
        ensures { MatchBool result (IsUnneeded self.now.journal self.now.tables.items kind)
            (IsUnneeded self.now.journal self.now.tables.items kind → ⊥) }
    {
        match kind {
            FileKind::Manifest(number) => number != self.journal.number(),
            FileKind::Table(number) => !is_among(&self.tables, number),
            FileKind::Temporary(_) => true,
            FileKind::Log(number) => !self.reads(number),
            FileKind::OldTable(_) | FileKind::Current | FileKind::Lock | FileKind::Other => false,
        }
    }

    /// Whether the database does not need the file of this name.
    pub(crate) fn spares(&self, name: &str) -> bool
        ensures { MatchBool result (IsSpare self.now.journal self.now.tables.items name.now)
            (IsSpare self.now.journal self.now.tables.items name.now → ⊥) }
    {
        self.spares_kind(FileKind::of(name))
    }
}

/// What the database on the shelf needs.
fn find_kept<N: Naming, S: Shelf, R: Wait>(
    rt: &R,
    alloc: Global,
    shelf: &mut NamedShelf<N, S>,
    records: Records<S::Receipt>,
) -> Result<Kept, WriterFault>
    requires named { records ≡ N.registry }
    ensures kept { IfOk result (λ k.
        IsKept S.honest k.journal k.rest k.tables.items shelf.old shelf.new) }
    ensures refused { IfErr result (λ e.
        IsUnkept (Stored S.Receipt (S.is_of N.place) S.Receipt.number S.Receipt.image)
        (S.refuses N.place) S.honest e shelf.old shelf.new) }
{
    let registry = Registry::shared(alloc, records)?;
    // A journal that nothing is sent through has no use for its limit.
    let found = Found::<N, S>::read(rt, alloc, shelf, &registry, ManifestLimit::none())?;
    let mut numbers = Vec::new(alloc);
    found.version.push_numbers(&mut numbers)?;
    let tables = ascending(numbers)?;
    Ok(Kept {
        journal: found.journal,
        rest: found.rest,
        tables,
    })
}

/// The same under the name that was picked for the records and the shelf, which is given back.
fn find_kept_as<N: Naming, S: Shelf, R: Wait>(
    rt: &R,
    alloc: Global,
    shelf: S,
    records: Records<S::Receipt>,
) -> (Result<Kept, WriterFault>, S)
    requires records { records ≡ N.registry }
    requires shelf { (S.told shelf).place ≡ N.place }
    ensures kept { IfOk result.0 (λ k.
        IsKept S.honest k.journal k.rest k.tables.items (S.told shelf) (S.told result.1)) }
    ensures refused { IfErr result.0 (λ e.
        IsUnkept (Stored S.Receipt (S.is_of N.place) S.Receipt.number S.Receipt.image)
        (S.refuses N.place) S.honest e (S.told shelf) (S.told result.1)) }
{
    let mut shelf: NamedShelf<N, S> = NamedShelf::of(shelf);
    let kept = find_kept(rt, alloc, &mut shelf, records);
    (kept, shelf.into_shelf())
}

/// What the database in a folder needs. The folder's value is asked for nothing but a fork.
pub(crate) fn kept_in<C: FolderCalls + Send + Sync, R: Wait>(
    rt: &R,
    alloc: Global,
    folder: &C,
) -> Result<Kept, WriterFault>
where
    C::Mark: Send + Sync,
    ensures kept { IfOk result (λ k.
        Needs C.FolderCalls (C.place folder.now) k.journal k.rest k.tables.items) }
    ensures refused { IfErr result (λ e.
        HasNone C.FolderCalls C.Mark.Mark (C.place folder.now) e) }
{
    let Ok(fork) = folder.fork() else {
        return Err(WriterFault::OutOfMemory);
    };
    let records = Records::new(alloc)?;
    let shelf = FileShelf::over(fork);
    let (kept, _shelf) = find_kept_as::<Brand, FileShelf<C>, R>(rt, alloc, shelf, records);
    kept
}
