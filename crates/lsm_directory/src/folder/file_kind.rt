//! Which file of a database a name is of.

ghost use Rattle.std.specs.Prelude.{◌≡◌, ◌≢◌};
ghost use Rattle.lsm_directory.specs.FileNames.{HasNoEnding, IsFileName, is_of_database, number_of};
ghost use Rattle.lsm_directory.specs.declared.folder.file_kind.FileKind.{FileKind};
ghost use Rattle.lsm_directory.specs.declared.folder.file_kind.FileKind.TheVariants.{Other};

use crate::folder::file_names::{number_before, number_behind};

/// Which file of a database a name is of, as LevelDB's `ParseFileName` reads it.
#[derive(Clone, Copy, Debug, PartialEq, Eq)]
pub enum FileKind {
    /// A table, `N.ldb`.
    Table(u64),
    /// A table as LevelDB named it up to 1.13, `N.sst`.
    OldTable(u64),
    /// `MANIFEST-N`.
    Manifest(u64),
    /// What becomes `CURRENT`, `N.dbtmp`.
    Temporary(u64),
    /// A write-ahead log, `N.log`.
    Log(u64),
    /// `CURRENT`, which names the manifest.
    Current,
    /// `LOCK`.
    Lock,
    /// Any other name.
    Other,
}

/// The kind of a name that begins with a number.
fn of_ending(name: &str) -> FileKind
    ensures known { result ≢ Other → IsFileName name.now result }
    ensures other { result ≡ Other → HasNoEnding name.now }
{
    if let Some(number) = number_before(".ldb", name) {
        return FileKind::Table(number);
    }
    if let Some(number) = number_before(".sst", name) {
        return FileKind::OldTable(number);
    }
    if let Some(number) = number_before(".dbtmp", name) {
        return FileKind::Temporary(number);
    }
    match number_before(".log", name) {
        Some(number) => FileKind::Log(number),
        None => FileKind::Other,
    }
}

impl FileKind {
    /// The file of this name.
    pub fn of(name: &str) -> FileKind
        ensures known { result ≢ Other → IsFileName name.now result }
        ensures other { result ≡ Other → (kind : FileKind) → IsFileName name.now kind → ⊥ }
    {
        if name == "CURRENT" {
            return FileKind::Current;
        }
        if name == "LOCK" {
            return FileKind::Lock;
        }
        match number_behind("MANIFEST-", name) {
            Some(number) => FileKind::Manifest(number),
            None => of_ending(name),
        }
    }

    /// The number in its name.
    pub fn number(self) -> Option<u64>
        ensures { result ≡ number_of self }
    {
        match self {
            FileKind::Table(number)
            | FileKind::OldTable(number)
            | FileKind::Manifest(number)
            | FileKind::Temporary(number)
            | FileKind::Log(number) => Some(number),
            FileKind::Current | FileKind::Lock | FileKind::Other => None,
        }
    }

    /// Whether it shows that a database was begun in its folder: a manifest or a table.
    pub fn is_of_database(self) -> bool
        ensures { result ≡ is_of_database self }
    {
        matches!(
            self,
            FileKind::Table(_) | FileKind::OldTable(_) | FileKind::Manifest(_)
        )
    }
}
