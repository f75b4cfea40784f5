//! What a folder's files come to.

ghost use Rattle.std.specs.Prelude.{◌≡◌, ◌+◌, [], IfOk, cond, string_bytes};
ghost use Rattle.lsm_cmd_levels.specs.Totals.{AreSums, IsKind, is_beside, is_manifest, is_table};

use crate::sums::{counted, sum_of};
use lsm_directory::{FileKind, FolderFile};
use std::alloc::AllocError;

/// How many tables, manifests and other files a folder has, and the bytes of all.
#[derive(Clone, Copy, Debug)]
pub struct FolderSums {
    pub(crate) tables: u128,
    pub(crate) manifests: u128,
    pub(crate) others: u128,
    pub(crate) bytes: u128,
}

/// The kind of a file.
fn kind_of(file: &FolderFile) -> FileKind
    ensures { IsKind (string_bytes file.now.name) result }
{
    FileKind::of(file.name.as_str())
}

/// Whether a file of this kind is a table.
fn is_table(kind: FileKind) -> bool
    ensures { result ≡ is_table kind }
{
    matches!(kind, FileKind::Table(_) | FileKind::OldTable(_))
}

/// Whether it is a manifest.
fn is_manifest(kind: FileKind) -> bool
    ensures { result ≡ is_manifest kind }
{
    matches!(kind, FileKind::Manifest(_))
}

impl FolderSums {
    /// Those of no file.
    fn none() -> FolderSums
        ensures { AreSums [] result }
    {
        FolderSums {
            tables: 0,
            manifests: 0,
            others: 0,
            bytes: 0,
        }
    }

    /// Those with one file more, of this kind and size.
    fn with(self, kind: FileKind, size: u64) -> Result<FolderSums, AllocError>
        ensures tables { IfOk result (λ s. s.tables ≡ self.tables + cond (is_table kind) 1 0) }
        ensures manifests { IfOk result (λ s.
            s.manifests ≡ self.manifests + cond (is_manifest kind) 1 0) }
        ensures others { IfOk result (λ s. s.others ≡ self.others + cond (is_beside kind) 1 0) }
        ensures bytes { IfOk result (λ s. s.bytes ≡ self.bytes + size) }
    {
        Ok(FolderSums {
            tables: sum_of(self.tables, counted(is_table(kind), 1))?,
            manifests: sum_of(self.manifests, counted(is_manifest(kind), 1))?,
            others: sum_of(self.others, counted(!kind.is_of_database(), 1))?,
            bytes: sum_of(self.bytes, u128::from(size))?,
        })
    }

    /// Those of a folder's files.
    pub(crate) fn of(files: &[FolderFile]) -> Result<FolderSums, AllocError>
        ensures { IfOk result (λ sums. AreSums files.now sums) }
    {
        let mut sums = FolderSums::none();
        for file in files {
            sums = sums.with(kind_of(file), file.size)?;
        }
        Ok(sums)
    }
}
