//! What is summed up of the tables that a manifest names, and of a folder's files.

ghost use Rattle.std.specs.Prelude.{◌≡◌, IfOk};
ghost use Rattle.lsm_codec.specs.Lists.{Has};
ghost use Rattle.lsm_cmd_levels.specs.Totals.{AreTotals, IsIn, IsLeast, lesser};

use crate::folder_sums::FolderSums;
use lsm_codec::List;
use lsm_directory::FolderFile;
use lsm_manifest::{FileMeta, Shape};
use std::alloc::AllocError;

/// The least size of a table that a manifest names, none where there is none; and what the folder
/// has.
#[derive(Clone, Copy, Debug)]
pub struct Totals {
    pub(crate) least: Option<u64>,
    pub(crate) folder: FolderSums,
}

/// The lesser of two sizes, of which there may be none.
fn lesser(a: Option<u64>, b: Option<u64>) -> Option<u64>
    ensures { result ≡ lesser a b }
{
    match (a, b) {
        (None, _) => b,
        (Some(_), None) => a,
        (Some(n), Some(m)) => Some(n.min(m)),
    }
}

/// The least size of files.
#[tactic(auto, using(crate::proofs::TotalLaws::least_none))]
fn least_of(files: &[FileMeta]) -> Option<u64>
    ensures { IsLeast (Has files.now) result }
{
    let mut least = None;
    for file in files {
        least = lesser(least, Some(file.size));
    }
    least
}

/// The least size of the files of these levels.
#[tactic(auto, using(crate::proofs::TotalLaws::least_nowhere, crate::proofs::TotalLaws::least_anywhere))]
fn least_in(levels: &[List<FileMeta>]) -> Option<u64>
    ensures { IsLeast (IsIn levels.now) result }
{
    let mut least = None;
    for files in levels {
        least = lesser(least, least_of(files.as_slice()));
    }
    least
}

impl Totals {
    /// Those of a shape and of a folder's files.
    pub(crate) fn of(shape: &Shape, files: &[FolderFile]) -> Result<Totals, AllocError>
        ensures { IfOk result (λ t. AreTotals shape.now files.now t) }
    {
        Ok(Totals {
            least: least_in(&shape.levels),
            folder: FolderSums::of(files)?,
        })
    }
}
