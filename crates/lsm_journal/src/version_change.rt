//! A change of a version.

ghost use Rattle.std.specs.Prelude.{◌≡◌, ◌≤◌, ◌↔◌, IfOk, IfSome, map};
ghost use Rattle.lsm_codec.specs.Lists.{Has};
ghost use Rattle.lsm_manifest.specs.Replay.{Deletion};
ghost use Rattle.std.specs.List.{All};
ghost use Rattle.std.specs.List.Sorted.{IsPermutation};
ghost use Rattle.std.specs.Option.{option_map};
ghost use Rattle.lsm_manifest.specs.EditFit.{FitsDeleted};
ghost use Rattle.lsm_manifest.specs.EditWriting.{AreInOrder};
ghost use Rattle.lsm_version.specs.Versions.{IsSound};
ghost use Rattle.lsm_journal.specs.Difference.{FitsComing, FitsDifference, FitsPlace, changed_by};
ghost use Rattle.lsm_journal.specs.Difference.{deleted_numbers};

use lsm_codec::Bytes;
use lsm_manifest::{DeletedFile, sort_deleted};
use lsm_table::{Naming, Shelf, TableRef};
use lsm_version::Version;
use std::alloc::{AllocError, Global};
use std::marker::Model;

/// A change of a version: the files that go, the tables that come, the pointer that a level gets,
/// and the last sequence afterwards. Both the version after it and its edit in the manifest are
/// made from it.
#[derive(Drop)]
pub struct VersionChange<N: Naming, S: Shelf> {
    pub(crate) deleted: Vec<DeletedFile>,
    pub(crate) added: Vec<(usize, TableRef<N, S>)>,
    pub(crate) pointer: Option<(usize, Bytes)>,
    pub(crate) last: u64,
}

impl<N: Naming, S: Shelf> Model for VersionChange<N, S> {
    ghost use Rattle.lsm_journal.specs.Difference.{Difference, FitsDifference};

    ghost Value = { Difference };

    ghost view = { λ c. record {
      deleted = c.deleted.items;
      added = c.added.items;
      pointer = c.pointer;
      last = c.last;
    } };

    ghost invariant = { λ c. FitsDifference record {
      deleted = c.deleted.items;
      added = c.added.items;
      pointer = c.pointer;
      last = c.last;
    } };
}

impl<N: Naming, S: Shelf> VersionChange<N, S> {
    /// A change of these parts: files that go, by level, 0 to 6, and number; tables that come, each
    /// with its level, 0 to 6; a level, 0 to 6, with its new pointer, an internal key; the last
    /// sequence afterwards. Keys are internal keys shorter than 4 GiB. The deletions are put in
    /// order, by level, then number.
    pub fn new(
        deleted: Vec<DeletedFile>,
        added: Vec<(usize, TableRef<N, S>)>,
        pointer: Option<(usize, Bytes)>,
        last: u64,
    ) -> VersionChange<N, S>
        requires deleted { All FitsDeleted deleted.items }
        requires added { All FitsComing added.items }
        requires pointer { IfSome pointer FitsPlace }
        ensures deleted { IsPermutation deleted.items result.deleted }
        ensures added { result.added ≡ added.items }
        ensures pointer { result.pointer ≡ pointer }
        ensures last { result.last ≡ last }
    {
        VersionChange {
            deleted: in_order(deleted),
            added,
            pointer,
            last,
        }
    }

    /// The last sequence after the change. What holds of every change is told here too.
    pub fn last(&self) -> u64
        ensures last { result ≡ self.now.last }
        ensures fits { FitsDifference self.now }
    {
        self.last
    }

    /// The version after the change. `AllocError` where a growth was refused.
    pub fn apply(&self, alloc: Global, version: &Version<N, S>) -> Result<Version<N, S>, AllocError>
        requires { S.honest → IsSound (changed_by self.now version.now) }
        ensures { IfOk result (λ v. v ≡ changed_by self.now version.now) }
    {
        let numbers = numbers_of(alloc, &self.deleted)?;
        let pointer = pointer_of(alloc, &self.pointer)?;
        version.change(alloc, &numbers, &self.added, pointer, self.last)
    }
}

/// The files that go by level, then number.
fn in_order(deleted: Vec<DeletedFile>) -> Vec<DeletedFile>
    ensures ordered { AreInOrder result.items }
    ensures moved { IsPermutation deleted.items result.items }
    ensures elements { (x : Deletion) → Has result.items x ↔ Has deleted.items x }
{
    let mut deleted = deleted;
    sort_deleted(&mut deleted);
    deleted
}

/// The numbers of the files that go.
fn numbers_of(alloc: Global, deleted: &[DeletedFile]) -> Result<Vec<u64>, AllocError>
    ensures { IfOk result (λ v. v.items ≡ map (λ x. x.number) deleted.now) }
{
    deleted.iter().map(|file| file.number).collect(alloc)
}

/// A copy of a level's pointer.
pub(crate) fn pointer_of(
    alloc: Global,
    pointer: &Option<(usize, Bytes)>,
) -> Result<Option<(usize, Bytes)>, AllocError>
    ensures { IfOk result (λ p. p ≡ pointer.now) }
{
    match pointer {
        None => Ok(None),
        Some((level, key)) => Ok(Some((*level, key.try_copy(alloc)?))),
    }
}
