//! The files that stand after some edits, by number.

ghost use Rattle.std.specs.Prelude.{◌≡◌, ◌==◌, ◌⊎◌, ◌↔◌, ◌++◌, [], ◌∷◌, ℕ, List, false, IsTrue};
ghost use Rattle.std.specs.Prelude.{if◌then◌else◌, Some, None, IfSome, IsSome, OnOk, IfOk, IfErr};
ghost use Rattle.lsm_manifest.specs.EditFit.{Change};
ghost use Rattle.lsm_manifest.specs.Replay.{Deletion, Stands, StandsIn, AreNew, IsDouble};
ghost use Rattle.lsm_manifest.specs.Replay.{NamesOther, IsInnocent, HasFault};

use crate::edit::Edit;
use crate::file_meta::FileMeta;
use crate::parts::{AddedFile, DeletedFile};
use crate::replay_fault::ReplayFault;
use lsm_codec::List;
use std::alloc::{AllocError, Global};
use std::collections::BTreeMap;

/// The files that stand, each under its number: no two have one.
#[derive(Drop)]
pub(crate) struct Standing<'a> {
    files: BTreeMap<u64, &'a AddedFile>,
}

impl<'a> Standing<'a> {
    ghost use Rattle.std.specs.Ordering.{nat_cmp};
    ghost use Rattle.std.specs.BTreeMap.{IsOrdered};
    ghost use Rattle.lsm_manifest.specs.Standing.{file_at, Tracks};
    ghost use Rattle.lsm_manifest.specs.Level.{level_of, all_of};
    ghost use Rattle.lsm_manifest.specs.HeldLevel.{HoldsLevel};

    pub(crate) fn new(alloc: Global) -> Standing<'a>
        ensures { (n : ℕ) → file_at result n ≡ None }
    {
        Standing {
            files: BTreeMap::new(alloc),
        }
    }

    /// Takes out the file of this number, if it stands at this level.
    pub(crate) fn delete(&mut self, file: &DeletedFile)
        ensures here { IfSome (file_at self.old file.now.number) (λ a. file_at self.new
            file.now.number ≡ (if a.level == file.now.level then None else Some a)) }
        ensures none { file_at self.old file.now.number ≡ None
            → file_at self.new file.now.number ≡ None }
        ensures others { (n : ℕ) → n == file.now.number ≡ false
            → file_at self.new n ≡ file_at self.old n }
    {
        let Some(added) = self.files.get(&file.number) else {
            return;
        };
        if added.level == file.level {
            self.files.remove(&file.number);
        }
    }

    /// Puts in a file whose number does not stand.
    pub(crate) fn add(&mut self, added: &'a AddedFile) -> Result<(), ReplayFault>
        ensures was { OnOk result (file_at self.old added.now.file.number ≡ None) }
        ensures here { OnOk result (file_at self.new added.now.file.number ≡ Some added.now) }
        ensures others { OnOk result ((n : ℕ) → n == added.now.file.number ≡ false
            → file_at self.new n ≡ file_at self.old n) }
        ensures err { IfErr result (λ e. (e ≡ ReplayFault.OutOfMemory)
            ⊎ ((e ≡ ReplayFault.DoubleFile added.now.file.number)
            × IsSome (file_at self.old added.now.file.number))) }
    {
        let number = added.file.number;
        if self.files.contains_key(&number) {
            return Err(ReplayFault::DoubleFile(number));
        }
        self.files.insert(number, added)?;
        Ok(())
    }

    /// Takes out what these deletions name: a deletion of a file that does not stand is ignored.
    fn delete_all(&mut self, deleted: &[DeletedFile])
        ensures { (es : List Change) → Tracks (Stands es) (file_at self.old)
            → Tracks (StandsIn es deleted.now []) (file_at self.new) }
    {
        for file in deleted {
            self.delete(file);
        }
    }

    /// Puts in what these additions name, up to the first whose number stands.
    fn add_all(&mut self, added: &'a [AddedFile]) -> Result<(), ReplayFault>
        ensures ok { OnOk result ((es : List Change) (ds : List Deletion)
            → Tracks (StandsIn es ds []) (file_at self.old)
            → Tracks (StandsIn es ds added.now) (file_at self.new) × AreNew es ds added.now) }
        ensures err { IfErr result (λ e. (es : List Change) (ds : List Deletion)
            → Tracks (StandsIn es ds []) (file_at self.old) → IsDouble es ds added.now e) }
    {
        for file in added {
            self.add(file)?;
        }
        Ok(())
    }

    /// One more edit: its comparator is judged first, its deletions come before its additions.
    pub(crate) fn apply(&mut self, edit: &'a Edit) -> Result<(), ReplayFault>
        ensures ok { OnOk result ((es : List Change) → Tracks (Stands es) (file_at self.old)
            → Tracks (Stands (es ++ edit.now ∷ [])) (file_at self.new) × IsInnocent es edit.now) }
        ensures err { IfErr result (λ e. (es : List Change) → Tracks (Stands es) (file_at self.old)
            → HasFault es edit.now e) }
    {
        if names_other(edit) {
            return Err(ReplayFault::OtherComparator);
        }
        self.delete_all(edit.deleted.as_slice());
        self.add_all(edit.added.as_slice())
    }

    /// Copies of the files that stand at a level, in the order of the level.
    pub(crate) fn level(&self, alloc: Global, level: u8) -> Result<List<FileMeta>, AllocError>
        ensures { IfOk result (λ files. (es : List Change) → Tracks (Stands es) (file_at self.now)
            → HoldsLevel es level files) }
    {
        let mut files = self.copies(alloc, level)?;
        files.sort_unstable_by(|a, b| a.compare(b));
        Ok(List::of(files))
    }

    /// Copies of the files that stand at a level, by number.
    fn copies(&self, alloc: Global, level: u8) -> Result<Vec<FileMeta>, AllocError>
        ensures ordered { IsOrdered nat_cmp self.now.files }
        ensures files { IfOk result (λ files. files.items ≡ level_of level (all_of self.now)) }
    {
        let mut files = Vec::new(alloc);
        for added in self.files.values() {
            if added.level != level {
                continue;
            }
            files.push(added.file.try_copy(alloc)?)?;
        }
        Ok(files)
    }
}

/// Whether an edit names a comparator other than LevelDB's own.
fn names_other(edit: &Edit) -> bool
    ensures { IsTrue result ↔ NamesOther edit.now }
{
    match &edit.comparator {
        Some(name) => name.as_slice() != b"leveldb.BytewiseComparator".as_slice(),
        None => false,
    }
}
