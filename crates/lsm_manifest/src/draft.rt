//! An edit while its fields are read.

ghost use Rattle.std.specs.Prelude.{◌≡◌, [], OnOk};

use crate::edit::Edit;
use crate::field_reader::Field;
use crate::parts::{AddedFile, CompactPointer, DeletedFile};
use lsm_codec::{Bytes, List};
use std::alloc::{AllocError, Global};

/// What the fields read so far come to.
#[derive(Drop)]
pub(crate) struct Draft {
    comparator: Option<Bytes>,
    log: Option<u64>,
    prev_log: Option<u64>,
    next: Option<u64>,
    last: Option<u64>,
    pointers: Vec<CompactPointer>,
    deleted: Vec<DeletedFile>,
    added: Vec<AddedFile>,
}

ghost use Rattle.lsm_manifest.specs.Edit.{edit_of};
ghost use Rattle.lsm_manifest.specs.EditView.{field_of};
ghost use Rattle.lsm_manifest.specs.DraftView.{draft_of, with_field};

impl Draft {
    #[tactic(auto, unfolding(crate::specs::Last::last_by, crate::specs::Edit::all_values))]
    pub(crate) fn new(alloc: Global) -> Draft
        ensures { draft_of result ≡ edit_of [] }
    {
        Draft {
            comparator: None,
            log: None,
            prev_log: None,
            next: None,
            last: None,
            pointers: Vec::new(alloc),
            deleted: Vec::new(alloc),
            added: Vec::new(alloc),
        }
    }

    /// One field more: a later number or comparator takes the place of an earlier one.
    pub(crate) fn put(&mut self, field: Field) -> Result<(), AllocError>
        ensures { OnOk result (draft_of self.new
            ≡ with_field (draft_of self.old) (field_of field)) }
    {
        match field {
            Field::Comparator(name) => self.comparator = Some(name),
            Field::Log(number) => self.log = Some(number),
            Field::PrevLog(number) => self.prev_log = Some(number),
            Field::Next(number) => self.next = Some(number),
            Field::Last(sequence) => self.last = Some(sequence),
            Field::Pointer(pointer) => self.pointers.push(pointer)?,
            Field::Deleted(file) => self.deleted.push(file)?,
            Field::Added(file) => self.added.push(file)?,
        }
        Ok(())
    }

    pub(crate) fn finish(self) -> Edit
        ensures { result ≡ draft_of self }
    {
        Edit {
            comparator: self.comparator,
            log: self.log,
            prev_log: self.prev_log,
            next: self.next,
            last: self.last,
            pointers: List::of(self.pointers),
            deleted: List::of(self.deleted),
            added: List::of(self.added),
        }
    }
}
