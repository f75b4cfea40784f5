//! Version edits (LevelDB's `db/version_edit.cc`).

ghost use Rattle.std.specs.Prelude.{◌≡◌, ◌++◌, ℕ, List, IfOk, Ok, OnOk, OnErr};

use crate::draft::Draft;
use crate::edit_fault::EditFault;
use crate::edit_writer::push_edit;
use crate::field_reader::Field;
use crate::parts::{AddedFile, CompactPointer, DeletedFile};
use lsm_codec::{Bytes, List};
use std::alloc::{AllocError, Global};

/// A change of the levels, as one record of the manifest spells it. A field that the edit lacks is
/// `None`, or an empty list.
#[derive(Debug, Drop)]
pub struct Edit {
    /// The name of the comparator of user keys.
    pub comparator: Option<Bytes>,
    /// The number of the write-ahead log.
    pub log: Option<u64>,
    /// The number of the write-ahead log before it.
    pub prev_log: Option<u64>,
    /// The next file number.
    pub next: Option<u64>,
    /// The last sequence.
    pub last: Option<u64>,
    /// The compaction pointers that it sets.
    pub pointers: List<CompactPointer>,
    /// The files that it takes out of their levels.
    pub deleted: List<DeletedFile>,
    /// The files that it puts into levels.
    pub added: List<AddedFile>,
}

ghost use Rattle.lsm_manifest.specs.Edit.{IsEdit};
ghost use Rattle.lsm_manifest.specs.EditReading.{edit_at};
ghost use Rattle.lsm_manifest.specs.EditView.{Gives};
ghost use Rattle.lsm_manifest.specs.EditFit.{Change, IsFit};
ghost use Rattle.lsm_manifest.specs.EditWriting.{AreInOrder, edit_text};

impl Edit {
    /// Reads an edit: its fields in any order; of several values of one number field or of the
    /// comparator the last. The first fault from the front is named: `UnknownTag`, `BadLevel`,
    /// `EditCut` or `BadEditKey`; or `OutOfMemory`, where memory was refused.
    pub fn decode(alloc: Global, bytes: &[u8]) -> Result<Edit, EditFault>
        // What is read is spelled so.
        ensures found { IfOk result (λ edit. IsEdit bytes.now edit) }

        // What is spelled is read, unless memory runs out.
        ensures only { (edit : Change) → IsEdit bytes.now edit → Gives (λ e. e) result (Ok edit) }

        // Which fault it is.
        ensures exact { Gives (λ e. e) result (edit_at bytes.now) }

        // Its levels are 0 to 6, its keys internal keys, and its lengths fit 32 bits.
        ensures fit { IfOk result IsFit }
    {
        read(alloc, bytes)
    }

    /// Appends the bytes of the edit: comparator, log number, previous log number, next file
    /// number, last sequence, pointers, deletions, additions. A caller has the deletions by level,
    /// then number, as LevelDB writes them.
    #[tactic(auto, unfolding(crate::specs::EditWriting::edit_text), using(crate::proofs::EditWriterLaws::edit_written))]
    pub fn encode(&self, out: &mut Vec<u8>) -> Result<(), AllocError>
        requires fit { IsFit self.now }
        requires ordered { AreInOrder self.now.deleted }

        // An `Err` leaves the contents as they were.
        ensures err { OnErr result (out.new.items ≡ out.old.items) }

        // These bytes are added, and they spell the edit.
        ensures bytes { OnOk result (out.new.items ≡ out.old.items ++ edit_text self.now) }
        ensures spelled { OnOk result (IsEdit (edit_text self.now) self.now) }
    {
        let len = out.len();
        match push_edit(out, self) {
            Ok(()) => Ok(()),
            Err(error) => {
                out.truncate(len);
                Err(error)
            }
        }
    }
}

fn read(alloc: Global, text: &[u8]) -> Result<Edit, EditFault>
    ensures { Gives (λ e. e) result (edit_at text.now) }
{
    let mut draft = Draft::new(alloc);
    let mut rest = text;
    for _ in 0..text.len() {
        if rest.is_empty() {
            return Ok(draft.finish());
        }
        let (field, after) = Field::next(alloc, rest)?;
        draft.put(field)?;
        rest = after;
    }
    Ok(draft.finish())
}

/// A law: at most one edit fits a text.
pub fn one_edit()
    ensures { (bytes : List ℕ) (e f : Change) → IsEdit bytes e → IsEdit bytes f → e ≡ f }
{}
