//! The manifest of a copy, with which the target becomes a database.

ghost use Rattle.std.specs.Prelude.{◌≡◌, ◌∷◌, [], IfErr, IfOk, OnErr, OnOk};
ghost use Rattle.lsm_shelf.specs.Told.{Becomes, sending};
ghost use Rattle.lsm_manifest.specs.EditFit.{IsFit};
ghost use Rattle.lsm_manifest.specs.EditWriting.{AreInOrder, edit_text};
ghost use Rattle.lsm_manifest.specs.LogWriting.{record_text};
ghost use Rattle.lsm_manifest.specs.Manifest.{IsManifest};
ghost use Rattle.lsm_manifest.specs.Shape.{IsReplayed};
ghost use Rattle.lsm_import.specs.Copied.{IsBeginRefusal, IsFitting, begun_edit, manifest_of};

use crate::copied::Copied;
use crate::import_fault::ImportFault;
use lsm_manifest::{Edit, LogWriter, Shape, manifest_grows, replay};
use lsm_table::{NamedShelf, Naming, Shelf};
use std::alloc::{AllocError, Global};
use std::slice;
use std::sync::Wait;

/// The bytes of a manifest of one edit.
///
/// # Errors
/// `AllocError` where the memory was refused.
pub fn manifest_bytes(alloc: Global, edit: &Edit) -> Result<Vec<u8>, AllocError>
    requires fit { IsFit edit.now }
    requires ordered { AreInOrder edit.now.deleted }
    ensures bytes { IfOk result (λ bytes. bytes.items ≡ record_text 0 (edit_text edit.now)) }
    ensures manifest { OnOk result (IsManifest (record_text 0 (edit_text edit.now))
        (edit.now ∷ []) 0) }
{
    manifest_grows();
    let mut text = Vec::new(alloc);
    edit.encode(&mut text)?;
    let mut bytes = Vec::new(alloc);
    let mut writer = LogWriter::at(0);
    writer.append(&mut bytes, &text)?;
    Ok(bytes)
}

impl Copied {
    /// Begins the manifest of the copy, under the next file number, and answers the shape that its
    /// one edit comes to. From then on the target is a database; after `Unwritten` of `Device` it
    /// is one or not, and after any other refusal it is none.
    ///
    /// # Errors
    /// `NumbersSpent` where that number is 2^64 - 1; `Replay` where two files have one number;
    /// `Unwritten`; `OutOfMemory`.
    pub fn begin<M: Naming, T: Shelf, R: Wait>(
        self,
        rt: &R,
        alloc: Global,
        target: &mut NamedShelf<M, T>,
    ) -> Result<Shape, ImportFault>
        requires fits { IsFitting self }

        // The manifest was begun, and its one edit comes to this shape.
        ensures begun { OnOk result
            (Becomes (sending self.next (manifest_of self) target.old) target.new) }
        ensures manifest { OnOk result (IsManifest (manifest_of self) (begun_edit self ∷ []) 0) }
        ensures shape { IfOk result (IsReplayed (begun_edit self ∷ [])) }
        ensures err { OnErr result (Becomes target.old target.new) }
        ensures refused { IfErr result (IsBeginRefusal (T.refuses M.place) self) }
    {
        let Copied { edit, next, .. } = self;
        if next == u64::MAX {
            return Err(ImportFault::NumbersSpent);
        }
        let mut edit = edit;
        edit.next = Some(next + 1);
        let shape = match replay(alloc, slice::from_ref(&edit)) {
            Ok(shape) => shape,
            Err(fault) => return Err(ImportFault::Replay(fault)),
        };
        let bytes = manifest_bytes(alloc, &edit)?;
        match target.start_manifest(rt, alloc, next, &bytes) {
            Ok(()) => Ok(shape),
            Err(fault) => Err(ImportFault::Unwritten(fault)),
        }
    }
}
