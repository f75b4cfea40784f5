//! What was copied of a database.

ghost use Rattle.std.specs.Prelude.{◌≡◌, ◌∷◌, [], IfErr, IfOk};
ghost use Rattle.lsm_shelf.specs.Stored.{Stored};
ghost use Rattle.lsm_shelf.specs.Told.{Becomes};
ghost use Rattle.lsm_table.specs.Options.{AreInRange};
ghost use Rattle.lsm_manifest.specs.Shape.{IsRefused, IsReplayed, IsShape};
ghost use Rattle.lsm_manifest.specs.WholeEdit.{FitsShape, files_from};
ghost use Rattle.lsm_import.specs.Copied.{IsCopiedOf, IsFitting, IsNotCopied};
ghost use Rattle.lsm_import.specs.Copies.{OnlyPuts};

use crate::copying::copy_tables;
use crate::fresh_numbers::number_above;
use crate::import_fault::ImportFault;
use lsm_codec::List;
use lsm_manifest::{Edit, ReplayFault, Shape, replay, whole_edit_replays};
use lsm_table::{NamedShelf, Naming, Shelf, TableOptions};
use std::alloc::Global;
use std::slice;
use std::sync::Wait;

/// What was copied of a database to another shelf, where no manifest names it yet.
#[derive(Debug, Drop)]
pub struct Copied {
    /// The one edit of its manifest: the tables that lie there, no log, the next file number and
    /// the last sequence.
    pub edit: Edit,
    /// The next file number, above those of all its tables.
    pub next: u64,
    /// The last sequence.
    pub last: u64,
    /// How many writes of logs came in: the entries of their table.
    pub writes: u64,
}

impl Copied {
    /// Copies the tables of a shape, each as a plain table under its number and at its level. The
    /// source is only read, and the target only gets tables.
    ///
    /// # Errors
    /// In the order of the levels and of the files in them: `Unread`, `Packed`, `WrongRange`,
    /// `Unwritten`, where tables before stay in the target; then `NumbersSpent`. `OutOfMemory` on
    /// the way.
    pub fn of<N: Naming, S: Shelf, M: Naming, T: Shelf, R: Wait>(
        rt: &R,
        alloc: Global,
        source: &mut NamedShelf<N, S>,
        target: &mut NamedShelf<M, T>,
        options: TableOptions,
        shape: &Shape,
    ) -> Result<Copied, ImportFault>
        requires options { AreInRange options }
        requires shape { IsShape shape.now }
        requires keys { FitsShape shape.now }

        // It has a table for each of the shape, of just the entries of that.
        ensures copied { IfOk result (IsCopiedOf
            (Stored S.Receipt (S.is_of N.place) S.Receipt.number S.Receipt.image)
            (Stored T.Receipt (T.is_of M.place) T.Receipt.number T.Receipt.image) shape.now) }
        ensures fits { IfOk result IsFitting }
        ensures read { Becomes source.old source.new }
        ensures puts { OnlyPuts target.old target.new }
        ensures refused { IfErr result (IsNotCopied
            (Stored S.Receipt (S.is_of N.place) S.Receipt.number S.Receipt.image)
            (Stored T.Receipt (T.is_of M.place) T.Receipt.number T.Receipt.image)
            (S.refuses N.place) (T.refuses M.place) options (files_from 0 shape.now.levels)) }
    {
        whole_edit_replays();
        let edit = Edit::whole(alloc, shape)?;
        let files = copy_tables(rt, alloc, source, target, options, edit.added.as_slice())?;
        let next = number_above(shape.next, &files)?;
        Ok(Copied {
            edit: Edit {
                comparator: edit.comparator,
                log: Some(0),
                prev_log: Some(0),
                next: Some(next),
                last: Some(shape.last),
                pointers: edit.pointers,
                deleted: edit.deleted,
                added: List::of(files),
            },
            next,
            last: shape.last,
            writes: 0,
        })
    }

    /// What the edit comes to: the shape of the copy.
    ///
    /// # Errors
    /// `OutOfMemory`; `DoubleFile` where two of the files have one number.
    pub fn shape(&self, alloc: Global) -> Result<Shape, ReplayFault>
        ensures found { IfOk result (IsReplayed (self.now.edit ∷ [])) }
        ensures refused { IfErr result (IsRefused (self.now.edit ∷ [])) }
    {
        replay(alloc, slice::from_ref(&self.edit))
    }
}
