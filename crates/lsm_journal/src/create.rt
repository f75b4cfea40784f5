//! A new database's manifest.

ghost use Rattle.std.specs.Prelude.{◌≡◌, ◌+◌, ◌<◌, ◌^◌, IfErr, IfOk, OnOk};
ghost use Rattle.lsm_shelf.specs.Told.{Becomes, Rose, next_count, sending};
ghost use Rattle.lsm_version.specs.Versions.{no_levels};
ghost use Rattle.lsm_journal.specs.Recorded.{IsRecorded};
ghost use Rattle.lsm_journal.specs.Sending.{CreateCounted, CreateCountedUnder, IsCreateAsked};
ghost use Rattle.lsm_journal.specs.Sending.{IsCreateAskedUnder, IsCreateRefusal};
ghost use Rattle.lsm_journal.specs.Sending.{IsCreateRefusalUnder};
ghost use Rattle.lsm_journal.specs.Writing.{created, created_under};

use crate::journal::Journal;
use crate::manifest_limit::ManifestLimit;
use crate::written::{first_edit, manifest_of};
use lsm_table::{NamedShelf, Naming, Shelf, ShelfFault};
use std::alloc::Global;
use std::sync::Wait;

impl Journal {
    /// Begins a database where there is none: manifest 1, which records no table, and 2 as the next
    /// file number.
    ///
    /// `Taken` with the number of the manifest that is there; then `OutOfMemory`, `Device`, and
    /// `Taken` of number 1 where another began one meanwhile. A refused call sent nothing that took
    /// effect; after `Device` the manifest may be there or not.
    pub fn create<N: Naming, S: Shelf, R: Wait>(
        rt: &R,
        alloc: Global,
        shelf: &mut NamedShelf<N, S>,
        limit: ManifestLimit,
    ) -> Result<Journal, ShelfFault>
        ensures created { IfOk result (λ j. j ≡ created limit) }
        ensures recorded { IfOk result (λ j. IsRecorded 0 j no_levels 2) }
        ensures sent { IfOk result (λ j. Becomes (sending j.number j.bytes shelf.old) shelf.new) }

        // No manifest was there: the shelf said so.
        ensures missing { OnOk result (Rose shelf.old.misses shelf.new.misses) }
        ensures counts { OnOk result ((shelf.new.faults ≡ shelf.old.faults)
            × (shelf.new.misses ≡ next_count shelf.old.misses)) }
        ensures refused { IfErr result (λ e. IsCreateRefusal e shelf.old shelf.new) }
        ensures asked { IfErr result (λ e. IsCreateAsked (S.refuses N.place) e
            shelf.old shelf.new) }
        ensures counts_err { IfErr result (λ e. CreateCounted e shelf.old shelf.new) }
    {
        Journal::create_under(rt, alloc, shelf, limit, 1)
    }

    /// The same under another number: the manifest has this number, and the next file number is one
    /// more, so the number is below 2^64 - 1. It is for a folder in which files of an older
    /// database lie: the caller chooses a number above all of theirs.
    ///
    /// The refusals of `create`, with this number in place of 1.
    pub fn create_under<N: Naming, S: Shelf, R: Wait>(
        rt: &R,
        alloc: Global,
        shelf: &mut NamedShelf<N, S>,
        limit: ManifestLimit,
        number: u64,
    ) -> Result<Journal, ShelfFault>
        requires numbers { number + 1 < 2 ^ 64 }
        ensures created { IfOk result (λ j. j ≡ created_under number limit) }
        ensures recorded { IfOk result (λ j. IsRecorded 0 j no_levels (number + 1)) }
        ensures sent { IfOk result (λ j. Becomes (sending j.number j.bytes shelf.old) shelf.new) }

        // No manifest was there: the shelf said so.
        ensures missing { OnOk result (Rose shelf.old.misses shelf.new.misses) }
        ensures counts { OnOk result ((shelf.new.faults ≡ shelf.old.faults)
            × (shelf.new.misses ≡ next_count shelf.old.misses)) }
        ensures refused { IfErr result (λ e. IsCreateRefusalUnder number e shelf.old shelf.new) }
        ensures asked { IfErr result (λ e. IsCreateAskedUnder number
            (S.refuses N.place) e shelf.old shelf.new) }
        ensures counts_err { IfErr result (λ e. CreateCountedUnder number e shelf.old shelf.new) }
    {
        match shelf.read_manifest(rt, alloc) {
            Ok((taken, _)) => return Err(ShelfFault::Taken(taken)),
            Err(ShelfFault::Missing) => {}
            Err(fault) => return Err(fault),
        }
        let edit = first_edit(alloc, number)?;
        let bytes = manifest_of(alloc, &edit)?;
        shelf.start_manifest(rt, alloc, number, &bytes)?;
        Ok(Journal {
            number,
            bytes,
            log: 0,
            prev_log: 0,
            limit,
        })
    }
}
