//! What a change sends to the shelf.

ghost use Rattle.std.specs.Prelude.{◌≡◌, ◌+◌, ◌<◌, ◌^◌, ◌++◌, IfErr, IfOk, OnErr, OnOk, true};
ghost use Rattle.lsm_shelf.specs.Asked.{AppendManifest};
ghost use Rattle.lsm_shelf.specs.Refusals.{IsWantOr};
ghost use Rattle.lsm_shelf.specs.Told.{Becomes, Counted, CountedBy, NotTaken, TakenIs};
ghost use Rattle.lsm_manifest.specs.Edit.{IsEdit};
ghost use Rattle.lsm_manifest.specs.EditWriting.{edit_text};
ghost use Rattle.lsm_journal.specs.HeldManifest.{is_at_limit};
ghost use Rattle.lsm_journal.specs.Recorded.{FitsLevels, IsRecorded};
ghost use Rattle.lsm_journal.specs.Difference.{LeadsTo};
ghost use Rattle.lsm_journal.specs.Sending.{Grows, IsSendRefusal, RollsOver, Sends, asked_by};
ghost use Rattle.lsm_journal.specs.Sending.{started_by};
ghost use Rattle.lsm_journal.specs.Writing.{change_edit, record_of};

use crate::journal::Journal;
use crate::version_change::VersionChange;
use crate::written::{manifest_of, push_record};
use lsm_table::{NamedShelf, Naming, Registry, Shelf, ShelfFault};
use lsm_version::{Version, changed_tables};
use std::alloc::{AllocError, Global};
use std::sync::Wait;

impl Journal {
    /// Appends the record of a change here.
    fn add_record<N: Naming, S: Shelf>(
        &mut self,
        alloc: Global,
        registry: &Registry<N, S>,
        change: &VersionChange<N, S>,
        next: u64,
    ) -> Result<(), AllocError>
        ensures held { OnOk result (self.new ≡ record self.old {
          bytes = self.old.bytes
              ++ record_of self.old.bytes (change_edit self.old change.now next);
        }) }
        ensures spelled { OnOk result (IsEdit (edit_text (change_edit self.old change.now next))
            (change_edit self.old change.now next)) }
        ensures err { OnErr result (self.new ≡ self.old) }
    {
        let edit = self.change_edit(alloc, registry, change, next)?;
        push_record(&mut self.bytes, alloc, &edit)
    }

    /// Appends the record of a change, here and on the shelf.
    #[tactic(auto, using(lsm_shelf::proofs::CallerLemmas::want_or))]
    fn append<N: Naming, S: Shelf, R: Wait>(
        &mut self,
        rt: &R,
        alloc: Global,
        shelf: &mut NamedShelf<N, S>,
        registry: &Registry<N, S>,
        change: &VersionChange<N, S>,
        next: u64,
    ) -> Result<(), ShelfFault>
        ensures grows { OnOk result (Grows (change_edit self.old change.now next) self.old self.new
            shelf.old shelf.new) }
        ensures err { OnErr result (self.new ≡ self.old) }
        ensures unsent { OnErr result (Becomes shelf.old shelf.new) }
        ensures cause { IfErr result (λ e. NotTaken e × Counted e shelf.old shelf.new) }
        ensures asked { IfErr result (IsWantOr (S.refuses N.place
            (AppendManifest (record_of self.old.bytes (change_edit self.old change.now next))))) }
        ensures counts { CountedBy result shelf.old shelf.new }
    {
        let len = self.bytes.len();
        self.add_record(alloc, registry, change, next)?;
        let (_, record) = self.bytes.split_at(len);
        match shelf.append_manifest(rt, record) {
            Ok(()) => Ok(()),
            Err(fault) => {
                self.bytes.truncate(len);
                Err(fault)
            }
        }
    }

    /// Begins a new manifest that spells a version. By its size the limit grows, if it does.
    #[tactic(auto, using(lsm_shelf::proofs::CallerLemmas::want_or))]
    pub(crate) fn start<N: Naming, S: Shelf, R: Wait>(
        &mut self,
        rt: &R,
        alloc: Global,
        shelf: &mut NamedShelf<N, S>,
        registry: &Registry<N, S>,
        version: &Version<N, S>,
        number: u64,
    ) -> Result<(), ShelfFault>
        requires keys { FitsLevels version.now }
        requires numbers { number + 1 < 2 ^ 64 }
        ensures rolls { OnOk result
            (RollsOver version.now number self.old self.new shelf.old shelf.new) }
        ensures err { OnErr result (self.new ≡ self.old) }
        ensures unsent { OnErr result (Becomes shelf.old shelf.new) }
        ensures cause { IfErr result (λ e. TakenIs number e × Counted e shelf.old shelf.new) }
        ensures asked { IfErr result (IsWantOr
            (S.refuses N.place (started_by version.now number self.old))) }
        ensures counts { CountedBy result shelf.old shelf.new }
    {
        let edit = self.version_edit(alloc, registry, version, number + 1)?;
        let bytes = manifest_of(alloc, &edit)?;
        shelf.start_manifest(rt, alloc, number, &bytes)?;
        self.limit = self.limit.grown(bytes.len());
        self.number = number;
        self.bytes = bytes;
        Ok(())
    }

    /// Sends a change, and gives the next file number afterwards. Below the limit the record of its
    /// edit is appended. From the limit on a new manifest begins, which spells the version after
    /// the change; its number is the next file number, so the next one is one more, and by its size
    /// the limit grows, if it does.
    ///
    /// The bytes are made before anything is sent: after `OutOfMemory` nothing was. Of an append
    /// `Missing` and `Device`: after `Device` the shelf's manifest is the old bytes and a prefix of
    /// the new ones. Of a new manifest `Taken` and `Device`: after `Device` the directory names the
    /// old manifest or the new one whole. After a refusal the journal is as before.
    pub fn send<N: Naming, S: Shelf, R: Wait>(
        &mut self,
        rt: &R,
        alloc: Global,
        shelf: &mut NamedShelf<N, S>,
        registry: &Registry<N, S>,
        change: &VersionChange<N, S>,
        after: &Version<N, S>,
        next: u64,
    ) -> Result<u64, ShelfFault>
        requires leads { LeadsTo self.old change.now after.now next }
        requires numbers { is_at_limit self.old ≡ true → next + 1 < 2 ^ 64 }
        ensures sends { IfOk result (λ n. Sends change.now after.now next n self.old self.new
            shelf.old shelf.new) }
        ensures recorded { IfOk result (λ n. IsRecorded 0 self.new after.now n) }
        ensures err { OnErr result (self.new ≡ self.old) }
        ensures unsent { OnErr result (Becomes shelf.old shelf.new) }
        ensures cause { IfErr result (λ e. IsSendRefusal self.old next e shelf.old shelf.new) }
        ensures asked { IfErr result (IsWantOr
            (S.refuses N.place (asked_by change.now after.now next self.old))) }
        ensures counts { CountedBy result shelf.old shelf.new }
    {
        changed_tables();
        // That the change fits is told by this call.
        let _fits = change.last();
        if self.is_at_limit() {
            self.start(rt, alloc, shelf, registry, after, next)?;
            Ok(next + 1)
        } else {
            self.append(rt, alloc, shelf, registry, change, next)?;
            Ok(next)
        }
    }
}
