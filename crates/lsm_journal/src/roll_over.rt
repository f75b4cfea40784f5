//! A new manifest for a version.

ghost use Rattle.std.specs.Prelude.{◌≡◌, ◌+◌, ◌<◌, ◌^◌, ℕ, IfErr, OnErr, OnOk};
ghost use Rattle.lsm_shelf.specs.Refusals.{IsWantOr};
ghost use Rattle.lsm_shelf.specs.Told.{Becomes, Counted, CountedBy, TakenIs};
ghost use Rattle.lsm_journal.specs.Recorded.{IsRecorded};
ghost use Rattle.lsm_journal.specs.Sending.{RollsOver, started_by};

use crate::journal::Journal;
use crate::written::manifest_of;
use lsm_table::{NamedShelf, Naming, Registry, Shelf, ShelfFault};
use lsm_version::Version;
use std::alloc::Global;
use std::sync::Wait;

impl Journal {
    /// Begins a new manifest, of one edit that spells the version held: comparator, log numbers,
    /// next file number, last sequence, pointers by level, files by level. Its number is the next
    /// file number, so the next one is one more. A limit that grows is twice its bytes then, or
    /// what it was, where that is more.
    ///
    /// Its bytes are made before anything is sent: after `OutOfMemory` nothing was. `Taken` where
    /// the directory's manifest has this number, `Device` where the shelf failed; the directory
    /// then names the old manifest or the new one whole. After a refusal the journal is as before.
    pub fn roll_over<N: Naming, S: Shelf, R: Wait>(
        &mut self,
        rt: &R,
        alloc: Global,
        shelf: &mut NamedShelf<N, S>,
        registry: &Registry<N, S>,
        version: &Version<N, S>,
        number: u64,
    ) -> Result<(), ShelfFault>
        requires recorded { (rest : ℕ) × IsRecorded rest self.old version.now number }
        requires numbers { number + 1 < 2 ^ 64 }
        ensures rolls { OnOk result
            (RollsOver version.now number self.old self.new shelf.old shelf.new) }
        ensures recorded { OnOk result (IsRecorded 0 self.new version.now (number + 1)) }
        ensures err { OnErr result (self.new ≡ self.old) }
        ensures unsent { OnErr result (Becomes shelf.old shelf.new) }
        ensures cause { IfErr result (λ e. TakenIs number e × Counted e shelf.old shelf.new) }
        ensures asked { IfErr result (IsWantOr
            (S.refuses N.place (started_by version.now number self.old))) }
        ensures counts { CountedBy result shelf.old shelf.new }
    {
        self.start(rt, alloc, shelf, registry, version, number)
    }
}
