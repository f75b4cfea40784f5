//! A database that is there, as it is found without reading its tables.

ghost use Rattle.std.specs.Prelude.{◌≡◌, ℕ, IfErr, IfOk, OnOk};
ghost use Rattle.lsm_shelf.specs.Told.{Becomes, Told, finding};
ghost use Rattle.lsm_journal.specs.Finding.{IsAfterManifest, IsFound};
ghost use Rattle.lsm_journal.specs.Recovering.{IsRecovered, IsRecoverRefusal, RecoverCounted};
ghost use Rattle.lsm_journal.specs.Recovering.{SameCounts};
ghost use Rattle.lsm_admission.specs.Admitted.{IsAdmitted, IsOpenRefusal};
ghost use Rattle.lsm_admission.specs.Keeping.{KeepsTables};

use crate::admitting::admit;
use crate::next_number::next_free;
use lsm_finding::Finding;
use lsm_journal::{
    Journal, ManifestLimit, OpenFault, RecoverFault, Recovered, recovered_is_recorded,
};
use lsm_table::{NamedShelf, Naming, Registry, Shelf};
use lsm_version::Version;
use std::alloc::Global;
use std::marker::Brand;
use std::sync::{Arc, Wait};

/// Reads a manifest over the shelf of a name, and gives the shelf back.
fn recover_named<N: Naming, S: Shelf, R: Wait>(
    rt: &R,
    alloc: Global,
    shelf: S,
    limit: ManifestLimit,
) -> (Result<Recovered, RecoverFault>, S)
    requires named { (S.told shelf).place ≡ N.place }
    ensures found { IfOk result.0 (λ r. Becomes
        (finding r.journal.number r.journal.bytes (S.told shelf)) (S.told result.1)) }
    ensures recovered { IfOk result.0 (λ r. IsRecovered r.journal r.shape r.rest) }
    ensures limit { IfOk result.0 (λ r. r.journal.limit ≡ limit) }
    ensures refused { IfErr result.0 (λ e. IsRecoverRefusal (S.refuses N.place) e
        (S.told shelf) (S.told result.1)) }
    ensures counts { OnOk result.0 (SameCounts (S.told shelf) (S.told result.1)) }
    ensures counts_err { IfErr result.0 (λ e. RecoverCounted e (S.told shelf) (S.told result.1)) }
{
    let mut shelf: NamedShelf<N, S> = NamedShelf::of(shelf);
    let recovered = Journal::recover(rt, alloc, &mut shelf, limit);
    (recovered, shelf.into_shelf())
}

/// Reads the manifest that the directory of a shelf names, and what its edits come to, before a
/// name is picked for the shelf: what its tables have to keep can then be said of the shape that
/// was read. The shelf is given back. As `Journal::recover`.
pub fn recover_manifest<S: Shelf, R: Wait>(
    rt: &R,
    alloc: Global,
    shelf: S,
    limit: ManifestLimit,
) -> (Result<Recovered, RecoverFault>, S)
    ensures found { IfOk result.0 (λ r. Becomes
        (finding r.journal.number r.journal.bytes (S.told shelf)) (S.told result.1)) }
    ensures recovered { IfOk result.0 (λ r. IsRecovered r.journal r.shape r.rest) }
    ensures limit { IfOk result.0 (λ r. r.journal.limit ≡ limit) }
    ensures refused { IfErr result.0 (λ e. IsRecoverRefusal (S.refuses (S.told shelf).place) e
        (S.told shelf) (S.told result.1)) }
    ensures counts { OnOk result.0 (SameCounts (S.told shelf) (S.told result.1)) }
    ensures counts_err { IfErr result.0 (λ e. RecoverCounted e (S.told shelf) (S.told result.1)) }
{
    recover_named::<Brand, S, R>(rt, alloc, shelf, limit)
}

/// What is found of a database that is there, without reading its tables.
#[derive(Drop)]
pub struct Admitted<N: Naming, S: Finding> {
    /// The manifest that its directory names.
    pub journal: Journal,
    /// The version that this manifest records.
    pub version: Version<N, S>,
    /// How many bytes at the manifest's end hold no whole record.
    pub rest: u64,
    /// The next file number: the least that is at least the manifest's next file number and above
    /// every table that is listed, every table of the version, and the manifest.
    pub next: u64,
}

impl<N: Naming, S: Finding> Admitted<N, S> {
    /// Finds the database of which this manifest was read, as `recover_manifest` reads one: finds
    /// the tables that it names, and lists those that are there. No table is read, and nothing is
    /// written. The premise, under an honest shelf, is that the shelf keeps the tables of this
    /// manifest (`KeepsTables`): then what is found is what `lsm_journal::Found` finds.
    ///
    /// The refusals of `admit`; those of listing the tables; then `NumbersSpent` where a table that
    /// is listed, or one of the version, or the manifest has the number 2^64 - 1; `OutOfMemory` on
    /// the way.
    pub fn of_manifest<R: Wait>(
        rt: &R,
        alloc: Global,
        shelf: &mut NamedShelf<N, S>,
        registry: &Arc<Registry<N, S>>,
        recovered: Recovered,
    ) -> Result<Admitted<N, S>, OpenFault>
        requires recovered { IsRecovered recovered.journal recovered.shape recovered.rest }
        requires kept { S.honest → KeepsTables (S.keeps N.place) recovered.shape }
        ensures admitted { (was : Told)
            → Becomes (finding recovered.journal.number recovered.journal.bytes was) shelf.old
            → IfOk result (λ f. IsAdmitted (S.keeps N.place) recovered.shape
            recovered.journal.limit f.journal f.version f.rest f.next was shelf.new) }
        ensures found { (was : Told)
            → Becomes (finding recovered.journal.number recovered.journal.bytes was) shelf.old
            → S.honest → IfOk result (λ f. IsFound S.honest recovered.journal.limit f.journal
            f.version f.rest f.next was shelf.new) }
        ensures refused { (was : Told)
            → Becomes (finding recovered.journal.number recovered.journal.bytes was) shelf.old
            → IfErr result (λ e. IsOpenRefusal (S.keeps N.place) (S.refuses N.place) e was
            shelf.new) }
        ensures later { IfErr result IsAfterManifest }
    {
        recovered_is_recorded();
        let shared = Arc::try_clone(registry)?;
        let version = admit(shelf, rt, alloc, &recovered.shape, shared)?;
        let mut taken = shelf.list(rt, alloc)?;
        version.push_numbers(&mut taken)?;
        taken.push(recovered.journal.number())?;
        let next = next_free(recovered.shape.next, &taken)?;
        Ok(Admitted {
            journal: recovered.journal,
            version,
            rest: recovered.rest,
            next,
        })
    }
}
