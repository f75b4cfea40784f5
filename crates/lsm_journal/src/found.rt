//! A database that is there, as it is found.

ghost use Rattle.std.specs.Prelude.{◌≡◌, ℕ, ◌-◌, ◌^◌, IfErr, IfOk, map};
ghost use Rattle.lsm_codec.specs.Lists.{Has};
ghost use Rattle.lsm_verify.specs.Counts.{count_of};
ghost use Rattle.lsm_journal.specs.Finding.{IsAfterManifest, IsFindRefusal, IsFound};
ghost use Rattle.lsm_journal.specs.Finding.{IsLeastFree, IsReadOnce};
ghost use Rattle.lsm_journal.specs.Recovering.{IsRecovered};
ghost use Rattle.lsm_shelf.specs.Told.{Becomes, Told, finding};
ghost use Rattle.lsm_journal.specs.declared.open_fault.OpenFault.TheVariants.{NumbersSpent};
ghost use Rattle.lsm_shelf.specs.Stored.{Stored};

use crate::journal::Journal;
use crate::laws::recovered_is_recorded;
use crate::manifest_limit::ManifestLimit;
use crate::open_fault::OpenFault;
use crate::recover::Recovered;
use lsm_table::{NamedShelf, Naming, Registry, Shelf};
use lsm_verify::{JudgedTables, Watch, check_by, judge_ahead};
use lsm_version::Version;
use std::alloc::Global;
use std::sync::{Arc, Wait};
use std::thread::Threads;

/// What is found of a database that is there.
#[derive(Drop)]
pub struct Found<N: Naming, S: Shelf> {
    /// The manifest that its directory names.
    pub journal: Journal,
    /// The version that this manifest records.
    pub version: Version<N, S>,
    /// How many bytes at the manifest's end hold no whole record.
    pub rest: u64,
    /// The next file number: the least that is at least the manifest's next file number and above
    /// every table that is listed, every table of the version, and the manifest.
    pub next: u64,
    /// How many entries the tables of each level have.
    pub counts: Vec<u64>,
}

/// The least number that is at least the first one and above all of these; `NumbersSpent` where one
/// of them is 2^64 - 1.
fn next_free(from: u64, taken: &[u64]) -> Result<u64, OpenFault>
    ensures ok { IfOk result (λ n. IsLeastFree from taken.now n) }
    ensures err { IfErr result (λ e. (e ≡ NumbersSpent) × Has taken.now (2 ^ 64 - 1)) }
{
    let mut next = from;
    for number in taken {
        if *number == u64::MAX {
            return Err(OpenFault::NumbersSpent);
        }
        next = next.max(*number + 1);
    }
    Ok(next)
}

impl<N: Naming, S: Shelf> Found<N, S> {
    /// Finds the database that is on a shelf: reads the manifest, judges the tables that it names,
    /// and lists those that are there. Nothing is written. The limit is that from which a new
    /// manifest is due.
    ///
    /// The refusals of `Journal::recover`; those of `lsm_verify::check`; those of listing the
    /// tables; then `NumbersSpent` where a table that is listed, or one of the version, or the
    /// manifest has the number 2^64 - 1; `OutOfMemory` on the way.
    pub fn read<R: Wait>(
        rt: &R,
        alloc: Global,
        shelf: &mut NamedShelf<N, S>,
        registry: &Arc<Registry<N, S>>,
        limit: ManifestLimit,
    ) -> Result<Found<N, S>, OpenFault>
        ensures found { IfOk result (λ f. IsFound S.honest limit f.journal f.version f.rest f.next
            shelf.old shelf.new) }
        ensures counts { IfOk result (λ f. f.counts.items ≡ map count_of f.version.tables) }
        ensures refused { IfErr result (λ e.
            IsFindRefusal (Stored S.Receipt (S.is_of N.place) S.Receipt.number S.Receipt.image)
            (S.refuses N.place) S.honest e shelf.old shelf.new) }
        ensures counts_err { IfErr result (λ e. IsReadOnce e shelf.old shelf.new) }
    {
        let recovered = Journal::recover(rt, alloc, shelf, limit)?;
        let none = JudgedTables::none(alloc);
        Found::of_manifest(rt, alloc, shelf, registry, recovered, none)
    }

    /// The same, by a thread for each of these shelves, forks of this one: they read and judge
    /// tables before this call comes to them, as `lsm_verify::judge_ahead` does, and the watch is
    /// told of each. The answer is one that `read` gives.
    pub fn read_by<R: Threads + Wait + Sync, W: Watch + Sync>(
        rt: &R,
        alloc: Global,
        shelf: &mut NamedShelf<N, S>,
        registry: &Arc<Registry<N, S>>,
        limit: ManifestLimit,
        shelves: Vec<NamedShelf<N, S>>,
        watch: &W,
    ) -> Result<Found<N, S>, OpenFault>
        ensures found { IfOk result (λ f. IsFound S.honest limit f.journal f.version f.rest f.next
            shelf.old shelf.new) }
        ensures counts { IfOk result (λ f. f.counts.items ≡ map count_of f.version.tables) }
        ensures refused { IfErr result (λ e.
            IsFindRefusal (Stored S.Receipt (S.is_of N.place) S.Receipt.number S.Receipt.image)
            (S.refuses N.place) S.honest e shelf.old shelf.new) }
        ensures counts_err { IfErr result (λ e. IsReadOnce e shelf.old shelf.new) }
    {
        let manifest = Journal::recover(rt, alloc, shelf, limit)?;
        let ahead = judge_ahead(rt, alloc, shelves, &manifest.shape, watch);
        Found::of_manifest(rt, alloc, shelf, registry, manifest, ahead)
    }

    /// What is found once the manifest was read.
    fn of_manifest<R: Wait>(
        rt: &R,
        alloc: Global,
        shelf: &mut NamedShelf<N, S>,
        registry: &Arc<Registry<N, S>>,
        recovered: Recovered,
        ahead: JudgedTables<N, S>,
    ) -> Result<Found<N, S>, OpenFault>
        requires recovered { IsRecovered recovered.journal recovered.shape recovered.rest }
        ensures found { (was : Told)
            → Becomes (finding recovered.journal.number recovered.journal.bytes was) shelf.old
            → IfOk result (λ f. IsFound S.honest recovered.journal.limit f.journal f.version f.rest
            f.next was shelf.new) }
        ensures counts { IfOk result (λ f. f.counts.items ≡ map count_of f.version.tables) }
        ensures refused { (was : Told)
            → Becomes (finding recovered.journal.number recovered.journal.bytes was) shelf.old
            → IfErr result (λ e. IsFindRefusal
            (Stored S.Receipt (S.is_of N.place) S.Receipt.number S.Receipt.image)
            (S.refuses N.place) S.honest e was shelf.new) }
        ensures later { IfErr result IsAfterManifest }
    {
        recovered_is_recorded();
        let shared = Arc::try_clone(registry)?;
        let shape = &recovered.shape;
        let (version, counts) = check_by(shelf, rt, alloc, shape, shared, ahead)?;
        let mut taken = shelf.list(rt, alloc)?;
        version.push_numbers(&mut taken)?;
        taken.push(recovered.journal.number())?;
        let next = next_free(recovered.shape.next, &taken)?;
        Ok(Found {
            journal: recovered.journal,
            version,
            rest: recovered.rest,
            next,
            counts,
        })
    }
}
