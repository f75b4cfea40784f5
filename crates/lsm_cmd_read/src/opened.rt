//! A directory that is opened to be read.

ghost use Rattle.std.specs.Prelude.{◌≡◌, IfErr, IfOk, map};
ghost use Rattle.lsm_verify.specs.Counts.{count_of};
ghost use Rattle.lsm_cmd_read.specs.Directory.{AreGiven, Holds, OnlyReads};
ghost use Rattle.lsm_cmd_read.specs.Opening.{IsOpenRefusal};
ghost use Rattle.lsm_shelf.specs.Stored.{Stored};

use crate::given::tables_are_given;
use lsm_directory::{DirectoryFault, NamedManifest};
use lsm_journal::{Found, ManifestLimit};
use lsm_table::{NamedShelf, Naming, Registry, Shelf};
use lsm_verify::Watch;
use lsm_version::Version;
use std::alloc::Global;
use std::sync::{Arc, Wait};
use std::thread::Threads;

/// A directory that is opened to be read: its version, the manifest that records it, and how many
/// entries the tables of each level have.
#[derive(Drop)]
pub struct Opened<N: Naming, S: Shelf> {
    pub version: Version<N, S>,
    pub manifest: NamedManifest,
    pub counts: Vec<u64>,
    ghost counted: { counts.items ≡ map count_of version.tables },
}

/// Opens the directory of a shelf to read, as `Found::read` does: reads the manifest that it names,
/// reads and judges every table, and lists those that are there. Nothing is written. A thread for
/// each of these shelves, forks of this one, reads and judges tables before, and the watch is told
/// of each.
///
/// The refusals of `Found::read`: those of `Journal::recover`, then those of `lsm_verify::check`,
/// those of listing the tables, and `NumbersSpent`.
pub fn open<N: Naming, S: Shelf, R: Threads + Wait + Sync, W: Watch + Sync>(
    rt: &R,
    alloc: Global,
    shelf: &mut NamedShelf<N, S>,
    registry: &Arc<Registry<N, S>>,
    shelves: Vec<NamedShelf<N, S>>,
    watch: &W,
) -> Result<Opened<N, S>, DirectoryFault>
    ensures opened { IfOk result (λ o.
        Holds S.honest shelf.old shelf.new o.version o.manifest) }
    ensures given { IfOk result (λ o. AreGiven (Stored S.Receipt (S.is_of N.place) S.Receipt.number
        S.Receipt.image) o.version) }
    ensures refused { IfErr result (λ e.
        IsOpenRefusal (Stored S.Receipt (S.is_of N.place) S.Receipt.number S.Receipt.image)
        (S.refuses N.place) S.honest e shelf.old shelf.new) }
    ensures reads { OnlyReads shelf.old shelf.new }
{
    // A journal that nothing is sent through has no use for its limit.
    let limit = ManifestLimit::none();
    let found = Found::read_by(rt, alloc, shelf, registry, limit, shelves, watch)?;
    tables_are_given(&found.version);
    Ok(Opened {
        version: found.version,
        manifest: NamedManifest {
            number: found.journal.number(),
            rest: found.rest,
            log: found.journal.log(),
            prev_log: found.journal.prev_log(),
        },
        counts: found.counts,
    })
}
