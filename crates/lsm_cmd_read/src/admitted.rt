//! A directory that is opened to be read, and whose tables are found and not read.

ghost use Rattle.std.specs.Prelude.{◌≡◌, IfErr, IfOk};
ghost use Rattle.lsm_shelf.specs.Stored.{Stored};
ghost use Rattle.lsm_shelf.specs.Told.{Becomes, Told, finding};
ghost use Rattle.lsm_journal.specs.Recovering.{IsRecovered};
ghost use Rattle.lsm_admission.specs.Admitted.{IsOpenRefusal};
ghost use Rattle.lsm_admission.specs.Keeping.{KeepsTables};
ghost use Rattle.lsm_cmd_read.specs.Directory.{Holds};
ghost use Rattle.lsm_cmd_read.specs.Quick.{Admits};

use crate::given::tables_are_given;
use lsm_admission::Admitted;
use lsm_directory::NamedManifest;
use lsm_finding::Finding;
use lsm_journal::{OpenFault, Recovered};
use lsm_table::{NamedShelf, Naming, Registry};
use lsm_version::Version;
use std::alloc::Global;
use std::sync::{Arc, Wait};

/// Opens the directory of which this manifest was read, as `Admitted::of_manifest` does: finds the
/// tables that it names, and lists those that are there. No table is read, and nothing is written.
/// The refusals of `Admitted::of_manifest`.
pub(crate) fn admit<N: Naming, S: Finding, R: Wait>(
    rt: &R,
    alloc: Global,
    shelf: &mut NamedShelf<N, S>,
    registry: &Arc<Registry<N, S>>,
    recovered: Recovered,
) -> Result<(Version<N, S>, NamedManifest), OpenFault>
    requires recovered { IsRecovered recovered.journal recovered.shape recovered.rest }
    requires kept { S.honest → KeepsTables (S.keeps N.place) recovered.shape }
    ensures admitted { (was : Told)
        → Becomes (finding recovered.journal.number recovered.journal.bytes was) shelf.old
        → IfOk result (λ o. Admits (S.keeps N.place)
        (Stored S.Receipt (S.is_of N.place) S.Receipt.number S.Receipt.image)
        recovered.shape was shelf.new o.0 o.1) }
    ensures holds { (was : Told)
        → Becomes (finding recovered.journal.number recovered.journal.bytes was) shelf.old
        → S.honest → IfOk result (λ o. Holds S.honest was shelf.new o.0 o.1) }
    ensures refused { (was : Told)
        → Becomes (finding recovered.journal.number recovered.journal.bytes was) shelf.old
        → IfErr result (λ e. IsOpenRefusal (S.keeps N.place) (S.refuses N.place) e was shelf.new) }
{
    let admitted = Admitted::of_manifest(rt, alloc, shelf, registry, recovered)?;
    tables_are_given(&admitted.version);
    let manifest = NamedManifest {
        number: admitted.journal.number(),
        rest: admitted.rest,
        log: admitted.journal.log(),
        prev_log: admitted.journal.prev_log(),
    };
    Ok((admitted.version, manifest))
}
