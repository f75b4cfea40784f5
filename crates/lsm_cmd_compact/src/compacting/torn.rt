//! Whether the manifest ends with a whole record.

ghost use Rattle.std.specs.Prelude.{◌≡◌, IfErr, IfOk, OnOk};
ghost use Rattle.lsm_journal.specs.Recovering.{IsRecoverRefusal, RecoverCounted};
ghost use Rattle.lsm_journal.specs.declared.recover_fault.RecoverFault.{RecoverFault};
ghost use Rattle.lsm_opening.specs.WriterFault.{of_manifest};
ghost use Rattle.lsm_opening.specs.declared.faults.compact_fault.CompactFault.TheVariants.{Writer as WriterVariant};
ghost use Rattle.lsm_cmd_compact.specs.Compacting.{EndsWith, IsAccepted, IsUnaccepted};

use lsm_directory::DirectoryFault;
use lsm_journal::{Journal, ManifestLimit};
use lsm_opening::{CompactFault, WriterFault};
use lsm_table::{NamedShelf, Naming, Shelf};
use std::alloc::Global;
use std::sync::Wait;

/// How many bytes at the end of the manifest that the directory names hold no whole record.
fn rest_of<N: Naming, S: Shelf, R: Wait>(
    rt: &R,
    alloc: Global,
    shelf: &mut NamedShelf<N, S>,
) -> Result<u64, CompactFault>
    ensures rest { IfOk result (λ n. EndsWith n shelf.old shelf.new) }
    ensures refused { IfErr result (λ e. (fault : RecoverFault)
        × (e ≡ WriterVariant (of_manifest fault))
        × IsRecoverRefusal (S.refuses N.place) fault shelf.old shelf.new
        × RecoverCounted fault shelf.old shelf.new) }
{
    // A journal that nothing is sent through has no use for its limit.
    match Journal::recover(rt, alloc, shelf, ManifestLimit::none()) {
        Ok(recovered) => Ok(recovered.rest),
        Err(fault) => Err(CompactFault::Writer(WriterFault::from(fault))),
    }
}

/// Refuses a manifest at whose end bytes hold no whole record, unless any end is accepted: a longer
/// manifest may name tables that a compaction would remove.
pub(crate) fn refuse_torn<N: Naming, S: Shelf, R: Wait>(
    rt: &R,
    alloc: Global,
    shelf: &mut NamedShelf<N, S>,
    accepts: bool,
) -> Result<(), CompactFault>
    ensures accepted { OnOk result (IsAccepted accepts shelf.old shelf.new) }
    ensures refused { IfErr result (λ e.
        IsUnaccepted (S.refuses N.place) accepts e shelf.old shelf.new) }
    ensures place { OnOk result (shelf.new.place ≡ shelf.old.place) }
{
    if accepts {
        return Ok(());
    }
    let rest = rest_of(rt, alloc, shelf)?;
    if rest > 0 {
        return Err(CompactFault::Writer(WriterFault::Directory(DirectoryFault::TornManifest(
            rest,
        ))));
    }
    Ok(())
}
