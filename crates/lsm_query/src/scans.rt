//! Scans of a version.

ghost use Rattle.std.specs.Prelude.{◌≡◌, None, IfOk, IfErr};
ghost use Rattle.lsm_table.specs.ReadFault.{IsMemoryOrShelf, ReadCounted};
ghost use Rattle.lsm_table.specs.Told.{Becomes};
ghost use Rattle.lsm_reader.specs.Refusals.{IsSomeReadRefusal};
ghost use Rattle.lsm_model.specs.Files.{all_entries};
ghost use Rattle.lsm_model.specs.Scanning.{IsScan};
ghost use Rattle.lsm_iterators.specs.Seeking.{at_or_past};
ghost use Rattle.lsm_version.specs.Versions.{files};

use crate::runs::open_runs_from;
use lsm_iterators::{Merger, Scan, SharedLevels};
use lsm_reader::{Blocks, Direct};
use lsm_table::{NamedShelf, Naming, ReadFault, Shelf};
use lsm_version::Version;
use std::alloc::{AllocError, Global};
use std::sync::Arc;

/// A scan of the version at a sequence: each user key that has an answer, with it, ascending.
/// It takes the blocks of tables from `blocks`, as each call of the scan does that goes on, and
/// holds an index block, a data block and at most 128 KiB that were read ahead, for each table of
/// level 0 and for each deeper level, however many entries there are.
///
/// `Shelf` where the shelf refused. `Table` with `OutOfMemory` where a growth was refused, and
/// with another refusal of a table only where the shelf's bytes are not those that were put.
pub fn scan_by<N: Naming, S: Shelf, B: Blocks<N, S>>(
    version: &Version<N, S>,
    blocks: &mut B,
    alloc: Global,
    seq: u64,
) -> Result<Scan<N, S>, ReadFault>
    ensures scanned { S.honest
        → IfOk result (λ s. IsScan seq (all_entries (files version.now)) s.left) }
    ensures here { IfOk result (λ s. s.here ≡ None) }
    ensures sound { S.honest → IfErr result IsMemoryOrShelf }
    ensures told { Becomes (B.told blocks.old) (B.told blocks.new) }
    ensures loan { B.loan blocks.new ≡ B.loan blocks.old }
    ensures cause { IfErr result (λ e. ReadCounted e (B.told blocks.old) (B.told blocks.new)) }
    ensures refused { IfErr result (IsSomeReadRefusal (S.refuses N.place)) }
{
    scan_from_by(version, blocks, alloc, seq, &[])
}

/// The same by the shelf itself.
pub fn scan<N: Naming, S: Shelf>(
    version: &Version<N, S>,
    shelf: &mut NamedShelf<N, S>,
    alloc: Global,
    seq: u64,
) -> Result<Scan<N, S>, ReadFault>
    ensures scanned { S.honest
        → IfOk result (λ s. IsScan seq (all_entries (files version.now)) s.left) }
    ensures here { IfOk result (λ s. s.here ≡ None) }
    ensures sound { S.honest → IfErr result IsMemoryOrShelf }
    ensures told { Becomes shelf.old shelf.new }
    ensures cause { IfErr result (λ e. ReadCounted e shelf.old shelf.new) }
    ensures refused { IfErr result (IsSomeReadRefusal (S.refuses N.place)) }
{
    let mut direct = Direct::new(shelf);
    scan_by(version, &mut direct, alloc, seq)
}

/// The levels of a version, to be shared with it.
fn levels_of<N: Naming, S: Shelf>(version: &Version<N, S>) -> Result<SharedLevels<N, S>, AllocError>
    ensures { IfOk result (λ l. l ≡ version.now.tables) }
{
    let registry = Arc::try_clone(version.shared_registry())?;
    let levels = Arc::try_clone(version.shared_levels())?;
    Ok(SharedLevels::of(registry, levels))
}

/// The same of the user keys alone that are at or past `from`, at which the scan begins. Of each
/// table of level 0 that reaches it, and of the first such table of each deeper level, it takes the
/// footer, the index block and one data block.
pub fn scan_from_by<N: Naming, S: Shelf, B: Blocks<N, S>>(
    version: &Version<N, S>,
    blocks: &mut B,
    alloc: Global,
    seq: u64,
    from: &[u8],
) -> Result<Scan<N, S>, ReadFault>
    ensures scanned { S.honest → IfOk result (λ s.
        IsScan seq (at_or_past from.now (all_entries (files version.now))) s.left) }
    ensures here { IfOk result (λ s. s.here ≡ None) }
    ensures sound { S.honest → IfErr result IsMemoryOrShelf }
    ensures told { Becomes (B.told blocks.old) (B.told blocks.new) }
    ensures loan { B.loan blocks.new ≡ B.loan blocks.old }
    ensures cause { IfErr result (λ e. ReadCounted e (B.told blocks.old) (B.told blocks.new)) }
    ensures refused { IfErr result (IsSomeReadRefusal (S.refuses N.place)) }
{
    // What holds of every version is told by this call.
    let _last = version.last();
    let levels = levels_of(version)?;
    let runs = match open_runs_from(blocks, alloc, &levels, from) {
        Ok(runs) => runs,
        Err(unread) => return Err(unread.fault),
    };
    let merger = Merger::new(alloc, runs)?;
    Ok(Scan::new(alloc, merger, seq))
}

/// The same by the shelf itself.
pub fn scan_from<N: Naming, S: Shelf>(
    version: &Version<N, S>,
    shelf: &mut NamedShelf<N, S>,
    alloc: Global,
    seq: u64,
    from: &[u8],
) -> Result<Scan<N, S>, ReadFault>
    ensures scanned { S.honest → IfOk result (λ s.
        IsScan seq (at_or_past from.now (all_entries (files version.now))) s.left) }
    ensures here { IfOk result (λ s. s.here ≡ None) }
    ensures sound { S.honest → IfErr result IsMemoryOrShelf }
    ensures told { Becomes shelf.old shelf.new }
    ensures cause { IfErr result (λ e. ReadCounted e shelf.old shelf.new) }
    ensures refused { IfErr result (IsSomeReadRefusal (S.refuses N.place)) }
{
    let mut direct = Direct::new(shelf);
    scan_from_by(version, &mut direct, alloc, seq, from)
}
