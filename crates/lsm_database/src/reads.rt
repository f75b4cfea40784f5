//! Reads of a version at its last sequence.

ghost use Rattle.std.specs.Prelude.{◌≡◌, IfErr, IfOk, take};
ghost use Rattle.std.specs.Option.{option_map};
ghost use Rattle.lsm_codec.specs.Entries.{answer};
ghost use Rattle.lsm_iterators.specs.Seeking.{at_or_past};
ghost use Rattle.lsm_model.specs.Files.{all_entries};
ghost use Rattle.lsm_model.specs.Scanning.{IsScan};
ghost use Rattle.lsm_reader.specs.Refusals.{IsSomeReadRefusal};
ghost use Rattle.lsm_shelf.specs.Told.{Becomes};
ghost use Rattle.lsm_table.specs.ReadFault.{IsMemoryOrShelf, ReadCounted};
ghost use Rattle.lsm_version.specs.Versions.{files};

use crate::pairs::first_pairs;
use lsm_query::{Pair, get_by, scan_from_by};
use lsm_reader::Cached;
use lsm_table::{Naming, ReadFault, Shelf};
use lsm_version::Version;
use std::alloc::Global;

/// The newest value of a key.
pub(crate) fn newest<N: Naming, S: Shelf>(
    version: &Version<N, S>,
    blocks: &mut Cached<N, S>,
    alloc: Global,
    key: &[u8],
) -> Result<Option<Vec<u8>>, ReadFault>
    ensures answer { S.honest → IfOk result (λ v. option_map (λ b. b.items) v
        ≡ answer (all_entries (files version.now)) key.now version.now.last) }
    ensures sound { S.honest → IfErr result IsMemoryOrShelf }
    ensures refused { IfErr result (IsSomeReadRefusal (S.refuses N.place)) }
    ensures told { Becomes blocks.old blocks.new }
    ensures cause { IfErr result (λ e. ReadCounted e blocks.old blocks.new) }
{
    let last = version.last();
    get_by(version, blocks, alloc, key, last)
}

/// The pairs from a key on, up to so many.
#[tactic(auto, using(lsm_shelf::proofs::CallerLemmas::becomes_then, lsm_table::proofs::CallerLemmas::read_counted_later))]
pub(crate) fn pairs_from<N: Naming, S: Shelf>(
    version: &Version<N, S>,
    blocks: &mut Cached<N, S>,
    alloc: Global,
    from: &[u8],
    limit: usize,
) -> Result<Vec<Pair>, ReadFault>
    ensures shown { S.honest → IfOk result (λ v. (all : _)
        × IsScan version.now.last (at_or_past from.now (all_entries (files version.now))) all
        × (v.items ≡ take limit all)) }
    ensures sound { S.honest → IfErr result IsMemoryOrShelf }
    ensures refused { IfErr result (IsSomeReadRefusal (S.refuses N.place)) }
    ensures told { Becomes blocks.old blocks.new }
    ensures cause { IfErr result (λ e. ReadCounted e blocks.old blocks.new) }
{
    let last = version.last();
    let mut scan = scan_from_by(version, blocks, alloc, last, from)?;
    first_pairs(alloc, &mut scan, blocks, limit)
}
