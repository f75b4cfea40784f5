//! The first pairs of a scan.

ghost use Rattle.std.specs.Prelude.{◌≡◌, IfErr, IfOk, take};
ghost use Rattle.lsm_reader.specs.Refusals.{IsSomeReadRefusal};
ghost use Rattle.lsm_shelf.specs.Told.{Becomes};
ghost use Rattle.lsm_table.specs.ReadFault.{IsMemoryOrShelf, ReadCounted};

use lsm_query::{Blocks, Pair, Scan};
use lsm_table::{Naming, ReadFault, Shelf};
use std::alloc::Global;

/// The pairs that are left of a scan, up to so many.
#[tactic(auto, using(crate::proofs::PairLaws::one_more, crate::proofs::PairLaws::so_many, crate::proofs::PairLaws::no_more, lsm_shelf::proofs::CallerLemmas::becomes_same, lsm_shelf::proofs::CallerLemmas::becomes_then, lsm_table::proofs::CallerLemmas::read_counted_later))]
pub(crate) fn first_pairs<N: Naming, S: Shelf, B: Blocks<N, S>>(
    alloc: Global,
    scan: &mut Scan<N, S>,
    blocks: &mut B,
    limit: usize,
) -> Result<Vec<Pair>, ReadFault>
    ensures shown { S.honest → IfOk result (λ v. v.items ≡ take limit scan.old.left) }
    ensures sound { S.honest → IfErr result IsMemoryOrShelf }
    ensures refused { IfErr result (IsSomeReadRefusal (S.refuses N.place)) }
    ensures told { Becomes (B.told blocks.old) (B.told blocks.new) }
    ensures cause { IfErr result (λ e. ReadCounted e (B.told blocks.old) (B.told blocks.new)) }
{
    let mut pairs = Vec::new(alloc);
    for _taken in 0..limit {
        match scan.next_by(blocks, alloc)? {
            Some(pair) => pairs.push(pair)?,
            None => return Ok(pairs),
        }
    }
    Ok(pairs)
}
