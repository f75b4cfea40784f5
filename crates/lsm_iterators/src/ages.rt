//! The age order of the entries of several depths.

ghost use Rattle.std.specs.Prelude.{◌≡◌, false, IfOk, IfErr, MatchOption, None};
ghost use Rattle.lsm_table.specs.ReadFault.{ReadCounted, IsMemoryOrShelf};
ghost use Rattle.lsm_table.specs.Told.{Becomes};
ghost use Rattle.lsm_reader.specs.Refusals.{IsReadRefusal};
ghost use Rattle.lsm_table.specs.declared.read_fault.ReadFault.TheVariants.{Table};
ghost use Rattle.lsm_table.specs.declared.table_fault.TableFault.TheVariants.{OutOfMemory};
ghost use Rattle.lsm_model.specs.Ages.{IsAgeOrder, IsLeastAgainstAge};
ghost use Rattle.lsm_model.specs.Merging.{IsOrdered};
ghost use Rattle.lsm_iterators.specs.Heads.{first_of, no_more, user_in};
ghost use Rattle.lsm_iterators.specs.Followed.{stands_after};
ghost use Rattle.lsm_iterators.specs.Runs.{IsOfFiles, IsOfFirst};

use crate::file_fault::FileFault;
use crate::merger::Merger;
use crate::walk::{FirstKey, Walk};
use lsm_codec::Bytes;
use lsm_reader::Blocks;
use lsm_table::{Naming, ReadFault, Shelf, TableFault};
use std::alloc::{AllocError, Global};
use std::mem;

/// The least user key of which a deeper entry has no lesser sequence than a shallower one, if there
/// is one. The merge's runs stand at their depths; it is read to the first such entry. A
/// refusal names a file of the merge.
pub fn against_age<N: Naming, S: Shelf, B: Blocks<N, S>>(
    blocks: &mut B,
    alloc: Global,
    merger: &mut Merger<N, S>,
) -> Result<Option<Bytes>, FileFault>
    ensures judged { S.honest → IsOrdered merger.old.placed → IfOk result (λ r.
        MatchOption r (IsAgeOrder merger.old.placed) (λ k. IsLeastAgainstAge merger.old.placed k)) }
    ensures sound { S.honest → IfErr result (λ e. IsMemoryOrShelf e.fault) }
    ensures number { IfErr result (λ e. IsOfFiles merger.old e.number) }
    ensures told { Becomes (B.told blocks.old) (B.told blocks.new) }
    ensures loan { B.loan blocks.new ≡ B.loan blocks.old }
    ensures cause { IfErr result (λ e.
        ReadCounted e.fault (B.told blocks.old) (B.told blocks.new)) }
    ensures refused { IfErr result (λ e. IsReadRefusal (S.refuses N.place) e.number e.fault) }
{
    let mut walk = Walk::new(alloc, mem::replace(merger, Merger::nothing()));
    let found = found_by(blocks, alloc, &mut walk);
    *merger = walk.into_merger();
    found
}

/// Depth and sequence of an entry.
#[derive(Clone, Copy)]
struct Stamp {
    depth: u64,
    seq: u64,
}

/// Whether an entry of this depth and key may follow the one before it: of one user key it lies no
/// shallower, and where it lies deeper it is older.
fn may_follow(before: Stamp, depth: u64, key: FirstKey) -> bool
    ensures { result ≡ stands_after key.is_same before.depth before.seq depth key.seq }
{
    let reached = before.depth <= depth;
    let deeper = before.depth < depth;
    let older = key.seq < before.seq;
    !key.is_same || (reached && (!deeper || older))
}

/// A copy of the user key of the entry at which the merge stands.
#[tactic(auto, using(crate::proofs::FollowedLaws::user_none, crate::proofs::FollowedLaws::user_first))]
fn user_of<N: Naming, S: Shelf>(alloc: Global, walk: &Walk<N, S>) -> Result<Bytes, AllocError>
    ensures { IfOk result (λ b. b ≡ user_in (first_of walk.now.left.placed)) }
{
    match walk.key() {
        None => Ok(Bytes::of(Vec::new(alloc))),
        Some(key) => Ok(Bytes::of(Vec::from_slice(alloc, key.user)?)),
    }
}

/// Want of memory, with the number of the file in which the merge stands.
fn want_at<N: Naming, S: Shelf>(walk: &Walk<N, S>) -> FileFault
    requires { no_more walk.now.left.placed ≡ false }
    ensures number { IsOfFirst walk.now.left result.number }
    ensures fault { result.fault ≡ Table OutOfMemory }
{
    FileFault {
        number: walk.number(),
        fault: ReadFault::Table(TableFault::OutOfMemory),
    }
}

/// What `against_age` answers, of a merge along which a walk goes.
fn found_by<N: Naming, S: Shelf, B: Blocks<N, S>>(
    blocks: &mut B,
    alloc: Global,
    walk: &mut Walk<N, S>,
) -> Result<Option<Bytes>, FileFault>
    requires fresh { walk.old.passed ≡ None }
    ensures judged { S.honest → IsOrdered walk.old.left.placed → IfOk result (λ r. MatchOption r
        (IsAgeOrder walk.old.left.placed) (λ k. IsLeastAgainstAge walk.old.left.placed k)) }
    ensures sound { S.honest → IfErr result (λ e. IsMemoryOrShelf e.fault) }
    ensures number { IfErr result (λ e. IsOfFiles walk.old.left e.number) }
    ensures told { Becomes (B.told blocks.old) (B.told blocks.new) }
    ensures loan { B.loan blocks.new ≡ B.loan blocks.old }
    ensures cause { IfErr result (λ e.
        ReadCounted e.fault (B.told blocks.old) (B.told blocks.new)) }
    ensures refused { IfErr result (λ e. IsReadRefusal (S.refuses N.place) e.number e.fault) }
{
    let mut before = Stamp { depth: 0, seq: 0 };
    for _ in 0..u64::MAX {
        let Some(key) = walk.first_key() else {
            return Ok(None);
        };
        let depth = walk.depth();
        if !may_follow(before, depth, key) {
            return match user_of(alloc, &*walk) {
                Ok(user) => Ok(Some(user)),
                Err(AllocError) => Err(want_at(&*walk)),
            };
        }
        walk.pass_by(blocks, alloc)?;
        before = Stamp {
            depth,
            seq: key.seq,
        };
    }
    if walk.is_at_end() {
        return Ok(None);
    }
    // Only a shelf that is not honest could give so many.
    Err(want_at(&*walk))
}
