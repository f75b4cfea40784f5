//! Each user key with its answer, in order.

ghost use Rattle.std.specs.Prelude.{◌≡◌, ◌||◌, not, nat_le, false, IfOk, IfErr, OnOk, OnErr, None};
ghost use Rattle.lsm_table.specs.ReadFault.{ReadCounted, IsMemoryOrShelf};
ghost use Rattle.lsm_table.specs.Told.{Becomes};
ghost use Rattle.lsm_reader.specs.Refusals.{IsSomeReadRefusal};
ghost use Rattle.lsm_model.specs.Merging.{entries_of};
ghost use Rattle.lsm_model.specs.Scanning.{is_head_passed, pairs_of};
ghost use Rattle.lsm_iterators.specs.Heads.{first_of};
ghost use Rattle.lsm_iterators.specs.Shown.{ShowsNext, ShowsPair, kind_in, left_to_show, pair_at};
ghost use Rattle.lsm_iterators.specs.Shown.{showing_of, user_shown, value_shown};

use crate::merger::Merger;
use crate::pair::Pair;
use crate::walk::{FirstKey, Walk};
use lsm_codec::Kind;
use lsm_reader::{Blocks, Direct};
use lsm_table::{NamedShelf, Naming, ReadFault, Shelf, TableFault};
use std::alloc::{AllocError, Global};
use std::marker::Model;

/// The user keys that have a value at a sequence, with it, ascending. Contracts see what is left to
/// show, and the pair at which it stands, which it lends.
#[derive(Drop)]
pub struct Scan<N: Naming, S: Shelf> {
    // With the user key that was answered last.
    walk: Walk<N, S>,
    // Whether the entry at which the merge stands answered its user key.
    is_done: bool,
    seq: u64,
}

impl<N: Naming, S: Shelf> Model for Scan<N, S> {
    ghost use Rattle.lsm_iterators.specs.Shown.{Showing, showing_of};

    ghost Value = { Showing };

    ghost view = { λ s. showing_of s.seq s.walk.passed s.is_done s.walk.left.placed };
}

impl<N: Naming, S: Shelf> Scan<N, S> {
    /// What is left is what the sequence shows of the merge. It stands at no pair yet.
    pub fn new(alloc: Global, merger: Merger<N, S>, seq: u64) -> Scan<N, S>
        ensures { result
            ≡ record { here = None; left = pairs_of seq None (entries_of merger.placed) } }
    {
        Scan {
            walk: Walk::new(alloc, merger),
            is_done: false,
            seq,
        }
    }

    /// The user key of the pair at which it stands; no bytes where it stands at none.
    pub fn user(&self) -> &[u8]
        ensures { result.now ≡ user_shown self.now.here }
    {
        user_at(&self.walk, self.is_done)
    }

    /// The value of the pair at which it stands; no bytes where it stands at none.
    pub fn value(&self) -> &[u8]
        ensures { result.now ≡ value_shown self.now.here }
    {
        value_at(&self.walk, self.is_done)
    }

    /// Goes on to the next pair, which it then lends. Where none is left it stands at none, and the
    /// answer is false. An `Err` leaves what is left to show.
    pub fn step_by<B: Blocks<N, S>>(
        &mut self,
        blocks: &mut B,
        alloc: Global,
    ) -> Result<bool, ReadFault>
        ensures ok { S.honest → IfOk result (λ m. ShowsNext m self.old self.new) }
        ensures err { S.honest → OnErr result (self.new.left ≡ self.old.left) }
        ensures sound { S.honest → IfErr result IsMemoryOrShelf }
        ensures told { Becomes (B.told blocks.old) (B.told blocks.new) }
        ensures loan { B.loan blocks.new ≡ B.loan blocks.old }
        ensures cause { IfErr result (λ e. ReadCounted e (B.told blocks.old) (B.told blocks.new)) }
        ensures refused { IfErr result (IsSomeReadRefusal (S.refuses N.place)) }
    {
        shown_by(&mut self.walk, &mut self.is_done, self.seq, blocks, alloc)
    }

    /// A copy of the next pair, at which it then stands, or none at the end. An `Err` leaves what
    /// is left to show.
    pub fn next_by<B: Blocks<N, S>>(
        &mut self,
        blocks: &mut B,
        alloc: Global,
    ) -> Result<Option<Pair>, ReadFault>
        ensures ok { S.honest → IfOk result (λ r. ShowsPair r self.old.left self.new.left) }
        ensures stands { S.honest → IfOk result (λ r. self.new.here ≡ r) }
        ensures err { S.honest → OnErr result (self.new.left ≡ self.old.left) }
        ensures sound { S.honest → IfErr result IsMemoryOrShelf }
        ensures told { Becomes (B.told blocks.old) (B.told blocks.new) }
        ensures loan { B.loan blocks.new ≡ B.loan blocks.old }
        ensures cause { IfErr result (λ e. ReadCounted e (B.told blocks.old) (B.told blocks.new)) }
        ensures refused { IfErr result (IsSomeReadRefusal (S.refuses N.place)) }
    {
        pair_by(&mut self.walk, &mut self.is_done, self.seq, blocks, alloc)
    }

    /// The same by the shelf itself.
    pub fn next(
        &mut self,
        shelf: &mut NamedShelf<N, S>,
        alloc: Global,
    ) -> Result<Option<Pair>, ReadFault>
        ensures ok { S.honest → IfOk result (λ r. ShowsPair r self.old.left self.new.left) }
        ensures stands { S.honest → IfOk result (λ r. self.new.here ≡ r) }
        ensures err { S.honest → OnErr result (self.new.left ≡ self.old.left) }
        ensures sound { S.honest → IfErr result IsMemoryOrShelf }
        ensures told { Becomes shelf.old shelf.new }
        ensures cause { IfErr result (λ e. ReadCounted e shelf.old shelf.new) }
        ensures refused { IfErr result (IsSomeReadRefusal (S.refuses N.place)) }
    {
        let mut direct = Direct::new(shelf);
        self.next_by(&mut direct, alloc)
    }
}

/// Whether nothing is shown for an entry of this key: its user key was answered, or it is too new.
fn is_passed(key: FirstKey, seq: u64) -> bool
    ensures { result ≡ key.is_same || not (nat_le key.seq seq) }
{
    let reached = key.seq <= seq;
    key.is_same || !reached
}

/// Goes past the entries for which nothing is shown, and tells the kind of the one at which the
/// merge then stands, if it stands at one.
#[tactic(auto, using(crate::proofs::ShownLaws::head_passed, crate::proofs::ShownLaws::told_none, crate::proofs::ShownLaws::kind_told, crate::proofs::ShownLaws::skipped))]
fn skip_by<N: Naming, S: Shelf, B: Blocks<N, S>>(
    walk: &mut Walk<N, S>,
    seq: u64,
    blocks: &mut B,
    alloc: Global,
) -> Result<Option<Kind>, ReadFault>
    ensures ok { OnOk result (is_head_passed seq walk.new.passed (entries_of walk.new.left.placed)
        ≡ false) }
    ensures kind { IfOk result (λ k. k ≡ kind_in (first_of walk.new.left.placed)) }
    ensures passed { walk.new.passed ≡ walk.old.passed }
    ensures same { S.honest → pairs_of seq walk.old.passed (entries_of walk.new.left.placed)
        ≡ pairs_of seq walk.old.passed (entries_of walk.old.left.placed) }
    ensures sound { S.honest → IfErr result IsMemoryOrShelf }
    ensures told { Becomes (B.told blocks.old) (B.told blocks.new) }
    ensures loan { B.loan blocks.new ≡ B.loan blocks.old }
    ensures cause { IfErr result (λ e. ReadCounted e (B.told blocks.old) (B.told blocks.new)) }
    ensures refused { IfErr result (IsSomeReadRefusal (S.refuses N.place)) }
{
    for _ in 0..u64::MAX {
        let Some(key) = walk.first_key() else {
            return Ok(None);
        };
        if !is_passed(key, seq) {
            return Ok(Some(key.kind));
        }
        walk.advance_by(blocks, alloc)?;
    }
    // Only a shelf that is not honest could give so many.
    Err(ReadFault::Table(TableFault::OutOfMemory))
}

/// Goes on to the first entry that answers its user key, past the one that did last, if that is
/// done, and tells its kind. The user key of that one is remembered before the step: what is left
/// to show does not go by it while that one is done, so a step that fails loses nothing.
#[tactic(auto, using(crate::proofs::ShownLaws::passed, crate::proofs::ShownLaws::same_done))]
fn turn_by<N: Naming, S: Shelf, B: Blocks<N, S>>(
    walk: &mut Walk<N, S>,
    is_done: &mut bool,
    seq: u64,
    blocks: &mut B,
    alloc: Global,
) -> Result<Option<Kind>, ReadFault>
    ensures fresh { OnOk result ((is_done.new ≡ false)
        × (is_head_passed seq walk.new.passed (entries_of walk.new.left.placed) ≡ false)) }
    ensures kind { IfOk result (λ k. k ≡ kind_in (first_of walk.new.left.placed)) }
    ensures same { S.honest → left_to_show seq walk.new.passed is_done.new walk.new.left.placed
        ≡ left_to_show seq walk.old.passed is_done.old walk.old.left.placed }
    ensures sound { S.honest → IfErr result IsMemoryOrShelf }
    ensures told { Becomes (B.told blocks.old) (B.told blocks.new) }
    ensures loan { B.loan blocks.new ≡ B.loan blocks.old }
    ensures cause { IfErr result (λ e. ReadCounted e (B.told blocks.old) (B.told blocks.new)) }
    ensures refused { IfErr result (IsSomeReadRefusal (S.refuses N.place)) }
{
    if *is_done {
        walk.pass_by(blocks, alloc)?;
        *is_done = false;
    }
    skip_by(walk, seq, blocks, alloc)
}

/// Goes on to the next entry that is shown. Before it was done, what was left to show is the same.
#[tactic(auto, using(crate::proofs::ShownLaws::shows_value, crate::proofs::ShownLaws::shows_end, crate::proofs::ShownLaws::shows_deletion))]
fn shown_by<N: Naming, S: Shelf, B: Blocks<N, S>>(
    walk: &mut Walk<N, S>,
    is_done: &mut bool,
    seq: u64,
    blocks: &mut B,
    alloc: Global,
) -> Result<bool, ReadFault>
    ensures ok { S.honest
        → IfOk result (λ m. ShowsNext m (showing_of seq walk.old.passed is_done.old
        walk.old.left.placed) (showing_of seq walk.new.passed is_done.new walk.new.left.placed)) }
    ensures back { S.honest → OnOk result (left_to_show seq walk.new.passed false
        walk.new.left.placed ≡ left_to_show seq walk.old.passed is_done.old walk.old.left.placed) }
    ensures err { S.honest → OnErr result (left_to_show seq walk.new.passed is_done.new
        walk.new.left.placed ≡ left_to_show seq walk.old.passed is_done.old walk.old.left.placed) }
    ensures sound { S.honest → IfErr result IsMemoryOrShelf }
    ensures told { Becomes (B.told blocks.old) (B.told blocks.new) }
    ensures loan { B.loan blocks.new ≡ B.loan blocks.old }
    ensures cause { IfErr result (λ e. ReadCounted e (B.told blocks.old) (B.told blocks.new)) }
    ensures refused { IfErr result (IsSomeReadRefusal (S.refuses N.place)) }
{
    for _ in 0..u64::MAX {
        let Some(kind) = turn_by(walk, is_done, seq, blocks, alloc)? else {
            return Ok(false);
        };
        *is_done = true;
        match kind {
            Kind::Value => return Ok(true),
            Kind::Deletion => {}
        }
    }
    // Only a shelf that is not honest could give so many.
    Err(ReadFault::Table(TableFault::OutOfMemory))
}

/// The user key of the entry at which the merge stands, where that was shown; else no bytes.
#[tactic(auto, using(crate::proofs::ShownLaws::user_when, crate::proofs::ShownLaws::user_deleted, crate::proofs::ShownLaws::head_none))]
fn user_at<N: Naming, S: Shelf>(walk: &Walk<N, S>, is_done: bool) -> &[u8]
    ensures { result.now ≡ user_shown (pair_at is_done walk.now.left.placed) }
{
    match walk.key() {
        None => &[],
        Some(key) => match key.kind {
            Kind::Deletion => &[],
            Kind::Value => { if is_done { key.user } else { &[] } }
        },
    }
}

/// Its value.
#[tactic(auto, using(crate::proofs::ShownLaws::value_when, crate::proofs::ShownLaws::value_deleted, crate::proofs::ShownLaws::head_none))]
fn value_at<N: Naming, S: Shelf>(walk: &Walk<N, S>, is_done: bool) -> &[u8]
    ensures { result.now ≡ value_shown (pair_at is_done walk.now.left.placed) }
{
    match walk.key() {
        None => &[],
        Some(key) => match key.kind {
            Kind::Deletion => &[],
            Kind::Value => { if is_done { walk.value() } else { &[] } }
        },
    }
}

/// A copy of the next pair that is shown, or none at the end.
fn pair_by<N: Naming, S: Shelf, B: Blocks<N, S>>(
    walk: &mut Walk<N, S>,
    is_done: &mut bool,
    seq: u64,
    blocks: &mut B,
    alloc: Global,
) -> Result<Option<Pair>, ReadFault>
    ensures ok { S.honest
        → IfOk result (λ r. ShowsPair r (left_to_show seq walk.old.passed is_done.old
        walk.old.left.placed) (left_to_show seq walk.new.passed is_done.new walk.new.left.placed)) }
    ensures stands { S.honest → IfOk result (λ r. pair_at is_done.new walk.new.left.placed ≡ r) }
    ensures err { S.honest → OnErr result (left_to_show seq walk.new.passed is_done.new
        walk.new.left.placed ≡ left_to_show seq walk.old.passed is_done.old walk.old.left.placed) }
    ensures sound { S.honest → IfErr result IsMemoryOrShelf }
    ensures told { Becomes (B.told blocks.old) (B.told blocks.new) }
    ensures loan { B.loan blocks.new ≡ B.loan blocks.old }
    ensures cause { IfErr result (λ e. ReadCounted e (B.told blocks.old) (B.told blocks.new)) }
    ensures refused { IfErr result (IsSomeReadRefusal (S.refuses N.place)) }
{
    if !shown_by(walk, is_done, seq, blocks, alloc)? {
        return Ok(None);
    }
    match Pair::of(alloc, user_at(&*walk, *is_done), value_at(&*walk, *is_done)) {
        Ok(pair) => Ok(Some(pair)),
        Err(AllocError) => {
            // It is left to show again.
            *is_done = false;
            Err(ReadFault::Table(TableFault::OutOfMemory))
        }
    }
}
