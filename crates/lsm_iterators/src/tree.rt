//! A tree of merges, each of two, whose heads are lent: a step costs at most one comparison a fork
//! on the way to one source, of what stands behind a front that both heads share, and copies no key
//! and no value.

ghost use Rattle.std.specs.Prelude.{◌≡◌, ℕ, ◌+◌, ◌<◌, ◌≤◌, ◌⊎◌, [], length, not, true, false};
ghost use Rattle.std.specs.Prelude.{IfOk, IfErr, OnOk, OnErr};
ghost use Rattle.lsm_codec.specs.Lists.{Has};
ghost use Rattle.lsm_table.specs.ReadFault.{ReadCounted, IsMemoryOrShelf};
ghost use Rattle.lsm_table.specs.Told.{Becomes};
ghost use Rattle.lsm_reader.specs.Refusals.{IsReadRefusal};
ghost use Rattle.lsm_iterators.specs.Heads.{after_first, first_of};
ghost use Rattle.lsm_iterators.specs.Runs.{IsOfFirst, ReadsNoOther};
ghost use Rattle.lsm_iterators.specs.Tree.{all_left, both, left_of, AreReady, IsFront, IsFrontIn};
ghost use Rattle.lsm_iterators.specs.Tree.{IsLed, IsLedIn, IsReady, ShareHeads, ShareHeadsIn};

use crate::file_fault::FileFault;
use crate::front::judged;
use crate::run::Run;
use lsm_reader::Blocks;
use lsm_table::{Naming, Shelf};
use std::alloc::{AllocError, Global};

/// A source, or the merge of two trees, with whether the first of them leads, and with how many
/// bytes the user keys of their first entries share at their fronts.
#[derive(Drop)]
pub(crate) enum Tree<X> {
    Leaf(X),
    Fork(bool, usize, Box<Tree<X>>, Box<Tree<X>>),
}

/// The source that has the first entry, or no entry where none has: it goes down by the flags,
/// without a comparison.
#[tactic(auto, using(crate::proofs::TreeLaws::in_first, crate::proofs::TreeLaws::in_second))]
pub(crate) fn head<N: Naming, S: Shelf>(tree: &Tree<Run<N, S>>) -> &Run<N, S>
    requires { IsReady tree.now }
    ensures first { first_of result.now.placed ≡ first_of (left_of tree.now).placed }
    ensures numbered { first_of result.now.numbered ≡ first_of (left_of tree.now).numbered }
    ensures files { (f : ℕ × ℕ) → Has result.now.files f → Has (left_of tree.now).files f }
{
    match tree {
        Tree::Leaf(source) => source,
        Tree::Fork(led, _front, first, second) => { if *led { head(first) } else { head(second) } }
    }
}

/// Whether the first tree has an entry, and it may be handed out before the second's; and how many
/// bytes the user keys of both share, of which so many are known.
fn trees_judged<N: Naming, S: Shelf>(
    first: &Tree<Run<N, S>>,
    second: &Tree<Run<N, S>>,
    front: usize,
) -> (bool, usize)
    requires first { IsReady first.now }
    requires second { IsReady second.now }
    requires front { ShareHeads front (left_of first.now) (left_of second.now) }
    ensures led { IsLed result.0 (left_of first.now) (left_of second.now) }
    ensures front { IsFront result.1 (left_of first.now) (left_of second.now) }
{
    judged(head(first).key(), head(second).key(), front)
}

/// The same of a fork's two trees.
fn fork_judged<N: Naming, S: Shelf>(tree: &Tree<Run<N, S>>, front: usize) -> (bool, usize)
    requires ready { AreReady tree.now }
    requires front { ShareHeadsIn front tree.now }
    ensures led { IsLedIn result.0 tree.now }
    ensures front { IsFrontIn result.1 tree.now }
{
    match tree {
        Tree::Leaf(_source) => (false, 0),
        Tree::Fork(_led, _front, first, second) => trees_judged(first, second, front),
    }
}

/// Writes down anew which of its two trees leads, and what both share, of which so many bytes are
/// known. Whether the first leads.
fn settle<N: Naming, S: Shelf>(tree: &mut Tree<Run<N, S>>, known: usize) -> bool
    requires ready { AreReady tree.old }
    requires front { ShareHeadsIn known tree.old }
    ensures ready { IsReady tree.new }
    ensures left { left_of tree.new ≡ left_of tree.old }
    ensures led { IsLedIn result tree.old }
{
    let (now, shared) = fork_judged(&*tree, known);
    if let Tree::Fork(led, front, _first, _second) = tree {
        *led = now;
        *front = shared;
    }
    now
}

/// How many bytes of a fork's user key are those of the one before it, where the tree that led, the
/// first one or not, went on and kept so many: where it leads as before, those that it kept, and
/// else those that both trees shared before. A user key that has more of the one before it than the
/// other tree had stands to that tree as the one before it did, so nothing is compared.
fn kept_by<N: Naming, S: Shelf>(
    tree: &mut Tree<Run<N, S>>,
    led: bool,
    between: usize,
    moved: usize,
) -> usize
    requires ready { AreReady tree.old }
    requires more { between < moved → IsReady tree.old × IsLedIn led tree.old }
    requires front { moved ≤ between → ShareHeadsIn moved tree.old }
    ensures ready { IsReady tree.new }
    ensures left { left_of tree.new ≡ left_of tree.old }
    ensures kept { (IsLedIn led tree.old × (result ≡ moved))
        ⊎ (IsLedIn (not led) tree.old × (result ≡ between)) }
{
    if moved > between {
        return moved;
    }
    let leads = settle(tree, moved);
    if leads == led { moved } else { between }
}

/// Goes on to the next entry, and tells how many bytes of its user key are known to be those of the
/// user key before it. An `Err` leaves what is left.
#[tactic(auto, using(crate::proofs::TreeLaws::fault_first, crate::proofs::TreeLaws::fault_second, crate::proofs::TreeLaws::none_other_first, crate::proofs::TreeLaws::none_other_second, crate::proofs::TreeLaws::step_left, crate::proofs::TreeLaws::step_right))]
pub(crate) fn advance_by<N: Naming, S: Shelf, B: Blocks<N, S>>(
    tree: &mut Tree<Run<N, S>>,
    blocks: &mut B,
    alloc: Global,
) -> Result<usize, FileFault>
    requires ready { IsReady tree.old }
    ensures ready { IsReady tree.new }
    ensures ok { S.honest
        → OnOk result ((left_of tree.new).placed ≡ after_first (left_of tree.old).placed) }
    ensures numbered { S.honest
        → OnOk result ((left_of tree.new).numbered ≡ after_first (left_of tree.old).numbered) }
    ensures shared { IfOk result (λ n. ShareHeads n (left_of tree.old) (left_of tree.new)) }
    ensures files { OnOk result (ReadsNoOther (left_of tree.old) (left_of tree.new)) }
    ensures sound { S.honest → IfErr result (λ e. IsMemoryOrShelf e.fault) }
    ensures err { OnErr result (left_of tree.new ≡ left_of tree.old) }
    ensures number { IfErr result (λ e. IsOfFirst (left_of tree.old) e.number) }
    ensures told { Becomes (B.told blocks.old) (B.told blocks.new) }
    ensures loan { B.loan blocks.new ≡ B.loan blocks.old }
    ensures cause { IfErr result (λ e.
        ReadCounted e.fault (B.told blocks.old) (B.told blocks.new)) }
    ensures refused { IfErr result (λ e. IsReadRefusal (S.refuses N.place) e.number e.fault) }
{
    match tree {
        Tree::Leaf(source) => {
            let moved = source.advance_by(blocks, alloc);
            source.one_key();
            moved
        }
        Tree::Fork(led, front, first, second) => {
            let between = *front;
            if *led {
                match advance_by(first, blocks, alloc) {
                    Ok(moved) => Ok(kept_by(tree, true, between, moved)),
                    Err(fault) => Err(fault),
                }
            } else {
                match advance_by(second, blocks, alloc) {
                    Ok(moved) => Ok(kept_by(tree, false, between, moved)),
                    Err(fault) => Err(fault),
                }
            }
        }
    }
}

fn boxed<N: Naming, S: Shelf>(
    alloc: Global,
    tree: Tree<Run<N, S>>,
) -> Result<Box<Tree<Run<N, S>>>, AllocError>
    ensures { IfOk result (λ b. b.value ≡ tree) }
{
    Ok(Box::new(alloc, tree)?)
}

/// The merge of two trees.
fn fork<N: Naming, S: Shelf>(
    alloc: Global,
    first: Tree<Run<N, S>>,
    second: Tree<Run<N, S>>,
) -> Result<Tree<Run<N, S>>, AllocError>
    requires first { IsReady first }
    requires second { IsReady second }
    ensures ready { IfOk result IsReady }
    ensures left { IfOk result (λ t. left_of t ≡ both (left_of first) (left_of second)) }
{
    let (led, front) = trees_judged(&first, &second, 0);
    let first = boxed(alloc, first)?;
    let second = boxed(alloc, second)?;
    Ok(Tree::Fork(led, front, first, second))
}

/// The last source, which is taken out.
fn last<N: Naming, S: Shelf>(sources: &mut Vec<Run<N, S>>) -> Tree<Run<N, S>>
    requires { 0 < length sources.old.items }
    ensures ready { IsReady result }
    ensures left { all_left sources.old.items ≡ both (all_left sources.new.items) (left_of result) }
    ensures rest { length sources.new.items + 1 ≡ length sources.old.items }
{
    match sources.pop() {
        Some(source) => {
            source.one_key();
            Tree::Leaf(source)
        }
        None => unreachable!(),
    }
}

/// The merge of the last sources, so many, which are taken out.
pub(crate) fn of_last<N: Naming, S: Shelf>(
    alloc: Global,
    sources: &mut Vec<Run<N, S>>,
    count: usize,
) -> Result<Tree<Run<N, S>>, AllocError>
    requires some { 0 < count }
    requires inside { count ≤ length sources.old.items }
    ensures ready { IfOk result IsReady }
    ensures left { IfOk result (λ t.
        all_left sources.old.items ≡ both (all_left sources.new.items) (left_of t)) }
    ensures rest { OnOk result (length sources.new.items + count ≡ length sources.old.items) }
{
    if count > 1 {
        let second = of_last(alloc, sources, count / 2)?;
        let first = of_last(alloc, sources, count - count / 2)?;
        fork(alloc, first, second)
    } else {
        Ok(last(sources))
    }
}
