//! The merge of several sources.

ghost use Rattle.std.specs.Prelude.{◌≡◌, false, map, IfOk, IfErr, OnOk, OnErr};
ghost use Rattle.std.specs.Option.{option_map};
ghost use Rattle.std.specs.List.{flat_map};
ghost use Rattle.lsm_codec.specs.KeyRef.{key_of};
ghost use Rattle.lsm_block.specs.Standing.{SharesFront};
ghost use Rattle.lsm_table.specs.ReadFault.{ReadCounted, IsMemoryOrShelf};
ghost use Rattle.lsm_table.specs.Told.{Becomes};
ghost use Rattle.lsm_reader.specs.Refusals.{IsReadRefusal};
ghost use Rattle.lsm_model.specs.Merging.{merge_all};
ghost use Rattle.lsm_iterators.specs.Heads.{after_first, first_of, key_in, no_more, source_in};
ghost use Rattle.lsm_iterators.specs.Heads.{user_in};
ghost use Rattle.lsm_iterators.specs.Heads.{value_in};
ghost use Rattle.lsm_iterators.specs.Runs.{IsOfFirst, ReadsNoOther};

use crate::file_fault::FileFault;
use crate::run::Run;
use crate::tree::{Tree, advance_by, head, of_last};
use lsm_codec::KeyRef;
use lsm_reader::Blocks;
use lsm_table::{Naming, Shelf};
use std::alloc::{AllocError, Global};
use std::marker::Model;

/// The entries of several runs in order; those of one user key, sequence and kind in the order of
/// the runs. It stands at the first that is left, and lends it.
///
/// Contracts see what is left: the merge of what is left of each run, each entry with its run's
/// depth and with its file's number, and the files that are not yet read to their ends.
#[derive(Drop)]
pub struct Merger<N: Naming, S: Shelf> {
    tree: Option<Tree<Run<N, S>>>,
}

impl<N: Naming, S: Shelf> Model for Merger<N, S> {
    ghost use Rattle.lsm_iterators.specs.Runs.{Left};
    ghost use Rattle.lsm_iterators.specs.Tree.{IsReadyIfAny, left_of_any};

    ghost Value = { Left };

    ghost view = { λ m. left_of_any m.tree };

    ghost invariant = { λ m. IsReadyIfAny m.tree };
}

impl<N: Naming, S: Shelf> Merger<N, S> {
    /// What is left is the merge of what is left of the runs.
    pub fn new(alloc: Global, runs: Vec<Run<N, S>>) -> Result<Merger<N, S>, AllocError>
        ensures placed { IfOk result (λ m. m.placed ≡ merge_all (map (λ r. r.placed) runs.items)) }
        ensures files { IfOk result (λ m. m.files ≡ flat_map (λ r. r.files) runs.items) }
        ensures numbered { IfOk result (λ m.
            m.numbered ≡ merge_all (map (λ r. r.numbered) runs.items)) }
    {
        let mut runs = runs;
        let count = runs.len();
        if count == 0 {
            return Ok(Merger { tree: None });
        }
        let tree = of_last(alloc, &mut runs, count)?;
        Ok(Merger { tree: Some(tree) })
    }

    /// Of no run.
    pub(crate) fn nothing() -> Merger<N, S> {
        Merger { tree: None }
    }

    /// The key of the entry at which it stands, if it stands at one.
    pub fn key(&self) -> Option<KeyRef<'_>>
        ensures key { option_map key_of result ≡ key_in (first_of self.now.placed) }
        ensures numbered { option_map key_of result ≡ key_in (first_of self.now.numbered) }
    {
        match &self.tree {
            None => None,
            Some(tree) => head(tree).key(),
        }
    }

    /// The value of the entry at which it stands; no bytes where it stands at none.
    pub fn value(&self) -> &[u8]
        ensures { result.now ≡ value_in (first_of self.now.placed) }
    {
        match &self.tree {
            None => &[],
            Some(tree) => head(tree).value(),
        }
    }

    /// The depth of the run from which the entry comes at which it stands; 0 where it stands at
    /// none.
    pub fn depth(&self) -> u64
        ensures { result ≡ source_in (first_of self.now.placed) }
    {
        match &self.tree {
            None => 0,
            Some(tree) => head(tree).depth(),
        }
    }

    /// The number of the file in which the entry stands at which it stands; 0 where it stands at
    /// none.
    pub fn number(&self) -> u64
        ensures exact { result ≡ source_in (first_of self.now.numbered) }
        ensures listed { no_more self.now.placed ≡ false → IsOfFirst self.now result }
    {
        match &self.tree {
            None => 0,
            Some(tree) => head(tree).number(),
        }
    }

    /// Whether it stands at no entry. Then none is left.
    pub fn is_at_end(&self) -> bool
        ensures { result ≡ no_more self.now.placed }
    {
        match &self.tree {
            None => true,
            Some(tree) => head(tree).is_at_end(),
        }
    }

    /// Goes on to the next entry, or to the end, and tells how many bytes of its user key are known
    /// to be those of the user key before it. An `Err` leaves it, and names a file of the run from
    /// which the entry comes at which it stands.
    pub fn advance_by<B: Blocks<N, S>>(
        &mut self,
        blocks: &mut B,
        alloc: Global,
    ) -> Result<usize, FileFault>
        ensures ok { S.honest → OnOk result (self.new.placed ≡ after_first self.old.placed) }
        ensures numbered { S.honest
            → OnOk result (self.new.numbered ≡ after_first self.old.numbered) }
        ensures shared { IfOk result (λ n. SharesFront n (user_in (first_of self.old.placed))
            (user_in (first_of self.new.placed))) }
        ensures files { OnOk result (ReadsNoOther self.old self.new) }
        ensures sound { S.honest → IfErr result (λ e. IsMemoryOrShelf e.fault) }
        ensures err { OnErr result (self.new ≡ self.old) }
        ensures number { IfErr result (λ e. IsOfFirst self.old e.number) }
        ensures told { Becomes (B.told blocks.old) (B.told blocks.new) }
        ensures loan { B.loan blocks.new ≡ B.loan blocks.old }
        ensures cause { IfErr result (λ e.
            ReadCounted e.fault (B.told blocks.old) (B.told blocks.new)) }
        ensures refused { IfErr result (λ e. IsReadRefusal (S.refuses N.place) e.number e.fault) }
    {
        match &mut self.tree {
            None => Ok(0),
            Some(tree) => advance_by(tree, blocks, alloc),
        }
    }
}
