//! A merge, and the user key of an entry that it passed.

ghost use Rattle.std.specs.Prelude.{◌≡◌, ◌≤◌, ◌++◌, ℕ, List, length, take, false, None, IfOk};
ghost use Rattle.std.specs.Prelude.{IfErr, OnOk, OnErr};
ghost use Rattle.std.specs.Option.{option_map};
ghost use Rattle.lsm_codec.specs.KeyRef.{key_of};
ghost use Rattle.lsm_table.specs.ReadFault.{ReadCounted, IsMemoryOrShelf};
ghost use Rattle.lsm_table.specs.Told.{Becomes};
ghost use Rattle.lsm_reader.specs.Refusals.{IsReadRefusal};
ghost use Rattle.lsm_iterators.specs.Heads.{after_first, first_of, key_in, no_more, source_in};
ghost use Rattle.lsm_iterators.specs.Heads.{value_in};
ghost use Rattle.lsm_iterators.specs.Runs.{IsOfFirst, ReadsNoOther};
ghost use Rattle.lsm_iterators.specs.Walks.{order_first, passed_by, told_first};

use crate::file_fault::FileFault;
use crate::front::compare_behind;
use crate::merger::Merger;
use lsm_codec::{KeyRef, Kind};
use lsm_reader::Blocks;
use lsm_table::{Naming, ReadFault, Shelf, TableFault};
use std::alloc::{AllocError, Global};
use std::cmp::Ordering;
use std::marker::Model;

/// What a walk tells of the key of the entry at which its merge stands.
#[derive(Clone, Copy)]
pub struct FirstKey {
    /// The sequence of the write.
    pub seq: u64,
    /// What the write did.
    pub kind: Kind,
    /// Whether its user key is the one that is remembered.
    pub is_same: bool,
}

/// A merge, and the user key of an entry that it passed, if one is remembered. It knows how many
/// bytes at their fronts that key and the one at which the merge stands share, so entries of which
/// the user keys share a long front are compared, and copied, by what stands behind it.
///
/// Contracts see what is left of the merge, and the user key that is remembered.
#[derive(Drop)]
pub struct Walk<N: Naming, S: Shelf> {
    merger: Merger<N, S>,
    // The user key, if one is remembered.
    user: Vec<u8>,
    has_user: bool,
    // How many bytes at its front are known to be those of the user key at which the merge stands.
    front: usize,
}

impl<N: Naming, S: Shelf> Model for Walk<N, S> {
    ghost use Rattle.lsm_block.specs.Standing.{SharesFront};
    ghost use Rattle.lsm_iterators.specs.Heads.{first_of, user_in};
    ghost use Rattle.lsm_iterators.specs.Walks.{Walking, passed_if};

    ghost Value = { Walking };

    ghost view = { λ w. record { left = w.merger; passed = passed_if w.has_user w.user.items } };

    ghost invariant = { λ w.
        SharesFront w.front w.user.items (user_in (first_of w.merger.placed)) };
}

/// Puts other bytes behind a front of a text, in place of what stands there. An `Err` leaves all.
fn put_behind(text: &mut Vec<u8>, front: usize, rest: &[u8]) -> Result<(), AllocError>
    ensures ok { OnOk result (text.new.items ≡ take front text.old.items ++ rest.now) }
    ensures err { OnErr result (text.new.items ≡ text.old.items) }
{
    text.reserve(rest.len())?;
    text.truncate(front);
    text.extend_from_slice(rest)
}

impl<N: Naming, S: Shelf> Walk<N, S> {
    /// Along this merge. Nothing is remembered yet.
    pub fn new(alloc: Global, merger: Merger<N, S>) -> Walk<N, S>
        ensures { result ≡ record { left = merger; passed = None } }
    {
        Walk {
            merger,
            user: Vec::new(alloc),
            has_user: false,
            front: 0,
        }
    }

    /// The merge alone.
    pub fn into_merger(self) -> Merger<N, S>
        ensures { result ≡ self.left }
    {
        self.merger
    }

    /// The key of the entry at which the merge stands, if it stands at one.
    pub fn key(&self) -> Option<KeyRef<'_>>
        ensures { option_map key_of result ≡ key_in (first_of self.now.left.placed) }
    {
        self.merger.key()
    }

    /// Its value; no bytes where there is none.
    pub fn value(&self) -> &[u8]
        ensures { result.now ≡ value_in (first_of self.now.left.placed) }
    {
        self.merger.value()
    }

    /// The depth of its run; 0 where there is none.
    pub fn depth(&self) -> u64
        ensures { result ≡ source_in (first_of self.now.left.placed) }
    {
        self.merger.depth()
    }

    /// The number of its file; 0 where there is none.
    pub fn number(&self) -> u64
        ensures exact { result ≡ source_in (first_of self.now.left.numbered) }
        ensures listed { no_more self.now.left.placed ≡ false → IsOfFirst self.now.left result }
    {
        self.merger.number()
    }

    /// Whether the merge stands at no entry. Then none is left.
    pub fn is_at_end(&self) -> bool
        ensures { result ≡ no_more self.now.left.placed }
    {
        self.merger.is_at_end()
    }

    /// How the user key that is remembered stands to the one at which the merge stands; none where
    /// none is remembered, or it stands at none. What the two share is known from then on, so no
    /// byte of it is compared again.
    #[tactic(auto, using(crate::proofs::WalkLaws::order_none, crate::proofs::WalkLaws::order_told, crate::proofs::WalkLaws::order_untold))]
    pub fn order(&mut self) -> Option<Ordering>
        ensures order { result ≡ order_first self.old.passed (first_of self.old.left.placed) }
        ensures same { self.new ≡ self.old }
    {
        match self.merger.key() {
            None => None,
            Some(key) => {
                let (order, front) = compare_behind(&self.user, key.user, self.front);
                self.front = front;
                if self.has_user { Some(order) } else { None }
            }
        }
    }

    /// What is told of the entry at which the merge stands, if it stands at one. What the two user
    /// keys share is known from then on, so no byte of it is compared again.
    pub fn first_key(&mut self) -> Option<FirstKey>
        ensures told { result ≡ told_first self.old.passed (first_of self.old.left.placed) }
        ensures same { self.new ≡ self.old }
    {
        match self.merger.key() {
            None => None,
            Some(key) => {
                let (order, front) = compare_behind(&self.user, key.user, self.front);
                self.front = front;
                let is_same = self.has_user && order.is_eq();
                Some(FirstKey {
                    seq: key.seq,
                    kind: key.kind,
                    is_same,
                })
            }
        }
    }

    /// The user key at which the merge stands is now the one that is remembered: what stands behind
    /// the front that both share is copied. Where the merge stands at none, nothing changes. An
    /// `Err` leaves all.
    pub fn remember(&mut self) -> Result<(), AllocError>
        ensures ok { OnOk result (self.new ≡ record {
          left = self.old.left;
          passed = passed_by self.old.passed (first_of self.old.left.placed);
        }) }
        ensures err { OnErr result (self.new ≡ self.old) }
    {
        match self.merger.key() {
            None => Ok(()),
            Some(key) => {
                let (_, rest) = key.user.split_at(self.front);
                put_behind(&mut self.user, self.front, rest)?;
                self.has_user = true;
                self.front = key.user.len();
                Ok(())
            }
        }
    }

    /// Goes on to the next entry, or to the end; what is remembered stays. An `Err` leaves it, and
    /// names a file of the run from which the entry comes at which the merge stands.
    pub fn advance_by<B: Blocks<N, S>>(
        &mut self,
        blocks: &mut B,
        alloc: Global,
    ) -> Result<(), FileFault>
        ensures ok { S.honest
            → OnOk result (self.new.left.placed ≡ after_first self.old.left.placed) }
        ensures numbered { S.honest
            → OnOk result (self.new.left.numbered ≡ after_first self.old.left.numbered) }
        ensures passed { self.new.passed ≡ self.old.passed }
        ensures files { OnOk result (ReadsNoOther self.old.left self.new.left) }
        ensures sound { S.honest → IfErr result (λ e. IsMemoryOrShelf e.fault) }
        ensures err { OnErr result (self.new ≡ self.old) }
        ensures number { IfErr result (λ e. IsOfFirst self.old.left e.number) }
        ensures told { Becomes (B.told blocks.old) (B.told blocks.new) }
        ensures loan { B.loan blocks.new ≡ B.loan blocks.old }
        ensures cause { IfErr result (λ e.
            ReadCounted e.fault (B.told blocks.old) (B.told blocks.new)) }
        ensures refused { IfErr result (λ e. IsReadRefusal (S.refuses N.place) e.number e.fault) }
    {
        let shared = self.merger.advance_by(blocks, alloc)?;
        self.front = self.front.min(shared);
        Ok(())
    }

    /// Remembers the user key at which the merge stands, and goes on to the next entry, or to the
    /// end. An `Err` leaves what is left, and names a file of the run from which the entry comes at
    /// which the merge stands.
    pub fn pass_by<B: Blocks<N, S>>(
        &mut self,
        blocks: &mut B,
        alloc: Global,
    ) -> Result<(), FileFault>
        ensures ok { S.honest
            → OnOk result (self.new.left.placed ≡ after_first self.old.left.placed) }
        ensures numbered { S.honest
            → OnOk result (self.new.left.numbered ≡ after_first self.old.left.numbered) }
        ensures passed { OnOk result (self.new.passed
            ≡ passed_by self.old.passed (first_of self.old.left.placed)) }
        ensures files { OnOk result (ReadsNoOther self.old.left self.new.left) }
        ensures sound { S.honest → IfErr result (λ e. IsMemoryOrShelf e.fault) }
        ensures err { OnErr result (self.new.left ≡ self.old.left) }
        ensures number { no_more self.old.left.placed ≡ false
            → IfErr result (λ e. IsOfFirst self.old.left e.number) }
        ensures told { Becomes (B.told blocks.old) (B.told blocks.new) }
        ensures loan { B.loan blocks.new ≡ B.loan blocks.old }
        ensures cause { IfErr result (λ e.
            ReadCounted e.fault (B.told blocks.old) (B.told blocks.new)) }
        ensures refused { IfErr result (λ e. IsReadRefusal (S.refuses N.place) e.number e.fault) }
    {
        match self.remember() {
            Ok(()) => self.advance_by(blocks, alloc),
            Err(AllocError) => Err(FileFault {
                number: self.number(),
                fault: ReadFault::Table(TableFault::OutOfMemory),
            }),
        }
    }
}
