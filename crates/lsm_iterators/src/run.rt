//! The tables of a level, one after another.

ghost use Rattle.std.specs.Prelude.{◌≡◌, ◌∷◌, ◌<◌, [], ℕ, List, All, length, map, false, None, IfOk};
ghost use Rattle.std.specs.Prelude.{IfErr, IfSome, MatchOption, OnOk, OnErr};
ghost use Rattle.std.specs.Option.{option_map};
ghost use Rattle.lsm_codec.specs.KeyRef.{key_of};
ghost use Rattle.lsm_codec.specs.Lists.{Has};
ghost use Rattle.lsm_block.specs.Standing.{SharesFront, is_end};
ghost use Rattle.lsm_table.specs.Registry.{image_of};
ghost use Rattle.lsm_table.specs.ReadFault.{ReadCounted, IsMemoryOrShelf};
ghost use Rattle.lsm_table.specs.Told.{Becomes};
ghost use Rattle.lsm_reader.specs.Refusals.{IsReadRefusal};
ghost use Rattle.lsm_model.specs.Merging.{IsSorted, placed_at};
ghost use Rattle.lsm_iterators.specs.Heads.{after_first, first_of, key_in, no_more, source_in};
ghost use Rattle.lsm_iterators.specs.Heads.{user_in};
ghost use Rattle.lsm_iterators.specs.Heads.{value_in};
ghost use Rattle.lsm_iterators.specs.Runs.{AreAlike, HasEntries, IsFirst, IsFirstOf};
ghost use Rattle.lsm_iterators.specs.Runs.{IsOfFirst, ReadsNoOther};
ghost use Rattle.lsm_iterators.specs.Runs.{entries_of_all, files_at, numbered_all, once};
ghost use Rattle.lsm_iterators.specs.Seeking.{IsReached, at_or_past, placed_past};

use crate::file_fault::FileFault;
use crate::later::Later;
use crate::row::Row;
use crate::table_iter::TableIter;
use lsm_codec::KeyRef;
use lsm_reader::Blocks;
use lsm_table::{Naming, ReadFault, Registry, Shelf, TableFault, TableReceipt, TableRef};
use std::alloc::{AllocError, Global};
use std::collections::VecDeque;
use std::marker::Model;

/// A source of a merge: tables of which each one's entries stand before the next one's, as those of
/// a level from 1 on, or one table. Each is opened when it is reached, and it holds the index block
/// and one data block of the table at which it stands, and what was read ahead of that.
///
/// Contracts see it as what is left: the entries with its depth, the one at which it stands first,
/// the same entries with the numbers of their files, and the files that are not yet read to their
/// ends.
pub struct Run<N: Naming, S: Shelf> {
    // Given to each of its entries.
    depth: u64,
    here: TableIter<N, S>,
    // The tables after it.
    later: Later<N, S>,
}

impl<N: Naming, S: Shelf> Drop for Run<N, S> {
    fn drop(self) {
        let Self {
            depth: _,
            here: _,
            later: _,
        } = self;
    }
}

impl<N: Naming, S: Shelf> Model for Run<N, S> {
    ghost use Rattle.std.specs.Prelude.{All};
    ghost use Rattle.lsm_iterators.specs.Runs.{HasEntries, IsLastAtEnd, Left, run_left};

    ghost Value = { Left };

    ghost view = { λ r.
        run_left r.depth r.here.number r.here.left r.later.numbers r.later.images };

    ghost invariant = { λ r. IsLastAtEnd r.here.left r.later.images
        × (S.honest → All HasEntries r.later.images) };
}

/// Opens the first of these tables, if there is one.
fn open_next_by<N: Naming, S: Shelf, B: Blocks<N, S>>(
    blocks: &mut B,
    alloc: Global,
    later: &Later<N, S>,
) -> Result<Option<TableIter<N, S>>, FileFault>
    requires tables { S.honest → All HasEntries later.now.images }
    ensures some { IfOk result (λ o.
        MatchOption o (later.now.images ≡ []) (λ t. is_end t.left ≡ false)) }
    ensures first { IfOk result (λ o. IfSome o (λ t. IsFirst t.number later.now.numbers)) }
    ensures entries { S.honest
        → IfOk result (λ o. IfSome o (λ t. IsFirstOf t.left later.now.images)) }
    ensures sound { S.honest → IfErr result (λ e. IsMemoryOrShelf e.fault) }
    ensures number { IfErr result (λ e. Has later.now.numbers e.number) }
    ensures told { Becomes (B.told blocks.old) (B.told blocks.new) }
    ensures loan { B.loan blocks.new ≡ B.loan blocks.old }
    ensures cause { IfErr result (λ e.
        ReadCounted e.fault (B.told blocks.old) (B.told blocks.new)) }
    ensures refused { IfErr result (λ e. IsReadRefusal (S.refuses N.place) e.number e.fault) }
{
    let next = match later.first() {
        Some(next) => blocks.copy_receipt(next),
        None => return Ok(None),
    };
    let number = next.number();
    match TableIter::first_by(blocks, alloc, next) {
        Ok(here) => Ok(Some(here)),
        Err(fault) => Err(FileFault { number, fault }),
    }
}

/// What stands for these tables.
fn copies_of<N: Naming, S: Shelf, B: Blocks<N, S>>(
    blocks: &B,
    alloc: Global,
    registry: &Registry<N, S>,
    tables: &[TableRef<N, S>],
) -> Result<VecDeque<S::Receipt>, AllocError>
    ensures named { IfOk result (λ v. All (S.is_of N.place) v.items) }
    ensures numbers { IfOk result (λ v.
        map S.Receipt.number v.items ≡ map (λ t. t.number) tables.now) }
    ensures images { IfOk result (λ v. map S.Receipt.image v.items ≡ map image_of tables.now) }
{
    let mut copies = VecDeque::new(alloc);
    for table in tables {
        let copy = blocks.copy_receipt(&registry.record(table).receipt);
        copies.push_back(copy)?;
    }
    Ok(copies)
}

impl<N: Naming, S: Shelf> Run<N, S> {
    /// At the first entry of the first table. The entries get this depth.
    pub fn open_by<B: Blocks<N, S>>(
        blocks: &mut B,
        alloc: Global,
        depth: u64,
        first: S::Receipt,
        later: VecDeque<S::Receipt>,
    ) -> Result<Run<N, S>, FileFault>
        requires named { All (S.is_of N.place) (first ∷ later.items) }
        requires tables { S.honest → All HasEntries (map S.Receipt.image (first ∷ later.items)) }
        ensures entries { S.honest → IfOk result (λ r. r.placed
            ≡ placed_at depth (entries_of_all (map S.Receipt.image (first ∷ later.items)))) }
        ensures files { IfOk result (λ r.
            r.files ≡ files_at depth (map S.Receipt.number (first ∷ later.items))) }
        ensures numbered { S.honest → IfOk result (λ r. r.numbered ≡ numbered_all (map
            S.Receipt.number (first ∷ later.items)) (map S.Receipt.image (first ∷ later.items))) }
        ensures sound { S.honest → IfErr result (λ e. IsMemoryOrShelf e.fault) }
        ensures number { IfErr result (λ e. e.number ≡ S.Receipt.number first) }
        ensures told { Becomes (B.told blocks.old) (B.told blocks.new) }
        ensures loan { B.loan blocks.new ≡ B.loan blocks.old }
        ensures cause { IfErr result (λ e.
            ReadCounted e.fault (B.told blocks.old) (B.told blocks.new)) }
        ensures refused { IfErr result (λ e. IsReadRefusal (S.refuses N.place) e.number e.fault) }
    {
        let number = first.number();
        let later = Later::of_receipts(later);
        match TableIter::first_by(blocks, alloc, first) {
            Ok(here) => Ok(Run { depth, here, later }),
            Err(fault) => Err(FileFault { number, fault }),
        }
    }

    /// At the first entry of the first of these tables, each of which stands for its record.
    pub fn over_by<B: Blocks<N, S>>(
        blocks: &mut B,
        alloc: Global,
        depth: u64,
        registry: &Registry<N, S>,
        tables: &[TableRef<N, S>],
    ) -> Result<Run<N, S>, FileFault>
        requires some { 0 < length tables.now }
        requires tables { S.honest → All HasEntries (map image_of tables.now) }
        ensures entries { S.honest → IfOk result (λ r.
            r.placed ≡ placed_at depth (entries_of_all (map image_of tables.now))) }
        ensures files { IfOk result (λ r.
            r.files ≡ files_at depth (map (λ t. t.number) tables.now)) }
        ensures numbered { S.honest → IfOk result (λ r.
            r.numbered ≡ numbered_all (map (λ t. t.number) tables.now) (map image_of tables.now)) }
        ensures sound { S.honest → IfErr result (λ e. IsMemoryOrShelf e.fault) }
        ensures number { IfErr result (λ e. Has (map (λ t. t.number) tables.now) e.number) }
        ensures told { Becomes (B.told blocks.old) (B.told blocks.new) }
        ensures loan { B.loan blocks.new ≡ B.loan blocks.old }
        ensures cause { IfErr result (λ e.
            ReadCounted e.fault (B.told blocks.old) (B.told blocks.new)) }
        ensures refused { IfErr result (λ e. IsReadRefusal (S.refuses N.place) e.number e.fault) }
    {
        let Some((first, rest)) = tables.split_first() else {
            unreachable!()
        };
        let first = blocks.copy_receipt(&registry.record(first).receipt);
        let number = first.number();
        let later = match copies_of(&*blocks, alloc, registry, rest) {
            Ok(later) => later,
            Err(_memory) => {
                return Err(FileFault {
                    number,
                    fault: ReadFault::Table(TableFault::OutOfMemory),
                });
            }
        };
        Run::open_by(blocks, alloc, depth, first, later)
    }

    /// At the first entry of these tables whose user key is at or past `from`, where tables of one
    /// number behind one another are one. The entries of each table stand before the next one's,
    /// and the first table has such an entry: it alone is opened, and sought.
    pub fn over_from<B: Blocks<N, S>>(
        blocks: &mut B,
        alloc: Global,
        depth: u64,
        row: Row<N, S>,
        from: &[u8],
    ) -> Result<Run<N, S>, FileFault>
        requires some { 0 < length row }
        requires tables { S.honest → All HasEntries (map image_of (once None row)) }
        requires order { S.honest → IsSorted (entries_of_all (map image_of (once None row))) }
        requires reached { S.honest → IsReached from.now (map image_of (once None row)) }
        ensures entries { S.honest → IfOk result (λ r. r.placed ≡ placed_at depth (at_or_past
            from.now (entries_of_all (map image_of (once None row))))) }
        ensures files { IfOk result (λ r.
            r.files ≡ files_at depth (map (λ t. t.number) (once None row))) }
        ensures numbered { S.honest → IfOk result (λ r. r.numbered ≡ placed_past from.now
            (numbered_all (map (λ t. t.number) (once None row)) (map image_of (once None row)))) }
        ensures sound { S.honest → IfErr result (λ e. IsMemoryOrShelf e.fault) }
        ensures number { IfErr result (λ e. Has (map (λ t. t.number) (once None row)) e.number) }
        ensures told { Becomes (B.told blocks.old) (B.told blocks.new) }
        ensures loan { B.loan blocks.new ≡ B.loan blocks.old }
        ensures cause { IfErr result (λ e.
            ReadCounted e.fault (B.told blocks.old) (B.told blocks.new)) }
        ensures refused { IfErr result (λ e. IsReadRefusal (S.refuses N.place) e.number e.fault) }
    {
        let mut later = Later::of_row(alloc, row);
        let first = match later.first() {
            Some(first) => blocks.copy_receipt(first),
            None => unreachable!(),
        };
        later.pass();
        let number = first.number();
        match TableIter::seek_by(blocks, alloc, first, from) {
            Ok(here) => Ok(Run { depth, here, later }),
            Err(fault) => Err(FileFault { number, fault }),
        }
    }

    /// By depths and by numbers its first entry has one key.
    pub(crate) fn one_key(&self)
        ensures { AreAlike self.now }
    {
        // Reads the field, so that the type's invariant is at hand.
        let _here = &self.here;
    }

    /// The key of the entry at which it stands, if it stands at one.
    pub fn key(&self) -> Option<KeyRef<'_>>
        ensures key { option_map key_of result ≡ key_in (first_of self.now.placed) }
        ensures numbered { option_map key_of result ≡ key_in (first_of self.now.numbered) }
    {
        self.here.key()
    }

    /// The value of the entry at which it stands; no bytes where it stands at none.
    pub fn value(&self) -> &[u8]
        ensures { result.now ≡ value_in (first_of self.now.placed) }
    {
        self.here.value()
    }

    /// The depth that its entries get; 0 where it stands at none.
    pub fn depth(&self) -> u64
        ensures { result ≡ source_in (first_of self.now.placed) }
    {
        if self.here.is_at_end() { 0 } else { self.depth }
    }

    /// The number of the file in which the entry stands at which it stands; 0 where it stands at
    /// none.
    pub fn number(&self) -> u64
        ensures exact { result ≡ source_in (first_of self.now.numbered) }
        ensures listed { no_more self.now.placed ≡ false → IsOfFirst self.now result }
    {
        if self.here.is_at_end() {
            0
        } else {
            self.here.number()
        }
    }

    /// Whether it stands at no entry. Then none is left.
    pub fn is_at_end(&self) -> bool
        ensures { result ≡ no_more self.now.placed }
    {
        self.here.is_at_end()
    }

    /// Goes on to the next entry, or to the end, and tells how many bytes of its user key are known
    /// to be those of the user key before it. The next table is opened before it lets go of the
    /// last entry of the one before, so an `Err` leaves it.
    pub fn advance_by<B: Blocks<N, S>>(
        &mut self,
        blocks: &mut B,
        alloc: Global,
    ) -> Result<usize, FileFault>
        ensures ok { S.honest → OnOk result (self.new.placed ≡ after_first self.old.placed) }
        ensures numbered { S.honest
            → OnOk result (self.new.numbered ≡ after_first self.old.numbered) }
        ensures shared { IfOk result (λ n. SharesFront n (user_in (first_of self.old.placed))
            (user_in (first_of self.new.placed))) }
        ensures files { OnOk result (ReadsNoOther self.old self.new) }
        ensures sound { S.honest → IfErr result (λ e. IsMemoryOrShelf e.fault) }
        ensures err { OnErr result (self.new ≡ self.old) }
        ensures number { IfErr result (λ e. IsOfFirst self.old e.number) }
        ensures told { Becomes (B.told blocks.old) (B.told blocks.new) }
        ensures loan { B.loan blocks.new ≡ B.loan blocks.old }
        ensures cause { IfErr result (λ e.
            ReadCounted e.fault (B.told blocks.old) (B.told blocks.new)) }
        ensures refused { IfErr result (λ e. IsReadRefusal (S.refuses N.place) e.number e.fault) }
    {
        if self.here.is_at_end() {
            return Ok(0);
        }
        match self.here.step_by(blocks, alloc) {
            Ok(Some(shared)) => return Ok(shared),
            Ok(None) => {}
            Err(fault) => {
                return Err(FileFault {
                    number: self.here.number(),
                    fault,
                });
            }
        }
        if let Some(here) = open_next_by(blocks, alloc, &self.later)? {
            self.later.pass();
            self.here = here;
            return Ok(0);
        }
        match self.here.advance_by(blocks, alloc) {
            Ok(()) => Ok(0),
            Err(fault) => Err(FileFault {
                number: self.here.number(),
                fault,
            }),
        }
    }
}
