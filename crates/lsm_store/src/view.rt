//! Views, which hold a pin.

ghost use Rattle.std.specs.Prelude.{◌≡◌, ℕ, None, IfErr, IfOk, OnErr};
ghost use Rattle.std.specs.Option.{option_map};
ghost use Rattle.lsm_codec.specs.Entries.{answer};
ghost use Rattle.lsm_codec.specs.Lists.{Has};
ghost use Rattle.lsm_model.specs.Files.{all_entries};
ghost use Rattle.lsm_model.specs.Scanning.{IsScan};
ghost use Rattle.lsm_iterators.specs.Seeking.{at_or_past};
ghost use Rattle.lsm_iterators.specs.Shown.{ShowsNext, ShowsPair};
ghost use Rattle.lsm_pins.specs.View.{noted_view};
ghost use Rattle.lsm_shelf.specs.Told.{Becomes};
ghost use Rattle.lsm_state.specs.Collecting.{IsKeptNumber};
ghost use Rattle.lsm_store.specs.Readers.{IsMet, IsPinning, IsPromised, KnowsAll, informed};
ghost use Rattle.lsm_store.specs.Readers.{unpinned};
ghost use Rattle.lsm_table.specs.ReadFault.{IsMemoryOrShelf, ReadCounted};
ghost use Rattle.lsm_version.specs.Versions.{files};

use crate::reader::Reader;
use crate::reader_cache::ReaderCache;
use lsm_pins::Pinner;
use lsm_query::{Pair, Scan};
use lsm_slots::Boarded;
use lsm_state::State;
use lsm_table::{ReadFault, Shelf};
use std::alloc::{AllocError, Global};
use std::marker::Model;

/// A reader with a pin of the version that it has learnt. Its answers are of that version, whatever
/// becomes current. It must be ended, which gives the pin back.
pub struct View<N: Boarded, S: Shelf> {
    pub(crate) pinner: Pinner,
    pub(crate) slot: u8,
    pub(crate) cache: ReaderCache<N, S>,
}

impl<N: Boarded, S: Shelf> Model for View<N, S> {
    ghost use Rattle.std.specs.Prelude.{◌≡◌, ◌≤◌, Some};
    ghost use Rattle.lsm_store.specs.Readers.{Learnt};

    ghost Value = { Learnt };

    ghost view = { λ v. record {
      id = v.cache.id;
      version = v.cache.version;
      pinner = v.pinner;
      told = v.cache.told;
      history = v.cache.history;
      snapshots = v.cache.snapshots;
    } };

    ghost invariant = { λ v. (v.pinner.board ≡ N.board)
        × (v.pinner.knows.held ≡ Some (v.cache.id, v.slot))
        × (v.cache.id ≤ v.pinner.knows.id) };
}

impl<N: Boarded, S: Shelf> View<N, S> {
    /// The id of its version. What holds of every view is told here too.
    pub fn id(&self) -> u32
        ensures id { result ≡ self.now.id }
        ensures pinning { IsPinning self.now }
        ensures board { self.now.pinner.board ≡ N.board }
        ensures history { S.honest → KnowsAll self.now }
    {
        self.cache.id
    }

    /// The last sequence of its version.
    pub fn last(&self) -> u64
        ensures { result ≡ self.now.version.last }
    {
        self.cache.version.last()
    }

    /// The value of a user key at a sequence, or none: that of the newest entry of its version with
    /// a sequence at most `seq`, where it is a value. At a promised sequence, the version's last or
    /// that of a snapshot that was live when its reader learnt the version, it is that of all that
    /// had come in by then. Blocks that its reader keeps are not read again.
    ///
    /// `Shelf` where the shelf refused. `Table` with `OutOfMemory` where a growth was refused, and
    /// with another refusal of a table only where the shelf's bytes are not those that were put.
    pub fn get(
        &mut self,
        alloc: Global,
        user: &[u8],
        seq: u64,
    ) -> Result<Option<Vec<u8>>, ReadFault>
        ensures answer { S.honest → IfOk result (λ v. option_map (λ b. b.items) v
            ≡ answer (all_entries (files self.old.version)) user.now seq) }
        ensures history { S.honest → IsPromised self.old seq → IfOk result (λ v.
            option_map (λ b. b.items) v ≡ answer self.old.history user.now seq) }
        ensures sound { S.honest → IfErr result IsMemoryOrShelf }
        ensures rest { self.new ≡ record self.old { told = self.new.told } }
        ensures told { Becomes self.old.told self.new.told }
        ensures cause { IfErr result (λ e. ReadCounted e self.old.told self.new.told) }
    {
        lsm_query::get_by(
            &self.cache.version,
            &mut self.cache.blocks,
            alloc,
            user,
            seq,
        )
    }

    /// A scan of its version at a sequence: each user key that has an answer, with it, ascending;
    /// at a promised sequence, each that has one in all that had come in. `step` and `next` go on
    /// along it.
    pub fn scan(&mut self, alloc: Global, seq: u64) -> Result<Scan<N, S>, ReadFault>
        ensures scanned { S.honest
            → IfOk result (λ s. IsScan seq (all_entries (files self.old.version)) s.left) }
        ensures history { S.honest → IsPromised self.old seq
            → IfOk result (λ s. IsScan seq self.old.history s.left) }
        ensures here { IfOk result (λ s. s.here ≡ None) }
        ensures sound { S.honest → IfErr result IsMemoryOrShelf }
        ensures rest { self.new ≡ record self.old { told = self.new.told } }
        ensures told { Becomes self.old.told self.new.told }
        ensures cause { IfErr result (λ e. ReadCounted e self.old.told self.new.told) }
    {
        lsm_query::scan_by(&self.cache.version, &mut self.cache.blocks, alloc, seq)
    }

    /// The same from a user key on (`Seek` of LevelDB's `include/leveldb/iterator.h`): each user
    /// key at or past it that has an answer, with it, ascending.
    pub fn scan_from(
        &mut self,
        alloc: Global,
        seq: u64,
        from: &[u8],
    ) -> Result<Scan<N, S>, ReadFault>
        ensures scanned { S.honest → IfOk result (λ s. IsScan seq
            (at_or_past from.now (all_entries (files self.old.version))) s.left) }
        ensures history { S.honest → IsPromised self.old seq
            → IfOk result (λ s. IsScan seq (at_or_past from.now self.old.history) s.left) }
        ensures here { IfOk result (λ s. s.here ≡ None) }
        ensures sound { S.honest → IfErr result IsMemoryOrShelf }
        ensures rest { self.new ≡ record self.old { told = self.new.told } }
        ensures told { Becomes self.old.told self.new.told }
        ensures cause { IfErr result (λ e. ReadCounted e self.old.told self.new.told) }
    {
        lsm_query::scan_from_by(
            &self.cache.version,
            &mut self.cache.blocks,
            alloc,
            seq,
            from,
        )
    }

    /// Goes on to the next pair of the scan, which then lends it. Where none is left it stands at
    /// none, and the answer is false. An `Err` leaves what is left to show.
    pub fn step(&mut self, alloc: Global, scan: &mut Scan<N, S>) -> Result<bool, ReadFault>
        ensures ok { S.honest → IfOk result (λ m. ShowsNext m scan.old scan.new) }
        ensures err { S.honest → OnErr result (scan.new.left ≡ scan.old.left) }
        ensures sound { S.honest → IfErr result IsMemoryOrShelf }
        ensures rest { self.new ≡ record self.old { told = self.new.told } }
        ensures told { Becomes self.old.told self.new.told }
        ensures cause { IfErr result (λ e. ReadCounted e self.old.told self.new.told) }
    {
        scan.step_by(&mut self.cache.blocks, alloc)
    }

    /// A copy of the next pair of the scan, or none at the end. An `Err` leaves what is left to
    /// show.
    pub fn next(&mut self, alloc: Global, scan: &mut Scan<N, S>) -> Result<Option<Pair>, ReadFault>
        ensures ok { S.honest → IfOk result (λ r. ShowsPair r scan.old.left scan.new.left) }
        ensures err { S.honest → OnErr result (scan.new.left ≡ scan.old.left) }
        ensures sound { S.honest → IfErr result IsMemoryOrShelf }
        ensures rest { self.new ≡ record self.old { told = self.new.told } }
        ensures told { Becomes self.old.told self.new.told }
        ensures cause { IfErr result (λ e. ReadCounted e self.old.told self.new.told) }
    {
        scan.next_by(&mut self.cache.blocks, alloc)
    }

    /// The numbers of the tables of its version, level by level: the state has a version with just
    /// these in the slot that was pinned, under the view's id, and keeps them. `AllocError` where a
    /// growth was refused.
    #[tactic(auto, using(crate::proofs::ReaderLaws::same_learnt, crate::proofs::ReaderLaws::held_so, crate::proofs::ReaderLaws::met_at))]
    pub fn meet(&mut self, alloc: Global, state: &mut State<N, S>) -> Result<Vec<u64>, AllocError>
        ensures met { IfOk result (λ v. IsMet self.old state.new v.items) }
        ensures kept { IfOk result (λ v. (n : ℕ) → Has v.items n → IsKeptNumber state.new n) }
        ensures view { self.new ≡ informed state.old self.old }
        ensures board { (state.new.slots.board.board ≡ state.old.slots.board.board)
            × (state.new.slots.board.knows
            ≡ noted_view state.old.slots.board.knows self.old.pinner.knows) }
        ensures rest { state.new ≡ record state.old
            { slots = record state.old.slots { board = state.new.slots.board } } }
    {
        let met = state.meet(alloc, &mut self.pinner);
        self.cache.compare(state);
        match met {
            Ok(Some(numbers)) => Ok(numbers),
            Ok(None) => unreachable!(),
            Err(error) => Err(error),
        }
    }

    /// Gives the pin back, by one atomic step and without the lock.
    #[tactic(auto, using(crate::proofs::ReaderLaws::same_learnt))]
    pub fn end(self) -> Reader<N, S>
        ensures { result ≡ unpinned self }
    {
        let View {
            mut pinner,
            slot: _,
            cache,
        } = self;
        pinner.unpin();
        Reader { pinner, cache }
    }
}
