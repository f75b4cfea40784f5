//! A database that is there.

ghost use Rattle.std.specs.Prelude.{◌≡◌, ℕ, false, true, IfErr, IfOk};
ghost use Rattle.lsm_journal.specs.Finding.{IsFindRefusal, IsFound, IsReadOnce};
ghost use Rattle.lsm_shelf.specs.Stored.{Stored};
ghost use Rattle.lsm_state.specs.Making.{IsNewBoard, IsNewHistory};
ghost use Rattle.lsm_state.specs.Opening.{IsAnew, IsBegun, IsNotAnew, IsOpenRefusal, IsOpenable};
ghost use Rattle.lsm_state.specs.Opening.{opened_state};
ghost use Rattle.lsm_state.specs.Options.{Fits, limit_of};

use crate::coming::{edition_of, entries_of_version};
use crate::options::Options;
use crate::state::State;
use lsm_history::NewHistory;
use lsm_journal::{Found, Journal, OpenFault};
use lsm_live::LiveJobs;
use lsm_pins::{Pinner, Publisher};
use lsm_slots::{Boarded, Slots, Snapshots};
use lsm_table::{NamedShelf, Registry, Shelf};
use lsm_verify::NoWatch;
use lsm_version::Version;
use std::alloc::{AllocError, Global};
use std::sync::{Arc, Wait};
use std::thread::Threads;

impl<N: Boarded, S: Shelf> State<N, S> {
    /// The state of the database that is on the shelf: the version that its manifest records, no
    /// snapshot and no job. A new manifest begins, whose one edit spells that version; its number
    /// is the least that is at least the next file number of the manifest found and above every
    /// table that is listed, every table of the version, and the manifest found. Bytes at the end
    /// of the manifest found that hold no whole record are left behind. Its log numbers are kept.
    /// The board was just made, with the options' readers and as many slots as they say.
    ///
    /// The refusals of `open_to_read`; then `NumbersSpent` where the new manifest's number would be
    /// 2^64 - 1; then `OutOfMemory`, and `Device` where the shelf failed, or `Taken` where another
    /// began that manifest meanwhile. After `Device` the directory names the old manifest or the
    /// new one whole.
    pub fn open<R: Wait>(
        rt: &R,
        alloc: Global,
        shelf: &mut NamedShelf<N, S>,
        options: Options,
        registry: Arc<Registry<N, S>>,
        board: (Publisher, Vec<Pinner>),
        history: NewHistory,
    ) -> Result<State<N, S>, OpenFault>
        requires fits { Fits options }
        requires board { IsNewBoard N.board options board.0 board.1.items }
        requires history { IsNewHistory N.history history }
        ensures begun { IfOk result (λ s. IsBegun S.honest (limit_of options) s.journal
            s.slots.version s.next shelf.old shelf.new) }
        ensures opened { IfOk result (λ s.
            s ≡ opened_state options board.0 board.1.items s.slots.version s.journal s.next false) }
        ensures refused { IfErr result (λ e. IsOpenRefusal (Stored S.Receipt (S.is_of N.place)
            S.Receipt.number S.Receipt.image) (S.refuses N.place) S.honest (limit_of options) e
            shelf.old shelf.new) }
        ensures counts_err { IfErr result (λ e. IsReadOnce e shelf.old shelf.new) }
    {
        let state = State::open_to_read(rt, alloc, shelf, options, registry, board, history)?;
        state.begin(rt, alloc, shelf)
    }

    /// As `open`, by a thread for each of these shelves, forks of this one: they read and judge
    /// tables before this call comes to them, as `Found::read_by` does. The answer is one that
    /// `open` gives.
    pub fn open_by<R: Threads + Wait + Sync>(
        rt: &R,
        alloc: Global,
        shelf: &mut NamedShelf<N, S>,
        options: Options,
        registry: Arc<Registry<N, S>>,
        board: (Publisher, Vec<Pinner>),
        history: NewHistory,
        shelves: Vec<NamedShelf<N, S>>,
    ) -> Result<State<N, S>, OpenFault>
        requires fits { Fits options }
        requires board { IsNewBoard N.board options board.0 board.1.items }
        requires history { IsNewHistory N.history history }
        ensures begun { IfOk result (λ s. IsBegun S.honest (limit_of options) s.journal
            s.slots.version s.next shelf.old shelf.new) }
        ensures opened { IfOk result (λ s.
            s ≡ opened_state options board.0 board.1.items s.slots.version s.journal s.next false) }
        ensures refused { IfErr result (λ e. IsOpenRefusal (Stored S.Receipt (S.is_of N.place)
            S.Receipt.number S.Receipt.image) (S.refuses N.place) S.honest (limit_of options) e
            shelf.old shelf.new) }
        ensures counts_err { IfErr result (λ e. IsReadOnce e shelf.old shelf.new) }
    {
        let state = State::open_to_read_by(
            rt, alloc, shelf, options, registry, board, history, shelves,
        )?;
        state.begin(rt, alloc, shelf)
    }

    /// The same state for reading alone: nothing is written, the manifest held is the one that was
    /// found, with all its bytes, the next number is the one that `open` gives to a new manifest,
    /// and the state is halted.
    ///
    /// The refusals of `Journal::recover`; those of `lsm_verify::check`; those of listing the
    /// tables; then `NumbersSpent` where a table that is listed, or one of the version, or the
    /// manifest has the number 2^64 - 1; then `OutOfMemory`.
    pub fn open_to_read<R: Wait>(
        rt: &R,
        alloc: Global,
        shelf: &mut NamedShelf<N, S>,
        options: Options,
        registry: Arc<Registry<N, S>>,
        board: (Publisher, Vec<Pinner>),
        history: NewHistory,
    ) -> Result<State<N, S>, OpenFault>
        requires fits { Fits options }
        requires board { IsNewBoard N.board options board.0 board.1.items }
        requires history { IsNewHistory N.history history }
        ensures found { IfOk result (λ s. (rest : ℕ) × IsFound S.honest (limit_of options)
            s.journal s.slots.version rest s.next shelf.old shelf.new) }
        ensures opened { IfOk result (λ s.
            s ≡ opened_state options board.0 board.1.items s.slots.version s.journal s.next true) }
        ensures refused { IfErr result (λ e.
            IsFindRefusal (Stored S.Receipt (S.is_of N.place) S.Receipt.number S.Receipt.image)
            (S.refuses N.place) S.honest e shelf.old shelf.new) }
        ensures counts_err { IfErr result (λ e. IsReadOnce e shelf.old shelf.new) }
    {
        let found: Found<N, S> = Found::read(rt, alloc, shelf, &registry, options.limit())?;
        let Found {
            journal,
            version,
            rest: _,
            next,
            counts: _,
        } = found;
        let state = State::halted(
            alloc, options, registry, board, history, journal, version, next,
        )?;
        Ok(state)
    }

    /// As `open_to_read`, by threads as `open_by`.
    pub fn open_to_read_by<R: Threads + Wait + Sync>(
        rt: &R,
        alloc: Global,
        shelf: &mut NamedShelf<N, S>,
        options: Options,
        registry: Arc<Registry<N, S>>,
        board: (Publisher, Vec<Pinner>),
        history: NewHistory,
        shelves: Vec<NamedShelf<N, S>>,
    ) -> Result<State<N, S>, OpenFault>
        requires fits { Fits options }
        requires board { IsNewBoard N.board options board.0 board.1.items }
        requires history { IsNewHistory N.history history }
        ensures found { IfOk result (λ s. (rest : ℕ) × IsFound S.honest (limit_of options)
            s.journal s.slots.version rest s.next shelf.old shelf.new) }
        ensures opened { IfOk result (λ s.
            s ≡ opened_state options board.0 board.1.items s.slots.version s.journal s.next true) }
        ensures refused { IfErr result (λ e.
            IsFindRefusal (Stored S.Receipt (S.is_of N.place) S.Receipt.number S.Receipt.image)
            (S.refuses N.place) S.honest e shelf.old shelf.new) }
        ensures counts_err { IfErr result (λ e. IsReadOnce e shelf.old shelf.new) }
    {
        let found: Found<N, S> = Found::read_by(
            rt,
            alloc,
            shelf,
            &registry,
            options.limit(),
            shelves,
            &NoWatch,
        )?;
        let Found {
            journal,
            version,
            rest: _,
            next,
            counts: _,
        } = found;
        let state = State::halted(
            alloc, options, registry, board, history, journal, version, next,
        )?;
        Ok(state)
    }

    // The state of what was found, for reading alone.
    pub(crate) fn halted(
        alloc: Global,
        options: Options,
        registry: Arc<Registry<N, S>>,
        board: (Publisher, Vec<Pinner>),
        history: NewHistory,
        journal: Journal,
        version: Version<N, S>,
        next: u64,
    ) -> Result<State<N, S>, AllocError>
        requires fits { Fits options }
        requires board { IsNewBoard N.board options board.0 board.1.items }
        requires history { IsNewHistory N.history history }
        requires openable { (rest : ℕ) × IsOpenable S.honest journal version rest next }
        ensures { IfOk result (λ s.
            s ≡ opened_state options board.0 board.1.items version journal next true) }
    {
        let (publisher, pinners) = board;
        let mut keeper = history.named();
        keeper.grow(&entries_of_version(&version));
        let slots = Slots::new(alloc, publisher, options.versions, version)?;
        keeper.publish(&edition_of(slots.id(), slots.version()));
        Ok(State {
            registry,
            options,
            slots,
            snapshots: Snapshots::new(alloc),
            next,
            next_ticket: 1,
            live: LiveJobs::new(alloc),
            journal,
            halted: true,
            pinners,
            keeper,
        })
    }

    // The state that was opened for reading, once a new manifest has begun under its next number.
    pub(crate) fn begin<R: Wait>(
        self,
        rt: &R,
        alloc: Global,
        shelf: &mut NamedShelf<N, S>,
    ) -> Result<State<N, S>, OpenFault>
        requires board { IsNewBoard N.board self.options self.slots.board self.pinners }
        requires opened { self ≡ opened_state self.options self.slots.board self.pinners
            self.slots.version self.journal self.next true }
        requires openable { (rest : ℕ)
            × IsOpenable S.honest self.journal self.slots.version rest self.next }
        ensures anew { IfOk result (λ s. IsAnew self.slots.version self.next self.journal
            s.journal s.next shelf.old shelf.new) }
        ensures opened { IfOk result (λ s. s ≡ opened_state self.options self.slots.board
            self.pinners self.slots.version s.journal s.next false) }
        ensures refused { IfErr result (λ e. IsNotAnew (S.refuses N.place) self.slots.version
            self.next self.journal e shelf.old shelf.new) }
    {
        let mut state = self;
        let number = state.next;
        if number == u64::MAX {
            return Err(OpenFault::NumbersSpent);
        }
        let version = state.slots.version();
        state
            .journal
            .roll_over(rt, alloc, shelf, &state.registry, version, number)?;
        state.next = number + 1;
        state.halted = false;
        Ok(state)
    }
}
