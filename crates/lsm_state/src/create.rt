//! A new database.

ghost use Rattle.std.specs.Prelude.{◌≡◌, ◌+◌, ◌<◌, ◌^◌, IfErr, IfOk, OnOk};
ghost use Rattle.lsm_shelf.specs.Told.{Becomes, Rose, next_count, sending};
ghost use Rattle.lsm_journal.specs.Sending.{CreateCounted, CreateCountedUnder, IsCreateAsked};
ghost use Rattle.lsm_journal.specs.Sending.{IsCreateAskedUnder, IsCreateRefusal};
ghost use Rattle.lsm_journal.specs.Sending.{IsCreateRefusalUnder};
ghost use Rattle.lsm_state.specs.Making.{IsNewBoard, IsNewHistory, created_state};
ghost use Rattle.lsm_state.specs.Making.{created_state_under};
ghost use Rattle.lsm_state.specs.Options.{Fits};

use crate::coming::edition_of;
use crate::options::Options;
use crate::state::State;
use lsm_history::NewHistory;
use lsm_journal::Journal;
use lsm_live::LiveJobs;
use lsm_model::machine::created_stores_are_lawful;
use lsm_pins::{Pinner, Publisher};
use lsm_slots::{Boarded, Slots, Snapshots};
use lsm_table::{NamedShelf, Registry, Shelf, ShelfFault};
use lsm_version::Version;
use std::alloc::Global;
use std::sync::{Arc, Wait};

impl<N: Boarded, S: Shelf> State<N, S> {
    /// The state of a new database, on a shelf that has no manifest: no table, no snapshot, no job,
    /// and manifest 1. The board was just made, with the options' readers and as many slots as they
    /// say.
    ///
    /// The caller sees to it that no tables and manifests of an older database are there. A shelf
    /// has no manifest where its directory has no well-formed `CURRENT`, or one that names a
    /// manifest that is gone, so a database whose `CURRENT` was lost is begun anew here, among its
    /// files. No version names its tables then: the next `State::collect` removes them, and until
    /// then a put under the number of one of them is refused as `Taken`. Its manifest 1 is written
    /// over. Where such files are there and a new database is wanted all the same, there is
    /// `create_under`.
    ///
    /// `Taken` with the number of the manifest that is there; `Device`; `OutOfMemory`. After
    /// `Device` manifest 1 may be there or not.
    pub fn create<R: Wait>(
        rt: &R,
        alloc: Global,
        shelf: &mut NamedShelf<N, S>,
        options: Options,
        registry: Arc<Registry<N, S>>,
        board: (Publisher, Vec<Pinner>),
        history: NewHistory,
    ) -> Result<State<N, S>, ShelfFault>
        requires fits { Fits options }
        requires board { IsNewBoard N.board options board.0 board.1.items }
        requires history { IsNewHistory N.history history }
        ensures created { IfOk result (λ s. s ≡ created_state options board.0 board.1.items) }
        ensures sent { IfOk result (λ s. Becomes (sending 1 s.journal.bytes shelf.old) shelf.new) }
        ensures missing { OnOk result (Rose shelf.old.misses shelf.new.misses) }
        ensures counts { OnOk result ((shelf.new.faults ≡ shelf.old.faults)
            × (shelf.new.misses ≡ next_count shelf.old.misses)) }
        ensures refused { IfErr result (λ e. IsCreateRefusal e shelf.old shelf.new) }
        ensures asked { IfErr result (λ e. IsCreateAsked (S.refuses N.place) e
            shelf.old shelf.new) }
        ensures counts_err { IfErr result (λ e. CreateCounted e shelf.old shelf.new) }
    {
        State::create_under(rt, alloc, shelf, options, registry, board, history, 1)
    }

    /// The same under another number: the manifest has this number, and the next file number is one
    /// more. It is for a folder in which files of an older database lie. The caller chooses a
    /// number above those of its tables, manifests and logs, so that no file of the new database
    /// has a name that one of them has; it is below 2^64 - 1, since a next number has to be left.
    /// The old tables are no version's all the same: the next `State::collect` removes them.
    ///
    /// The refusals of `create`, with this number in place of 1.
    pub fn create_under<R: Wait>(
        rt: &R,
        alloc: Global,
        shelf: &mut NamedShelf<N, S>,
        options: Options,
        registry: Arc<Registry<N, S>>,
        board: (Publisher, Vec<Pinner>),
        history: NewHistory,
        number: u64,
    ) -> Result<State<N, S>, ShelfFault>
        requires fits { Fits options }
        requires board { IsNewBoard N.board options board.0 board.1.items }
        requires history { IsNewHistory N.history history }
        requires numbers { number + 1 < 2 ^ 64 }
        ensures created { IfOk result (λ s.
            s ≡ created_state_under number options board.0 board.1.items) }
        ensures sent { IfOk result (λ s.
            Becomes (sending number s.journal.bytes shelf.old) shelf.new) }
        ensures missing { OnOk result (Rose shelf.old.misses shelf.new.misses) }
        ensures counts { OnOk result ((shelf.new.faults ≡ shelf.old.faults)
            × (shelf.new.misses ≡ next_count shelf.old.misses)) }
        ensures refused { IfErr result (λ e. IsCreateRefusalUnder number e shelf.old shelf.new) }
        ensures asked { IfErr result (λ e. IsCreateAskedUnder number
            (S.refuses N.place) e shelf.old shelf.new) }
        ensures counts_err { IfErr result (λ e. CreateCountedUnder number e shelf.old shelf.new) }
    {
        let (publisher, pinners) = board;
        let empty = Version::empty(alloc, Arc::try_clone(&registry)?)?;
        let slots = Slots::new(alloc, publisher, options.versions, empty)?;
        let journal = Journal::create_under(rt, alloc, shelf, options.limit(), number)?;
        created_stores_are_lawful::<State<N, S>>();
        let mut keeper = history.named();
        keeper.publish(&edition_of(slots.id(), slots.version()));
        Ok(State {
            registry,
            options,
            slots,
            snapshots: Snapshots::new(alloc),
            next: number + 1,
            next_ticket: 1,
            live: LiveJobs::new(alloc),
            journal,
            halted: false,
            pinners,
            keeper,
        })
    }
}
