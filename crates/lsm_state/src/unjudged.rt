//! A database that is there, whose tables are found and not judged.

ghost use Rattle.std.specs.Prelude.{◌≡◌, ◌⊎◌, ℕ, false, IfErr, IfOk};
ghost use Rattle.lsm_shelf.specs.Told.{Becomes, Told, finding};
ghost use Rattle.lsm_journal.specs.Recovering.{IsRecovered};
ghost use Rattle.lsm_journal.specs.declared.open_fault.OpenFault.TheVariants.{OutOfMemory};
ghost use Rattle.lsm_admission.specs.Indexes.{HaveIndexes, all_tables};
ghost use Rattle.lsm_admission.specs.Keeping.{KeepsTables};
ghost use Rattle.lsm_state.specs.Making.{IsNewBoard, IsNewHistory};
ghost use Rattle.lsm_state.specs.Opening.{IsAnew, IsBegun, IsNotAnew, IsOpenable, opened_state};
ghost use Rattle.lsm_state.specs.Options.{Fits, limit_of};
ghost use Rattle.lsm_state.specs.Unjudged.{IsBegunUnjudged, IsUnjudgedRefusal};

use crate::options::Options;
use crate::state::State;
use lsm_admission::{Admitted, found_is_recorded, open_indexes};
use lsm_finding::{Finding, Vouched, Vouching};
use lsm_history::NewHistory;
use lsm_journal::{OpenFault, Recovered};
use lsm_pins::{Pinner, Publisher};
use lsm_slots::Boarded;
use lsm_table::{NamedShelf, Registry};
use std::alloc::Global;
use std::sync::{Arc, Wait};

impl<N: Boarded, S: Finding> State<N, S> {
    /// The state of the database of which this manifest was read, as `State::open` gives it, but
    /// its tables are found and measured, and of each its footer and its index block are read, and
    /// no data block: it takes the time of the tables' number and their index blocks. A new
    /// manifest begins. The shelf is given back.
    ///
    /// The premise, under an honest shelf and `V`, is that the shelf keeps the tables of this
    /// manifest (`KeepsTables`): then the state is one that `open` gives. Without it the state has
    /// a table for each file still, and what it answers is not said.
    ///
    /// The refusals of `Admitted::of_manifest`; those of `open_indexes`; then those by which `open`
    /// begins no new manifest.
    pub fn open_found<V: Vouching, R: Wait>(
        rt: &R,
        alloc: Global,
        shelf: NamedShelf<N, Vouched<V, S>>,
        recovered: Recovered,
        options: Options,
        registry: Arc<Registry<N, Vouched<V, S>>>,
        board: (Publisher, Vec<Pinner>),
        history: NewHistory,
    ) -> (
        Result<State<N, Vouched<V, S>>, OpenFault>,
        NamedShelf<N, Vouched<V, S>>,
    )
        requires recovered { IsRecovered recovered.journal recovered.shape recovered.rest }
        requires manifest { (was : Told)
            × Becomes (finding recovered.journal.number recovered.journal.bytes was) shelf }
        requires limit { recovered.journal.limit ≡ limit_of options }
        requires kept { S.honest → V.holds → KeepsTables (S.keeps N.place) recovered.shape }
        requires fits { Fits options }
        requires board { IsNewBoard N.board options board.0 board.1.items }
        requires history { IsNewHistory N.history history }
        ensures begun { (was : Told)
            → Becomes (finding recovered.journal.number recovered.journal.bytes was) shelf
            → IfOk result.0 (λ s. IsBegunUnjudged (S.keeps N.place) recovered.shape
            (limit_of options) s.journal s.slots.version s.next was result.1) }
        ensures judged { (was : Told)
            → Becomes (finding recovered.journal.number recovered.journal.bytes was) shelf
            → S.honest → V.holds → IfOk result.0 (λ s. IsBegun (S.honest × V.holds)
            (limit_of options) s.journal s.slots.version s.next was result.1) }
        ensures indexes { S.honest
            → IfOk result.0 (λ s. HaveIndexes (all_tables s.slots.version.tables)) }
        ensures opened { IfOk result.0 (λ s.
            s ≡ opened_state options board.0 board.1.items s.slots.version s.journal s.next false) }
        ensures refused { (was : Told)
            → Becomes (finding recovered.journal.number recovered.journal.bytes was) shelf
            → IfErr result.0 (λ e. IsUnjudgedRefusal (S.keeps N.place) (S.refuses N.place)
            S.honest recovered.shape (limit_of options) e was result.1) }
    {
        found_is_recorded::<N, S>();
        let mut shelf = shelf;
        match Admitted::of_manifest(rt, alloc, &mut shelf, &registry, recovered) {
            Ok(admitted) => {
                let (opened, mut shelf) = open_indexes(alloc, shelf, &admitted.version);
                match opened {
                    Ok(()) => {
                        let state = State::begin_admitted(
                            rt, alloc, &mut shelf, options, registry, board, history, admitted,
                        );
                        (state, shelf)
                    }
                    Err(fault) => (Err(OpenFault::Check(fault)), shelf),
                }
            }
            Err(fault) => (Err(fault), shelf),
        }
    }

    // The state of what was found, once a new manifest has begun.
    fn begin_admitted<R: Wait>(
        rt: &R,
        alloc: Global,
        shelf: &mut NamedShelf<N, S>,
        options: Options,
        registry: Arc<Registry<N, S>>,
        board: (Publisher, Vec<Pinner>),
        history: NewHistory,
        admitted: Admitted<N, S>,
    ) -> Result<State<N, S>, OpenFault>
        requires fits { Fits options }
        requires board { IsNewBoard N.board options board.0 board.1.items }
        requires history { IsNewHistory N.history history }
        requires openable { (rest : ℕ)
            × IsOpenable S.honest admitted.journal admitted.version rest admitted.next }
        ensures anew { IfOk result (λ s. IsAnew admitted.version admitted.next admitted.journal
            s.journal s.next shelf.old shelf.new) }
        ensures opened { IfOk result (λ s. s ≡ opened_state options board.0 board.1.items
            admitted.version s.journal s.next false) }
        ensures refused { IfErr result (λ e. ((e ≡ OutOfMemory) × (shelf.new ≡ shelf.old))
            ⊎ IsNotAnew (S.refuses N.place) admitted.version admitted.next admitted.journal e
            shelf.old shelf.new) }
    {
        let Admitted {
            journal,
            version,
            rest: _,
            next,
        } = admitted;
        let state = State::halted(
            alloc, options, registry, board, history, journal, version, next,
        )?;
        state.begin(rt, alloc, shelf)
    }
}
