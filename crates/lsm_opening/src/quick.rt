//! The state of a database whose tables are found and not judged.

ghost use Rattle.std.specs.Prelude.{◌≡◌, IfErr, IfOk};
ghost use Rattle.lsm_journal.specs.declared.open_fault.OpenFault.{OpenFault};
ghost use Rattle.lsm_admission.specs.Keeping.{KeepsTables};
ghost use Rattle.lsm_journal.specs.Recovering.{IsRecovered};
ghost use Rattle.lsm_opening.specs.Parts.{AreOf};
ghost use Rattle.lsm_opening.specs.Quick.{IsNotOpenedQuickly, IsOpenedWith, OpensQuickly};
ghost use Rattle.lsm_opening.specs.WriterFault.{of_open};
ghost use Rattle.lsm_admission.specs.Indexes.{HaveIndexes, all_tables};
ghost use Rattle.lsm_opening.specs.Starting.{IsReopenedWith};
ghost use Rattle.lsm_shelf.specs.Told.{Becomes, Told, finding};
ghost use Rattle.lsm_state.specs.Options.{limit_of};
ghost use Rattle.lsm_state.specs.Unjudged.{IsBegunUnjudged, IsUnjudgedRefusal};
ghost use Rattle.lsm_store.specs.Readers.{SeatsPinners};

use crate::faults::writer_fault::WriterFault;
use crate::parts::{NewParts, Parts, named_parts};
use lsm_directory::{FolderFile, first_unread};
use lsm_finding::{Finding, Vouched, Vouching};
use lsm_journal::Recovered;
use lsm_slots::Boarded;
use lsm_state::State;
use lsm_store::laws::made_states_seat_their_pinners;
use lsm_table::NamedShelf;
use std::alloc::Global;
use std::sync::Wait;

/// The state of the database of which this manifest was read, under the name and the premise that
/// were picked, with the options of these parts, as `start_with` opens one; but its tables are
/// found and measured, of each its footer and its index block are read, and no data block. The
/// shelf is given back under that premise: that it keeps the tables of this manifest
/// (`KeepsTables`). Where it does, the state is that of an opening which judges every table.
///
/// `UnflushedLog` with the first of these logs that LevelDB would read; the refusals of
/// `State::open_found`.
pub fn open_quickly<N: Boarded, V: Vouching, S: Finding, R: Wait>(
    rt: &R,
    alloc: Global,
    shelf: S,
    recovered: Recovered,
    logs: &[FolderFile],
    parts: NewParts<S>,
) -> (
    Result<State<N, Vouched<V, S>>, WriterFault>,
    NamedShelf<N, Vouched<V, S>>,
)
    requires named { AreOf parts.options N.registry N.board N.history parts }
    requires shelf { (S.told shelf).place ≡ N.place }
    requires recovered { IsRecovered recovered.journal recovered.shape recovered.rest }
    requires manifest { (was : Told)
        × Becomes (finding recovered.journal.number recovered.journal.bytes was) (S.told shelf) }
    requires limit { recovered.journal.limit ≡ limit_of parts.options }
    requires kept { S.honest → V.holds → KeepsTables (S.keeps N.place) recovered.shape }
    ensures opened { (was : Told)
        → Becomes (finding recovered.journal.number recovered.journal.bytes was) (S.told shelf)
        → IfOk result.0 (λ s. OpensQuickly (S.keeps N.place) S.honest V.holds parts.options
        recovered.shape logs.now s was result.1) }
    ensures board { IfOk result.0 (λ s. s.slots.board.board ≡ N.board) }
    ensures seats { IfOk result.0 (λ s. SeatsPinners s) }
    ensures refused { (was : Told)
        → Becomes (finding recovered.journal.number recovered.journal.bytes was) (S.told shelf)
        → IfErr result.0 (λ e. IsNotOpenedQuickly (S.keeps N.place) (S.refuses N.place) S.honest
        parts.options recovered.shape logs.now e was result.1) }
{
    let vouched: Vouched<V, S> = Vouched::of(shelf);
    let shelf: NamedShelf<N, Vouched<V, S>> = NamedShelf::of(vouched);
    match first_unread(logs, recovered.shape.log, recovered.shape.prev_log) {
        Some(number) => (Err(WriterFault::UnflushedLog(number)), shelf),
        None => match named_parts(alloc, parts.vouched()) {
            Ok(parts) => reopen_quickly::<N, V, S, R>(rt, alloc, shelf, recovered, parts),
            Err(fault) => (Err(fault), shelf),
        },
    }
}

/// The same beside logs that are flushed, of parts that have their name.
fn reopen_quickly<N: Boarded, V: Vouching, S: Finding, R: Wait>(
    rt: &R,
    alloc: Global,
    shelf: NamedShelf<N, Vouched<V, S>>,
    recovered: Recovered,
    parts: Parts<N, Vouched<V, S>>,
) -> (
    Result<State<N, Vouched<V, S>>, WriterFault>,
    NamedShelf<N, Vouched<V, S>>,
)
    requires recovered { IsRecovered recovered.journal recovered.shape recovered.rest }
    requires manifest { (was : Told)
        × Becomes (finding recovered.journal.number recovered.journal.bytes was) shelf }
    requires limit { recovered.journal.limit ≡ limit_of parts }
    requires kept { S.honest → V.holds → KeepsTables (S.keeps N.place) recovered.shape }
    ensures begun { (was : Told)
        → Becomes (finding recovered.journal.number recovered.journal.bytes was) shelf
        → IfOk result.0 (λ s. IsBegunUnjudged (S.keeps N.place) recovered.shape
        (limit_of parts) s.journal s.slots.version s.next was result.1) }
    ensures state { IfOk result.0 (λ s. IsOpenedWith parts s) }
    ensures indexes { S.honest
        → IfOk result.0 (λ s. HaveIndexes (all_tables s.slots.version.tables)) }
    ensures judged { (was : Told)
        → Becomes (finding recovered.journal.number recovered.journal.bytes was) shelf
        → S.honest → V.holds → IfOk result.0 (λ s. IsReopenedWith (S.honest × V.holds) parts s was
        result.1) }
    ensures board { IfOk result.0 (λ s. s.slots.board.board ≡ N.board) }
    ensures seats { IfOk result.0 (λ s. SeatsPinners s) }
    ensures refused { (was : Told)
        → Becomes (finding recovered.journal.number recovered.journal.bytes was) shelf
        → IfErr result.0 (λ e. (fault : OpenFault) × (e ≡ of_open fault)
        × IsUnjudgedRefusal (S.keeps N.place) (S.refuses N.place) S.honest recovered.shape
        (limit_of parts) fault was result.1) }
{
    made_states_seat_their_pinners();
    let Parts {
        options,
        registry,
        publisher,
        pinners,
        history,
    } = parts;
    let board = (publisher, pinners);
    let (opened, shelf) = State::<N, S>::open_found::<V, R>(
        rt, alloc, shelf, recovered, options, registry, board, history,
    );
    match opened {
        Ok(state) => {
            // The law of the state is told by this call.
            let _options = state.options();
            (Ok(state), shelf)
        }
        Err(fault) => (Err(WriterFault::of_open(fault)), shelf),
    }
}
