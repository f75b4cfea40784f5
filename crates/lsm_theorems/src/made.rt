//! A new database in a folder of the system, from its opening to a read: every premise of the
//! calls on the way is met by a call before it.

ghost use Rattle.std.specs.Prelude.{◌≡◌, ◌++◌, IfOk, OnOk};
ghost use Rattle.std.specs.Option.{option_map};
ghost use Rattle.lsm_batch.specs.Batches.{entries_from};
ghost use Rattle.lsm_crash.specs.Database.{IsMade};
ghost use Rattle.lsm_state.specs.Ingesting.{entries_of};
ghost use Rattle.lsm_state.specs.Making.{IsNewBoard, IsNewHistory};
ghost use Rattle.lsm_state.specs.Options.{Fits};
ghost use Rattle.lsm_theorems.specs.FirstLife.{IsFirstLife};
ghost use Rattle.lsm_theorems.specs.Newest.{IsReadOfAll};

use crate::compared::ComparedShelf;
use crate::memories::read_first;
use lsm_batch::Batch;
use lsm_crash::states::premises_of_runs_are_met;
use lsm_history::NewHistory;
use lsm_pins::{Board, Pinner, Publisher};
use lsm_slots::Boarded;
use lsm_state::{Ingested, Options, State, StateFault};
use lsm_storage::FileShelf;
use lsm_table::{NamedShelf, Records, Registry, Shelf};
use std::alloc::Global;
use std::marker::Brand;
use std::sync::{Arc, Wait};

/// What is brought into a new database in the folder of this path is read: the newest entry of the
/// batch under the key, or none where it has none. It is said of the system's folder, with the
/// witness that compares, and with no premise; or a call on the way was refused. So the
/// premises of the calls of a database (that options fit, that a board and a history are new and
/// are those of the name, that a shelf is of its place, and that it is honest) are all met at once,
/// by what a program does.
pub fn what_came_in_is_read<R: Wait>(
    rt: &R,
    host: HostRuntime,
    path: &str,
    batch: &Batch,
    user: &[u8],
) -> Result<Option<Vec<u8>>, StateFault>
    ensures { IfOk result (λ v.
        IsReadOfAll (entries_from 1 batch.now) user.now (option_map (λ b. b.items) v)) }
{
    let alloc = host.alloc();
    let options = Options::usual();
    let records = Records::new(alloc)?;
    let board = Board::new(alloc, options.readers, options.versions)?;
    let history = NewHistory::new(alloc)?;
    let shelf: ComparedShelf = FileShelf::open(host, path)?;
    read_back::<Brand, ComparedShelf, R>(
        rt, alloc, shelf, options, records, board, history, batch, user,
    )
}

/// The same on any shelf, where that is honest.
fn read_back<N: Boarded, S: Shelf, R: Wait>(
    rt: &R,
    alloc: Global,
    shelf: S,
    options: Options,
    records: Records<S::Receipt>,
    board: (Publisher, Vec<Pinner>),
    history: NewHistory,
    batch: &Batch,
    user: &[u8],
) -> Result<Option<Vec<u8>>, StateFault>
    requires fits { Fits options }
    requires records { records ≡ N.registry }
    requires named { (S.told shelf).place ≡ N.place }
    requires board { IsNewBoard N.board options board.0 board.1.items }
    requires history { IsNewHistory N.history history }
    ensures { S.honest → IfOk result (λ v.
        IsReadOfAll (entries_from 1 batch.now) user.now (option_map (λ b. b.items) v)) }
{
    let registry = Registry::<N, S>::shared(alloc, records)?;
    let mut shelf = NamedShelf::of(shelf);
    let mut state = brought(
        rt, alloc, &mut shelf, options, registry, board, history, batch,
    )?;
    let (value, _memory) = read_first(alloc, &mut state, &mut shelf, user);
    value
}

/// A new database, into which the batch came and nothing else.
fn brought<N: Boarded, S: Shelf, R: Wait>(
    rt: &R,
    alloc: Global,
    shelf: &mut NamedShelf<N, S>,
    options: Options,
    registry: Arc<Registry<N, S>>,
    board: (Publisher, Vec<Pinner>),
    history: NewHistory,
    batch: &Batch,
) -> Result<State<N, S>, StateFault>
    requires fits { Fits options }
    requires board { IsNewBoard N.board options board.0 board.1.items }
    requires history { IsNewHistory N.history history }
    ensures { IfOk result (λ s. s.history ≡ entries_from 1 batch.now) }
{
    let mut state = State::<N, S>::create(rt, alloc, shelf, options, registry, board, history)?;
    first_batches_are_a_life(rt, alloc, &mut state, shelf, batch)?;
    Ok(state)
}

/// What is brought into a database that was just made: its first life, from an empty disk on, until
/// power is cut. So the premises of theorem 7 are met by what these calls do.
pub fn first_batches_are_a_life<N: Boarded, S: Shelf, R: Wait>(
    rt: &R,
    alloc: Global,
    state: &mut State<N, S>,
    shelf: &mut NamedShelf<N, S>,
    batch: &Batch,
) -> Result<Ingested, StateFault>
    requires made { IsMade state.old }
    ensures lived { IfOk result (λ r. IsFirstLife S.honest state.old state.new batch.now r) }
    ensures brought { OnOk result (state.new.history
        ≡ entries_of state.old batch.now ++ state.old.history) }
{
    premises_of_runs_are_met::<State<N, S>>();
    let _options = state.options();
    let ingested = state.ingest(rt, alloc, shelf, batch);
    let _options = state.options();
    ingested
}
