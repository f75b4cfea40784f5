//! What each call of a state is in a chain of calls.

ghost use Rattle.std.specs.Prelude.{◌≡◌, IfNone, IfOk, IfSome, OnErr, OnOk};
ghost use Rattle.std.specs.Option.{option_map};
ghost use Rattle.lsm_theorems.specs.Calls.{Cancel, Draw, Gather, Get, Ingest, Install, IsCall, Look};
ghost use Rattle.lsm_theorems.specs.Calls.{Refused, Release, Reserve, Snapshot};

use lsm_batch::Batch;
use lsm_history::Memory;
use lsm_merge::{Finished, Job};
use lsm_pins::Pinner;
use lsm_slots::Boarded;
use lsm_state::{GatherFault, Ingested, State, StateFault};
use lsm_store::{Reader, View};
use lsm_table::{NamedShelf, Shelf};
use std::alloc::{AllocError, Global};
use std::sync::Wait;

/// An ingest.
pub fn ingests_are_calls<N: Boarded, S: Shelf, R: Wait>(
    rt: &R,
    alloc: Global,
    state: &mut State<N, S>,
    shelf: &mut NamedShelf<N, S>,
    batch: &Batch,
) -> Result<Ingested, StateFault>
    ensures ok { IfOk result (λ r. IsCall S.honest (Ingest batch.now r) state.old state.new) }
    ensures err { OnErr result (IsCall S.honest Refused state.old state.new) }
{
    state.ingest(rt, alloc, shelf, batch)
}

/// A read, which is in the chain where it was answered.
pub fn reads_are_calls<N: Boarded, S: Shelf>(
    state: &State<N, S>,
    shelf: &mut NamedShelf<N, S>,
    alloc: Global,
    user: &[u8],
    at: Option<u64>,
) -> Result<Option<Vec<u8>>, StateFault>
    ensures { IfOk result (λ v. IsCall S.honest
        (Get user.now at (option_map (λ b. b.items) v)) state.now state.now) }
{
    state.get(shelf, alloc, user, at)
}

/// A snapshot.
pub fn snapshots_are_calls<N: Boarded, S: Shelf>(state: &mut State<N, S>) -> Result<u64, StateFault>
    ensures ok { IfOk result (λ id. IsCall S.honest (Snapshot id) state.old state.new) }
    ensures err { OnErr result (IsCall S.honest Refused state.old state.new) }
{
    state.snapshot()
}

/// A snapshot that is given up.
pub fn releases_are_calls<N: Boarded, S: Shelf>(
    state: &mut State<N, S>,
    id: u64,
) -> Result<(), StateFault>
    ensures ok { OnOk result (IsCall S.honest (Release id) state.old state.new) }
    ensures err { OnErr result (IsCall S.honest Refused state.old state.new) }
{
    state.release(id)
}

/// A reservation by choice; where there is no choice nothing changes.
pub fn reservations_are_calls<N: Boarded, S: Shelf>(
    alloc: Global,
    state: &mut State<N, S>,
) -> Result<Option<Job<N, S>>, StateFault>
    ensures ok { IfOk result (λ r.
        IfSome r (λ w. IsCall S.honest (Reserve w) state.old state.new)) }
    ensures none { IfOk result (λ r. IfNone r (IsCall S.honest Look state.old state.new)) }
    ensures err { OnErr result (IsCall S.honest Refused state.old state.new) }
{
    state.reserve(alloc)
}

/// A reservation of a range.
pub fn range_reservations_are_calls<N: Boarded, S: Shelf>(
    alloc: Global,
    state: &mut State<N, S>,
    level: u8,
    from: &[u8],
    to: &[u8],
) -> Result<Option<Job<N, S>>, StateFault>
    ensures ok { IfOk result (λ r.
        IfSome r (λ w. IsCall S.honest (Reserve w) state.old state.new)) }
    ensures none { IfOk result (λ r. IfNone r (IsCall S.honest Look state.old state.new)) }
    ensures err { OnErr result (IsCall S.honest Refused state.old state.new) }
{
    state.reserve_range(alloc, level, from, to)
}

/// A number that is drawn.
pub fn numbers_are_calls<N: Boarded, S: Shelf>(
    state: &mut State<N, S>,
    ticket: u64,
) -> Result<u64, StateFault>
    ensures ok { IfOk result (λ n. IsCall S.honest (Draw ticket n) state.old state.new) }
    ensures err { OnErr result (IsCall S.honest Refused state.old state.new) }
{
    state.new_number(ticket)
}

/// A result that is installed.
pub fn installs_are_calls<N: Boarded, S: Shelf, R: Wait>(
    rt: &R,
    alloc: Global,
    state: &mut State<N, S>,
    shelf: &mut NamedShelf<N, S>,
    done: Finished<N, S>,
) -> Result<Vec<u64>, (StateFault, Finished<N, S>)>
    ensures ok { OnOk result (IsCall S.honest (Install done) state.old state.new) }
    ensures err { OnErr result (IsCall S.honest Refused state.old state.new) }
{
    state.install(rt, alloc, shelf, done)
}

/// Newest files of level 0 that become one; where there are none to gather nothing changes.
pub fn gatherings_are_calls<N: Boarded, S: Shelf, R: Wait>(
    rt: &R,
    alloc: Global,
    state: &mut State<N, S>,
    shelf: &mut NamedShelf<N, S>,
) -> Result<Option<u64>, GatherFault>
    ensures ok { IfOk result (λ r. IfSome r (λ n.
        IsCall S.honest (Gather n) state.old state.new)) }
    ensures none { IfOk result (λ r. IfNone r (IsCall S.honest Look state.old state.new)) }
    ensures err { OnErr result (IsCall S.honest Refused state.old state.new) }
{
    state.gather(rt, alloc, shelf)
}

/// A compaction that is cancelled.
pub fn cancels_are_calls<N: Boarded, S: Shelf>(
    state: &mut State<N, S>,
    ticket: u64,
) -> Result<(), StateFault>
    ensures ok { OnOk result (IsCall S.honest (Cancel ticket) state.old state.new) }
    ensures err { OnErr result (IsCall S.honest Refused state.old state.new) }
{
    state.cancel(ticket)
}

/// A removal of tables that nobody needs, also one that was refused.
pub fn collects_are_calls<N: Boarded, S: Shelf, R: Wait>(
    rt: &R,
    alloc: Global,
    state: &mut State<N, S>,
    shelf: &mut NamedShelf<N, S>,
) -> Result<Vec<u64>, (StateFault, Vec<u64>)>
    ensures { IsCall S.honest Look state.old state.new }
{
    state.collect(rt, alloc, shelf)
}

/// A pin under the lock, also one that was refused.
pub fn pins_are_calls<N: Boarded, S: Shelf>(state: &mut State<N, S>) -> Result<u32, StateFault>
    ensures { IsCall S.honest Look state.old state.new }
{
    state.pin()
}

/// A pin that is given back, also one that was refused.
pub fn unpins_are_calls<N: Boarded, S: Shelf>(
    state: &mut State<N, S>,
    id: u32,
) -> Result<(), StateFault>
    ensures { IsCall S.honest Look state.old state.new }
{
    state.unpin(id)
}

/// A reader's end of the board that learns the current version.
pub fn learners_are_calls<N: Boarded, S: Shelf>(
    state: &mut State<N, S>,
    pinner: &mut Pinner,
) -> (u32, u8)
    requires { pinner.old.board ≡ N.board }
    ensures { IsCall S.honest Look state.old state.new }
{
    state.learn(pinner)
}

/// A reader's end of the board that asks for the tables of the version that it holds.
pub fn meetings_are_calls<N: Boarded, S: Shelf>(
    alloc: Global,
    state: &mut State<N, S>,
    pinner: &mut Pinner,
) -> Result<Option<Vec<u64>>, AllocError>
    requires { pinner.old.board ≡ N.board }
    ensures { IsCall S.honest Look state.old state.new }
{
    state.meet(alloc, pinner)
}

/// A reader that learns the current version, and all that has come in, also where it is refused.
pub fn refreshes_are_calls<N: Boarded, S: Shelf>(
    reader: &mut Reader<N, S>,
    state: &mut State<N, S>,
) -> Result<(), AllocError>
    ensures { IsCall S.honest Look state.old state.new }
{
    reader.refresh(state)
}

/// A view that asks for the tables of its version.
pub fn view_meetings_are_calls<N: Boarded, S: Shelf>(
    alloc: Global,
    view: &mut View<N, S>,
    state: &mut State<N, S>,
) -> Result<Vec<u64>, AllocError>
    ensures { IsCall S.honest Look state.old state.new }
{
    view.meet(alloc, state)
}

/// The readers' ends of the board, which are handed out.
pub fn takings_are_calls<N: Boarded, S: Shelf>(
    alloc: Global,
    state: &mut State<N, S>,
) -> Vec<Pinner>
    ensures { IsCall S.honest Look state.old state.new }
{
    state.take_pinners(alloc)
}

/// A history that is remembered.
pub fn memories_are_calls<N: Boarded, S: Shelf>(state: &mut State<N, S>) -> Memory<N>
    ensures { IsCall S.honest Look state.old state.new }
{
    state.remember()
}

/// A history that is recalled.
pub fn recalls_are_calls<N: Boarded, S: Shelf>(state: &mut State<N, S>, memory: Memory<N>)
    ensures { IsCall S.honest Look state.old state.new }
{
    state.recall(memory);
}
