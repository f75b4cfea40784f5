//! Snapshots.

ghost use Rattle.lsm_script.specs.Replies.{IsReleaseReply, IsSnapshotReply};

use crate::reply::Reply;
use lsm_slots::Boarded;
use lsm_state::State;
use lsm_table::Shelf;

/// Takes a snapshot.
pub(crate) fn snapshot<N: Boarded, S: Shelf>(state: &mut State<N, S>) -> Reply
    ensures { IsSnapshotReply result state.old state.new }
{
    let (_id, version) = state.current();
    let last = version.last();
    match state.snapshot() {
        Ok(id) => Reply::Snapshot(id, last),
        Err(fault) => Reply::refused(fault),
    }
}

/// Gives up the snapshot of this id.
pub(crate) fn release<N: Boarded, S: Shelf>(state: &mut State<N, S>, id: u64) -> Reply
    ensures { IsReleaseReply id result state.old state.new }
{
    match state.release(id) {
        Ok(()) => Reply::Released,
        Err(fault) => Reply::refused(fault),
    }
}
