//! Pins, and tables that nobody needs.

ghost use Rattle.std.specs.Prelude.{◌≡◌};
ghost use Rattle.lsm_script.specs.Replies.{IsCollectReply, IsPinReply, IsUnpinReply};

use crate::reply::Reply;
use lsm_codec::List;
use lsm_slots::Boarded;
use lsm_state::State;
use lsm_table::{NamedShelf, Shelf};
use std::alloc::Global;
use std::sync::Wait;

/// Pins the current version.
pub(crate) fn pin<N: Boarded, S: Shelf>(state: &mut State<N, S>) -> Reply
    ensures { IsPinReply result state.old state.new }
{
    match state.pin() {
        Ok(id) => Reply::Pinned(id),
        Err(fault) => Reply::refused(fault),
    }
}

/// Gives back a pin of the version of this id.
pub(crate) fn unpin<N: Boarded, S: Shelf>(state: &mut State<N, S>, id: u32) -> Reply
    ensures { IsUnpinReply id result state.old state.new }
{
    match state.unpin(id) {
        Ok(()) => Reply::Unpinned,
        Err(fault) => Reply::refused(fault),
    }
}

/// Removes the tables that nobody needs.
pub(crate) fn collect<N: Boarded, S: Shelf, R: Wait>(
    rt: &R,
    alloc: Global,
    state: &mut State<N, S>,
    shelf: &mut NamedShelf<N, S>,
) -> Reply
    ensures reply { IsCollectReply result state.old state.new shelf.old shelf.new }
{
    match state.collect(rt, alloc, shelf) {
        Ok(numbers) => Reply::Removed(List::of(numbers)),
        Err((fault, _removed)) => Reply::refused(fault),
    }
}
