//! Reads and listings.

ghost use Rattle.std.specs.Prelude.{◌≡◌};
ghost use Rattle.std.specs.Option.{option_map};
ghost use Rattle.lsm_script.specs.Replies.{IsGetReply, IsListReply, read_reply};

use crate::reply::Reply;
use lsm_codec::{Bytes, List};
use lsm_slots::Boarded;
use lsm_state::State;
use lsm_table::{NamedShelf, Shelf};
use std::alloc::Global;

/// The reply to a read that gives this.
fn read_of(value: Option<Vec<u8>>) -> Reply
    ensures { result ≡ read_reply (option_map (λ b. b.items) value) }
{
    match value {
        Some(value) => Reply::Value(Bytes::of(value)),
        None => Reply::Absent,
    }
}

/// The value of the key, as of the snapshot, or of the last sequence.
pub(crate) fn get<N: Boarded, S: Shelf>(
    alloc: Global,
    state: &State<N, S>,
    shelf: &mut NamedShelf<N, S>,
    key: &Bytes,
    at: Option<u64>,
) -> Reply
    ensures reply { IsGetReply S.honest key.now at result state.now shelf.old shelf.new }
{
    match state.get(shelf, alloc, key.as_slice(), at) {
        Ok(value) => read_of(value),
        Err(fault) => Reply::refused(fault),
    }
}

/// The files of the current version.
pub(crate) fn list<N: Boarded, S: Shelf>(alloc: Global, state: &State<N, S>) -> Reply
    ensures { IsListReply result state.now }
{
    match state.files(alloc) {
        Ok(files) => Reply::Files(List::of(files)),
        Err(_memory) => Reply::out_of_memory(),
    }
}
