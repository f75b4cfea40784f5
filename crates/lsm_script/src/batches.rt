//! Batches that come in.

ghost use Rattle.std.specs.Prelude.{◌≡◌};
ghost use Rattle.lsm_script.specs.Replies.{IsIngestReply};

use crate::reply::Reply;
use lsm_batch::Batch;
use lsm_slots::Boarded;
use lsm_state::State;
use lsm_table::{NamedShelf, Shelf};
use std::alloc::Global;
use std::sync::Wait;

/// Brings the batch in.
pub(crate) fn ingest<N: Boarded, S: Shelf, R: Wait>(
    rt: &R,
    alloc: Global,
    state: &mut State<N, S>,
    shelf: &mut NamedShelf<N, S>,
    batch: &Batch,
) -> Reply
    ensures reply { IsIngestReply batch.now result state.old state.new shelf.old shelf.new }
{
    match state.ingest(rt, alloc, shelf, batch) {
        Ok(ingested) => Reply::Ingested(ingested),
        Err(fault) => Reply::refused(fault),
    }
}
