//! Installs.

ghost use Rattle.std.specs.Prelude.{◌≡◌};
ghost use Rattle.lsm_script.specs.Replies.{IsInstallReply};

use crate::held::index_of_result;
use crate::reply::Reply;
use lsm_codec::List;
use lsm_merge::Finished;
use lsm_slots::Boarded;
use lsm_state::State;
use lsm_table::{NamedShelf, Shelf};
use std::alloc::Global;
use std::sync::Wait;

/// Installs the result of this ticket. A refused one is kept.
#[tactic(auto, using(crate::proofs::Elements::taken_out, crate::proofs::Elements::put_back, lsm_live::proofs::CallerLemmas::has_at))]
pub(crate) fn install<N: Boarded, S: Shelf, R: Wait>(
    rt: &R,
    alloc: Global,
    state: &mut State<N, S>,
    shelf: &mut NamedShelf<N, S>,
    results: &mut Vec<Finished<N, S>>,
    ticket: u64,
) -> Reply
    ensures reply { IsInstallReply S.honest ticket result state.old state.new results.old.items
        results.new.items shelf.old shelf.new }
{
    let Some(at) = index_of_result(results, ticket) else {
        return Reply::unknown(ticket);
    };
    let done = results.remove(at);
    match state.install(rt, alloc, shelf, done) {
        Ok(numbers) => Reply::Installed(List::of(numbers)),
        Err((fault, done)) => {
            let Ok(()) = results.insert(at, done) else {
                unreachable!()
            };
            Reply::refused(fault)
        }
    }
}
