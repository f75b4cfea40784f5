//! Lists of commands.

ghost use Rattle.std.specs.Prelude.{◌≡◌, ◌≤◌, [], length, vec_capacity, vec_len, List, IfErr};
ghost use Rattle.std.specs.Prelude.{IfOk};
ghost use Rattle.lsm_merge.specs.Work.{Done, Work};
ghost use Rattle.lsm_script.specs.History.{History, IsAnswered, IsOf, history_of};
ghost use Rattle.lsm_script.specs.Scripts.{AreReplies};
ghost use Rattle.lsm_script.specs.Steps.{IsStep, stage, stage_of};

use crate::command::Command;
use crate::desk::Desk;
use crate::reply::Reply;
use lsm_codec::List;
use lsm_model::machine::runs_read_all_that_came;
use lsm_slots::Boarded;
use lsm_state::State;
use lsm_table::{NamedShelf, Shelf};
use std::alloc::{AllocError, Global};
use std::sync::Wait;

/// Answers commands one after another; there is room for the replies.
fn answer_all<N: Boarded, S: Shelf, R: Wait>(
    rt: &R,
    alloc: Global,
    state: &mut State<N, S>,
    desk: &mut Desk<N, S>,
    shelf: &mut NamedShelf<N, S>,
    commands: &[Command],
    replies: &mut Vec<Reply>,
)
    requires none { (replies.old.items ≡ []) × (vec_len replies.old ≡ 0) }
    requires room { length commands.now ≤ vec_capacity replies.old }
    ensures replies { AreReplies (IsStep S.honest) commands.now replies.new.items
        (stage state.old desk.old shelf.old) (stage state.new desk.new shelf.new) }
{
    for command in commands {
        let reply = desk.answer(rt, alloc, state, shelf, command);
        let ends = reply.ends_list();
        let Ok(()) = replies.push(reply) else {
            unreachable!()
        };
        if ends {
            return;
        }
    }
}

/// Answers commands one after another, on one thread. The room for all replies is made first. Each
/// refusal is a reply; one for want of memory is the last, and ends the list. Jobs that it reserved
/// and results that it merged, and did not install, are let go at the end.
///
/// # Errors
/// `AllocError` where there is no room for the replies; then nothing was done.
pub fn run<N: Boarded, S: Shelf, R: Wait>(
    rt: &R,
    alloc: Global,
    state: State<N, S>,
    shelf: &mut NamedShelf<N, S>,
    commands: &[Command],
) -> Result<(State<N, S>, List<Reply>), (AllocError, State<N, S>)>

    // Each reply, and what it leaves, is as the state's call says.
    ensures replies { IfOk result (λ r. (jobs : List Work) × (results : List Done)
        × AreReplies (IsStep S.honest) commands.now r.1 (stage_of state shelf.old)
        record { state = r.0; told = shelf.new; jobs = jobs; results = results }) }

    // The replies are those of the history from the state's own entries, and at the end the state
    // is as the history says.
    ensures history { IfOk result (λ r. (t : History) × AreReplies (IsAnswered S.honest)
        commands.now r.1 (history_of state) t × IsOf S.honest t r.0) }

    ensures err { IfErr result (λ e. (e.1 ≡ state) × (shelf.new ≡ shelf.old)) }
{
    let mut state = state;
    let mut desk = match Desk::new(alloc, &state) {
        Ok(desk) => desk,
        Err(memory) => return Err((memory, state)),
    };
    let mut replies = match Vec::with_capacity(alloc, commands.len()) {
        Ok(replies) => replies,
        Err(memory) => return Err((memory, state)),
    };
    runs_read_all_that_came::<State<N, S>>();
    // The law of the state is told by this call.
    let _options = state.options();
    answer_all(
        rt,
        alloc,
        &mut state,
        &mut desk,
        shelf,
        commands,
        &mut replies,
    );
    Ok((state, List::of(replies)))
}
