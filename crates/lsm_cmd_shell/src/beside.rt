//! A conversation beside workers.

ghost use Rattle.std.specs.Prelude.{◌≡◌, List, None, ℕ, IfOk};
ghost use Rattle.lsm_script.specs.Steps.{stage};
ghost use Rattle.lsm_cmd_shell.specs.Batching.{standing};
ghost use Rattle.lsm_cmd_shell.specs.Beside.{IsLent, IsRepliedBeside, IsTalkBeside, waiting};
ghost use Rattle.lsm_cmd_shell.specs.Keeping.{IsKeptByNext, IsKeptByReplies, IsKeptByReply};
ghost use Rattle.lsm_cmd_shell.specs.Said.{IsTold, Said};
ghost use Rattle.lsm_cmd_shell.specs.Talk.{IsHeld, IsLineOf, IsReplied, IsTurnOf};

use crate::outcome::Outcome;
use crate::saying::Unsaid;
use crate::speech::Speech;
use crate::talk_fault::TalkFault;
use crate::talking::{answered, judge, next_line, reply_next};
use lsm_folder::Reasons;
use lsm_history::Memory;
use lsm_lines::{LineReader, NextLine, WriteBuffer};
use lsm_script::Desk;
use lsm_slots::Boarded;
use lsm_state::State;
use lsm_store::{Background, Invariant, Store};
use lsm_table::{NamedShelf, Shelf};
use lsm_text::Form;
use std::alloc::Global;
use std::io::{Read, Write};
use std::mem;
use std::sync::Wait;

/// The state has all that is remembered. All that has come in is remembered from then on.
#[tactic(auto, using(crate::proofs::BesideLaws::lent))]
fn catch_up<N: Boarded, S: Shelf>(state: &mut State<N, S>, memory: &mut Memory<N>)
    ensures lent { IsLent S.honest memory.old state.old }
    ensures known { memory.new ≡ state.old.history }
    ensures same { state.new ≡ state.old }
{
    let now = state.remember();
    let before = mem::replace(memory, now);
    state.recall(before);
    state.law();
}

/// Replies to what was read next, on a state that is lent, which has all that is remembered. All
/// that has come in then is remembered.
fn reply_lent<N: Boarded, S: Shelf, R: Wait, I: Read + Drop, O: Write>(
    state: &mut State<N, S>,
    rt: &R,
    alloc: Global,
    memory: &mut Memory<N>,
    desk: &mut Desk<N, S>,
    begun: &mut Option<WriteBuffer>,
    shelf: &mut NamedShelf<N, S>,
    form: Form,
    next: NextLine,
    lines: &LineReader<I>,
    speech: &mut Speech<'_>,
    out: &mut O,
) -> Result<Outcome, Unsaid>
    requires { IsHeld next lines.now.line }
    ensures lent { IsLent S.honest memory.old state.old }
    ensures replied { (line : List ℕ) → IsLineOf next lines.now.line line → (said : Said)
        × IsReplied S.honest form line said
        (standing (stage state.old desk.old shelf.old) begun.old)
        (standing (stage state.new desk.new shelf.new) begun.new)
        × IfOk result (IsTold said (O.contents out.old) (O.contents out.new)) }
    ensures known { memory.new ≡ state.new.history }
{
    catch_up(state, memory);
    let said = reply_next(
        rt, alloc, state, desk, begun, shelf, form, next, lines, speech, out,
    );
    *memory = state.remember();
    said
}

/// The same, on the state that the store lends for it. The reply keeps the fact of the lock.
fn reply_under_lock<N: Boarded, S: Shelf, K: Invariant, R: Wait, I: Read + Drop, O: Write>(
    rt: &R,
    alloc: Global,
    store: &Store<N, S, K>,
    memory: &mut Memory<N>,
    desk: &mut Desk<N, S>,
    begun: &mut Option<WriteBuffer>,
    shelf: &mut NamedShelf<N, S>,
    form: Form,
    next: NextLine,
    lines: &LineReader<I>,
    speech: &mut Speech<'_>,
    out: &mut O,
) -> Result<Outcome, Unsaid>
    requires held { IsHeld next lines.now.line }
    requires kept { (line : List ℕ) × IsLineOf next lines.now.line line
        × IsKeptByReply S.honest form line begun.old K.keeps }
    ensures replied { (line : List ℕ) → IsLineOf next lines.now.line line → (said : Said)
        × IsRepliedBeside S.honest K.keeps form line said
        (waiting memory.old shelf.old desk.old begun.old)
        (waiting memory.new shelf.new desk.new begun.new)
        × IfOk result (IsTold said (O.contents out.old) (O.contents out.new)) }
{
    reply_lent(
        &mut store.lock(rt).state,
        rt,
        alloc,
        memory,
        desk,
        begun,
        shelf,
        form,
        next,
        lines,
        speech,
        out,
    )
}

/// Reads the next line, and replies to it: how it was answered; none at the end of the input, and
/// at `quit`. The store lends its state once the line is there, and level 0 has room for a batch or
/// no worker can make any.
fn take_turn<N: Boarded, S: Shelf, K: Invariant, R: Wait, I: Read + Drop, O: Write>(
    rt: &R,
    alloc: Global,
    store: &Store<N, S, K>,
    background: &Background,
    memory: &mut Memory<N>,
    desk: &mut Desk<N, S>,
    begun: &mut Option<WriteBuffer>,
    shelf: &mut NamedShelf<N, S>,
    form: Form,
    lines: &mut LineReader<I>,
    speech: &mut Speech<'_>,
    out: &mut O,
) -> Result<Option<Outcome>, TalkFault>
    requires kept { IsKeptByNext S.honest form lines.old.left begun.old K.keeps }
    ensures turn { IsTurnOf (IsRepliedBeside S.honest K.keeps form) result lines.old lines.new
        (waiting memory.old shelf.old desk.old begun.old)
        (waiting memory.new shelf.new desk.new begun.new)
        (O.contents out.old) (O.contents out.new) }
{
    match next_line(lines) {
        Ok(Some(next)) => {
            background.wait_for_room(rt, store);
            let said = reply_under_lock(
                rt, alloc, store, memory, desk, begun, shelf, form, next, lines, speech, out,
            );
            answered(said)
        }
        Ok(None) => Ok(None),
        Err(fault) => Err(fault),
    }
}

/// Replies to lines as `talk` does, on the state of a store, whose workers compact beside: it is
/// locked for each line, and not while the next one is waited for. Behind each reply the workers
/// look again. What is remembered when it begins has come in before. The fact of the lock is one
/// that each reply to a line of the input keeps.
///
/// # Errors
/// Those of `talk`.
pub fn talk_beside<N: Boarded, S: Shelf, K: Invariant, R: Wait, I: Read + Drop, O: Write>(
    rt: &R,
    alloc: Global,
    store: &Store<N, S, K>,
    background: &Background,
    memory: &mut Memory<N>,
    desk: &mut Desk<N, S>,
    shelf: &mut NamedShelf<N, S>,
    form: Form,
    bails: bool,
    reasons: Option<&Reasons>,
    lines: &mut LineReader<I>,
    out: &mut O,
) -> Result<(), TalkFault>
    requires asked { IsKeptByReplies S.honest form lines.old.left K.keeps }
    ensures talk { IsTalkBeside S.honest K.keeps form bails lines.old.left result
        (waiting memory.old shelf.old desk.old None) (waiting memory.new shelf.new desk.new None)
        (O.contents out.old) (O.contents out.new) }
{
    let mut begun = None;
    let mut speech = Speech::new(alloc, reasons);
    let mut outcome = Outcome::Done;
    for _turn in 0..u64::MAX {
        let turn = take_turn(
            rt,
            alloc,
            store,
            background,
            memory,
            desk,
            &mut begun,
            shelf,
            form,
            lines,
            &mut speech,
            out,
        );
        background.wake(rt);
        if let Some(end) = judge(bails, &begun, turn, &mut outcome) {
            return end;
        }
    }
    Err(TalkFault::Read)
}
