//! A conversation, line after line.

ghost use Rattle.std.specs.Prelude.{◌≡◌, ◌⊎◌, List, None, Some, ℕ, codes, Err, IfErr, IfNone};
ghost use Rattle.std.specs.Prelude.{IfOk, IfSome, Ok, OnErr};
ghost use Rattle.std.specs.Io.KnownBytes.{IsAtEnd};
ghost use Rattle.lsm_lines.specs.Reading.{TakesLine};
ghost use Rattle.lsm_script.specs.Steps.{stage};
ghost use Rattle.lsm_cmd_shell.specs.Batching.{standing};
ghost use Rattle.lsm_cmd_shell.specs.Said.{IsTold, Said};
ghost use Rattle.lsm_cmd_shell.specs.Talk.{IsEnded, IsHeld, IsJudged, IsLineOf, IsReplied, IsTalk};
ghost use Rattle.lsm_cmd_shell.specs.Talk.{IsToReply, IsTurnOf};
ghost use Rattle.lsm_cmd_shell.specs.declared.talk_fault.TalkFault.TheVariants.{Read as ReadFault};
ghost use Rattle.lsm_cmd_shell.specs.declared.talk_fault.TalkFault.TheVariants.{Write as WriteFault};

use crate::outcome::Outcome;
use crate::replying::reply_to;
use crate::saying::{Unsaid, say_failed};
use crate::speech::Speech;
use crate::talk_fault::TalkFault;
use lsm_folder::Reasons;
use lsm_lines::{LineReader, NextLine, WriteBuffer};
use lsm_script::Desk;
use lsm_slots::Boarded;
use lsm_state::State;
use lsm_table::{NamedShelf, Shelf};
use lsm_text::Form;
use std::alloc::Global;
use std::io::{Read, Write};
use std::sync::Wait;

/// How the line of a turn was answered: a reply was said.
pub(crate) fn answered(said: Result<Outcome, Unsaid>) -> Result<Option<Outcome>, TalkFault>
    ensures ok { IfOk said (λ outcome. result ≡ Ok (Some outcome)) }
    ensures err { OnErr said (result ≡ Err WriteFault) }
{
    match said {
        Ok(outcome) => Ok(Some(outcome)),
        Err(Unsaid) => Err(TalkFault::Write),
    }
}

/// What a conversation comes to where nothing more is read: its lines were answered so, and this
/// batch is begun.
fn ended(outcome: Outcome, begun: &Option<WriteBuffer>) -> Result<(), TalkFault>
    ensures { IsEnded outcome begun.now result }
{
    match (outcome, begun) {
        (Outcome::Failed, _) => Err(TalkFault::LineFailed),
        (Outcome::Done, Some(_)) => Err(TalkFault::BatchOpen),
        (Outcome::Done, None) => Ok(()),
    }
}

/// What a conversation comes to behind this turn; none where it goes on. `outcome` is how its lines
/// were answered so far: `Failed` where one failed. If it bails it ends behind such a line.
pub(crate) fn judge(
    bails: bool,
    begun: &Option<WriteBuffer>,
    turn: Result<Option<Outcome>, TalkFault>,
    outcome: &mut Outcome,
) -> Option<Result<(), TalkFault>>
    ensures { IsJudged bails begun.now turn outcome.old outcome.new result }
{
    match turn {
        Ok(Some(Outcome::Done)) => None,
        Ok(Some(Outcome::Failed)) if bails => Some(Err(TalkFault::LineFailed)),
        Ok(Some(Outcome::Failed)) => {
            *outcome = Outcome::Failed;
            None
        }
        Ok(None) => Some(ended(*outcome, begun)),
        Err(fault) => Some(Err(fault)),
    }
}

/// Reads what is to be replied to next: none at the end of the input, and at `quit`.
pub(crate) fn next_line<I: Read + Drop>(
    lines: &mut LineReader<I>,
) -> Result<Option<NextLine>, TalkFault>
    ensures some { IfOk result (λ o. IfSome o (IsToReply lines.old lines.new)) }
    ensures none { IfOk result (λ o. IfNone o (IsAtEnd lines.old.left
        ⊎ TakesLine (codes "quit") lines.old.left lines.new.left)) }
    ensures err { IfErr result (λ e. e ≡ ReadFault) }
{
    match lines.next() {
        Ok(NextLine::End) => Ok(None),
        Ok(NextLine::Line) if lines.line() == b"quit".as_slice() => Ok(None),
        Ok(NextLine::Line) => Ok(Some(NextLine::Line)),
        Ok(NextLine::TooLong) => Ok(Some(NextLine::TooLong)),
        Ok(NextLine::NoMemory) => Ok(Some(NextLine::NoMemory)),
        Err(_) => Err(TalkFault::Read),
    }
}

/// Replies to what was read next: to this line, or to one that is not held.
pub(crate) fn reply_next<N: Boarded, S: Shelf, R: Wait, I: Read + Drop, O: Write>(
    rt: &R,
    alloc: Global,
    state: &mut State<N, S>,
    desk: &mut Desk<N, S>,
    begun: &mut Option<WriteBuffer>,
    shelf: &mut NamedShelf<N, S>,
    form: Form,
    next: NextLine,
    lines: &LineReader<I>,
    speech: &mut Speech<'_>,
    out: &mut O,
) -> Result<Outcome, Unsaid>
    requires { IsHeld next lines.now.line }
    ensures { (line : List ℕ) → IsLineOf next lines.now.line line → (said : Said)
        × IsReplied S.honest form line said
        (standing (stage state.old desk.old shelf.old) begun.old)
        (standing (stage state.new desk.new shelf.new) begun.new)
        × IfOk result (IsTold said (O.contents out.old) (O.contents out.new)) }
{
    match next {
        NextLine::Line => reply_to(
            rt,
            alloc,
            state,
            desk,
            begun,
            shelf,
            form,
            lines.line(),
            speech,
            out,
        ),
        NextLine::TooLong => say_failed(out, b"bad line: it has more than 8388608 bytes\n"),
        NextLine::NoMemory => say_failed(out, b"refused 1 OutOfMemory\n"),
        NextLine::End => unreachable!(),
    }
}

/// Reads the next line, and replies to it: how it was answered; none at the end of the input, and
/// at `quit`.
fn take_turn<N: Boarded, S: Shelf, R: Wait, I: Read + Drop, O: Write>(
    rt: &R,
    alloc: Global,
    state: &mut State<N, S>,
    desk: &mut Desk<N, S>,
    begun: &mut Option<WriteBuffer>,
    shelf: &mut NamedShelf<N, S>,
    form: Form,
    lines: &mut LineReader<I>,
    speech: &mut Speech<'_>,
    out: &mut O,
) -> Result<Option<Outcome>, TalkFault>
    ensures turn { IsTurnOf (IsReplied S.honest form) result lines.old lines.new
        (standing (stage state.old desk.old shelf.old) begun.old)
        (standing (stage state.new desk.new shelf.new) begun.new)
        (O.contents out.old) (O.contents out.new) }
{
    match next_line(lines) {
        Ok(Some(next)) => {
            let said = reply_next(
                rt, alloc, state, desk, begun, shelf, form, next, lines, speech, out,
            );
            answered(said)
        }
        Ok(None) => Ok(None),
        Err(fault) => Err(fault),
    }
}

/// Replies to lines, one after another, up to `quit` or the end of the input. Each reply is flushed
/// before the next line is read. A refusal is a reply, also for want of memory; if it bails the
/// conversation ends behind the first one, and behind the first bad line. A batch that is begun at
/// the end is let go. A refusal that comes from the system tells what is noted in `reasons` then.
///
/// # Errors
/// `Read` where the input can't be read, `Write` where a reply can't be written, `LineFailed` where
/// a line was bad or was refused, and else `BatchOpen` where a batch is begun at the end. What was
/// done stays.
pub fn talk<N: Boarded, S: Shelf, R: Wait, I: Read + Drop, O: Write>(
    rt: &R,
    alloc: Global,
    state: &mut State<N, S>,
    desk: &mut Desk<N, S>,
    shelf: &mut NamedShelf<N, S>,
    form: Form,
    bails: bool,
    reasons: Option<&Reasons>,
    lines: &mut LineReader<I>,
    out: &mut O,
) -> Result<(), TalkFault>
    ensures talk { IsTalk S.honest form bails lines.old.left result
        (stage state.old desk.old shelf.old) (stage state.new desk.new shelf.new)
        (O.contents out.old) (O.contents out.new) }
{
    let mut begun = None;
    let mut speech = Speech::new(alloc, reasons);
    let mut outcome = Outcome::Done;
    for _turn in 0..u64::MAX {
        let turn = take_turn(
            rt,
            alloc,
            state,
            desk,
            &mut begun,
            shelf,
            form,
            lines,
            &mut speech,
            out,
        );
        if let Some(end) = judge(bails, &begun, turn, &mut outcome) {
            return end;
        }
    }
    Err(TalkFault::Read)
}
