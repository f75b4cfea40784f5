//! The reply to a command of a script.

ghost use Rattle.std.specs.Prelude.{IfOk};
ghost use Rattle.lsm_script.specs.Steps.{IsStep, stage};
ghost use Rattle.lsm_script.specs.declared.reply.Reply.{Reply};
ghost use Rattle.lsm_cmd_shell.specs.Batching.{SaysReply};
ghost use Rattle.lsm_cmd_shell.specs.Said.{IsTold, Said};

use crate::outcome::Outcome;
use crate::saying::{Unsaid, say_reply};
use crate::speech::Speech;
use lsm_script::{Command, Desk};
use lsm_slots::Boarded;
use lsm_state::State;
use lsm_table::{NamedShelf, Shelf};
use lsm_text::Form;
use std::alloc::Global;
use std::io::Write;
use std::sync::Wait;

/// Does a command, and says its reply. `speech` is memory for it.
pub(crate) fn answer<N: Boarded, S: Shelf, R: Wait, O: Write>(
    rt: &R,
    alloc: Global,
    state: &mut State<N, S>,
    desk: &mut Desk<N, S>,
    shelf: &mut NamedShelf<N, S>,
    form: Form,
    command: &Command,
    speech: &mut Speech<'_>,
    out: &mut O,
) -> Result<Outcome, Unsaid>
    ensures { (said : Said) × (r : Reply) × IsStep S.honest command.now r
        (stage state.old desk.old shelf.old) (stage state.new desk.new shelf.new)
        × SaysReply form r said
        × IfOk result (IsTold said (O.contents out.old) (O.contents out.new)) }
{
    let reply = desk.answer(rt, alloc, state, shelf, command);
    say_reply(speech, form, &reply, out)
}
