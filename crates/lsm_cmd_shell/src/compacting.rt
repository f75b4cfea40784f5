//! The reply to `compact`.

ghost use Rattle.std.specs.Prelude.{◌≡◌, ◌++◌, IfOk, OnOk};
ghost use Rattle.lsm_script.specs.Steps.{stage};
ghost use Rattle.lsm_opening.specs.Compactions.{installed_text};
ghost use Rattle.lsm_cmd_shell.specs.Batching.{Says};
ghost use Rattle.lsm_cmd_shell.specs.Said.{IsTold, Said, done};
ghost use Rattle.lsm_cmd_shell.specs.Talk.{IsCompactReply};

use crate::outcome::Outcome;
use crate::rounds::compact_all;
use crate::saying::{Unsaid, say, say_reply, say_unsaid};
use crate::speech::Speech;
use lsm_script::{Desk, Reply};
use lsm_slots::Boarded;
use lsm_state::State;
use lsm_table::{NamedShelf, Shelf};
use lsm_text::{Form, push_decimal};
use std::alloc::{AllocError, Global};
use std::io::Write;
use std::sync::Wait;

/// Appends how many results were installed.
fn push_installed(out: &mut Vec<u8>, count: u64) -> Result<(), AllocError>
    ensures { OnOk result (out.new.items ≡ out.old.items ++ installed_text count) }
{
    out.extend_from_slice(b"installed ")?;
    push_decimal(out, count)?;
    out.push(b'\n')?;
    Ok(())
}

/// Says how many results were installed.
fn say_installed<O: Write>(
    speech: &mut Speech<'_>,
    count: u64,
    out: &mut O,
) -> Result<Outcome, Unsaid>
    ensures { (said : Said) × Says (done (installed_text count)) said
        × IfOk result (IsTold said (O.contents out.old) (O.contents out.new)) }
{
    speech.text.clear();
    match push_installed(&mut speech.text, count) {
        Ok(()) => say(out, speech.text.as_slice()),
        Err(_) => say_unsaid(out),
    }
}

/// Compacts all that is due, and says how much that was, or why it ended before that. `speech` is
/// memory for it.
pub(crate) fn compact<N: Boarded, S: Shelf, R: Wait, O: Write>(
    rt: &R,
    alloc: Global,
    state: &mut State<N, S>,
    desk: &mut Desk<N, S>,
    shelf: &mut NamedShelf<N, S>,
    form: Form,
    speech: &mut Speech<'_>,
    out: &mut O,
) -> Result<Outcome, Unsaid>
    ensures { (said : Said) × IsCompactReply S.honest form said
        (stage state.old desk.old shelf.old) (stage state.new desk.new shelf.new)
        × IfOk result (IsTold said (O.contents out.old) (O.contents out.new)) }
{
    match compact_all(rt, alloc, state, desk, shelf) {
        Ok(count) => say_installed(speech, count, out),
        Err(fault) => say_reply(speech, form, &Reply::Refused(fault), out),
    }
}
