//! Replies are written.

ghost use Rattle.std.specs.Prelude.{◌≡◌, IfOk};
ghost use Rattle.lsm_cmd_shell.specs.Batching.{SaysReply, outcome_of_reply, unsaid};
ghost use Rattle.lsm_cmd_shell.specs.Said.{IsTold, Said, done, failed, saying};

use crate::outcome::Outcome;
use crate::speech::Speech;
use lsm_script::Reply;
use lsm_text::{Form, write_output};
use std::io::Write;

/// A write of a reply failed.
#[derive(Clone, Copy, Debug)]
pub(crate) struct Unsaid;

/// Writes the reply to a line that was answered so, and flushes.
fn say_as<O: Write>(out: &mut O, text: &[u8], outcome: Outcome) -> Result<Outcome, Unsaid>
    ensures { IfOk result
        (IsTold (saying text.now outcome) (O.contents out.old) (O.contents out.new)) }
{
    match write_output(out, text) {
        Ok(()) => Ok(outcome),
        Err(_) => Err(Unsaid),
    }
}

/// Writes the reply to a line that was done, and flushes.
pub(crate) fn say<O: Write>(out: &mut O, text: &[u8]) -> Result<Outcome, Unsaid>
    ensures { IfOk result (IsTold (done text.now) (O.contents out.old) (O.contents out.new)) }
{
    say_as(out, text, Outcome::Done)
}

/// Writes why a line failed, and flushes.
pub(crate) fn say_failed<O: Write>(out: &mut O, text: &[u8]) -> Result<Outcome, Unsaid>
    ensures { IfOk result (IsTold (failed text.now) (O.contents out.old) (O.contents out.new)) }
{
    say_as(out, text, Outcome::Failed)
}

/// Writes that there is no memory for the reply to what was done.
pub(crate) fn say_unsaid<O: Write>(out: &mut O) -> Result<Outcome, Unsaid>
    ensures { IfOk result (IsTold unsaid (O.contents out.old) (O.contents out.new)) }
{
    say_failed(out, b"done, but there is no memory for the reply\n")
}

/// How the line was answered that has this reply.
fn outcome_of(reply: &Reply) -> Outcome
    ensures { result ≡ outcome_of_reply reply.now }
{
    match reply {
        Reply::Refused(_) => Outcome::Failed,
        _ => Outcome::Done,
    }
}

/// Writes the reply of a command, or that there is no memory for its text. `speech` is memory for
/// it.
pub(crate) fn say_reply<O: Write>(
    speech: &mut Speech<'_>,
    form: Form,
    reply: &Reply,
    out: &mut O,
) -> Result<Outcome, Unsaid>
    ensures { (said : Said) × SaysReply form reply.now said
        × IfOk result (IsTold said (O.contents out.old) (O.contents out.new)) }
{
    speech.text.clear();
    match speech.push(form, reply) {
        Ok(()) => say_as(out, speech.text.as_slice(), outcome_of(reply)),
        Err(_) => say_unsaid(out),
    }
}
