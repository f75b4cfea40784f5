//! A batch of several lines.

ghost use Rattle.std.specs.Prelude.{◌≡◌, ◌∷◌, [], IfOk};
ghost use Rattle.lsm_script.specs.Steps.{stage};
ghost use Rattle.lsm_cmd_shell.specs.Batching.{IsAbort, IsBegin, IsCommitReply, IsPutReply};
ghost use Rattle.lsm_cmd_shell.specs.Batching.{IsQueued, standing};
ghost use Rattle.lsm_cmd_shell.specs.Said.{IsTold, Said};

use crate::answering::answer;
use crate::outcome::Outcome;
use crate::saying::{Unsaid, say, say_failed};
use crate::speech::Speech;
use lsm_batch::{Batch, Write as KeyWrite};
use lsm_lines::{PutFault, WriteBuffer};
use lsm_script::{Command, Desk};
use lsm_slots::Boarded;
use lsm_state::State;
use lsm_table::{NamedShelf, Shelf};
use lsm_text::{Form, push_write};
use std::alloc::{AllocError, Global};
use std::io::Write;
use std::sync::Wait;

/// `begin`: begins a batch, where none is begun.
pub(crate) fn begin<O: Write>(
    alloc: Global,
    begun: &mut Option<WriteBuffer>,
    out: &mut O,
) -> Result<Outcome, Unsaid>
    ensures { (said : Said) × IsBegin begun.old begun.new said
        × IfOk result (IsTold said (O.contents out.old) (O.contents out.new)) }
{
    match begun {
        Some(_) => say_failed(out, b"bad line: a batch is begun already\n"),
        None => {
            *begun = Some(WriteBuffer::new(alloc));
            say(out, b"begun\n")
        }
    }
}

/// `abort`: lets the batch go that is begun.
pub(crate) fn abort<O: Write>(
    begun: &mut Option<WriteBuffer>,
    out: &mut O,
) -> Result<Outcome, Unsaid>
    ensures { (said : Said) × IsAbort begun.old begun.new said
        × IfOk result (IsTold said (O.contents out.old) (O.contents out.new)) }
{
    match begun {
        Some(_) => {
            *begun = None;
            say(out, b"aborted\n")
        }
        None => say_failed(out, b"bad line: no batch is begun\n"),
    }
}

/// Puts a write behind those of the batch that is begun.
fn queue<O: Write>(
    buffer: &mut WriteBuffer,
    write: KeyWrite,
    out: &mut O,
) -> Result<Outcome, Unsaid>
    ensures { (said : Said) × IsQueued write buffer.old buffer.new said
        × IfOk result (IsTold said (O.contents out.old) (O.contents out.new)) }
{
    match buffer.put(write) {
        Ok(()) => say(out, b"queued\n"),
        Err(PutFault::Full(_)) => say_failed(out, b"refused 39 TooLarge\n"),
        Err(PutFault::Large) => say_failed(out, b"refused 39 TooLarge\n"),
        Err(PutFault::OutOfMemory) => say_failed(out, b"refused 1 OutOfMemory\n"),
    }
}

/// A batch of one write.
fn batch_of(alloc: Global, write: KeyWrite) -> Result<Batch, AllocError>
    ensures { IfOk result (λ b. b ≡ write ∷ []) }
{
    let mut batch = Batch::new(alloc);
    push_write(&mut batch, write)?;
    Ok(batch)
}

/// `put` and `delete`: one more write of the batch that is begun, or a batch of this write.
pub(crate) fn put<N: Boarded, S: Shelf, R: Wait, O: Write>(
    rt: &R,
    alloc: Global,
    state: &mut State<N, S>,
    desk: &mut Desk<N, S>,
    begun: &mut Option<WriteBuffer>,
    shelf: &mut NamedShelf<N, S>,
    form: Form,
    write: KeyWrite,
    speech: &mut Speech<'_>,
    out: &mut O,
) -> Result<Outcome, Unsaid>
    ensures { (said : Said) × IsPutReply S.honest form write begun.old said
        (standing (stage state.old desk.old shelf.old) begun.old)
        (standing (stage state.new desk.new shelf.new) begun.new)
        × IfOk result (IsTold said (O.contents out.old) (O.contents out.new)) }
{
    if let Some(buffer) = begun {
        return queue(buffer, write, out);
    }
    let Ok(batch) = batch_of(alloc, write) else {
        return say_failed(out, b"refused 1 OutOfMemory\n");
    };
    let command = Command::Ingest(batch);
    answer(rt, alloc, state, desk, shelf, form, &command, speech, out)
}

/// `commit`: brings in, of each key that was written, the last write, as one batch. None is begun
/// then.
pub(crate) fn commit<N: Boarded, S: Shelf, R: Wait, O: Write>(
    rt: &R,
    alloc: Global,
    state: &mut State<N, S>,
    desk: &mut Desk<N, S>,
    begun: &mut Option<WriteBuffer>,
    shelf: &mut NamedShelf<N, S>,
    form: Form,
    speech: &mut Speech<'_>,
    out: &mut O,
) -> Result<Outcome, Unsaid>
    ensures { (said : Said) × IsCommitReply S.honest form begun.old said
        (standing (stage state.old desk.old shelf.old) begun.old)
        (standing (stage state.new desk.new shelf.new) begun.new)
        × IfOk result (IsTold said (O.contents out.old) (O.contents out.new)) }
{
    let Some(buffer) = begun.take() else {
        return say_failed(out, b"bad line: no batch is begun\n");
    };
    let Ok(batch) = buffer.into_batch(alloc) else {
        return say_failed(out, b"refused 1 OutOfMemory\n");
    };
    let command = Command::Ingest(batch);
    answer(rt, alloc, state, desk, shelf, form, &command, speech, out)
}
