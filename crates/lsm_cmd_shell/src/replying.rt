//! The reply to one line.

ghost use Rattle.std.specs.Prelude.{◌≡◌, ◌≢◌, ◌⊎◌, IfOk, codes};
ghost use Rattle.lsm_script.specs.Steps.{OnDesk, stage};
ghost use Rattle.lsm_script.specs.declared.command_fault.CommandFault.TheVariants.{State as StateRefusal};
ghost use Rattle.lsm_cmd_shell.specs.Batching.{SaysRefusal, no_memory, standing};
ghost use Rattle.lsm_cmd_shell.specs.MistakeText.{mistake_text};
ghost use Rattle.lsm_cmd_shell.specs.Said.{IsTold, Said, done, failed};
ghost use Rattle.lsm_cmd_shell.specs.Statistics.{statistics_text};
ghost use Rattle.lsm_cmd_shell.specs.Talk.{IsBadLine, IsReplied, IsScanned, Obeys};

use crate::answering::answer;
use crate::ask::Ask;
use crate::ask_line::ask_in;
use crate::batching::{abort, begin, commit, put};
use crate::compacting::compact;
use crate::help::HELP;
use crate::mistake::Mistake;
use crate::mistake_text::push_mistake;
use crate::outcome::Outcome;
use crate::pairs::{ScanFault, print_version};
use crate::saying::{Unsaid, say, say_failed};
use crate::speech::Speech;
use crate::statistics::push_statistics;
use crate::wrong_line::mistake_in;
use lsm_lines::WriteBuffer;
use lsm_requests::KeyBounds;
use lsm_script::{CommandFault, Desk, Reply};
use lsm_slots::Boarded;
use lsm_state::{State, StateFault};
use lsm_table::{NamedShelf, Shelf};
use lsm_text::Form;
use std::alloc::Global;
use std::io::Write;
use std::sync::Wait;

/// Says why a scan was stopped. `speech` is memory for it.
fn say_stopped<O: Write>(
    speech: &mut Speech<'_>,
    form: Form,
    fault: StateFault,
    out: &mut O,
) -> Result<Outcome, Unsaid>
    ensures { (said : Said) × (SaysRefusal form (StateRefusal fault) said ⊎ (said ≡ no_memory))
        × IfOk result (IsTold said (O.contents out.old) (O.contents out.new)) }
{
    speech.text.clear();
    match speech.push(form, &Reply::Refused(CommandFault::State(fault))) {
        Ok(()) => say_failed(out, speech.text.as_slice()),
        Err(_) => say_failed(out, b"refused 1 OutOfMemory\n"),
    }
}

/// Writes what a scan shows, as it goes on, and how it ends.
fn say_scan<N: Boarded, S: Shelf, O: Write>(
    alloc: Global,
    state: &State<N, S>,
    shelf: &mut NamedShelf<N, S>,
    form: Form,
    bounds: &KeyBounds,
    limit: Option<u64>,
    speech: &mut Speech<'_>,
    out: &mut O,
) -> Result<Outcome, Unsaid>
    ensures { (desk : OnDesk) → (said : Said) × IsScanned S.honest form bounds.now limit said
        (stage state.now desk shelf.old) (stage state.now desk shelf.new)
        × IfOk result (IsTold said (O.contents out.old) (O.contents out.new)) }
{
    let (_id, version) = state.current();
    match print_version(shelf, alloc, version, form, bounds, limit, out) {
        Ok(()) => say(out, b"end\n"),
        Err(ScanFault::Write) => Err(Unsaid),
        Err(ScanFault::NoMemory) => say_failed(out, b"refused 1 OutOfMemory\n"),
        Err(ScanFault::Read(fault)) => say_stopped(speech, form, StateFault::Read(fault), out),
    }
}

/// Says how much a state has. `speech` is memory for it.
fn say_statistics<N: Boarded, S: Shelf, O: Write>(
    state: &State<N, S>,
    speech: &mut Speech<'_>,
    out: &mut O,
) -> Result<Outcome, Unsaid>
    ensures { (said : Said) × ((said ≡ done (statistics_text state.now)) ⊎ (said ≡ no_memory))
        × IfOk result (IsTold said (O.contents out.old) (O.contents out.new)) }
{
    speech.text.clear();
    match push_statistics(&mut speech.text, state) {
        Ok(()) => say(out, speech.text.as_slice()),
        Err(_) => say_failed(out, b"refused 1 OutOfMemory\n"),
    }
}

/// Does what is asked, and says what that gives. `speech` is memory for it.
fn obey<N: Boarded, S: Shelf, R: Wait, O: Write>(
    rt: &R,
    alloc: Global,
    state: &mut State<N, S>,
    desk: &mut Desk<N, S>,
    begun: &mut Option<WriteBuffer>,
    shelf: &mut NamedShelf<N, S>,
    form: Form,
    ask: Ask,
    speech: &mut Speech<'_>,
    out: &mut O,
) -> Result<Outcome, Unsaid>
    ensures { (said : Said) × Obeys S.honest form ask said
        (standing (stage state.old desk.old shelf.old) begun.old)
        (standing (stage state.new desk.new shelf.new) begun.new)
        × IfOk result (IsTold said (O.contents out.old) (O.contents out.new)) }
{
    match ask {
        Ask::Do(command) => answer(rt, alloc, state, desk, shelf, form, &command, speech, out),
        Ask::Put(write) => put(
            rt, alloc, state, desk, begun, shelf, form, write, speech, out,
        ),
        Ask::Scan(bounds, limit) => {
            say_scan(alloc, state, shelf, form, &bounds, limit, speech, out)
        }
        Ask::Begin => begin(alloc, begun, out),
        Ask::Commit => commit(rt, alloc, state, desk, begun, shelf, form, speech, out),
        Ask::Abort => abort(begun, out),
        Ask::Compact => compact(rt, alloc, state, desk, shelf, form, speech, out),
        Ask::Stats => say_statistics(state, speech, out),
        Ask::Help => say(out, HELP),
    }
}

/// Says that a line has this mistake. `speech` is memory for it.
fn say_mistake<O: Write>(
    mistake: Mistake,
    speech: &mut Speech<'_>,
    out: &mut O,
) -> Result<Outcome, Unsaid>
    ensures { (said : Said) × ((said ≡ failed (mistake_text mistake)) ⊎ (said ≡ no_memory))
        × IfOk result (IsTold said (O.contents out.old) (O.contents out.new)) }
{
    speech.text.clear();
    match push_mistake(&mut speech.text, mistake) {
        Ok(()) => say_failed(out, speech.text.as_slice()),
        Err(_) => say_failed(out, b"refused 1 OutOfMemory\n"),
    }
}

/// Says what is wrong with a line that asks for nothing. `speech` is memory for it.
fn say_bad<O: Write>(
    alloc: Global,
    form: Form,
    line: &[u8],
    speech: &mut Speech<'_>,
    out: &mut O,
) -> Result<Outcome, Unsaid>
    ensures { (said : Said) × (IsBadLine form line.now said ⊎ (said ≡ no_memory))
        × IfOk result (IsTold said (O.contents out.old) (O.contents out.new)) }
{
    match mistake_in(alloc, form, line) {
        Ok(Some(mistake)) => say_mistake(mistake, speech, out),
        Ok(None) => say_failed(out, b"bad line: help tells what lines there are\n"),
        Err(_) => say_failed(out, b"refused 1 OutOfMemory\n"),
    }
}

/// Replies to a line: does what it asks for, and says what that gives. `speech` is memory for it.
pub(crate) fn reply_to<N: Boarded, S: Shelf, R: Wait, O: Write>(
    rt: &R,
    alloc: Global,
    state: &mut State<N, S>,
    desk: &mut Desk<N, S>,
    begun: &mut Option<WriteBuffer>,
    shelf: &mut NamedShelf<N, S>,
    form: Form,
    line: &[u8],
    speech: &mut Speech<'_>,
    out: &mut O,
) -> Result<Outcome, Unsaid>
    requires { line.now ≢ codes "quit" }
    ensures { (said : Said) × IsReplied S.honest form line.now said
        (standing (stage state.old desk.old shelf.old) begun.old)
        (standing (stage state.new desk.new shelf.new) begun.new)
        × IfOk result (IsTold said (O.contents out.old) (O.contents out.new)) }
{
    speech.forget();
    match ask_in(alloc, form, line) {
        Ok(Some(ask)) => obey(rt, alloc, state, desk, begun, shelf, form, ask, speech, out),
        Ok(None) => say_bad(alloc, form, line, speech, out),
        Err(_) => say_failed(out, b"refused 1 OutOfMemory\n"),
    }
}
