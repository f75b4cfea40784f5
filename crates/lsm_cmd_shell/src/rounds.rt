//! All that is due is compacted.

ghost use Rattle.std.specs.Prelude.{◌≡◌, ℕ, Err, Ok, false, true, IfErr, IfNone, IfOk, IfSome, OnOk};
ghost use Rattle.lsm_script.specs.Steps.{stage};
ghost use Rattle.lsm_script.specs.declared.reply.Reply.TheVariants.{Refused};
ghost use Rattle.lsm_cmd_shell.specs.Rounds.{Does, Fails, IsCompacted, IsFinished, IsGivenUp};
ghost use Rattle.lsm_cmd_shell.specs.Rounds.{IsNoRefusal, IsRefusedRound, IsRound, IsUncompacted};
ghost use Rattle.lsm_cmd_shell.specs.Rounds.{IsUnfinished, NoneIsDue, Reserves};

use lsm_script::{Command, CommandFault, Desk, Reply};
use lsm_slots::Boarded;
use lsm_state::{State, StateFault};
use lsm_table::{NamedShelf, Shelf};
use std::alloc::Global;
use std::sync::Wait;

/// The reply, where it is no refusal.
fn unrefused(reply: Reply) -> Result<Reply, CommandFault>
    ensures ok { IfOk result (λ r. (r ≡ reply) × IsNoRefusal r) }
    ensures err { IfErr result (λ e. reply ≡ Refused e) }
{
    match reply {
        Reply::Refused(fault) => Err(fault),
        reply => Ok(reply),
    }
}

/// The ticket of the compaction that was reserved.
fn ticket_of(reply: &Reply) -> Option<u64>
    ensures some { IfSome result (Reserves reply.now) }
    ensures none { IfNone result ((ticket : ℕ) → Reserves reply.now ticket → ⊥) }
{
    match reply {
        Reply::Job(reserved) | Reply::Move(reserved) => Some(reserved.ticket),
        _ => None,
    }
}

/// Does a command.
fn try_to<N: Boarded, S: Shelf, R: Wait>(
    rt: &R,
    alloc: Global,
    state: &mut State<N, S>,
    desk: &mut Desk<N, S>,
    shelf: &mut NamedShelf<N, S>,
    command: &Command,
) -> Result<(), CommandFault>
    ensures ok { OnOk result
        (Does S.honest command.now
        (stage state.old desk.old shelf.old) (stage state.new desk.new shelf.new)) }
    ensures err { IfErr result (λ e.
        Fails S.honest command.now e
        (stage state.old desk.old shelf.old) (stage state.new desk.new shelf.new)) }
{
    let reply = desk.answer(rt, alloc, state, shelf, command);
    match unrefused(reply) {
        Ok(_) => Ok(()),
        Err(fault) => Err(fault),
    }
}

/// Merges the job of this ticket, and installs what that made.
fn try_to_finish<N: Boarded, S: Shelf, R: Wait>(
    rt: &R,
    alloc: Global,
    state: &mut State<N, S>,
    desk: &mut Desk<N, S>,
    shelf: &mut NamedShelf<N, S>,
    ticket: u64,
) -> Result<(), CommandFault>
    ensures ok { OnOk result
        (IsFinished S.honest ticket
        (stage state.old desk.old shelf.old) (stage state.new desk.new shelf.new)) }
    ensures err { IfErr result (λ e.
        IsUnfinished S.honest ticket e
        (stage state.old desk.old shelf.old) (stage state.new desk.new shelf.new)) }
{
    match try_to(rt, alloc, state, desk, shelf, &Command::Merge(ticket)) {
        Ok(()) => try_to(rt, alloc, state, desk, shelf, &Command::Install(ticket)),
        Err(fault) => Err(fault),
    }
}

/// The same; where it is refused, the compaction is cancelled.
fn finish<N: Boarded, S: Shelf, R: Wait>(
    rt: &R,
    alloc: Global,
    state: &mut State<N, S>,
    desk: &mut Desk<N, S>,
    shelf: &mut NamedShelf<N, S>,
    ticket: u64,
) -> Result<(), CommandFault>
    ensures ok { OnOk result
        (IsFinished S.honest ticket
        (stage state.old desk.old shelf.old) (stage state.new desk.new shelf.new)) }
    ensures err { IfErr result (λ e.
        IsGivenUp S.honest ticket e
        (stage state.old desk.old shelf.old) (stage state.new desk.new shelf.new)) }
{
    match try_to_finish(rt, alloc, state, desk, shelf, ticket) {
        Ok(()) => Ok(()),
        Err(fault) => {
            let cancel = Command::Cancel(ticket);
            let _cancelled = desk.answer(rt, alloc, state, shelf, &cancel);
            Err(fault)
        }
    }
}

/// Compacts what is due. `false` where nothing is.
fn take_round<N: Boarded, S: Shelf, R: Wait>(
    rt: &R,
    alloc: Global,
    state: &mut State<N, S>,
    desk: &mut Desk<N, S>,
    shelf: &mut NamedShelf<N, S>,
) -> Result<bool, CommandFault>
    ensures round { IfOk result (λ more. more ≡ true
        → IsRound S.honest
        (stage state.old desk.old shelf.old) (stage state.new desk.new shelf.new)) }
    ensures none { IfOk result (λ more. more ≡ false
        → NoneIsDue S.honest
        (stage state.old desk.old shelf.old) (stage state.new desk.new shelf.new)) }
    ensures err { IfErr result (λ e.
        IsRefusedRound S.honest e
        (stage state.old desk.old shelf.old) (stage state.new desk.new shelf.new)) }
{
    let reply = desk.answer(rt, alloc, state, shelf, &Command::Reserve);
    let reserved = match unrefused(reply) {
        Ok(reserved) => reserved,
        Err(fault) => return Err(fault),
    };
    let Some(ticket) = ticket_of(&reserved) else {
        return Ok(false);
    };
    match finish(rt, alloc, state, desk, shelf, ticket) {
        Ok(()) => Ok(true),
        Err(fault) => Err(fault),
    }
}

/// How many compactions there were, where the last command was not refused.
fn counted(swept: Result<(), CommandFault>, count: u64) -> Result<u64, CommandFault>
    ensures ok { OnOk swept (result ≡ Ok count) }
    ensures err { IfErr swept (λ e. result ≡ Err e) }
{
    match swept {
        Ok(()) => Ok(count),
        Err(fault) => Err(fault),
    }
}

/// Compacts what is due until nothing is, and removes what nothing needs any more: how many
/// compactions there were. What was refused is cancelled, and ends it.
pub(crate) fn compact_all<N: Boarded, S: Shelf, R: Wait>(
    rt: &R,
    alloc: Global,
    state: &mut State<N, S>,
    desk: &mut Desk<N, S>,
    shelf: &mut NamedShelf<N, S>,
) -> Result<u64, CommandFault>
    ensures ok { IfOk result (λ n.
        IsCompacted S.honest n
        (stage state.old desk.old shelf.old) (stage state.new desk.new shelf.new)) }
    ensures err { IfErr result (λ e.
        IsUncompacted S.honest e
        (stage state.old desk.old shelf.old) (stage state.new desk.new shelf.new)) }
{
    for count in 0..u64::MAX {
        match take_round(rt, alloc, state, desk, shelf) {
            Ok(true) => {}
            Ok(false) => {
                let swept = try_to(rt, alloc, state, desk, shelf, &Command::Collect);
                return counted(swept, count);
            }
            Err(fault) => return Err(fault),
        }
    }
    Err(CommandFault::State(StateFault::OutOfMemory))
}
