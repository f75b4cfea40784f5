//! A conversation with the database on a shelf, while workers compact beside.

ghost use Rattle.std.specs.Prelude.{◌≡◌, ◌+◌, ◌≤◌, All, IfErr, IfOk, IfSome, None, Ok};
ghost use Rattle.std.specs.Prelude.{OnOk, vec_len};
ghost use Rattle.lsm_shelf.specs.Stored.{Stored};
ghost use Rattle.lsm_shelf.specs.Told.{fork_at};
ghost use Rattle.lsm_state.specs.Held.{Held};
ghost use Rattle.lsm_store.specs.Compacting.{IsKeptByCompaction, IsSeated};
ghost use Rattle.lsm_store.specs.Workers.{IsWorkersEnd};
ghost use Rattle.lsm_store.specs.Working.{HaveEndedBeside};
ghost use Rattle.lsm_opening.specs.Parts.{AreOf, usual};
ghost use Rattle.lsm_cmd_shell.specs.Beside.{IsTalkedBeside, waiting};
ghost use Rattle.lsm_store.specs.Ends.{IsFaultless};
ghost use Rattle.lsm_shelf.specs.Told.{GivesForks};
ghost use Rattle.lsm_bulk_load.specs.Loading.{HaveWorkedBeside};
ghost use Rattle.lsm_cmd_shell.specs.Conversing.{IsBesideFault, IsConversedBeside, IsOfEnds};
ghost use Rattle.lsm_cmd_shell.specs.Conversing.{IsUnmanned, IsWorkerOr};
ghost use Rattle.lsm_cmd_shell.specs.Keeping.{IsKeptByReplies};

use crate::beside::talk_beside;
use crate::shell_fault::ShellFault;
use crate::talk_fault::TalkFault;
use lsm_folder::Reasons;
use lsm_history::Memory;
use lsm_lines::LineReader;
use lsm_opening::{CompactFault, NewParts, Prepared, WriterFault, start};
use lsm_script::Desk;
use lsm_slots::Boarded;
use lsm_state::State;
use lsm_store::{
    Background, Invariant, NoGate, Shelves, Store, WorkerEnd, judge_ends, with_workers,
};
use lsm_table::{NamedShelf, Shelf};
use lsm_text::Form;
use std::alloc::Global;
use std::io::{Read, Write};
use std::marker::Brand;
use std::sync::Wait;
use std::thread::Threads;

/// How a conversation ended, and its shelf; and how its workers did.
type Ended<N, S> = ((Result<(), TalkFault>, NamedShelf<N, S>), Vec<WorkerEnd>);

/// Replies to lines on the state of a store, while a worker for each shelf compacts: how that
/// ended, with the shelf of the replies, and the workers' ends. None where there was no memory for
/// the workers; then no line was read. The fact of the lock is one that workers keep, and each
/// reply to a line of the input.
///
/// What is said is said of an output that begins as this one does. The toolchain tells nothing of
/// what a closure that is handed on leaves of what it borrowed.
fn talk_in_store<N, S, K, R, I, O>(
    rt: &R,
    alloc: Global,
    store: &Store<N, S, K>,
    shelves: Vec<NamedShelf<N, S>>,
    memory: Memory<N>,
    desk: Desk<N, S>,
    own: NamedShelf<N, S>,
    form: Form,
    bails: bool,
    reasons: Option<&Reasons>,
    lines: LineReader<I>,
    out: &mut O,
) -> Option<Ended<N, S>>
where
    N: Boarded,
    S: Shelf,
    K: Invariant,
    R: Threads + Wait + Sync,
    I: Read + Drop,
    O: Write,
    requires workers { IsKeptByCompaction S.honest K.keeps }
    requires asked { IsKeptByReplies S.honest form lines.left K.keeps }
    ensures talked { IfSome result (λ r. IsTalkedBeside S.honest K.keeps form bails lines.left
        r.0.0 (waiting memory own desk None) r.0.1 (O.contents out.old)) }
    ensures count { IfSome result (λ r. (vec_len shelves ≤ vec_len r.1)
        × (vec_len r.1 ≤ vec_len shelves + 1)) }
    ensures ends { IfSome result (λ r. All (IsWorkersEnd S.honest) r.1.items) }
    ensures ended { IfSome result (λ r. HaveEndedBeside S.honest (S.refuses N.place) K.keeps
        shelves.items r.1.items) }
{
    let told = &mut *out;
    let run = with_workers(
        rt,
        alloc,
        store,
        shelves,
        &NoGate,
        move |background: &Background| -> (Result<(), TalkFault>, NamedShelf<N, S>)
            requires asked { IsKeptByReplies S.honest form lines.left K.keeps }
            ensures { IsTalkedBeside S.honest K.keeps form bails lines.left result.0
                (waiting memory own desk None) result.1 (O.contents told.entry.now) }
        {
            let mut memory = memory;
            let mut desk = desk;
            let mut own = own;
            let mut lines = lines;
            let talked = talk_beside(
                rt,
                alloc,
                store,
                background,
                &mut memory,
                &mut desk,
                &mut own,
                form,
                bails,
                reasons,
                &mut lines,
                told,
            );
            (talked, own)
        },
    );
    match run {
        Ok(run) => Some(run),
        Err(refused) => {
            drop(refused);
            None
        }
    }
}

/// The fault of the first worker that has one, or else this one.
fn worker_or(ends: &[WorkerEnd], other: ShellFault) -> ShellFault
    ensures { IsWorkerOr other ends.now result }
{
    match judge_ends(ends) {
        Ok(()) => other,
        Err(fault) => ShellFault::Run(CompactFault::Worker(fault)),
    }
}

/// How a conversation ended beside workers that ended so.
fn judge(talked: Result<(), TalkFault>, ends: &[WorkerEnd]) -> Result<(), ShellFault>
    ensures done { OnOk result ((talked ≡ Ok tt) × All IsFaultless ends.now) }
    ensures fault { IfErr result (IsOfEnds talked ends.now) }
{
    match talked {
        Ok(()) => match judge_ends(ends) {
            Ok(()) => Ok(()),
            Err(fault) => Err(ShellFault::Run(CompactFault::Worker(fault))),
        },
        Err(TalkFault::Read) => Err(ShellFault::of_talk(TalkFault::Read)),
        Err(TalkFault::Write) => Err(ShellFault::of_talk(TalkFault::Write)),
        Err(TalkFault::LineFailed) => Err(worker_or(ends, ShellFault::LineFailed)),
        Err(TalkFault::BatchOpen) => Err(worker_or(ends, ShellFault::BatchOpen)),
    }
}

/// Puts a state behind a lock that keeps a fact, and replies to lines on it while so many workers
/// compact: how that ended, with the shelf of the replies, and the state, of which the fact holds.
/// The shelf is asked for forks alone: one for each worker, and one for the conversation; once one
/// is refused, for no other.
fn converse_on<N, S, K, R, I, O>(
    rt: &R,
    alloc: Global,
    state: State<N, S>,
    desk: Desk<N, S>,
    shelf: &mut NamedShelf<N, S>,
    form: Form,
    bails: bool,
    workers: usize,
    reasons: Option<&Reasons>,
    lines: LineReader<I>,
    out: &mut O,
) -> Result<(Ended<N, S>, State<N, S>), ShellFault>
where
    N: Boarded,
    S: Shelf,
    K: Invariant,
    R: Threads + Wait + Sync,
    I: Read + Drop,
    O: Write,
    requires found { (h : Held) → IsSeated state h → K.keeps h }
    requires workers { IsKeptByCompaction S.honest K.keeps }
    requires asked { IsKeptByReplies S.honest form lines.left K.keeps }
    ensures talked { IfOk result (λ r. IsTalkedBeside S.honest K.keeps form bails lines.left
        r.0.0.0
        (waiting state.history (fork_at N.place (shelf.old.forks + workers + 1)) desk None)
        r.0.0.1 (O.contents out.old)) }
    ensures count { IfOk result (λ r. (workers ≤ vec_len r.0.1)
        × (vec_len r.0.1 ≤ workers + 1)) }
    ensures ends { IfOk result (λ r. All (IsWorkersEnd S.honest) r.0.1.items) }
    ensures ended { IfOk result (λ r. HaveWorkedBeside S.honest (S.refuses N.place) K.keeps
        N.place shelf.old.forks workers r.0.1.items) }
    ensures kept { IfOk result (λ r. ∥ K.keeps r.1 ∥₁) }
    ensures just { OnOk result (GivesForks (workers + 1) shelf.old shelf.new) }
    ensures refused { IfErr result (λ e. IsUnmanned workers e shelf.old shelf.new
        (O.contents out.old) (O.contents out.new)) }
{
    let mut state = state;
    let memory = state.remember();
    let Shelves { shelves, own } = match Shelves::of(alloc, shelf, workers) {
        Ok(made) => made,
        Err(fault) => return Err(ShellFault::Run(CompactFault::of_shelf(fault))),
    };
    let store: Store<N, S, K> = Store::of(alloc, state);
    match talk_in_store(
        rt, alloc, &store, shelves, memory, desk, own, form, bails, reasons, lines, out,
    ) {
        Some(ended) => Ok((ended, store.into_state())),
        None => Err(ShellFault::of_writer(WriterFault::OutOfMemory)),
    }
}

/// Begins or opens the directory of a shelf, and replies to lines while so many workers compact.
/// Once it is begun or opened the shelf is asked for forks alone.
fn converse_named<N, S, R, I, O>(
    rt: &R,
    alloc: Global,
    shelf: &mut NamedShelf<N, S>,
    prepared: &Prepared,
    parts: NewParts<S>,
    form: Form,
    bails: bool,
    workers: usize,
    reasons: Option<&Reasons>,
    lines: LineReader<I>,
    out: &mut O,
) -> Result<(), ShellFault>
where
    N: Boarded,
    S: Shelf,
    R: Threads + Wait + Sync,
    I: Read + Drop,
    O: Write,
    requires parts { AreOf usual N.registry N.board N.history parts }
    requires shelf { shelf.old.place ≡ N.place }
    ensures done { OnOk result (IsConversedBeside (S.refuses N.place) S.honest
        prepared.now.start prepared.now.logs.items form bails workers lines.left shelf.old
        shelf.new (O.contents out.old)) }
    ensures fault { IfErr result (λ e. IsBesideFault (Stored S.Receipt (S.is_of N.place)
        S.Receipt.number S.Receipt.image) (S.refuses N.place) S.honest prepared.now.start
        prepared.now.logs.items form bails workers lines.left e shelf.old shelf.new
        (O.contents out.old) (O.contents out.new)) }
{
    let state: State<N, S> = match start(rt, alloc, shelf, prepared, parts) {
        Ok(state) => state,
        Err(fault) => return Err(ShellFault::of_writer(fault)),
    };
    let desk = match Desk::new(alloc, &state) {
        Ok(desk) => desk,
        Err(_) => return Err(ShellFault::of_writer(WriterFault::OutOfMemory)),
    };
    match converse_on::<N, S, Brand, R, I, O>(
        rt, alloc, state, desk, shelf, form, bails, workers, reasons, lines, out,
    ) {
        Ok((ended, _left)) => {
            let (talk, ends) = ended;
            let (talked, _own) = talk;
            judge(talked, &ends)
        }
        Err(fault) => Err(fault),
    }
}

/// The same under the name that was picked for the parts and the shelf, which is given back.
fn converse_as<N, S, R, I, O>(
    rt: &R,
    alloc: Global,
    shelf: S,
    prepared: &Prepared,
    parts: NewParts<S>,
    form: Form,
    bails: bool,
    workers: usize,
    reasons: Option<&Reasons>,
    lines: LineReader<I>,
    out: &mut O,
) -> (Result<(), ShellFault>, S)
where
    N: Boarded,
    S: Shelf,
    R: Threads + Wait + Sync,
    I: Read + Drop,
    O: Write,
    requires parts { AreOf usual N.registry N.board N.history parts }
    requires shelf { (S.told shelf).place ≡ N.place }
    ensures done { OnOk result.0 (IsConversedBeside (S.refuses N.place) S.honest
        prepared.now.start prepared.now.logs.items form bails workers lines.left (S.told shelf)
        (S.told result.1) (O.contents out.old)) }
    ensures fault { IfErr result.0 (λ e. IsBesideFault (Stored S.Receipt (S.is_of N.place)
        S.Receipt.number S.Receipt.image) (S.refuses N.place) S.honest prepared.now.start
        prepared.now.logs.items form bails workers lines.left e (S.told shelf) (S.told result.1)
        (O.contents out.old) (O.contents out.new)) }
{
    let mut shelf: NamedShelf<N, S> = NamedShelf::of(shelf);
    let done = converse_named(
        rt, alloc, &mut shelf, prepared, parts, form, bails, workers, reasons, lines, out,
    );
    (done, shelf.into_shelf())
}

/// As `converse`, while so many workers compact beside. Once the conversation has ended each of
/// them ends what it has begun; the fault of the first one that has ended early is told then.
pub fn converse_beside<S, R, I, O>(
    rt: &R,
    alloc: Global,
    shelf: S,
    prepared: &Prepared,
    form: Form,
    bails: bool,
    workers: usize,
    reasons: Option<&Reasons>,
    input: I,
    out: &mut O,
) -> (Result<(), ShellFault>, S)
where
    S: Shelf,
    R: Threads + Wait + Sync,
    I: Read + Drop,
    O: Write,
    ensures done { OnOk result.0 (IsConversedBeside (S.refuses (S.told shelf).place) S.honest
        prepared.now.start prepared.now.logs.items form bails workers (I.remaining input)
        (S.told shelf) (S.told result.1) (O.contents out.old)) }
    ensures fault { IfErr result.0 (λ e. IsBesideFault (Stored S.Receipt
        (S.is_of (S.told shelf).place) S.Receipt.number S.Receipt.image)
        (S.refuses (S.told shelf).place) S.honest prepared.now.start prepared.now.logs.items form
        bails workers (I.remaining input) e (S.told shelf) (S.told result.1)
        (O.contents out.old) (O.contents out.new)) }
{
    let lines = match LineReader::new(alloc, input) {
        Ok(lines) => lines,
        Err(_) => return (Err(ShellFault::of_writer(WriterFault::OutOfMemory)), shelf),
    };
    let parts = match NewParts::make(alloc) {
        Ok(parts) => parts,
        Err(_) => return (Err(ShellFault::of_writer(WriterFault::OutOfMemory)), shelf),
    };
    converse_as::<Brand, S, R, I, O>(
        rt, alloc, shelf, prepared, parts, form, bails, workers, reasons, lines, out,
    )
}
