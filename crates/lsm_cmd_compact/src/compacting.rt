//! A directory is compacted.

pub(crate) mod finding;
pub(crate) mod job_teller;
pub(crate) mod program;
pub(crate) mod progress;
pub(crate) mod torn;

ghost use Rattle.std.specs.Prelude.{◌≡◌, ◌≢◌, ◌⊎◌, All, IfErr, IfOk, IsFalse, IsTrue, None, OnErr};
ghost use Rattle.std.specs.Prelude.{OnOk, true, vec_len};
ghost use Rattle.std.specs.Io.KnownBytes.{Appends, Keeps};
ghost use Rattle.lsm_shelf.specs.Stored.{Stored};
ghost use Rattle.lsm_slots.specs.Slots.{Looked};
ghost use Rattle.lsm_state.specs.Held.{Held};
ghost use Rattle.lsm_store.specs.Compacting.{IsKeptByCompaction, IsSeated};
ghost use Rattle.lsm_store.specs.Workers.{IsWorkersEnd};
ghost use Rattle.lsm_store.specs.Working.{HaveEnded, given_each};
ghost use Rattle.lsm_opening.specs.Parts.{AreOf, usual};
ghost use Rattle.lsm_opening.specs.declared.faults.writer_fault.WriterFault.TheVariants.{Write as WriteFault};
ghost use Rattle.lsm_cmd_compact.specs.Compacting.{Clears, DoesCompact, EndsRounds, IsAimed};
ghost use Rattle.lsm_cmd_compact.specs.Compacting.{IsClearedBy, IsCompactFault, IsCompacted};
ghost use Rattle.lsm_cmd_compact.specs.Compacting.{IsFaultlessRound, IsFaultyRound, IsLeftOver};
ghost use Rattle.lsm_cmd_compact.specs.Compacting.{IsUnmanned, StopsBehindRounds, StopsCompacting};
ghost use Rattle.lsm_cmd_compact.specs.Compacting.{StopsWorking, Works};
ghost use Rattle.lsm_opening.specs.Compactions.{IsSwept, Refuses, installed_text};
ghost use Rattle.lsm_opening.specs.declared.faults.compact_fault.CompactFault.TheVariants.{Writer as WriterVariant};

use crate::compacting::finding::find_manifest;
use crate::compacting::job_teller::JobTeller;
use crate::compacting::progress::{tell_installed, tell_opened, tell_removed};
use crate::compacting::torn::refuse_torn;
use lsm_opening::{CompactFault, NewParts, WriterFault, open, sweep};
use lsm_requests::CompactOptions;
use lsm_slots::Boarded;
use lsm_state::{State, StateFault};
use lsm_store::laws::what_was_found_is_kept;
use lsm_store::{
    Invariant, ManualCompaction, NoGate, Picks, Store, WorkerEnd, forks, judge_ends, run_workers_by,
};
use lsm_table::{NamedShelf, Shelf, ShelfFault};
use std::alloc::{AllocError, AllocFailed, Global};
use std::io::{self, Write};
use std::marker::Brand;
use std::sync::Wait;
use std::thread::Threads;

/// Lets workers compact a store, one for each shelf, which take what is picked; each job that they
/// begin is said where that is asked for.
#[tactic(auto, using(lsm_directory::proofs::CallerLemmas::keeps_same))]
fn run_all<N: Boarded, S: Shelf, K: Invariant, R: Threads + Wait + Sync, E: Write + Send>(
    rt: &R,
    alloc: Global,
    store: &Store<N, S, K>,
    shelves: Vec<NamedShelf<N, S>>,
    picks: &Picks,
    progress: bool,
    err: &mut E,
) -> Result<Vec<WorkerEnd>, AllocFailed<Vec<NamedShelf<N, S>>>>
    requires kept { IsKeptByCompaction S.honest K.keeps }
    ensures len { IfOk result (λ v. vec_len v ≡ vec_len shelves) }
    ensures ends { IfOk result (λ v. All (IsWorkersEnd S.honest) v.items) }
    ensures ended { IfOk result (λ v. HaveEnded S.honest (S.refuses N.place) K.keeps
        (given_each picks.now true shelves.items) v.items) }
    ensures quiet { IsFalse progress → Keeps (E.contents err.old) (E.contents err.new) }
{
    if progress {
        let teller = JobTeller::new(rt, err);
        return run_workers_by(rt, alloc, store, shelves, &teller, picks);
    }
    run_workers_by(rt, alloc, store, shelves, &NoGate, picks)
}

/// One round: a worker for each of so many new forks of the shelf takes what is picked, and none of
/// them ends with a fault. Nothing else is asked of the shelf.
fn take_round<N: Boarded, S: Shelf, K: Invariant, R: Threads + Wait + Sync, E: Write + Send>(
    rt: &R,
    alloc: Global,
    store: &Store<N, S, K>,
    shelf: &mut NamedShelf<N, S>,
    options: &CompactOptions,
    picks: &Picks,
    err: &mut E,
) -> Result<(), CompactFault>
    requires kept { IsKeptByCompaction S.honest K.keeps }
    ensures round { OnOk result (IsFaultlessRound (S.refuses N.place) S.honest K.keeps N.place
        options.now.workers picks.now shelf.old shelf.new) }
    ensures refused { IfErr result (λ e. IsUnmanned options.now.workers e shelf.old shelf.new
        ⊎ IsFaultyRound (S.refuses N.place) S.honest K.keeps N.place options.now.workers picks.now
        e shelf.old shelf.new) }
    ensures quiet { IsFalse options.now.progress → Keeps (E.contents err.old) (E.contents err.new) }
{
    let shelves = match forks(alloc, shelf, options.workers) {
        Ok(shelves) => shelves,
        Err(fault) => return Err(CompactFault::of_shelf(fault)),
    };
    let Ok(ends) = run_all(rt, alloc, store, shelves, picks, options.progress, err) else {
        return Err(CompactFault::of_shelf(ShelfFault::OutOfMemory));
    };
    judge_ends(&ends)?;
    Ok(())
}

/// Whether no file of a range that is picked is left at its levels, as the state under the lock
/// says.
fn is_cleared<N: Boarded, S: Shelf, K: Invariant, R: Wait>(
    rt: &R,
    store: &Store<N, S, K>,
    picks: &Picks,
) -> bool
    ensures cleared { IsTrue result → IsClearedBy K.keeps picks.now }
    ensures more { IsFalse result → IsLeftOver K.keeps picks.now }
{
    match picks {
        Picks::Manual(manual) => manual.is_done(&store.lock(rt).state),
        Picks::Choice | Picks::Joining | Picks::Gathering => true,
    }
}

/// Rounds of workers of a store, in none of which one ends with a fault, until no file of a range
/// that is picked is left at its levels: one round at least, and just one where no range is; each
/// with new forks of the shelf.
fn clear<N: Boarded, S: Shelf, K: Invariant, R: Threads + Wait + Sync, E: Write + Send>(
    rt: &R,
    alloc: Global,
    store: &Store<N, S, K>,
    shelf: &mut NamedShelf<N, S>,
    options: &CompactOptions,
    picks: &Picks,
    err: &mut E,
) -> Result<(), CompactFault>
    requires kept { IsKeptByCompaction S.honest K.keeps }
    ensures rounds { OnOk result (EndsRounds (S.refuses N.place) S.honest K.keeps N.place
        options.now.workers picks.now shelf.old shelf.new) }
    ensures cleared { OnOk result (IsClearedBy K.keeps picks.now) }
    ensures refused { IfErr result (λ e. StopsBehindRounds (S.refuses N.place) S.honest K.keeps
        N.place options.now.workers picks.now e shelf.old shelf.new) }
    ensures quiet { IsFalse options.now.progress
        → Keeps (E.contents err.old) (E.contents err.new) }
{
    'tries: for _ in rt.forever() {
        take_round(rt, alloc, store, shelf, options, picks, err)?;
        if is_cleared(rt, store, picks) {
            return Ok(());
        }
    }
    unreachable!()
}

/// What workers are to pick over the files of a state: the range that options ask for, or else what
/// is chosen.
fn aim_of<N: Boarded, S: Shelf>(
    alloc: Global,
    state: &State<N, S>,
    options: &CompactOptions,
) -> Result<Picks, AllocError>
    ensures aimed { IfOk result (IsAimed state.now.slots.version options.now.range) }
    ensures ranged { OnErr result (options.now.range ≢ None) }
{
    match &options.range {
        Some(range) => Ok(Picks::Manual(ManualCompaction::of(
            alloc,
            state,
            &range.from,
            &range.to,
        )?)),
        None => Ok(Picks::Choice),
    }
}

/// Lets so many workers compact a state, beside which a lock keeps a fact, until nothing of the
/// range that is asked for is left, or nothing is due: the state, of which the fact holds, when none
/// of them ends with a fault. The shelf is asked for a fork for each worker of each round.
fn compact_state<N: Boarded, S: Shelf, K: Invariant, R: Threads + Wait + Sync, E: Write + Send>(
    rt: &R,
    alloc: Global,
    state: State<N, S>,
    shelf: &mut NamedShelf<N, S>,
    options: &CompactOptions,
    err: &mut E,
) -> Result<State<N, S>, CompactFault>
    requires kept { (h : Held) → IsSeated state h → K.keeps h }
    requires steps { IsKeptByCompaction S.honest K.keeps }
    ensures kept { IfOk result (λ left. ∥ K.keeps left ∥₁) }
    ensures worked { OnOk result (Works (S.refuses N.place) S.honest K.keeps N.place state
        options.now shelf.old shelf.new) }
    ensures cleared { OnOk result (Clears K.keeps state options.now.range) }
    ensures refused { IfErr result (λ e. StopsWorking (S.refuses N.place) S.honest K.keeps N.place
        state options.now e shelf.old shelf.new) }
    ensures quiet { IsFalse options.now.progress → Keeps (E.contents err.old) (E.contents err.new) }
{
    let Ok(picks) = aim_of(alloc, &state, options) else {
        return Err(CompactFault::of_shelf(ShelfFault::OutOfMemory));
    };
    let store: Store<N, S, K> = Store::of(alloc, state);
    match clear(rt, alloc, &store, shelf, options, &picks, err) {
        Ok(()) => Ok(store.into_state()),
        Err(fault) => Err(fault),
    }
}

/// Removes what a state does not keep, and says how much where that is asked for.
#[tactic(auto, using(lsm_directory::proofs::CallerLemmas::keeps_same))]
fn sweep_all<N: Boarded, S: Shelf, R: Wait, E: Write>(
    rt: &R,
    alloc: Global,
    state: &mut State<N, S>,
    shelf: &mut NamedShelf<N, S>,
    progress: bool,
    err: &mut E,
) -> Result<(), StateFault>
    ensures ok { OnOk result (IsSwept S.honest N.board state.new shelf.old shelf.new) }
    ensures refused { IfErr result (λ e.
        Refuses (S.refuses N.place) S.honest N.board state.new e shelf.old shelf.new) }
    ensures looked { Looked state.old.slots state.new.slots }
    ensures rest { state.new ≡ record state.old { slots = state.new.slots } }
    ensures quiet { IsFalse progress → Keeps (E.contents err.old) (E.contents err.new) }
{
    let removed = sweep(rt, alloc, state, shelf)?;
    tell_removed(removed, progress, err);
    Ok(())
}

/// Writes how many results were installed, and flushes.
fn reply<O: Write>(out: &mut O, installed: u32) -> io::Result<()>
    ensures written { OnOk result
        (Appends (O.contents out.old) (O.contents out.new) (installed_text installed)) }
{
    writeln!(out, "installed {installed}")?;
    out.flush()
}

/// Opens the directory of a shelf, lets so many workers compact it, reads the manifest, removes
/// what nothing names any more, and writes the reply: how many versions became current meanwhile,
/// one for each result.
#[tactic(auto, using(lsm_directory::proofs::CallerLemmas::keeps_same, crate::proofs::Quiet::quiet_then))]
fn compact_named<N: Boarded, S: Shelf, R: Threads + Wait + Sync, O: Write, E: Write + Send>(
    rt: &R,
    alloc: Global,
    shelf: &mut NamedShelf<N, S>,
    options: &CompactOptions,
    parts: NewParts<S>,
    out: &mut O,
    err: &mut E,
) -> Result<(), CompactFault>
    requires parts { AreOf usual N.registry N.board N.history parts }
    requires shelf { shelf.old.place ≡ N.place }
    ensures done { OnOk result (DoesCompact (S.refuses N.place) S.honest options.now shelf.old
        shelf.new (O.contents out.old) (O.contents out.new)) }
    ensures fault { IfErr result (λ e.
        StopsCompacting (Stored S.Receipt (S.is_of N.place) S.Receipt.number S.Receipt.image)
        (S.refuses N.place) S.honest options.now e shelf.old shelf.new) }
    ensures left { IfErr result (λ e. e ≢ WriterVariant WriteFault
        → Keeps (O.contents out.old) (O.contents out.new)) }
    ensures quiet { IsFalse options.now.progress → Keeps (E.contents err.old) (E.contents err.new) }
{
    let state = open(rt, alloc, shelf, parts)?;
    tell_opened(&state, options.progress, err);
    what_was_found_is_kept::<State<N, S>>();
    let begun = state.current().0;
    let mut left = compact_state::<N, S, Brand, R, E>(rt, alloc, state, shelf, options, err)?;
    let installed = left.current().0.saturating_sub(begun);
    tell_installed(installed, options.progress, err);
    find_manifest(rt, alloc, &left, shelf)?;
    sweep_all(rt, alloc, &mut left, shelf, options.progress, err)?;
    match reply(out, installed) {
        Ok(()) => Ok(()),
        Err(_) => Err(CompactFault::Writer(WriterFault::Write)),
    }
}

/// The same, once the manifest's end was accepted.
fn compact_accepted<N: Boarded, S: Shelf, R: Threads + Wait + Sync, O: Write, E: Write + Send>(
    rt: &R,
    alloc: Global,
    shelf: &mut NamedShelf<N, S>,
    options: &CompactOptions,
    parts: NewParts<S>,
    out: &mut O,
    err: &mut E,
) -> Result<(), CompactFault>
    requires parts { AreOf usual N.registry N.board N.history parts }
    requires shelf { shelf.old.place ≡ N.place }
    ensures done { OnOk result (IsCompacted (S.refuses N.place) S.honest options.now shelf.old
        shelf.new (O.contents out.old) (O.contents out.new)) }
    ensures fault { IfErr result (λ e.
        IsCompactFault (Stored S.Receipt (S.is_of N.place) S.Receipt.number S.Receipt.image)
        (S.refuses N.place) S.honest options.now e shelf.old shelf.new) }
    ensures left { IfErr result (λ e. e ≢ WriterVariant WriteFault
        → Keeps (O.contents out.old) (O.contents out.new)) }
    ensures quiet { IsFalse options.now.progress → Keeps (E.contents err.old) (E.contents err.new) }
{
    refuse_torn(rt, alloc, shelf, options.accepts_rest)?;
    match compact_named(rt, alloc, shelf, options, parts, out, err) {
        Ok(()) => Ok(()),
        Err(fault) => Err(fault),
    }
}

/// The same under the name that was picked for the parts and the shelf, which is given back.
fn compact_as<N: Boarded, S: Shelf, R: Threads + Wait + Sync, O: Write, E: Write + Send>(
    rt: &R,
    alloc: Global,
    shelf: S,
    options: &CompactOptions,
    parts: NewParts<S>,
    out: &mut O,
    err: &mut E,
) -> (Result<(), CompactFault>, S)
    requires parts { AreOf usual N.registry N.board N.history parts }
    requires shelf { (S.told shelf).place ≡ N.place }
    ensures done { OnOk result.0 (IsCompacted (S.refuses N.place) S.honest options.now
        (S.told shelf) (S.told result.1) (O.contents out.old) (O.contents out.new)) }
    ensures fault { IfErr result.0 (λ e.
        IsCompactFault (Stored S.Receipt (S.is_of N.place) S.Receipt.number S.Receipt.image)
        (S.refuses N.place) S.honest options.now e (S.told shelf) (S.told result.1)) }
    ensures left { IfErr result.0 (λ e. e ≢ WriterVariant WriteFault
        → Keeps (O.contents out.old) (O.contents out.new)) }
    ensures quiet { IsFalse options.now.progress → Keeps (E.contents err.old) (E.contents err.new) }
{
    let mut shelf: NamedShelf<N, S> = NamedShelf::of(shelf);
    let done = compact_accepted(rt, alloc, &mut shelf, options, parts, out, err);
    (done, shelf.into_shelf())
}

/// Opens the directory of a shelf, lets so many workers compact it, removes what nothing names any
/// more, and writes `installed M`. The shelf is given back.
#[tactic(auto, using(lsm_directory::proofs::CallerLemmas::keeps_same))]
pub(crate) fn compact_to<S: Shelf, R: Threads + Wait + Sync, O: Write, E: Write + Send>(
    rt: &R,
    alloc: Global,
    shelf: S,
    options: &CompactOptions,
    out: &mut O,
    err: &mut E,
) -> (Result<(), CompactFault>, S)
    ensures done { OnOk result.0 (IsCompacted (S.refuses (S.told shelf).place) S.honest
        options.now (S.told shelf) (S.told result.1) (O.contents out.old)
        (O.contents out.new)) }
    ensures fault { IfErr result.0 (λ e. IsCompactFault (Stored S.Receipt
        (S.is_of (S.told shelf).place) S.Receipt.number S.Receipt.image)
        (S.refuses (S.told shelf).place) S.honest options.now e
        (S.told shelf) (S.told result.1)) }
    ensures left { IfErr result.0 (λ e. e ≢ WriterVariant WriteFault
        → Keeps (O.contents out.old) (O.contents out.new)) }
    ensures quiet { IsFalse options.now.progress → Keeps (E.contents err.old) (E.contents err.new) }
{
    match NewParts::make(alloc) {
        Ok(parts) => compact_as::<Brand, S, R, O, E>(rt, alloc, shelf, options, parts, out, err),
        Err(fault) => (Err(CompactFault::from(fault)), shelf),
    }
}
