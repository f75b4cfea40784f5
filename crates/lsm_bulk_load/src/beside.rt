//! Lines come into a state while workers compact beside.

ghost use Rattle.std.specs.Prelude.{◌≡◌, ◌+◌, [], IfErr, IfSome, IsSome, OnOk};
ghost use Rattle.lsm_shelf.specs.Told.{fork_at};
ghost use Rattle.lsm_state.specs.Held.{Held};
ghost use Rattle.lsm_store.specs.Compacting.{IsKeptByCompaction};
ghost use Rattle.lsm_store.specs.Working.{HaveEndedBeside};
ghost use Rattle.lsm_bulk_load.specs.Ending.{IsIdle, IsLooked, ReservesNone};
ghost use Rattle.lsm_bulk_load.specs.Keeping.{IsKeptByAll, IsKeptSince, IsOfLines, IsTaken};
ghost use Rattle.lsm_shelf.specs.Told.{GivesForks};
ghost use Rattle.lsm_bulk_load.specs.Loading.{HaveEndedWell, HaveWorkedBeside};
ghost use Rattle.lsm_bulk_load.specs.Loading.{IsForkedFor, IsLoaded, IsStopped, IsToldOfBatches};
ghost use Rattle.lsm_bulk_load.specs.Loading.{IsUnloaded};
ghost use Rattle.lsm_bulk_load.specs.Marks.{IsEven, marked_in};

use crate::ending::finish;
use crate::load_fault::LoadFault;
use crate::loading::load;
use crate::mark::Mark;
use crate::origin::{Grown, Origin};
use crate::progress::Progress;
use crate::teller::Teller;
use lsm_lines::BatchReader;
use lsm_slots::Boarded;
use lsm_state::State;
use lsm_store::{Background, NoGate, Shelves, Store, WorkerEnd, with_workers};
use lsm_table::{NamedShelf, Shelf};
use std::alloc::Global;
use std::io::Read;
use std::sync::Wait;
use std::thread::Threads;

/// What lines came to, the mark behind those that came in, how much that is, and the shelf by which
/// they came in.
type Came<N, S, O> = (
    Result<(), LoadFault>,
    Mark<N, O>,
    Progress,
    NamedShelf<N, S>,
);

/// What a load comes to.
#[derive(Drop)]
pub struct Loaded<N: Boarded, S: Shelf> {
    /// Whether all is done, or why it is not.
    pub done: Result<(), LoadFault>,
    /// How much came in.
    pub progress: Progress,
    /// The state behind that.
    pub state: State<N, S>,
    /// The shelf by which it came in. None where no worker began.
    pub own: Option<NamedShelf<N, S>>,
}

/// Loads the lines of an input into a store, while its workers compact until nothing is due. None
/// where there was no memory for the workers; then nothing came in of the lines. The fact of the
/// lock is one that workers keep, and the ingest of each batch that lines of the input spell.
fn load_all<N: Boarded, S: Shelf, O: Origin, R: Threads + Wait + Sync, I: Read + Drop, T: Teller>(
    rt: &R,
    alloc: Global,
    store: Store<N, S, Grown<O>>,
    shelves: Shelves<N, S>,
    mark: Mark<N, O>,
    lines: BatchReader<I>,
    teller: &mut T,
) -> (Option<(Came<N, S, O>, Vec<WorkerEnd>)>, State<N, S>)
    requires held { lines.held ≡ [] }
    requires asked { IsKeptByAll (S.refuses N.place) (IsOfLines lines) O.keeps }
    requires workers { IsKeptByCompaction S.honest O.keeps }
    ensures loaded { IfSome result.0 (λ a.
        OnOk a.0.0 (IsLoaded lines mark a.0.1 a.0.2)) }
    ensures refused { IfSome result.0 (λ a. IfErr a.0.0 (λ e.
        IsStopped (S.refuses N.place) O.keeps lines mark a.0.1 a.0.2 e)) }
    ensures told { IfSome result.0 (λ a. IsToldOfBatches (S.refuses N.place) O.keeps
        (IsOfLines lines) shelves.own a.0.3) }
    ensures ended { IfSome result.0 (λ a. HaveEndedBeside S.honest (S.refuses N.place)
        (IsKeptSince O.keeps O.found) shelves.shelves.items a.1.items) }
    ensures kept { ∥ O.keeps result.1 ∥₁ }
    ensures even { IsEven O.found (marked_in result.1) }
{
    let Shelves { shelves, own } = shelves;
    let lent = &store;
    let told = &mut *teller;
    let run = with_workers(
        rt,
        alloc,
        &store,
        shelves,
        &NoGate,
        move |background: &Background| -> Came<N, S, O>
            requires held { lines.held ≡ [] }
            requires asked { IsKeptByAll (S.refuses N.place) (IsOfLines lines) O.keeps }
            ensures loaded { OnOk result.0 (IsLoaded lines mark result.1 result.2) }
            ensures refused { IfErr result.0 (λ e.
                IsStopped (S.refuses N.place) O.keeps lines mark result.1 result.2 e) }
            ensures told { IsToldOfBatches (S.refuses N.place) O.keeps (IsOfLines lines)
                own result.3 }
        {
            let mut own = own;
            let mut lines = lines;
            let (loaded, mark, progress) = load(
                rt, alloc, lent, background, &mut own, &mut lines, mark, told,
            );
            background.wait_until_idle(rt);
            (loaded, mark, progress, own)
        },
    );
    match run {
        Ok(run) => (Some(run), store.into_state()),
        Err(refused) => {
            drop(refused);
            (None, store.into_state())
        }
    }
}

/// Loads the lines of an input, of which none was gathered yet, into a state, while so many workers
/// compact beside, until all lines are in and nothing is due. The shelf is asked for forks alone:
/// one for each worker, and one for the batches; once one is refused, for no other. Each worker's
/// was told just what it did, and that of the batches, which comes back, just what their ingests
/// tell it.
///
/// The state comes back. It is just as far as the lines made it that are counted; only behind
/// `Other` it goes on from there. All of them are lines before the first one that is no write of a
/// batch, where one is not. In any case the fact held of it that the caller picked, before a job
/// was looked for: one that holds of the state that was found, and is kept by workers, and by the
/// ingest of each batch that lines of the input spell. No job is live that was not live then.
#[tactic(auto, using(crate::proofs::EndingLaws::finished, crate::proofs::EndingLaws::unfinished, crate::proofs::EndingLaws::unbegun, crate::proofs::MarkLaws::even_first))]
pub fn load_beside<N, S, O, R, I, T>(
    rt: &R,
    alloc: Global,
    state: State<N, S>,
    shelf: &mut NamedShelf<N, S>,
    workers: usize,
    lines: BatchReader<I>,
    teller: &mut T,
) -> Loaded<N, S>
where
    N: Boarded,
    S: Shelf,
    O: Origin,
    R: Threads + Wait + Sync,
    I: Read + Drop,
    T: Teller,
    requires found { O.found ≡ marked_in state }
    requires held { lines.held ≡ [] }
    requires first { (h : Held) → IsTaken state h → O.keeps h }
    requires asked { IsKeptByAll (S.refuses N.place) (IsOfLines lines) O.keeps }
    requires workers { IsKeptByCompaction S.honest O.keeps }
    ensures kept { (h : Held) × ∥ O.keeps h ∥₁ × IsLooked h result.state
        × ReservesNone h result.state }
    ensures loaded { OnOk result.done
        (IsLoaded lines (marked_in state) (marked_in result.state) result.progress) }
    ensures idle { OnOk result.done (S.honest → IsIdle result.state) }
    ensures worked { OnOk result.done (HaveEndedWell (HaveWorkedBeside S.honest
        (S.refuses N.place) (IsKeptSince O.keeps O.found) N.place shelf.old.forks workers)) }
    ensures refused { IfErr result.done (λ e. IsUnloaded (S.refuses N.place)
        (HaveWorkedBeside S.honest (S.refuses N.place) (IsKeptSince O.keeps O.found) N.place
        shelf.old.forks workers) O.keeps lines (marked_in state) (marked_in result.state)
        result.progress e) }
    ensures told { IfSome result.own (IsToldOfBatches (S.refuses N.place) O.keeps
        (IsOfLines lines) (fork_at N.place (shelf.old.forks + workers + 1))) }
    ensures own { OnOk result.done (IsSome result.own) }
    ensures just { OnOk result.done (GivesForks (workers + 1) shelf.old shelf.new) }
    ensures forked { IfErr result.done (λ e.
        IsForkedFor (workers + 1) e shelf.old shelf.new) }
{
    let mut state = state;
    let before: Mark<N, O> = Mark::of(&mut state);
    let mark: Mark<N, O> = Mark::of(&mut state);
    let shelves = match Shelves::of(alloc, shelf, workers) {
        Ok(shelves) => shelves,
        Err(fault) => {
            return Loaded {
                done: Err(LoadFault::Shelf(fault)),
                progress: Progress::none(),
                state,
                own: None,
            };
        }
    };
    let store: Store<N, S, Grown<O>> = Store::of(alloc, state);
    let (answer, mut state) = load_all(rt, alloc, store, shelves, mark, lines, teller);
    match answer {
        Some(answer) => {
            let (came, ends) = answer;
            let (loaded, mark, progress, own) = came;
            let done = finish(alloc, mark, &mut state, loaded, &ends);
            Loaded {
                done,
                progress,
                state,
                own: Some(own),
            }
        }
        None => {
            let refused = Err(LoadFault::OutOfMemory);
            let done = finish(alloc, before, &mut state, refused, &[]);
            Loaded {
                done,
                progress: Progress::none(),
                state,
                own: None,
            }
        }
    }
}
