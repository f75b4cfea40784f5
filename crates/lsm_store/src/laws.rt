//! Laws of the definitions, for programs that make a store.

ghost use Rattle.std.specs.Prelude.{◌≡◌, ℕ, Bool, List, length};
ghost use Rattle.lsm_shelf.specs.Told.{Told};
ghost use Rattle.lsm_journal.specs.HeldManifest.{HeldManifest};
ghost use Rattle.lsm_pins.specs.Known.{Known};
ghost use Rattle.lsm_batch.specs.declared.write.Write.{Write};
ghost use Rattle.lsm_slots.specs.Slots.{AreSlots, Looked};
ghost use Rattle.lsm_state.specs.Held.{Held, IsLawfulState};
ghost use Rattle.lsm_state.specs.Making.{created_state, created_state_under};
ghost use Rattle.lsm_state.specs.Opening.{opened_state};
ghost use Rattle.lsm_state.specs.declared.options.Options.{Options};
ghost use Rattle.lsm_store.specs.Background.{IsIngestStep};
ghost use Rattle.lsm_store.specs.Compacting.{IsCompactingStep, IsKeptByCompaction, IsLeftByWorkers};
ghost use Rattle.lsm_store.specs.Compacting.{IsSeated, KeepsNoMore};
ghost use Rattle.lsm_store.specs.Readers.{SeatsPinners};
ghost use Rattle.lsm_store.specs.Sweeping.{HasSwept, OnlyRemoves};
ghost use Rattle.lsm_store.specs.Working.{Given, IsCountedIf, IsWorked, OnlyPutsAndSends};
ghost use Rattle.lsm_store.specs.declared.worker_end.WorkerEnd.{WorkerEnd};
ghost use Rattle.lsm_version.specs.Versions.{Levels};

use crate::invariant::Invariant;
use lsm_model::machine::Premise;
use lsm_slots::Boarded;
use lsm_table::Shelf;

/// A fact for a store's lock: since a state was found, workers alone changed it, and all stays as
/// it was found, all that had come in, the last sequence, the snapshots, the pins, and each answer
/// that is promised (`IsLeftByWorkers`, `IsAsFound`). It holds of the state that goes into the
/// store, each step of a worker keeps it, it can be taken out of what a guard or
/// `Store::into_state` says, and it stays where slots are looked at, as by `State::collect`. `P` is
/// the premise of answers: that of a `State`.
#[tactic(auto, using(crate::proofs::FoundLaws::left_seated))]
pub fn what_was_found_is_kept<P: Premise>()
    ensures seated { (found h : Held) → IsSeated found h → IsLeftByWorkers P.holds found h }
    ensures kept { (found : Held) → IsKeptByCompaction P.holds (IsLeftByWorkers P.holds found) }
    ensures out { (found h : Held) → ∥ IsLeftByWorkers P.holds found h ∥₁
        → IsLeftByWorkers P.holds found h }
    ensures looked { (found was is : Held) → IsLeftByWorkers P.holds found was
        → Looked was.slots is.slots → is ≡ record was { slots = is.slots }
        → IsLeftByWorkers P.holds found is }
{}

/// What `State::create`, `State::create_under`, `State::open` and `State::open_to_read` make has no
/// more pinners than readers, where the board has as many as the options say. So it is of a board
/// that `Board::new` made for these options (`pinners` there).
pub fn made_states_seat_their_pinners()
    ensures created { (o : Options) (publisher : Known) (pinners : List Known)
        → length pinners ≡ o.readers → SeatsPinners (created_state o publisher pinners) }
    ensures created_under { (number : ℕ) (o : Options) (publisher : Known) (pinners : List Known)
        → length pinners ≡ o.readers
        → SeatsPinners (created_state_under number o publisher pinners) }
    ensures opened { (o : Options) (publisher : Known) (pinners : List Known) (v : Levels)
        (journal : HeldManifest) (next : ℕ) (halted : Bool) → length pinners ≡ o.readers
        → SeatsPinners (opened_state o publisher pinners v journal next halted) }
{}

/// What follows for the shelf of a worker of what it did (`IsWorked`). Where its fault is the
/// shelf's, a count of that shelf rose. And the shelf was told to put tables and to write the
/// manifest, and that is all: it was asked to remove nothing, and gave no fork.
pub fn what_workers_did_is_told<N: Boarded, S: Shelf, K: Invariant>()
    ensures counted { (given : Given) (back : Told) (e : WorkerEnd)
        → IsWorked S.honest (S.refuses N.place) K.keeps given e back
        → IsCountedIf e.fault given.shelf back }
    ensures only { (given : Given) (back : Told) (e : WorkerEnd)
        → IsWorked S.honest (S.refuses N.place) K.keeps given e back
        → OnlyPutsAndSends given.shelf back }
{}

/// What follows for the shelf of the thread that sweeps of what it did (`HasSwept`). It was told to
/// list tables, and to remove such as were not kept, each at a taking of the lock where the fact of
/// the store held; and that is all: it put nothing, wrote no manifest, and gave no fork.
pub fn what_sweeping_did_is_told<N: Boarded, S: Shelf, K: Invariant>()
    ensures only { (was is : Told) → HasSwept (S.refuses N.place) K.keeps was is
        → OnlyRemoves K.keeps was is }
{}

/// A file number below the next one that a state does not keep is kept by no later state: neither
/// by what workers leave nor by an ingest, and other calls of a state keep no further number
/// (`kept` and `rest` there). So a table that is not kept may also be removed later, outside the
/// lock, unless its number is still to be drawn. The premises hold of every state
/// (`State::options`).
pub fn what_is_not_kept_stays_so<N: Boarded, S: Shelf>()
    ensures compacting { (was is : Held) → IsLawfulState S.honest N.board was → AreSlots was.slots
        → IsCompactingStep S.honest was is → KeepsNoMore was is }
    ensures ingest { (writes : List Write) (was is : Held) → IsLawfulState S.honest N.board was
        → AreSlots was.slots → IsIngestStep (S.refuses N.place) writes was is
        → KeepsNoMore was is }
    ensures later { (a b c : Held) → KeepsNoMore a b → KeepsNoMore b c → KeepsNoMore a c }
{}
