//! Laws of lines that came in, as contracts of functions that do nothing.

ghost use Rattle.std.specs.Prelude.{◌≡◌, ℕ, ◌≤◌, List};
ghost use Rattle.lsm_codec.specs.Lists.{Has};
ghost use Rattle.lsm_codec.specs.Keys.{UserKey};
ghost use Rattle.lsm_codec.specs.Entries.{Entry, answer};
ghost use Rattle.lsm_batch.specs.declared.write.Write.{Write};
ghost use Rattle.lsm_lines.specs.Cuts.{IsCut};
ghost use Rattle.lsm_lines.specs.LastWrites.{last_write};
ghost use Rattle.lsm_state.specs.Held.{Held};
ghost use Rattle.lsm_lines.specs.Gathering.{Pending};
ghost use Rattle.lsm_bulk_load.specs.Coming.{all_after, last_after, over};
ghost use Rattle.lsm_bulk_load.specs.Keeping.{HasComeTo, HasGrown, IsOfLines};
ghost use Rattle.lsm_bulk_load.specs.Marks.{marked_in};

use lsm_slots::Boarded;
use lsm_table::Shelf;

/// Where writes were cut into batches, which came in one after another: of each key a read gives
/// what is written of it last, or, where nothing is, what it gave of all that had come in before.
pub fn each_key_shows_its_last_line()
    ensures { (last s : ℕ) (history : List Entry) (ws : List Write) (batches : List (List Write))
        (k : UserKey) → ((e : Entry) → Has history e → e.seq ≤ last) → IsCut ws batches
        → last_after last batches ≤ s → answer (all_after last batches history) k s
        ≡ over (last_write k ws) (answer history k s) }
{}

/// Of a state that came from the one that was found by steps of workers and ingests of batches that
/// lines spell: what came in since are such batches, one after another, and nothing else.
pub fn what_came_is_of_lines<N: Boarded, S: Shelf>()
    ensures { (lines : Pending) (found h : Held)
        → HasComeTo (S.refuses N.place) S.honest (IsOfLines lines) found h
        → HasGrown (IsOfLines lines) (marked_in found) (marked_in h) }
{}
