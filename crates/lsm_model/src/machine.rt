//! Laws of the store as a plain machine, over whole runs. Each function's contract is one law; its
//! body is empty.

ghost use Rattle.lsm_codec.specs.Entries.{answer};
ghost use Rattle.lsm_codec.specs.Keys.{UserKey};
ghost use Rattle.lsm_model.specs.Files.{all_entries};
ghost use Rattle.lsm_model.specs.Law.{Law};
ghost use Rattle.lsm_model.specs.Plain.{Gathers, Plain, created};
ghost use Rattle.lsm_model.specs.Runs.{Event, ReadsAs, Run, ingested};
ghost use Rattle.std.specs.Prelude.{◌≡◌, ℕ, List};

/// What the laws below suppose where they speak of entries: any statement. Of a store over a shelf
/// it is that tables are read as they were written; the machine itself knows of no shelf.
pub trait Premise {
    /// The statement.
    ghost holds: { Type 0 };
}

/// Every run from a lawful store leaves it lawful, whatever the order of its events and however
/// many jobs are live.
pub fn runs_keep_the_law<P: Premise>()
    ensures { (s t : Plain) (events : List Event) → Law P.holds s → Run P.holds s events t
        → Law P.holds t }
{}

/// After every run each read that is promised gives what it gives over all that was ingested:
/// installs changed nothing.
pub fn runs_read_all_that_came<P: Premise>()
    ensures { (s t : Plain) (events : List Event) → P.holds → Law P.holds s
        → Run P.holds s events t → ReadsAs t (ingested events (all_entries s.files)) }
{}

/// Gathering the newest files of level 0 changes no answer, whatever the key and the sequence are.
pub fn gathering_changes_no_answer<P: Premise>()
    ensures { (s t : Plain) → P.holds → Law P.holds s → Gathers P.holds s t → (k : UserKey) (q : ℕ)
        → answer (all_entries t.files) k q ≡ answer (all_entries s.files) k q }
{}

/// A store that was just created keeps the law, so the laws above are not empty.
pub fn created_stores_are_lawful<P: Premise>()
    ensures { Law P.holds created }
{}
