//! What comes into the history of a state.

ghost use Rattle.std.specs.Prelude.{◌≡◌, [], ◌∷◌};
ghost use Rattle.lsm_model.specs.Files.{all_entries};
ghost use Rattle.lsm_version.specs.Versions.{files};
ghost use Rattle.lsm_batch.specs.Batches.{entries_from};
ghost use Rattle.lsm_state.specs.Editions.{edition};

use lsm_batch::Batch;
use lsm_history::{History, Recalls};
use lsm_table::{Naming, Shelf};
use lsm_version::Version;

// How a version is read: as the entries of all its tables.
struct InVersion;

impl<N: Naming, S: Shelf> Recalls<Version<N, S>> for InVersion {
    ghost use Rattle.std.specs.Prelude.{[]};
    ghost use Rattle.lsm_model.specs.Files.{all_entries};
    ghost use Rattle.lsm_version.specs.Versions.{files};

    ghost entries = { λ v. all_entries (files v) };

    ghost editions = { λ _. [] };
}

// The entries of all tables of a version.
pub(crate) fn entries_of_version<N: Naming, S: Shelf>(version: &Version<N, S>) -> History
    ensures { result.entries ≡ all_entries (files version.now) }
{
    History::of::<Version<N, S>, InVersion>(version)
}

// A batch, with the sequence of its first entry.
#[derive(Drop)]
struct Coming<'a> {
    batch: &'a Batch,
    first: u64,
}

// How it is read: as the entries of the batch.
struct InBatch;

impl<'a> Recalls<Coming<'a>> for InBatch {
    ghost use Rattle.std.specs.Prelude.{[]};
    ghost use Rattle.lsm_batch.specs.Batches.{entries_from};

    ghost entries = { λ c. entries_from c.first c.batch.now };

    ghost editions = { λ _. [] };
}

// The entries of a batch, at sequences one after another from the first.
pub(crate) fn entries_of_batch(batch: &Batch, first: u64) -> History
    ensures { result.entries ≡ entries_from first batch.now }
{
    History::of::<Coming, InBatch>(&Coming { batch, first })
}

// A version, with its id.
#[derive(Drop)]
struct Issued<'a, N: Naming, S: Shelf> {
    id: u32,
    version: &'a Version<N, S>,
}

// How it is read: as its edition.
struct InIssue;

impl<'a, N: Naming, S: Shelf> Recalls<Issued<'a, N, S>> for InIssue {
    ghost use Rattle.std.specs.Prelude.{[], ◌∷◌};
    ghost use Rattle.lsm_state.specs.Editions.{edition};

    ghost entries = { λ _. [] };

    ghost editions = { λ i. edition i.id i.version.now ∷ [] };
}

// The edition of a version under its id.
pub(crate) fn edition_of<N: Naming, S: Shelf>(id: u32, version: &Version<N, S>) -> History
    ensures { result.editions ≡ edition id version.now ∷ [] }
{
    History::of::<Issued<N, S>, InIssue>(&Issued { id, version })
}
