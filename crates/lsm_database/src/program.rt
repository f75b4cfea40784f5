//! What is run on a database.

use crate::database::Database;

/// What is run on a database while it is open. Its database has a name of its own, which is picked
/// when it is opened, so `run` is generic in its type.
pub trait Program: Drop {
    ghost use Rattle.std.specs.Prelude.{◌≡◌, List};
    ghost use Rattle.lsm_batch.specs.declared.write.Write.{Write};
    ghost use Rattle.lsm_codec.specs.Entries.{Entry};
    ghost use Rattle.lsm_database.specs.Databases.{IsUntold};

    /// What it answers.
    type Answer;

    /// Which batches it may ask for, on a database into which these entries had come, the latest
    /// first, under this premise on reads. Any where it says nothing.
    ghost asks: { Self → Type 0 → List Entry → List Write → Type 0 } = { λ _ _ _ _. Unit {0} };

    /// What it promises of its answer, on a database into which these entries had come, the latest
    /// first, and these when it answered, under this premise on reads. It promises nothing where it
    /// says nothing.
    ghost says: { Self → Type 0 → (before after : List Entry) → Self.Answer
        → Type 0 } = { λ _ _ _ _ _. Unit {0} };

    /// Runs on the database, to whose shelves nothing was told yet. Workers compact beside until it
    /// answers.
    fn run<D: Database>(self, database: &mut D) -> Self::Answer
        requires ready { D.ready database.old }
        requires untold { IsUntold (D.seen database.old) }
        requires asks { (ws : List Write) → asks self D.honest (D.seen database.old).known ws
            → D.asks ws }
        requires found { (D.seen database.old).known ≡ D.found.history }
        ensures said { says self D.honest (D.seen database.old).known
            (D.seen database.new).known result };
}
