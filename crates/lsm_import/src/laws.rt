//! What a copy answers.

ghost use Rattle.std.specs.Prelude.{◌≡◌, ◌++◌, ◌+◌, ◌<◌, ◌≤◌, ℕ, suc, List, length};
ghost use Rattle.lsm_codec.specs.Entries.{Entry, answer};
ghost use Rattle.lsm_codec.specs.Keys.{UserKey};
ghost use Rattle.lsm_batch.specs.Batches.{entries_from};
ghost use Rattle.lsm_batch.specs.LastWrites.{KeepsLast, last_write};
ghost use Rattle.lsm_batch.specs.declared.write.Write.{Write};
ghost use Rattle.lsm_wal.specs.WriteLog.{AreBatches, after, entries_of, writes_of};
ghost use Rattle.lsm_wal.specs.declared.write_batch.WriteBatch.{WriteBatch};
ghost use Rattle.lsm_import.specs.Answers.{NoneAbove, value_over};

/// A law: what a copy answers at its last sequence and above it: of a key that the logs write their
/// last write, and of each other what the tables answer at the source's last sequence.
pub fn copies_answer()
    // These are the entries of the source's tables, and the logs' last writes from a sequence on
    // that is above them.
    ensures copy { (es : List Entry) (batches : List WriteBatch) (batch : List Write)
        (last first s : ℕ) → NoneAbove last es → KeepsLast (writes_of batches) batch → last < first
        → first + length batch ≤ suc s → (key : UserKey)
        → answer (entries_from first batch ++ es) key s
        ≡ value_over (last_write key (writes_of batches)) (answer es key last) }

    // So do the tables with the logs' own entries, where none of these is at a sequence of the
    // tables: what LevelDB reads there.
    ensures source { (es : List Entry) (records : List (List ℕ)) (batches : List WriteBatch)
        (last s : ℕ) → NoneAbove last es → AreBatches (suc last) records batches
        → after (suc last) batches ≤ suc s → (key : UserKey)
        → answer (entries_of batches ++ es) key s
        ≡ value_over (last_write key (writes_of batches)) (answer es key last) }
{}
