//! The last write of each key of a log.

ghost use Rattle.std.specs.Prelude.{◌≡◌, ◌≤◌, ℕ, suc, List, IfOk};
ghost use Rattle.lsm_codec.specs.Keys.{UserKey};
ghost use Rattle.lsm_codec.specs.Entries.{answer};
ghost use Rattle.lsm_batch.specs.LastWrites.{KeepsLast, last_write};
ghost use Rattle.lsm_wal.specs.WriteLog.{AreBatches, after, entries_of, value_after, writes_of};
ghost use Rattle.lsm_wal.specs.declared.write_batch.WriteBatch.{WriteBatch as Given};

use crate::write_log::WriteLog;
use lsm_batch::{Batch, Write, last_of_each};
use std::alloc::{AllocError, Global};

/// The batch of a log's writes: of each key the last one, in the order of the keys. It may pass the
/// limits of a batch. `AllocError` where a growth was refused.
pub fn last_writes(alloc: Global, log: WriteLog) -> Result<Batch, AllocError>
    // Of each key it has the last write alone, and its keys ascend.
    ensures last { IfOk result (KeepsLast (writes_of log.batches)) }

    // It answers as the log's entries do, at any sequence from the log's last on.
    ensures answers { IfOk result (λ batch. (records : List (List ℕ))
        → AreBatches 0 records log.batches → (key : UserKey) (s : ℕ)
        → after 0 log.batches ≤ suc s
        → answer (entries_of log.batches) key s ≡ value_after (last_write key batch)) }
{
    let writes = joined(alloc, log)?;
    last_of_each(alloc, writes)
}

/// A law: of the entries of a log, whose sequences ascend, the newest of a key is its last write.
pub fn newest_is_last()
    ensures { (records : List (List ℕ)) (batches : List Given) → AreBatches 0 records batches
        → (key : UserKey) (s : ℕ) → after 0 batches ≤ suc s
        → answer (entries_of batches) key s ≡ value_after (last_write key (writes_of batches)) }
{}

// The writes of all batches.
fn joined(alloc: Global, log: WriteLog) -> Result<Vec<Write>, AllocError>
    ensures { IfOk result (λ v. v.items ≡ writes_of log.batches) }
{
    let mut writes: Vec<Write> = Vec::new(alloc);
    for batch in log.batches.into_vec() {
        let mut more = batch.writes.into_vec();
        writes.append(&mut more)?;
    }
    Ok(writes)
}
