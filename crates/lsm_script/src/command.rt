//! What a script asks of a state.

use lsm_batch::Batch;
use lsm_codec::Bytes;

/// What a script asks of a state, one call each but for merges.
#[derive(Debug, Drop)]
pub enum Command {
    /// Brings the batch in.
    Ingest(Batch),
    /// Reads the user key, as of the snapshot of this id, or of the last sequence.
    Get(Bytes, Option<u64>),
    /// Takes a snapshot.
    Snapshot,
    /// Gives up the snapshot of this id.
    Release(u64),
    /// Reserves the compaction that is chosen.
    Reserve,
    /// Reserves the compaction of the files of this level, 0 to 5, that meet the range of user
    /// keys, both included.
    ReserveRange(u8, Bytes, Bytes),
    /// Merges the job of this ticket, which the script reserved.
    Merge(u64),
    /// Installs the result of this ticket, which the script merged.
    Install(u64),
    /// Gives up the live job of this ticket. The script keeps its own job and result.
    Cancel(u64),
    /// Pins the current version.
    Pin,
    /// Gives back a pin of the version of this id.
    Unpin(u32),
    /// Removes the tables that nobody needs.
    Collect,
    /// Lists the files of the current version.
    List,
}
