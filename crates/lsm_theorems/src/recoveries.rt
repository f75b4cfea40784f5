//! What comes of a database whose logs are brought in, where a crash cuts that.

ghost use Rattle.std.specs.Prelude.{◌≡◌, ◌⊎◌, ℕ, List};
ghost use Rattle.lsm_shelf.specs.Stored.{Stored};
ghost use Rattle.lsm_shelf.specs.Told.{Place};
ghost use Rattle.lsm_wal.specs.declared.write_batch.WriteBatch.{WriteBatch};
ghost use Rattle.lsm_directory.specs.declared.folder.folder_file.FolderFile.{FolderFile};
ghost use Rattle.lsm_crash.specs.Crash.{Found, IsLeft};
ghost use Rattle.lsm_crash.specs.Database.{AllCut, AllDone};
ghost use Rattle.lsm_crash.specs.Disk.{Disk};
ghost use Rattle.lsm_crash.specs.Known.{IsSettled, Known, Recovers, World};
ghost use Rattle.lsm_crash.specs.Operations.{Operation};
ghost use Rattle.lsm_crash.specs.Versions.{Version};
ghost use Rattle.lsm_theorems.specs.Recoveries.{IsRecovery};

use lsm_crash::laws::{
    crashes_leave_what_is_known, refused_operations_leave_before_or_after, runs_are_durable,
};
use lsm_table::Shelf;

/// Logs that come into a database (`recover_on` of `lsm_recovery`) survive crashes, as its ingests
/// do. Once all that this asks of the folder was answered Ok, the version with the logs' writes is
/// durable (`done`). Cut by a crash in any call, or refused in one, it leaves the version of before
/// or the one with the writes, whole, and each table of it is there (`cut`).
pub fn recoveries_survive<S: Shelf>()
    ensures done { (place : Place) (files : List FolderFile) (batches : List WriteBatch)
        (w u : World) (v : Version) (os : List Operation) (d e : Disk)
        → IsSettled d w → IsRecovery (Stored S.Receipt (S.is_of place) S.Receipt.number
        S.Receipt.image) S.honest files batches w v os → AllDone w os u d e
        → IsSettled e u × (u.version ≡ v) }
    ensures cut { (place : Place) (files : List FolderFile) (batches : List WriteBatch)
        (w : World) (v : Version) (os : List Operation) (d e : Disk) (known : Known)
        (found : Found)
        → IsSettled d w → IsRecovery (Stored S.Receipt (S.is_of place) S.Receipt.number
        S.Receipt.image) S.honest files batches w v os → AllCut w os known d e → IsLeft e found
        → (r : Recovers known found) × ((r.version ≡ w.version) ⊎ (r.version ≡ v)) }
{
    runs_are_durable();
    refused_operations_leave_before_or_after();
    crashes_leave_what_is_known();
}
