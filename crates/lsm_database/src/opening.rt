//! A program runs on the database in a folder.

ghost use Rattle.std.specs.Prelude.{◌≤◌, IfErr, IfOk, vec_len};
ghost use Rattle.lsm_directory.specs.Folders.{IsFolderAt};
ghost use Rattle.lsm_folder.specs.Calls.{AreHonest};
ghost use Rattle.lsm_opening.specs.Preparing.{IsPrepared, plainly};
ghost use Rattle.lsm_database.specs.Running.{IsUnopened, IsUnpreparedAt, RunsAt};

use crate::database_fault::DatabaseFault;
use crate::program::Program;
use crate::running::run_on;
use lsm_directory::{Paths, open_at as folder_at};
use lsm_folder::{FolderCalls, Reasons};
use lsm_opening::{Prepared, WriterFault, plainly, prepare};
use lsm_storage::FileShelf;
use lsm_store::WorkerEnd;
use std::sync::Wait;
use std::thread::Threads;

/// How many workers compact beside a program.
const WORKERS: usize = 2;

/// The folder at a path, of which the lock is held and which was looked at.
fn prepare_at<C: FolderCalls, F: Paths<C>, R: Wait>(
    rt: &R,
    folders: &F,
    path: &str,
) -> Result<(C, Prepared), WriterFault>
    ensures prepared { IfOk result (λ r. IsFolderAt C.FolderCalls path.now
        (IsPrepared plainly r.1.start r.1.logs.items) r.0) }
    ensures refused { IfErr result (IsUnpreparedAt C.FolderCalls path.now) }
{
    let reasons = match Reasons::new(folders.alloc()) {
        Ok(reasons) => reasons,
        Err(_) => return Err(WriterFault::OutOfMemory),
    };
    let mut folder = match folder_at(folders, path, &reasons) {
        Ok(folder) => folder,
        Err(fault) => return Err(WriterFault::Directory(fault)),
    };
    match prepare(rt, folders.alloc(), &mut folder, plainly()) {
        Ok(prepared) => Ok((folder, prepared)),
        Err(fault) => Err(fault),
    }
}

/// Runs a program on the database in the folder at a path.
fn run_at<C, F, R, P>(
    rt: &R,
    folders: &F,
    path: &str,
    program: P,
) -> Result<(P::Answer, Vec<WorkerEnd>), WriterFault>
where
    C: FolderCalls + Send + Sync,
    C::Mark: Send + Sync,
    F: Paths<C>,
    R: Threads + Wait + Sync,
    P: Program,
    ensures ran { IfOk result (λ r. RunsAt C.FolderCalls path.now
        (P.asks program (AreHonest C.calls))
        (λ es fs. P.says program (AreHonest C.calls) es fs r.0) r.1.items) }
    ensures count { IfOk result (λ r. (2 ≤ vec_len r.1) × (vec_len r.1 ≤ 3)) }
    ensures refused { IfErr result (IsUnopened C.FolderCalls C.Mark.Mark path.now) }
{
    let found = match prepare_at(rt, folders, path) {
        Ok(found) => found,
        Err(fault) => return Err(fault),
    };
    let (folder, prepared) = found;
    let shelf = FileShelf::over(folder);
    let (run, _shelf) = run_on(rt, folders.alloc(), shelf, &prepared, WORKERS, program);
    run
}

/// Opens the database in the folder at a path, or begins one where no file of one is there, and
/// runs a program on it while two workers compact. Answers what the program answers, and what each
/// worker has done, the last one where there are three being one that only gathered: a worker that
/// met a fault has ended early. What came in until the program answered is what it may ask for.
/// Once `open` answers, the lock of the folder is free, and all that was written is on the device.
/// `folders` says where folders are found: `SystemPaths` finds those of the system.
///
/// The folder has to be there. `Directory` where it can't be locked, read or written, or the
/// database in it can't be read; `LostCurrent` where it has files of a database and no `CURRENT`;
/// `UnflushedLog` beside a log that LevelDB would read; `OutOfMemory`, also where there is no
/// thread.
pub fn open<C, F, R, P>(
    rt: &R,
    folders: &F,
    path: &str,
    program: P,
) -> Result<(P::Answer, Vec<WorkerEnd>), DatabaseFault>
where
    C: FolderCalls + Send + Sync,
    C::Mark: Send + Sync,
    F: Paths<C>,
    R: Threads + Wait + Sync,
    P: Program,
    ensures ran { IfOk result (λ r. RunsAt C.FolderCalls path.now
        (P.asks program (AreHonest C.calls))
        (λ es fs. P.says program (AreHonest C.calls) es fs r.0) r.1.items) }
    ensures count { IfOk result (λ r. (2 ≤ vec_len r.1) × (vec_len r.1 ≤ 3)) }
    ensures refused { IfErr result (λ e. IsUnopened C.FolderCalls C.Mark.Mark path.now e.fault) }
{
    match run_at(rt, folders, path, program) {
        Ok(run) => Ok(run),
        Err(fault) => Err(DatabaseFault { fault }),
    }
}
