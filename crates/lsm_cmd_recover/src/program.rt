//! One run of `recover`, and of what comes before another command.

ghost use Rattle.std.specs.Prelude.{◌≡◌, ◌≢◌, false, IfErr, IfOk, OnOk};
ghost use Rattle.std.specs.Io.KnownBytes.{Keeps};
ghost use Rattle.lsm_opening.specs.Preparing.{plainly};
ghost use Rattle.lsm_cmd_recover.specs.Recovered.{ComesFirst, FailsFirst, FailsToRecover, IsReady};
ghost use Rattle.lsm_cmd_recover.specs.Recovered.{IsUnready, RecoversAt, seeing_logs};
ghost use Rattle.lsm_cmd_recover.specs.declared.recover_fault.RecoverFault.{RecoverFault};
ghost use Rattle.lsm_recovery.specs.declared.bring_fault.BringFault.{BringFault};

use crate::recover_fault::RecoverFault;
use crate::reply::reply;
use lsm_directory::{Known, Paths, open_at, refuse, status_of};
use lsm_folder::{FolderCalls, Reasons};
use lsm_log_files::tell_left_out;
use lsm_opening::{Prepared, Start, WriterFault, plainly, prepare};
use lsm_recovery::{BringFault, recover_to};
use lsm_requests::IngestOptions;
use std::io::Write;
use std::sync::Wait;

/// Opens the folder, takes its lock alone, and looks at it with these options.
fn open_folder<C: FolderCalls, P: Paths<C>, R: Wait>(
    rt: &R,
    paths: &P,
    path: &str,
    options: IngestOptions,
    reasons: &Reasons,
) -> Result<(C, Prepared), BringFault>
    ensures ready { IfOk result (λ r.
        IsReady C.FolderCalls options path.now r.1.start r.1.logs.items r.0) }
    ensures refused { IfErr result (IsUnready C.FolderCalls options path.now) }
{
    let mut folder = match open_at(paths, path, reasons) {
        Ok(folder) => folder,
        Err(fault) => return Err(BringFault::Folder(WriterFault::Directory(fault))),
    };
    let prepared = match prepare(rt, paths.alloc(), &mut folder, options) {
        Ok(prepared) => prepared,
        Err(fault) => return Err(BringFault::Folder(fault)),
    };

    // That a file was not there to be locked, or is gone, is no reason of a later refusal.
    reasons.forget();
    Ok((folder, prepared))
}

/// Brings the logs of the folder at a path into its database.
fn recover_at<C: FolderCalls + Send + Sync, P: Paths<C>, R: Wait, O: Write, E: Write>(
    rt: &R,
    paths: &P,
    path: &str,
    to_first_fault: bool,
    reasons: &Reasons,
    out: &mut O,
    err: &mut E,
) -> Result<(), RecoverFault>
where
    C::Mark: Send + Sync,
    ensures done { OnOk result (RecoversAt C.FolderCalls C.Mark.Mark to_first_fault path.now
        (O.contents out.old) (O.contents out.new) (E.contents err.old) (E.contents err.new)) }
    ensures refused { IfErr result (λ e. FailsToRecover C.FolderCalls C.Mark.Mark to_first_fault
        path.now e (O.contents out.old) (O.contents out.new)) }
    ensures quiet { to_first_fault ≡ false → Keeps (E.contents err.old) (E.contents err.new) }
{
    let (mut folder, prepared) = open_folder(rt, paths, path, plainly(), reasons)?;
    let alloc = paths.alloc();
    let brought = match recover_to(rt, alloc, &mut folder, &prepared.logs, to_first_fault) {
        Ok(brought) => brought,
        Err(fault) => return Err(RecoverFault::Logs(fault)),
    };
    let Ok(()) = tell_left_out(alloc, brought.stop, err) else {
        return Err(RecoverFault::Write);
    };
    match reply(out, brought) {
        Ok(()) => Ok(()),
        Err(_) => Err(RecoverFault::Write),
    }
}

/// How a folder is looked at whose logs are to come in first: a database may be begun where
/// `begins` says so.
fn seeing_logs(begins: bool) -> IngestOptions
    ensures { result ≡ seeing_logs begins }
{
    let plain = plainly();
    IngestOptions { begins, ..plain }
}

/// Brings the logs of the folder at a path into its database, unless one is to be begun there.
fn recover_before<C: FolderCalls + Send + Sync, P: Paths<C>, R: Wait, E: Write>(
    rt: &R,
    paths: &P,
    path: &str,
    begins: bool,
    to_first_fault: bool,
    reasons: &Reasons,
    err: &mut E,
) -> Result<(), BringFault>
where
    C::Mark: Send + Sync,
    ensures done { OnOk result (ComesFirst C.FolderCalls C.Mark.Mark to_first_fault begins path.now
        (E.contents err.old) (E.contents err.new)) }
    ensures refused { IfErr result
        (FailsFirst C.FolderCalls C.Mark.Mark to_first_fault begins path.now) }
    ensures quiet { to_first_fault ≡ false → Keeps (E.contents err.old) (E.contents err.new) }
{
    let options = seeing_logs(begins);
    let (mut folder, prepared) = open_folder(rt, paths, path, options, reasons)?;
    if let Start::Begin(_) = prepared.start {
        return Ok(());
    }
    let alloc = paths.alloc();
    let brought = match recover_to(rt, alloc, &mut folder, &prepared.logs, to_first_fault) {
        Ok(brought) => brought,
        Err(fault) => return Err(fault),
    };
    let _ = tell_left_out(alloc, brought.stop, err);
    Ok(())
}

/// Brings the logs of the folder at a path, which LevelDB would read when it opens it, into the
/// folder's database, writes `logs L entries E rest B`, and answers the exit status: 0 where it is
/// done, and 1 where it is refused. A fault is one line on `err`, and may have more behind it.
///
/// Of each key that the logs write, the last write comes in as one table more, at level 0; then a
/// new manifest names it and the tables that are there, and reads none of the logs. They stay in
/// the folder. Where none is to be read, nothing is written; where each is empty, what a crash left
/// of other manifests is removed first, as by each command that writes. A log that is damaged, or
/// begins below the end of the one before, is refused; or, to the first fault, it comes in as far
/// as it has none, and no later one does. What is left out is then told on `err`: `note: N.log has
/// F NAME: its last B bytes and L later logs are left out`.
///
/// `Locked` where another program has the folder open; the refusals of opening and looking at it,
/// and of its tables. After each refusal but `Write` the database is as it was, but for one of the
/// device while the manifest is begun: then it is as it was, or has the logs.
pub fn run_recover<C: FolderCalls + Send + Sync, P: Paths<C>, R: Wait, O: Write, E: Write>(
    rt: &R,
    paths: &P,
    path: &str,
    to_first_fault: bool,
    out: &mut O,
    err: &mut E,
) -> u8
where
    C::Mark: Send + Sync,
    ensures done { result ≡ 0 → RecoversAt C.FolderCalls C.Mark.Mark to_first_fault path.now
        (O.contents out.old) (O.contents out.new) (E.contents err.old) (E.contents err.new) }
    ensures refused { result ≢ 0 → (result ≡ 1) × ((fault : RecoverFault)
        × FailsToRecover C.FolderCalls C.Mark.Mark to_first_fault path.now fault
        (O.contents out.old) (O.contents out.new)) }

    // Nothing is told where all is to be read.
    ensures quiet { to_first_fault ≡ false → result ≡ 0
        → Keeps (E.contents err.old) (E.contents err.new) }
{
    let reasons = match Reasons::new(paths.alloc()) {
        Ok(reasons) => reasons,
        Err(_) => return refuse(RecoverFault::Logs(BringFault::OutOfMemory), err),
    };
    match recover_at(rt, paths, path, to_first_fault, &reasons, out, err) {
        Ok(()) => 0,
        Err(fault) => status_of(Err(fault), Known::answered(Some(&reasons)), err),
    }
}

/// Brings the logs of the folder at a path in before another command opens it, as `run_recover`
/// does, but without a line of it, and answers the exit status: 0 where it is done, or there is no
/// database, and 1 where it is refused. A fault is one line on `err`, and may have more behind it.
///
/// Where the folder has no database nothing is brought in: the other command begins one, or refuses
/// the folder. `begins` says that one may be begun also where `CURRENT` was lost. The lock is let
/// go, so what comes behind opens the folder as it then is.
///
/// Refused as `run_recover`, and then the database is as it says.
pub fn recover_first<C: FolderCalls + Send + Sync, P: Paths<C>, R: Wait, E: Write>(
    rt: &R,
    paths: &P,
    path: &str,
    begins: bool,
    to_first_fault: bool,
    err: &mut E,
) -> u8
where
    C::Mark: Send + Sync,
    ensures done { result ≡ 0 → ComesFirst C.FolderCalls C.Mark.Mark to_first_fault begins path.now
        (E.contents err.old) (E.contents err.new) }
    ensures refused { result ≢ 0 → (result ≡ 1) × ((fault : BringFault)
        × FailsFirst C.FolderCalls C.Mark.Mark to_first_fault begins path.now fault) }

    // Nothing is told where all is to be read.
    ensures quiet { to_first_fault ≡ false → result ≡ 0
        → Keeps (E.contents err.old) (E.contents err.new) }
{
    let reasons = match Reasons::new(paths.alloc()) {
        Ok(reasons) => reasons,
        Err(_) => return refuse(BringFault::OutOfMemory, err),
    };
    match recover_before(rt, paths, path, begins, to_first_fault, &reasons, err) {
        Ok(()) => 0,
        Err(fault) => status_of(Err(fault), Known::answered(Some(&reasons)), err),
    }
}
