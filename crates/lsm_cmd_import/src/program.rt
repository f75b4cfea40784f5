//! One run of `import`.

ghost use Rattle.std.specs.Prelude.{◌≡◌, ◌≢◌, false, IfErr, IfOk, OnOk};
ghost use Rattle.std.specs.Io.KnownBytes.{Keeps};
ghost use Rattle.lsm_directory.specs.Folders.{IsFolderAt};
ghost use Rattle.lsm_directory.specs.Holding.{IsFolderFault};
ghost use Rattle.lsm_directory.specs.Looking.{TellsBeside};
ghost use Rattle.lsm_directory.specs.declared.faults.directory_fault.DirectoryFault.{DirectoryFault};
ghost use Rattle.lsm_cmd_import.specs.Imported.{AreReady, AreUnready, FailsToImport, ImportsAt};
ghost use Rattle.lsm_cmd_import.specs.Imported.{IsNoTarget, IsReadyTarget, IsUntaken, TakenBy};
ghost use Rattle.lsm_cmd_import.specs.declared.copy_fault.CopyFault.{CopyFault};
ghost use Rattle.lsm_cmd_import.specs.declared.copy_fault.CopyFault.TheVariants.{Source};

use crate::copy_fault::CopyFault;
use crate::importing::import;
use crate::reply::tell_made;
use lsm_directory::{
    FolderFile, Known, Paths, files_beside, first_unread, open_at, refuse, status_of,
};
use lsm_folder::{FolderCalls, Reasons};
use lsm_opening::{Prepared, Start, WriterFault, plainly, prepare};
use lsm_requests::ImportLine;
use lsm_storage::FileShelf;
use std::io::Write;
use std::sync::Wait;

/// Opens the folder that is copied. Its lock is held, shared, and these files are beside its
/// tables.
fn open_source<C: FolderCalls, P: Paths<C>, R: Wait>(
    rt: &R,
    paths: &P,
    path: &str,
    reasons: &Reasons,
) -> Result<(C, Vec<FolderFile>), CopyFault>
    ensures opened { IfOk result (λ r.
        IsFolderAt C.FolderCalls path.now (TellsBeside r.1.items) r.0) }
    ensures refused { IfErr result (λ e. (fault : DirectoryFault) × (e ≡ Source fault)
        × IsFolderFault fault) }
{
    let mut folder = match open_at(paths, path, reasons) {
        Ok(folder) => folder,
        Err(fault) => return Err(CopyFault::Source(fault)),
    };
    match files_beside(rt, paths.alloc(), &mut folder) {
        Ok(files) => Ok((folder, files)),
        Err(fault) => Err(CopyFault::Source(fault)),
    }
}

/// Refuses a folder with a database, and one with a log that LevelDB would read.
fn refuse_taken(prepared: &Prepared) -> Result<(), CopyFault>
    ensures free { OnOk result (IsUntaken prepared.now.start prepared.now.logs.items) }
    ensures taken { IfErr result (TakenBy prepared.now.start prepared.now.logs.items) }
{
    let Start::Begin(_) = prepared.start else {
        return Err(CopyFault::IsThere);
    };
    match first_unread(&prepared.logs, 0, 0) {
        Some(log) => Err(CopyFault::Target(WriterFault::UnflushedLog(log))),
        None => Ok(()),
    }
}

/// Opens the folder of the copy. Its lock is held, and a database can be begun there.
fn open_target<C: FolderCalls, P: Paths<C>, R: Wait>(
    rt: &R,
    paths: &P,
    path: &str,
    reasons: &Reasons,
) -> Result<FileShelf<C>, CopyFault>
    ensures ready { IfOk result (IsReadyTarget C.FolderCalls path.now) }
    ensures refused { IfErr result (IsNoTarget C.FolderCalls path.now) }
{
    let mut folder = match open_at(paths, path, reasons) {
        Ok(folder) => folder,
        Err(fault) => return Err(CopyFault::Target(WriterFault::Directory(fault))),
    };
    let prepared = match prepare(rt, paths.alloc(), &mut folder, plainly()) {
        Ok(prepared) => prepared,
        Err(fault) => return Err(CopyFault::Target(fault)),
    };
    refuse_taken(&prepared)?;
    Ok(FileShelf::over(folder))
}

/// Opens both folders of a copy: the source's, whose lock it holds, the files beside its tables,
/// and a shelf on each.
fn open_folders<C: FolderCalls, P: Paths<C>, R: Wait>(
    rt: &R,
    paths: &P,
    line: &ImportLine<'_>,
    reasons: &Reasons,
) -> Result<(C, Vec<FolderFile>, FileShelf<C>, FileShelf<C>), CopyFault>
    ensures ready { IfOk result (λ r.
        AreReady C.FolderCalls line.now r.1.items r.0 r.2 r.3) }
    ensures refused { IfErr result (AreUnready C.FolderCalls line.now) }
{
    let (folder, files) = open_source(rt, paths, line.source, reasons)?;
    let target = open_target(rt, paths, line.target, reasons)?;

    // That a file was not there to be locked, or is gone, is no reason of a later refusal.
    reasons.forget();
    match folder.fork() {
        Ok(fork) => Ok((folder, files, FileShelf::over(fork), target)),
        Err(_) => Err(CopyFault::OutOfMemory),
    }
}

/// Copies the database in the folder at a path to the folder at another.
fn import_at<C: FolderCalls + Send + Sync, P: Paths<C>, R: Wait, O: Write, E: Write>(
    rt: &R,
    paths: &P,
    line: &ImportLine<'_>,
    to_first_fault: bool,
    reasons: &Reasons,
    out: &mut O,
    err: &mut E,
) -> Result<(), CopyFault>
where
    C::Mark: Send + Sync,
    ensures done { OnOk result (ImportsAt C.FolderCalls C.Mark.Mark to_first_fault line.now
        (O.contents out.old) (O.contents out.new) (E.contents err.old) (E.contents err.new)) }
    ensures refused { IfErr result (λ e. FailsToImport C.FolderCalls C.Mark.Mark to_first_fault
        line.now e (O.contents out.old) (O.contents out.new)) }
    ensures quiet { to_first_fault ≡ false → Keeps (E.contents err.old) (E.contents err.new) }
{
    let (mut folder, files, source, target) = open_folders(rt, paths, line, reasons)?;
    let alloc = paths.alloc();
    let (made, _source, _target) = import(
        rt,
        alloc,
        &mut folder,
        &files,
        source,
        target,
        to_first_fault,
    );
    let made = match made {
        Ok(made) => made,
        Err(fault) => return Err(fault),
    };
    match tell_made(alloc, made, out, err) {
        Ok(()) => Ok(()),
        Err(_) => Err(CopyFault::Write),
    }
}

/// Copies the database in the folder at a path, with the logs that are not flushed, to the folder
/// at another, writes `tables T logs L entries E rest B`, and answers the exit status: 0 where it
/// is done, and 1 where it is refused. A fault is one line on `err`, and may have more behind it.
///
/// The tables become plain ones, under their numbers and at their levels; of each key that the logs
/// write, the last write comes in as one table more, at level 0; the manifest comes last. The
/// source is only read. A log that is damaged, or begins below the end of the one before, is
/// refused; or, to the first fault, it comes in as far as it has none, and no later one does. What
/// is left out is then told on `err`: `note: N.log has F NAME: its last B bytes and L later logs
/// are left out`.
///
/// `Locked` where another program has one of the folders open; the refusals of opening and looking
/// at them; `IsThere` where the target has a database, and `UnflushedLog` where it has a log that
/// LevelDB would read. After each refusal but `Write` the target has no database, but for one of
/// the device while the manifest is begun: then it has this one or none.
pub fn run_import<C: FolderCalls + Send + Sync, P: Paths<C>, R: Wait, O: Write, E: Write>(
    rt: &R,
    paths: &P,
    line: &ImportLine<'_>,
    to_first_fault: bool,
    out: &mut O,
    err: &mut E,
) -> u8
where
    C::Mark: Send + Sync,
    ensures done { result ≡ 0 → ImportsAt C.FolderCalls C.Mark.Mark to_first_fault line.now
        (O.contents out.old) (O.contents out.new) (E.contents err.old) (E.contents err.new) }
    ensures refused { result ≢ 0 → (result ≡ 1) × ((fault : CopyFault)
        × FailsToImport C.FolderCalls C.Mark.Mark to_first_fault line.now fault
        (O.contents out.old) (O.contents out.new)) }

    // Nothing is told where all is to be read.
    ensures quiet { to_first_fault ≡ false → result ≡ 0
        → Keeps (E.contents err.old) (E.contents err.new) }
{
    let reasons = match Reasons::new(paths.alloc()) {
        Ok(reasons) => reasons,
        Err(_) => return refuse(CopyFault::OutOfMemory, err),
    };
    match import_at(rt, paths, line, to_first_fault, &reasons, out, err) {
        Ok(()) => 0,
        Err(fault) => status_of(Err(fault), Known::answered(Some(&reasons)), err),
    }
}
