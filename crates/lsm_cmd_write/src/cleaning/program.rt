//! One run of `clean`.

ghost use Rattle.std.specs.Prelude.{◌≡◌, ◌≢◌, IfErr, OnOk};
ghost use Rattle.std.specs.Io.KnownBytes.{Keeps};
ghost use Rattle.lsm_cmd_write.specs.Cleaning.{IsCleaned, IsUncleaned};
ghost use Rattle.lsm_cmd_write.specs.Cleaned.{FailsToClean, IsCleanedAt};
ghost use Rattle.lsm_opening.specs.declared.faults.writer_fault.WriterFault.{WriterFault};

use crate::cleaning::clean_folder;
use lsm_directory::{Known, Paths, open_at, refuse, status_of};
use lsm_folder::{FolderCalls, Reasons};
use lsm_opening::WriterFault;
use lsm_requests::CleanOptions;
use std::alloc::Global;
use std::io::Write;
use std::sync::Wait;

/// Takes the lock of a folder, opens its database to read, removes the files that it does not need,
/// and answers the exit status: manifests other than the one that `CURRENT` names, temporary files,
/// tables that the version does not have, and logs that LevelDB does not read when it opens the
/// folder. The name of each is written as a line, in the order of names. A fault is one line on
/// `err`, and may have more behind it.
///
/// `Locked` where another program has the folder open; the refusals of opening it, and
/// `TornManifest` where the manifest ends with bytes that hold no whole record, unless that is
/// accepted, and then nothing is removed; a removal that the folder refuses is the last one.
pub fn clean<C: FolderCalls + Send + Sync, R: Wait, O: Write, E: Write>(
    rt: &R,
    alloc: Global,
    folder: &mut C,
    options: CleanOptions,
    out: &mut O,
    err: &mut E,
) -> u8
where
    C::Mark: Send + Sync,
    ensures done { result ≡ 0 → IsCleaned C.FolderCalls options (C.place folder.old)
        (C.calls folder.old) (C.calls folder.new) (O.contents out.old) (O.contents out.new) }
    ensures refused { result ≢ 0 → (result ≡ 1) × ((fault : WriterFault)
        × IsUncleaned C.FolderCalls C.Mark.Mark options (C.place folder.old) fault
        (C.calls folder.old) (C.calls folder.new) (O.contents out.old) (O.contents out.new)) }
    ensures place { C.place folder.new ≡ C.place folder.old }
    ensures quiet { result ≡ 0 → Keeps (E.contents err.old) (E.contents err.new) }
{
    let done = clean_folder(rt, alloc, folder, options, out);
    status_of(done, Known::answered(None), err)
}

/// Cleans the folder at a path.
fn clean_at<C: FolderCalls + Send + Sync, P: Paths<C>, R: Wait, O: Write>(
    rt: &R,
    paths: &P,
    path: &str,
    options: CleanOptions,
    reasons: &Reasons,
    out: &mut O,
) -> Result<(), WriterFault>
where
    C::Mark: Send + Sync,
    ensures done { OnOk result (IsCleanedAt C.FolderCalls path.now options (O.contents out.old)
        (O.contents out.new)) }
    ensures refused { IfErr result (λ e. FailsToClean C.FolderCalls C.Mark.Mark path.now options
        e (O.contents out.old) (O.contents out.new)) }
{
    let mut folder = open_at(paths, path, reasons)?;
    clean_folder(rt, paths.alloc(), &mut folder, options, out)
}

/// Cleans the folder at a path, and answers the exit status.
pub fn run_clean<C: FolderCalls + Send + Sync, P: Paths<C>, R: Wait, O: Write, E: Write>(
    rt: &R,
    paths: &P,
    path: &str,
    options: CleanOptions,
    out: &mut O,
    err: &mut E,
) -> u8
where
    C::Mark: Send + Sync,
    ensures done { result ≡ 0 → IsCleanedAt C.FolderCalls path.now options (O.contents out.old)
        (O.contents out.new) }
    ensures refused { result ≢ 0 → (result ≡ 1) × ((fault : WriterFault)
        × FailsToClean C.FolderCalls C.Mark.Mark path.now options fault (O.contents out.old)
        (O.contents out.new)) }
    ensures quiet { result ≡ 0 → Keeps (E.contents err.old) (E.contents err.new) }
{
    let reasons = match Reasons::new(paths.alloc()) {
        Ok(reasons) => reasons,
        Err(_) => return refuse(WriterFault::OutOfMemory, err),
    };
    let done = clean_at(rt, paths, path, options, &reasons, out);
    status_of(done, Known::answered(Some(&reasons)), err)
}
