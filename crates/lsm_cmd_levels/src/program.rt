//! One run of the command.

ghost use Rattle.std.specs.Prelude.{◌≡◌, ◌≢◌, ◌↔◌, Err, IfErr, IfOk, IsTrue, OnOk};
ghost use Rattle.std.specs.Io.KnownBytes.{Keeps};
ghost use Rattle.lsm_directory.specs.Folders.{IsShelfAt};
ghost use Rattle.lsm_directory.specs.Holding.{IsFolderFault};
ghost use Rattle.lsm_directory.specs.declared.faults.directory_fault.DirectoryFault.{DirectoryFault};
ghost use Rattle.lsm_cmd_levels.specs.Layout.{FailsToLayOut, IsGone, LaysOutAt};
ghost use Rattle.lsm_cmd_levels.specs.Listing.{TellsFiles};

use crate::listing::folder_files;
use crate::showing::lay_out;
use lsm_directory::{DirectoryFault, FolderFile, Known, Paths, open_at, refuse, status_of};
use lsm_folder::{FolderCalls, Reasons};
use lsm_journal::RecoverFault;
use lsm_requests::LevelsLine;
use lsm_storage::FileShelf;
use lsm_table::ShelfFault;
use std::io::Write;
use std::sync::Wait;

/// Opens the folder at a path to read: a shelf on it, and the files that it has, with their sizes.
/// No lock is asked for: a manifest only grows, and `CURRENT` is replaced in one step, so what is
/// read beside a program that writes has stood there.
fn open_shelf<C: FolderCalls, P: Paths<C>, R: Wait>(
    rt: &R,
    paths: &P,
    path: &str,
    reasons: &Reasons,
) -> Result<(FileShelf<C>, Vec<FolderFile>), DirectoryFault>
    ensures found { IfOk result (λ o.
        IsShelfAt C.FolderCalls path.now (TellsFiles o.1.items) o.0) }
    ensures fault { IfErr result IsFolderFault }
{
    let mut folder = open_at(paths, path, reasons)?;
    let files = folder_files(rt, paths.alloc(), &mut folder)?;

    // That a file is gone, or has no size, is no reason of a later refusal.
    reasons.forget();
    Ok((FileShelf::over(folder), files))
}

/// Looks once at the folder at a path, and shows its levels.
#[tactic(auto, using(crate::proofs::ShowLaws::all_kept))]
fn look_at<C: FolderCalls + Send + Sync, P: Paths<C>, R: Wait, O: Write, E: Write>(
    rt: &R,
    paths: &P,
    line: &LevelsLine<'_>,
    reasons: &Reasons,
    out: &mut O,
    err: &mut E,
) -> Result<(), DirectoryFault>
where
    C::Mark: Send + Sync,
    ensures done { OnOk result (LaysOutAt C.FolderCalls line.now (O.contents out.old)
        (O.contents out.new) (E.contents err.old) (E.contents err.new)) }
    ensures refused { IfErr result (λ e. FailsToLayOut C.FolderCalls line.now e
        (O.contents out.old) (O.contents out.new)) }
    ensures gone { IfErr result (λ e. IsGone e → Keeps (O.contents out.old) (O.contents out.new)
        × Keeps (E.contents err.old) (E.contents err.new)) }
{
    let (shelf, files) = open_shelf(rt, paths, line.path, reasons)?;
    let alloc = paths.alloc();
    let (done, _shelf) = lay_out(
        rt,
        alloc,
        shelf,
        line.form,
        line.output,
        line.strict,
        &files,
        out,
        err,
    );
    done
}

/// Whether the manifest that `CURRENT` names was not there.
fn is_gone(done: &Result<(), DirectoryFault>) -> bool
    ensures { IsTrue result ↔ ((e : DirectoryFault) × (done.now ≡ Err e) × IsGone e) }
{
    match done {
        Err(DirectoryFault::Manifest(RecoverFault::Shelf(ShelfFault::Missing))) => true,
        _ => false,
    }
}

/// Shows the levels of the folder at a path. Another program may begin a new manifest after
/// `CURRENT` was read, and remove that one: where it is gone, the folder is looked at once more.
fn levels_at<C: FolderCalls + Send + Sync, P: Paths<C>, R: Wait, O: Write, E: Write>(
    rt: &R,
    paths: &P,
    line: &LevelsLine<'_>,
    reasons: &Reasons,
    out: &mut O,
    err: &mut E,
) -> Result<(), DirectoryFault>
where
    C::Mark: Send + Sync,
    ensures done { OnOk result (LaysOutAt C.FolderCalls line.now (O.contents out.old)
        (O.contents out.new) (E.contents err.old) (E.contents err.new)) }
    ensures refused { IfErr result (λ e. FailsToLayOut C.FolderCalls line.now e
        (O.contents out.old) (O.contents out.new)) }
{
    let done = look_at(rt, paths, line, reasons, out, err);
    if !is_gone(&done) {
        return done;
    }
    reasons.forget();
    look_at(rt, paths, line, reasons, out, err)
}

/// Shows the levels of the folder at a path by its manifest, and the sums of that and of the
/// folder's names and sizes, and answers the exit status: 0 where that is done, and 1 where it is
/// refused. Each log that is not read is noted on `err`, and bytes at the manifest's end that are no
/// whole record; with `--strict` it is refused by either. Where the manifest that `CURRENT` names is
/// gone, all of this is done once more. A fault is one line on `err`; what it means, and where it is
/// `9 Device` or `10 Missing` what the system answered, stand behind it. Nothing is written in the
/// folder, and no lock is asked for.
///
/// The refusals of `Journal::recover`; `Shelf` of `Device` where it is no folder that can be
/// opened, its files can't be listed, or the size of a log is refused.
pub fn run_levels<C: FolderCalls + Send + Sync, P: Paths<C>, R: Wait, O: Write, E: Write>(
    rt: &R,
    paths: &P,
    line: &LevelsLine<'_>,
    out: &mut O,
    err: &mut E,
) -> u8
where
    C::Mark: Send + Sync,
    ensures done { result ≡ 0 → LaysOutAt C.FolderCalls line.now (O.contents out.old)
        (O.contents out.new) (E.contents err.old) (E.contents err.new) }
    ensures refused { result ≢ 0 → (result ≡ 1) × ((fault : DirectoryFault) × FailsToLayOut
        C.FolderCalls line.now fault (O.contents out.old) (O.contents out.new)) }
{
    let reasons = match Reasons::new(paths.alloc()) {
        Ok(reasons) => reasons,
        Err(fault) => return refuse(DirectoryFault::from(fault), err),
    };
    let done = levels_at(rt, paths, line, &reasons, out, err);
    status_of(done, Known::answered(Some(&reasons)), err)
}
