//! One run of a command on a directory.

ghost use Rattle.std.specs.Prelude.{◌≡◌, ◌≢◌, ◌⊎◌, All, IfErr, IfOk, IsFalse, IsTrue, OnOk};
ghost use Rattle.lsm_storage.specs.FileShelf.{file_told};
ghost use Rattle.lsm_shelf.specs.Stored.{Stored};
ghost use Rattle.lsm_cmd_read.specs.Answers.{IsLookedIntoAsGiven, IsNotLookedInto, asking};
ghost use Rattle.lsm_cmd_read.specs.Answers.{moment, names_files};
ghost use Rattle.lsm_cmd_read.specs.Directory.{OnlyReads};
ghost use Rattle.lsm_directory.specs.Beside.{LooksBeside};
ghost use Rattle.lsm_directory.specs.Folders.{IsFolderAt, IsShelfAt};
ghost use Rattle.lsm_directory.specs.Holding.{IsFolderFault};
ghost use Rattle.lsm_cmd_read.specs.Looked.{FailsAsAsked, FailsAsItLies, FailsToLook};
ghost use Rattle.lsm_cmd_read.specs.Looked.{LooksAsAsked, LooksAsItLies, LooksAtGiven};
ghost use Rattle.lsm_cmd_read.specs.Seen.{FailsToSee, IsOpenToSee, SeesAt, sees_more, sight_of};
ghost use Rattle.lsm_cmd_read.specs.declared.look_fault.LookFault.{LookFault};
ghost use Rattle.lsm_cmd_read.specs.Quick.{FailsQuickly, LooksQuickly, is_check, is_quick};
ghost use Rattle.lsm_directory.specs.declared.faults.directory_fault.DirectoryFault.{DirectoryFault};
ghost use Rattle.lsm_directory.specs.declared.faults.directory_fault.DirectoryFault.TheVariants.{OutOfMemory};

use crate::inquiry::Inquiry;
use crate::look_fault::LookFault;
use crate::performing::begin;
use crate::quick::begin_quickly;
use crate::seeing::see;
use lsm_directory::{
    Beside, DirectoryFault, Known, Paths, look_beside, open_at, refuse, status_of,
};
use lsm_finding::Finding;
use lsm_folder::{FindingCalls, FolderCalls, Reasons};
use lsm_preview::Sight;
use lsm_requests::{DirectoryCommand, DirectoryLine};
use lsm_storage::FileShelf;
use lsm_table::Shelf;
use std::alloc::{AllocError, Global};
use std::io::Write;
use std::sync::Wait;
use std::thread;
use std::thread::Threads;

/// Whether the refusals of a command name the files of tables.
fn names_files(command: &DirectoryCommand) -> bool
    ensures { result ≡ names_files command.now }
{
    match command {
        DirectoryCommand::Check(_) | DirectoryCommand::Scan(_) => true,
        DirectoryCommand::List | DirectoryCommand::Get(_, _) => false,
    }
}

/// Opens the directory of a shelf to read, does what is asked of it, and answers the exit status: 0
/// where it is done, and 1 where it is refused. Each notes on `err` bytes at the manifest's end
/// that are no whole record, a manifest that is later than the one that `CURRENT` names, and files
/// of RocksDB; and `list`, `get` and `scan` each log that is not read. Where it is strict, all four
/// are refused by any of these. A fault is one line on `err`; `check` and `scan` name in it the file
/// of which a table is refused, and `list` and `get` in a second one. What it means, and where it is
/// `9 Device` or `10 Missing` what the system answered, stand behind it. A `get` that prints no line
/// of its answer is `absent` where the key has none. Nothing is written in the directory. The shelf
/// is given back. A thread for each of the other shelves, forks of it, reads and judges tables.
pub fn look<S: Shelf, R: Threads + Wait + Sync, O: Write, E: Write + Send>(
    rt: &R,
    alloc: Global,
    shelf: S,
    shelves: Vec<S>,
    inquiry: &Inquiry<'_>,
    out: &mut O,
    err: &mut E,
) -> (u8, S)
    requires shelves { All (λ s. (S.told s).place ≡ (S.told shelf).place) shelves.items }
    ensures done { result.0 ≡ 0 → IsLookedIntoAsGiven (asking inquiry.now)
        (Stored S.Receipt (S.is_of (S.told shelf).place) S.Receipt.number S.Receipt.image) S.honest
        (moment (S.told shelf) (O.contents out.old)) (moment (S.told result.1) (O.contents out.new))
        (E.contents err.old) (E.contents err.new) }
    ensures refused { result.0 ≢ 0 → (result.0 ≡ 1)
        × ((fault : DirectoryFault) × IsNotLookedInto (asking inquiry.now)
        (Stored S.Receipt (S.is_of (S.told shelf).place) S.Receipt.number S.Receipt.image)
        (S.refuses (S.told shelf).place) S.honest fault (moment (S.told shelf) (O.contents out.old))
        (moment (S.told result.1) (O.contents out.new))) }
    ensures reads { OnlyReads (S.told shelf) (S.told result.1) }
{
    let (done, shelf) = begin(rt, alloc, shelf, shelves, inquiry, out, err);
    let known = Known {
        writes: &[],
        reasons: inquiry.reasons,
        names_files: names_files(inquiry.command),
    };
    (status_of(done, known, err), shelf)
}

/// As `look`, without a judgment of the tables: they are found, and no table is read that the
/// command does not come to. No check can be asked so. It requires nothing of the shelf: whatever
/// that is, this ends, and only reads.
///
/// Where the shelf is honest and keeps the tables of the manifest that it gives, what is done is
/// what `look` does (`quick_looks_are_whole`). Else what `get` and `scan` print is not said.
pub fn look_quickly<S: Finding, R: Wait, O: Write, E: Write>(
    rt: &R,
    alloc: Global,
    shelf: S,
    inquiry: &Inquiry<'_>,
    out: &mut O,
    err: &mut E,
) -> (u8, S)
    requires reads { IsFalse (is_check inquiry.now.command.now) }
    ensures done { result.0 ≡ 0 → LooksQuickly (asking inquiry.now)
        (S.keeps (S.told shelf).place)
        (Stored S.Receipt (S.is_of (S.told shelf).place) S.Receipt.number S.Receipt.image) S.honest
        (moment (S.told shelf) (O.contents out.old)) (moment (S.told result.1) (O.contents out.new))
        (E.contents err.old) (E.contents err.new) }
    ensures refused { result.0 ≢ 0 → (result.0 ≡ 1)
        × ((fault : DirectoryFault) × FailsQuickly (asking inquiry.now)
        (S.keeps (S.told shelf).place)
        (Stored S.Receipt (S.is_of (S.told shelf).place) S.Receipt.number S.Receipt.image)
        (S.refuses (S.told shelf).place) S.honest fault (moment (S.told shelf) (O.contents out.old))
        (moment (S.told result.1) (O.contents out.new))) }
    ensures reads { OnlyReads (S.told shelf) (S.told result.1) }
{
    let (done, shelf) = begin_quickly(rt, alloc, shelf, inquiry, out, err);
    let known = Known {
        writes: &[],
        reasons: inquiry.reasons,
        names_files: names_files(inquiry.command),
    };
    (status_of(done, known, err), shelf)
}

/// How many processors this program may use, 16 at most; 2 where the system does not say.
fn usable_processors<R: Threads>(rt: &R) -> usize {
    match thread::available_parallelism(rt) {
        Ok(processors) => processors.get().min(16),
        Err(_) => 2,
    }
}

/// How many threads read and judge the tables for a command: as many as it says, or one a
/// processor.
fn threads_for<R: Threads>(rt: &R, command: &DirectoryCommand) -> usize {
    match command {
        DirectoryCommand::Check(Some(workers)) => *workers,
        DirectoryCommand::Check(None)
        | DirectoryCommand::List
        | DirectoryCommand::Get(_, _)
        | DirectoryCommand::Scan(_) => usable_processors(rt),
    }
}

/// So many more shelves on a folder, or fewer, where the system gives no more of them.
fn shelves_on<C: FolderCalls>(
    alloc: Global,
    folder: &C,
    count: usize,
) -> Result<Vec<FileShelf<C>>, AllocError>
    ensures { IfOk result (λ v.
        All (λ s. (file_told C.place s).place ≡ C.place folder.now) v.items) }
{
    let mut shelves = Vec::new(alloc);
    for _ in 0..count {
        let Ok(fork) = folder.fork() else {
            return Ok(shelves);
        };
        let shelf = FileShelf::over(fork);
        shelves.push(shelf)?;
    }
    Ok(shelves)
}

/// Opens the folder at a path for a command that only reads: its lock is held, and `look_beside`
/// finds this there.
fn open_folder<C: FolderCalls, P: Paths<C>, R: Wait>(
    rt: &R,
    paths: &P,
    path: &str,
    reasons: &Reasons,
) -> Result<(C, Beside), DirectoryFault>
    ensures opened { IfOk result (λ o. IsFolderAt C.FolderCalls path.now (LooksBeside o.1) o.0) }
    ensures fault { IfErr result IsFolderFault }
{
    let mut folder = open_at(paths, path, reasons)?;
    let beside = look_beside(rt, paths.alloc(), &mut folder)?;
    Ok((folder, beside))
}

/// Opens the folder at a path for a command that only reads: a shelf on it, whose lock is held as
/// long as the shelf is, so many more, and what `look_beside` finds there.
fn open_shelf<C: FolderCalls, P: Paths<C>, R: Wait>(
    rt: &R,
    paths: &P,
    path: &str,
    count: usize,
    reasons: &Reasons,
) -> Result<(FileShelf<C>, Vec<FileShelf<C>>, Beside), DirectoryFault>
    ensures found { IfOk result (λ o.
        IsShelfAt C.FolderCalls path.now (LooksBeside o.2) o.0) }
    ensures place { IfOk result (λ o.
        All (λ s. (file_told C.place s).place ≡ (file_told C.place o.0).place) o.1.items) }
    ensures fault { IfErr result (λ e. IsFolderFault e ⊎ (e ≡ OutOfMemory)) }
{
    let (folder, beside) = open_folder(rt, paths, path, reasons)?;
    let shelves = shelves_on(paths.alloc(), &folder, count)?;

    // That a file was not there to be locked, or is gone, is no reason of a later refusal.
    reasons.forget();
    Ok((FileShelf::over(folder), shelves, beside))
}

/// Does what a line asks of the folder at its path.
fn look_at<
    C: FolderCalls + Send + Sync,
    P: Paths<C>,
    R: Threads + Wait + Sync,
    O: Write,
    E: Write + Send,
>(
    rt: &R,
    paths: &P,
    line: &DirectoryLine<'_>,
    reasons: &Reasons,
    out: &mut O,
    err: &mut E,
) -> Result<(), DirectoryFault>
where
    C::Mark: Send + Sync,
    ensures done { OnOk result (LooksAtGiven C.FolderCalls C.Mark.Mark line.now
        (O.contents out.old) (O.contents out.new) (E.contents err.old) (E.contents err.new)) }
    ensures refused { IfErr result (λ e. FailsToLook C.FolderCalls C.Mark.Mark line.now e
        (O.contents out.old) (O.contents out.new)) }
{
    let count = threads_for(rt, &line.command);
    let (shelf, shelves, beside) = open_shelf(rt, paths, line.path, count, reasons)?;
    let inquiry = Inquiry {
        command: &line.command,
        form: line.form,
        beside: &beside,
        strict: line.strict,
        progress: line.progress,
        reasons: Some(reasons),
    };
    let (done, _shelf) = begin(rt, paths.alloc(), shelf, shelves, &inquiry, out, err);
    done
}

/// Opens the folder at a path for a command that only reads and that sees its logs, or compressed
/// tables: the folder, whose lock is held as long as it is, a shelf on it, so many more, and what
/// `look_beside` finds there.
fn open_to_see<C: FolderCalls, P: Paths<C>, R: Wait>(
    rt: &R,
    paths: &P,
    path: &str,
    count: usize,
    reasons: &Reasons,
) -> Result<(C, FileShelf<C>, Vec<FileShelf<C>>, Beside), DirectoryFault>
    ensures found { IfOk result (λ o. IsOpenToSee C.FolderCalls path.now o.3 o.0 o.1) }
    ensures place { IfOk result (λ o.
        All (λ s. (file_told C.place s).place ≡ (file_told C.place o.1).place) o.2.items) }
    ensures fault { IfErr result (λ e. IsFolderFault e ⊎ (e ≡ OutOfMemory)) }
{
    let (folder, beside) = open_folder(rt, paths, path, reasons)?;
    let shelves = shelves_on(paths.alloc(), &folder, count)?;

    // That a file was not there to be locked, or is gone, is no reason of a later refusal.
    reasons.forget();
    match folder.fork() {
        Ok(fork) => Ok((folder, FileShelf::over(fork), shelves, beside)),
        Err(_) => Err(DirectoryFault::OutOfMemory),
    }
}

/// How a line asks for a folder to be seen.
fn sight_of(line: &DirectoryLine<'_>) -> Sight
    ensures { result ≡ sight_of line.now }
{
    Sight {
        logs: line.logs,
        inflates: line.inflates,
    }
}

/// Does what a line asks of what it sees in the folder at its path.
fn look_seen_at<
    C: FolderCalls + Send + Sync,
    P: Paths<C>,
    R: Threads + Wait + Sync,
    O: Write,
    E: Write + Send,
>(
    rt: &R,
    paths: &P,
    line: &DirectoryLine<'_>,
    reasons: &Reasons,
    out: &mut O,
    err: &mut E,
) -> Result<(), LookFault>
where
    C::Mark: Send + Sync,
    ensures done { OnOk result (SeesAt C.FolderCalls C.Mark.Mark line.now
        (O.contents out.old) (O.contents out.new) (E.contents err.old) (E.contents err.new)) }
    ensures refused { IfErr result (λ e. FailsToSee C.FolderCalls C.Mark.Mark line.now e
        (O.contents out.old) (O.contents out.new)) }
{
    let count = threads_for(rt, &line.command);
    let (mut folder, shelf, shelves, beside) = open_to_see(rt, paths, line.path, count, reasons)?;
    let inquiry = Inquiry {
        command: &line.command,
        form: line.form,
        beside: &beside,
        strict: line.strict,
        progress: line.progress,
        reasons: Some(reasons),
    };
    let (done, _shelf) = see(
        rt,
        paths.alloc(),
        &mut folder,
        shelf,
        shelves,
        sight_of(line),
        &inquiry,
        out,
        err,
    );
    done
}

/// Whether a command is quick, by whether its line says so.
fn is_quick(command: &DirectoryCommand, quick: bool) -> bool
    ensures { result ≡ is_quick command.now quick }
{
    match command {
        DirectoryCommand::Check(_) => false,
        DirectoryCommand::List | DirectoryCommand::Get(_, _) | DirectoryCommand::Scan(_) => quick,
    }
}

/// Does what a quick line asks of the folder at its path.
fn look_quickly_at<C: FindingCalls + Send + Sync, P: Paths<C>, R: Wait, O: Write, E: Write>(
    rt: &R,
    paths: &P,
    line: &DirectoryLine<'_>,
    reasons: &Reasons,
    out: &mut O,
    err: &mut E,
) -> Result<(), DirectoryFault>
where
    C::Mark: Send + Sync,
    requires quick { IsTrue (is_quick line.now.command line.now.quick) }
    ensures done { OnOk result (LooksAsItLies C.FolderCalls C.Mark.Mark C.holds line.now
        (O.contents out.old) (O.contents out.new) (E.contents err.old) (E.contents err.new)) }
    ensures refused { IfErr result (λ e. FailsAsItLies C.FolderCalls C.Mark.Mark C.holds line.now e
        (O.contents out.old) (O.contents out.new)) }
{
    let (shelf, _none, beside) = open_shelf(rt, paths, line.path, 0, reasons)?;
    let inquiry = Inquiry {
        command: &line.command,
        form: line.form,
        beside: &beside,
        strict: line.strict,
        progress: line.progress,
        reasons: Some(reasons),
    };
    let (done, _shelf) = begin_quickly(rt, paths.alloc(), shelf, &inquiry, out, err);
    done
}

/// Does what a line asks of the folder at its path, as it lies there: with a judgment of every
/// table, or, where it is quick, without.
fn look_as_it_lies<
    C: FindingCalls + Send + Sync,
    P: Paths<C>,
    R: Threads + Wait + Sync,
    O: Write,
    E: Write + Send,
>(
    rt: &R,
    paths: &P,
    line: &DirectoryLine<'_>,
    reasons: &Reasons,
    out: &mut O,
    err: &mut E,
) -> Result<(), DirectoryFault>
where
    C::Mark: Send + Sync,
    ensures done { OnOk result (LooksAsItLies C.FolderCalls C.Mark.Mark C.holds line.now
        (O.contents out.old) (O.contents out.new) (E.contents err.old) (E.contents err.new)) }
    ensures refused { IfErr result (λ e. FailsAsItLies C.FolderCalls C.Mark.Mark C.holds line.now e
        (O.contents out.old) (O.contents out.new)) }
{
    if is_quick(&line.command, line.quick) {
        return look_quickly_at(rt, paths, line, reasons, out, err);
    }
    look_at(rt, paths, line, reasons, out, err)
}

/// Whether a line sees logs or compressed tables too.
fn sees_more(line: &DirectoryLine<'_>) -> bool
    ensures { result ≡ sees_more line.now }
{
    line.logs || line.inflates
}

/// Does what a line asks of the folder at its path: as it lies there, or as it is to be seen.
fn look_as_asked<
    C: FindingCalls + Send + Sync,
    P: Paths<C>,
    R: Threads + Wait + Sync,
    O: Write,
    E: Write + Send,
>(
    rt: &R,
    paths: &P,
    line: &DirectoryLine<'_>,
    reasons: &Reasons,
    out: &mut O,
    err: &mut E,
) -> Result<(), LookFault>
where
    C::Mark: Send + Sync,
    ensures done { OnOk result (LooksAsAsked C.FolderCalls C.Mark.Mark C.holds line.now
        (O.contents out.old) (O.contents out.new) (E.contents err.old) (E.contents err.new)) }
    ensures refused { IfErr result (λ e. FailsAsAsked C.FolderCalls C.Mark.Mark C.holds line.now e
        (O.contents out.old) (O.contents out.new)) }
{
    if sees_more(line) {
        return look_seen_at(rt, paths, line, reasons, out, err);
    }
    match look_as_it_lies(rt, paths, line, reasons, out, err) {
        Ok(()) => Ok(()),
        Err(fault) => Err(LookFault::Directory(fault)),
    }
}

/// Does what a line asks of the folder at its path, and answers the exit status, as `look` does, or
/// as `look_quickly` where the line is quick and its command no check. Where the line sees logs or
/// compressed tables, so it is done of what `preview` shows: the database as `recover` would leave
/// it, and with its tables plain. `Shelf` of `Device` where it is no folder that can be opened; the
/// refusals of `look_beside`, and of `preview`; `TornManifest` where it is strict, and bytes at the
/// ends of the manifest or of logs hold no whole record.
pub fn run_look<
    C: FindingCalls + Send + Sync,
    P: Paths<C>,
    R: Threads + Wait + Sync,
    O: Write,
    E: Write + Send,
>(rt: &R, paths: &P, line: &DirectoryLine<'_>, out: &mut O, err: &mut E) -> u8
where
    C::Mark: Send + Sync,
    ensures done { result ≡ 0 → LooksAsAsked C.FolderCalls C.Mark.Mark C.holds line.now
        (O.contents out.old) (O.contents out.new) (E.contents err.old) (E.contents err.new) }
    ensures refused { result ≢ 0 → (result ≡ 1) × ((fault : LookFault)
        × FailsAsAsked C.FolderCalls C.Mark.Mark C.holds line.now fault (O.contents out.old)
        (O.contents out.new)) }
{
    let reasons = match Reasons::new(paths.alloc()) {
        Ok(reasons) => reasons,
        Err(fault) => return refuse(DirectoryFault::from(fault), err),
    };
    let done = look_as_asked(rt, paths, line, &reasons, out, err);
    let known = Known {
        writes: &[],
        reasons: Some(&reasons),
        names_files: names_files(&line.command),
    };
    status_of(done, known, err)
}
