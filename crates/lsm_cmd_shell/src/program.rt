//! One run of `shell`.

ghost use Rattle.std.specs.Prelude.{◌≡◌, ◌≢◌, IfErr, IsFalse, OnErr, OnOk};
ghost use Rattle.std.specs.Io.KnownBytes.{Keeps};
ghost use Rattle.lsm_shelf.specs.Stored.{Stored};
ghost use Rattle.lsm_cmd_shell.specs.Conversing.{IsConversed, IsUnconversed};
ghost use Rattle.lsm_cmd_shell.specs.Talked.{ConversesAt, FailsToConverse, FailsToRead};
ghost use Rattle.lsm_cmd_shell.specs.Talked.{FailsToTalk, ReadsAt, TalksAt};

use crate::conversing::converse;
use crate::conversing_beside::converse_beside;
use crate::conversing_to_read::converse_to_read;
use crate::shell_fault::ShellFault;
use lsm_directory::{Known, Paths, look_beside, open_at, refuse, status_of};
use lsm_folder::{FolderCalls, Reasons};
use lsm_opening::{CompactFault, Prepared, prepare};
use lsm_requests::IngestOptions;
use lsm_storage::FileShelf;
use lsm_table::Shelf;
use lsm_text::Form;
use std::alloc::Global;
use std::io::{Read, Write};
use std::sync::Wait;
use std::thread::Threads;

/// Replies to the lines of the input on a shelf, while so many workers compact beside, or none.
fn converse_with<S, R, I, O>(
    rt: &R,
    alloc: Global,
    shelf: S,
    prepared: &Prepared,
    form: Form,
    workers: Option<usize>,
    bails: bool,
    reasons: &Reasons,
    input: I,
    out: &mut O,
) -> (Result<(), ShellFault>, S)
where
    S: Shelf,
    R: Threads + Wait + Sync,
    I: Read + Drop,
    O: Write,
    ensures done { OnOk result.0 (IsConversed workers (S.refuses (S.told shelf).place) S.honest
        prepared.now.start prepared.now.logs.items form bails (I.remaining input) (S.told shelf)
        (S.told result.1) (O.contents out.old) (O.contents out.new)) }
    ensures fault { IfErr result.0 (λ e. IsUnconversed workers (Stored S.Receipt
        (S.is_of (S.told shelf).place) S.Receipt.number S.Receipt.image)
        (S.refuses (S.told shelf).place) S.honest prepared.now.start prepared.now.logs.items form
        bails (I.remaining input) e (S.told shelf) (S.told result.1)
        (O.contents out.old) (O.contents out.new)) }
{
    match workers {
        Some(workers) => converse_beside(
            rt,
            alloc,
            shelf,
            prepared,
            form,
            bails,
            workers,
            Some(reasons),
            input,
            out,
        ),
        None => converse(
            rt,
            alloc,
            shelf,
            prepared,
            form,
            bails,
            Some(reasons),
            input,
            out,
        ),
    }
}

/// Opens or begins the database of the folder at a path, and replies to the lines of the input.
fn talk_at<C, P, R, I, O>(
    rt: &R,
    paths: &P,
    path: &str,
    options: IngestOptions,
    workers: Option<usize>,
    bails: bool,
    input: I,
    reasons: &Reasons,
    out: &mut O,
) -> Result<(), ShellFault>
where
    C: FolderCalls + Send + Sync,
    C::Mark: Send + Sync,
    P: Paths<C>,
    R: Threads + Wait + Sync,
    I: Read + Drop,
    O: Write,
    ensures done { OnOk result (ConversesAt C.FolderCalls path.now options workers bails
        (I.remaining input) (O.contents out.old) (O.contents out.new)) }
    ensures refused { OnErr result (FailsToConverse C.FolderCalls C.Mark.Mark path.now options
        workers bails (I.remaining input) (O.contents out.old) (O.contents out.new)) }
{
    let mut folder = open_at(paths, path, reasons)?;
    let prepared = match prepare(rt, paths.alloc(), &mut folder, options) {
        Ok(prepared) => prepared,
        Err(fault) => return Err(ShellFault::of_writer(fault)),
    };
    let shelf = FileShelf::over(folder);
    let (done, _shelf) = converse_with(
        rt,
        paths.alloc(),
        shelf,
        &prepared,
        options.form,
        workers,
        bails,
        reasons,
        input,
        out,
    );
    done
}

/// Opens the database of the folder at a path to read, and replies to the lines of the input.
fn read_at<C, P, R, I, O, E>(
    rt: &R,
    paths: &P,
    path: &str,
    form: Form,
    bails: bool,
    input: I,
    reasons: &Reasons,
    out: &mut O,
    err: &mut E,
) -> Result<(), ShellFault>
where
    C: FolderCalls + Send + Sync,
    C::Mark: Send + Sync,
    P: Paths<C>,
    R: Wait,
    I: Read + Drop,
    O: Write,
    E: Write,
    ensures done { OnOk result (ReadsAt C.FolderCalls path.now form bails (I.remaining input)
        (O.contents out.old) (O.contents out.new)) }
    ensures refused { OnErr result (FailsToRead C.FolderCalls C.Mark.Mark path.now form bails
        (I.remaining input) (O.contents out.old) (O.contents out.new)) }
{
    let mut folder = open_at(paths, path, reasons)?;
    let beside = look_beside(rt, paths.alloc(), &mut folder)?;

    // That a file was not there to be locked, or is gone, is no reason of a later refusal.
    reasons.forget();
    let shelf = FileShelf::over(folder);
    let (done, _shelf) = converse_to_read(
        rt,
        paths.alloc(),
        shelf,
        &beside,
        form,
        bails,
        Some(reasons),
        input,
        out,
        err,
    );
    done
}

/// Replies to the lines of the input, by a database that is only read where that is asked for.
#[tactic(auto, using(crate::proofs::RunLaws::talks_reading, crate::proofs::RunLaws::talks_writing, crate::proofs::RunLaws::fails_reading, crate::proofs::RunLaws::fails_writing, lsm_directory::proofs::CallerLemmas::keeps_same))]
fn talk_as_asked<C, P, R, I, O, E>(
    rt: &R,
    paths: &P,
    path: &str,
    options: IngestOptions,
    workers: Option<usize>,
    bails: bool,
    reads_only: bool,
    input: I,
    reasons: &Reasons,
    out: &mut O,
    err: &mut E,
) -> Result<(), ShellFault>
where
    C: FolderCalls + Send + Sync,
    C::Mark: Send + Sync,
    P: Paths<C>,
    R: Threads + Wait + Sync,
    I: Read + Drop,
    O: Write,
    E: Write,
    ensures done { OnOk result (TalksAt C.FolderCalls path.now options workers bails reads_only
        (I.remaining input) (O.contents out.old) (O.contents out.new)) }
    ensures refused { OnErr result (FailsToTalk C.FolderCalls C.Mark.Mark path.now options
        workers bails reads_only (I.remaining input)
        (O.contents out.old) (O.contents out.new)) }
    ensures quiet { IsFalse reads_only → Keeps (E.contents err.old) (E.contents err.new) }
{
    if reads_only {
        let form = options.form;
        return read_at(rt, paths, path, form, bails, input, reasons, out, err);
    }
    talk_at(
        rt, paths, path, options, workers, bails, input, reasons, out,
    )
}

/// Opens the database of the folder at a path under its lock, or begins one, as `ingest` does, and
/// replies to the lines of the input, each a command, up to `quit` or to the end, or if it bails to
/// the first one that is bad or refused. So many workers compact beside as long as that goes on, or
/// none.
///
/// Where the folder is only read, its lock is held as by others who read, the database that is
/// there is opened, and nothing is written there: each line that would write is refused. There are
/// no workers then. A log that is not flushed, and whatever else is not read, is noted on `err`.
///
/// Answers the exit status: 0 where each line was done, and 1 where one was bad or refused, a batch
/// is open at the end, the folder is not opened, the input can't be read, a reply can't be written,
/// or a worker ended early. A fault is one line on `err`, and may have more behind it that say what
/// it means.
#[tactic(auto, using(crate::proofs::RunLaws::fails_early, lsm_directory::proofs::CallerLemmas::keeps_same, lsm_directory::proofs::CallerLemmas::keeps_then))]
pub fn run_shell<C, P, R, I, O, E>(
    rt: &R,
    paths: &P,
    path: &str,
    options: IngestOptions,
    workers: Option<usize>,
    bails: bool,
    reads_only: bool,
    input: I,
    out: &mut O,
    err: &mut E,
) -> u8
where
    C: FolderCalls + Send + Sync,
    C::Mark: Send + Sync,
    P: Paths<C>,
    R: Threads + Wait + Sync,
    I: Read + Drop,
    O: Write,
    E: Write,
    ensures done { result ≡ 0 → TalksAt C.FolderCalls path.now options workers bails reads_only
        (I.remaining input) (O.contents out.old) (O.contents out.new) }
    ensures refused { result ≢ 0 → (result ≡ 1) × FailsToTalk C.FolderCalls C.Mark.Mark
        path.now options workers bails reads_only (I.remaining input)
        (O.contents out.old) (O.contents out.new) }
    ensures quiet { IsFalse reads_only → result ≡ 0
        → Keeps (E.contents err.old) (E.contents err.new) }
{
    let reasons = match Reasons::new(paths.alloc()) {
        Ok(reasons) => reasons,
        Err(fault) => return refuse(ShellFault::from(CompactFault::from(fault)), err),
    };
    let done = talk_as_asked(
        rt, paths, path, options, workers, bails, reads_only, input, &reasons, out, err,
    );
    status_of(done, Known::answered(Some(&reasons)), err)
}
