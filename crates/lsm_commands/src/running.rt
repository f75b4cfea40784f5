//! One run of the program: what its words ask is done, and the exit status is answered.

ghost use Rattle.std.specs.Prelude.{◌≡◌, ◌≢◌, ◌≤◌, ◌⊎◌, false, map, option_map, true};
ghost use Rattle.std.specs.Io.KnownBytes.{Appends, Keeps};
ghost use Rattle.std.specs.IoError.{error_kind};
ghost use Rattle.lsm_text.specs.Printing.{Begins};
ghost use Rattle.lsm_folder.specs.Calls.{AreHonest};
ghost use Rattle.lsm_commands.specs.Compared.{AreCompared};
ghost use Rattle.lsm_commands.specs.Run.{AreFollowed, AreHelped, AreUnfollowed, AreUnhelped};
ghost use Rattle.lsm_commands.specs.Run.{AreUsageFault, ComesBefore, IsDone, IsFollowed, IsUndone};
ghost use Rattle.lsm_commands.specs.Run.{IsUnfollowed, IsUnwritten, IsWritten, StaysBefore};
ghost use Rattle.lsm_commands.specs.Run.{opened_by};
ghost use Rattle.lsm_requests.specs.Inputs.{text_in};

use crate::noting::note;
use crate::waiting::awaited;
use lsm_cmd_bench::run_bench;
use lsm_cmd_compact::run_compact;
use lsm_cmd_convert::{run_convert, run_script};
use lsm_cmd_import::run_import;
use lsm_cmd_levels::run_levels;
use lsm_cmd_load::run_load;
use lsm_cmd_read::run_look;
use lsm_cmd_recover::{recover_first, run_recover};
use lsm_cmd_repair::run_repair;
use lsm_cmd_shell::run_shell;
use lsm_cmd_write::{run_clean, run_ingest, run_write};
use lsm_directory::{Known, Paths, refuse, status_of};
use lsm_folder::{FindingCalls, FolderCalls};
use lsm_grammar::{CommandLine, Manner, Request, WritingCommand, WritingLine, read_line};
use lsm_text::{Fault, write_output};
use std::convert::AsStr;
use std::io::{self, ErrorKind, Read, Write};
use std::rt::Clock;
use std::sync::Wait;
use std::thread::Threads;

/// Writes help on `out`, and answers the exit status: 0, or 1 where it can't be written.
fn show_help<O: Write, E: Write>(text: &[u8], out: &mut O, err: &mut E) -> u8
    ensures done { result ≡ 0 → Appends (O.contents out.old) (O.contents out.new) text.now }
    ensures refused { result ≢ 0
        → (result ≡ 1) × Begins (O.contents out.old) (O.contents out.new) text.now }
    ensures quiet { result ≡ 0 → Keeps (E.contents err.old) (E.contents err.new) }
{
    let done = write_output(out, text);
    status_of(done, Known::answered(None), err)
}

/// Writes on `err` what is wrong with a command line, and answers the exit status, 2.
fn refuse_line<E: Write>(text: &[u8], err: &mut E) -> u8
    ensures { result ≡ 2 }
{
    let _ = write_output(err, text);
    2
}

/// What is answered where the words could not be had: 2 where one is no UTF-8, and 1 for want of
/// memory.
pub fn refuse_words<E: Write>(error: &io::Error, err: &mut E) -> u8
    ensures memory { error_kind error.now ≡ ErrorKind.OutOfMemory → result ≡ 1 }
    ensures other { error_kind error.now ≢ ErrorKind.OutOfMemory → result ≡ 2 }
{
    let (status, text) = if error.kind() == ErrorKind::OutOfMemory {
        (1, b"refused 1 OutOfMemory\n".as_slice())
    } else {
        (
            2,
            b"error: a word of the command line is not UTF-8\na byte of a key is spelled in hex, or with --text as `\\xNN`\n".as_slice(),
        )
    };
    let _ = write_output(err, text);
    status
}

/// Does what a line asks of a folder that is written, and answers the exit status.
fn run_writing<C, P, R, I, O, E>(
    rt: &R,
    paths: &P,
    line: &WritingLine<'_>,
    input: &mut I,
    out: &mut O,
    err: &mut E,
) -> u8
where
    C: FindingCalls + Send + Sync,
    C::Mark: Send + Sync,
    P: Paths<C>,
    R: Wait,
    I: Read,
    O: Write,
    E: Write,
    ensures done { result ≡ 0 → IsWritten C.FolderCalls C.holds
        (text_in (I.remaining input.old) (P.text paths.now)) line.now.path.now line.now.command
        (O.contents out.old) (O.contents out.new) }
    ensures refused { result ≢ 0 → (result ≡ 1) × IsUnwritten C.FolderCalls C.Mark.Mark C.holds
        (text_in (I.remaining input.old) (P.text paths.now)) line.now.path.now line.now.command
        (O.contents out.old) (O.contents out.new) }
    ensures quiet { result ≡ 0 → Keeps (E.contents err.old) (E.contents err.new) }
{
    match &line.command {
        WritingCommand::Ingest(found, options) => {
            run_ingest(rt, paths, line.path, *options, *found, input, out, err)
        }
        WritingCommand::WriteKey(write, options) => {
            run_write(rt, paths, line.path, *options, write, out, err)
        }
        WritingCommand::Clean(options) => run_clean(rt, paths, line.path, *options, out, err),
    }
}

/// Does what a request asks, and answers the exit status.
fn obey<C, P, R, I, O, E>(
    rt: &R,
    paths: &P,
    request: &Request<'_>,
    input: I,
    out: &mut O,
    err: &mut E,
) -> u8
where
    C: FindingCalls + Send + Sync,
    C::Mark: Send + Sync,
    P: Paths<C>,
    R: Threads + Wait + Clock + Sync,
    I: Read + Drop,
    O: Write,
    E: Write + Send,
    ensures done { result ≡ 0 → IsDone C.FolderCalls C.Mark.Mark C.holds
        (text_in (I.remaining input) (P.text paths.now)) request.now (O.contents out.old)
        (O.contents out.new) (E.contents err.old) (E.contents err.new) }
    ensures refused { result ≢ 0 → (result ≡ 1) × IsUndone C.FolderCalls C.Mark.Mark C.holds
        (text_in (I.remaining input) (P.text paths.now)) request.now (O.contents out.old)
        (O.contents out.new) }
{
    let mut input = input;
    match request {
        Request::Convert(conversion, found) => {
            run_convert(paths, *conversion, *found, &mut input, out, err)
        }
        Request::Look(line) => run_look(rt, paths, line, out, err),
        Request::Levels(line) => run_levels(rt, paths, line, out, err),
        Request::Write(line) => run_writing(rt, paths, line, &mut input, out, err),
        Request::Load(line) => run_load(rt, paths, line, input, out, err),
        Request::Import(line) => run_import(rt, paths, line, line.to_first_fault, out, err),
        Request::Recover(line) => {
            run_recover(rt, paths, line.path, line.to_first_fault, out, err)
        }
        Request::Repair(path) => run_repair(rt, paths, path, out, err),
        Request::Compact(line) => run_compact(rt, paths, line, out, err),
        Request::Script(found) => run_script(rt, paths, *found, input, out, err),
        Request::Shell(line) => run_shell(
            rt,
            paths,
            line.path,
            line.options,
            line.workers,
            line.bails,
            line.reads_only,
            input,
            out,
            err,
        ),
        Request::Bench(line) => run_bench(rt, paths, line.path, &line.options, out, err),
    }
}

/// The folder that a request opens or begins a database in, and whether one may be begun there also
/// where `CURRENT` was lost.
fn opened_by<'a>(request: &Request<'a>) -> Option<(&'a str, bool)>
    ensures { option_map (λ r. (r.0.now, r.1)) result ≡ opened_by request.now }
{
    match request {
        Request::Write(line) => match &line.command {
            WritingCommand::Ingest(_, options) => Some((line.path, options.begins)),
            WritingCommand::WriteKey(_, options) => Some((line.path, options.begins)),
            WritingCommand::Clean(_) => None,
        },
        Request::Load(line) => Some((line.path, line.options.ingest.begins)),
        Request::Shell(line) => Some((line.path, line.options.begins)),
        _ => None,
    }
}

/// Brings the logs of the folder of a request in where that is asked for, and answers the exit
/// status.
fn bring_logs<C, P, R, E>(
    rt: &R,
    paths: &P,
    request: &Request<'_>,
    recovers: bool,
    err: &mut E,
) -> u8
where
    C: FolderCalls + Send + Sync,
    C::Mark: Send + Sync,
    P: Paths<C>,
    R: Wait,
    E: Write,
    ensures done { result ≡ 0 → recovers ≡ true
        → ComesBefore C.FolderCalls C.Mark.Mark (opened_by request.now) }
    ensures refused { result ≢ 0 → (result ≡ 1) × (recovers ≡ true)
        × StaysBefore C.FolderCalls C.Mark.Mark (opened_by request.now) }
    ensures quiet { result ≡ 0 → Keeps (E.contents err.old) (E.contents err.new) }
{
    if !recovers {
        return 0;
    }
    match opened_by(request) {
        Some((path, begins)) => recover_first(rt, paths, path, begins, false, err),
        None => 0,
    }
}

/// Does what a request asks, behind the logs of its folder where they are to come in first, and
/// answers the exit status. Before that the lock of its folder is waited for, where that is asked
/// for, and let go, and then what is not read there is noted: in between another program may take
/// the lock.
fn follow<C, P, R, I, O, E>(
    rt: &R,
    paths: &P,
    request: &Request<'_>,
    manner: Manner,
    input: I,
    out: &mut O,
    err: &mut E,
) -> u8
where
    C: FindingCalls + Send + Sync,
    C::Mark: Send + Sync,
    P: Paths<C>,
    R: Threads + Wait + Clock + Sync,
    I: Read + Drop,
    O: Write,
    E: Write + Send,
    ensures done { result ≡ 0 → IsFollowed C.FolderCalls C.Mark.Mark C.holds
        (text_in (I.remaining input) (P.text paths.now)) request.now manner (O.contents out.old)
        (O.contents out.new) (E.contents err.old) (E.contents err.new) }
    ensures refused { result ≢ 0 → (result ≡ 1) × IsUnfollowed C.FolderCalls C.Mark.Mark C.holds
        (text_in (I.remaining input) (P.text paths.now)) request.now manner (O.contents out.old)
        (O.contents out.new) }
{
    if let Some(seconds) = manner.waits {
        drop(awaited(rt, paths, request, seconds));
    }
    let noted = note(rt, paths, request, manner.strict, err);
    if noted != 0 {
        return noted;
    }
    let first = bring_logs(rt, paths, request, manner.recovers, err);
    if first != 0 {
        return first;
    }
    obey(rt, paths, request, input, out, err)
}

/// Does what words ask, those behind the program's name, and answers the exit status: 0 where it is
/// done, 1 where it is refused, and 2 where the words ask for nothing. Files and folders are those
/// of `paths`; with `--compare` those of `compared`, which are to be honest.
pub fn run<C, D, P, Q, R, S, I, O, E>(
    rt: &R,
    paths: &P,
    compared: &Q,
    words: &[S],
    input: I,
    out: &mut O,
    err: &mut E,
) -> u8
where
    C: FindingCalls + Send + Sync,
    C::Mark: Send + Sync,
    D: FindingCalls + Send + Sync,
    D::Mark: Send + Sync,
    P: Paths<C>,
    Q: Paths<D>,
    R: Threads + Wait + Clock + Sync,
    S: AsStr,
    I: Read + Drop,
    O: Write,
    E: Write + Send,
    requires honest { AreHonest D.FolderCalls.calls }
    ensures done { result ≡ 0 →
        AreFollowed C.FolderCalls C.Mark.Mark C.holds false
        (text_in (I.remaining input) (P.text paths.now)) (map S.text words.now)
        (O.contents out.old) (O.contents out.new) (E.contents err.old) (E.contents err.new)
        ⊎ (AreCompared D.FolderCalls D.Mark.Mark D.holds
        (text_in (I.remaining input) (Q.text compared.now)) (map S.text words.now)
        (O.contents out.old) (O.contents out.new) (E.contents err.old) (E.contents err.new)
        ⊎ AreHelped (map S.text words.now) (O.contents out.old) (O.contents out.new)
        (E.contents err.old) (E.contents err.new)) }
    ensures refused { result ≡ 1 →
        AreUnfollowed C.FolderCalls C.Mark.Mark C.holds false
        (text_in (I.remaining input) (P.text paths.now)) (map S.text words.now)
        (O.contents out.old) (O.contents out.new)
        ⊎ (AreUnfollowed D.FolderCalls D.Mark.Mark D.holds true
        (text_in (I.remaining input) (Q.text compared.now)) (map S.text words.now)
        (O.contents out.old) (O.contents out.new)
        ⊎ AreUnhelped (map S.text words.now) (O.contents out.old) (O.contents out.new)) }
    ensures usage { result ≡ 2
        → AreUsageFault (map S.text words.now) (O.contents out.old) (O.contents out.new) }
    ensures status { result ≤ 2 }
{
    match read_line(paths.alloc(), words) {
        Ok(CommandLine::Run(request, manner)) => {
            if manner.compares {
                follow(rt, compared, &request, manner, input, out, err)
            } else {
                follow(rt, paths, &request, manner, input, out, err)
            }
        }
        Ok(CommandLine::Help(text)) => show_help(&text, out, err),
        Ok(CommandLine::Bad(text)) => refuse_line(&text, err),
        Err(_) => refuse(Fault::OutOfMemory, err),
    }
}
