//! Notes on standard error of what is not read: a manifest's end that is no whole record, a later
//! manifest, files of RocksDB, and logs.

ghost use Rattle.std.specs.Prelude.{◌≡◌, [], OnOk};
ghost use Rattle.std.specs.Io.KnownBytes.{Appends, Keeps};
ghost use Rattle.lsm_cmd_read.specs.Answers.{AppendsRest, HasNoNote, WritesNotes};
ghost use Rattle.lsm_directory.specs.Beside.{IsPlain};
ghost use Rattle.lsm_directory.specs.Logs.{NoneUnread};

use lsm_directory::{
    Beside, FolderFile, NamedManifest, Wording, first_unread, push_beside, push_logs, push_rest,
};
use lsm_requests::DirectoryCommand;
use std::alloc::{AllocError, Global};
use std::io::{self, Write};

/// Appends the note of so many bytes at the manifest's end, where there are any.
fn push_note(out: &mut Vec<u8>, rest: u64) -> Result<(), AllocError>
    ensures { OnOk result (AppendsRest rest out.old.items out.new.items) }
{
    if rest == 0 {
        return Ok(());
    }
    push_rest(out, rest)
}

/// Writes these lines, if there are any.
fn write_lines<E: Write>(lines: &[u8], err: &mut E) -> io::Result<()>
    ensures written { OnOk result (Appends (E.contents err.old) (E.contents err.new) lines.now) }
    ensures quiet { lines.now ≡ [] → Keeps (E.contents err.old) (E.contents err.new) }
{
    if lines.is_empty() {
        return Ok(());
    }
    err.write_all(lines)?;
    err.flush()
}

/// Writes the notes of the manifest's end, of a later manifest and of files of RocksDB, and one for
/// each of these logs that is not read, in the order of the files.
#[tactic(auto, using(crate::proofs::NoteLaws::none_noted, crate::proofs::NoteLaws::notes_written))]
fn write_notes<E: Write>(
    alloc: Global,
    manifest: NamedManifest,
    beside: &Beside,
    logs: &[FolderFile],
    err: &mut E,
) -> io::Result<()>
    ensures written { OnOk result
        (WritesNotes manifest beside.now logs.now (E.contents err.old) (E.contents err.new)) }
    ensures quiet { IsPlain manifest.number beside.now → manifest.rest ≡ 0
        → NoneUnread manifest.log manifest.prev_log logs.now
        → Keeps (E.contents err.old) (E.contents err.new) }
{
    let mut text = Vec::new(alloc);
    push_note(&mut text, manifest.rest)?;
    push_beside(alloc, &mut text, manifest.number, beside)?;
    push_logs(
        &mut text,
        Wording::Noted,
        logs,
        manifest.log,
        manifest.prev_log,
    )?;
    write_lines(text.as_slice(), err)
}

/// Writes by what the logs among these are read that are not, where there are any.
#[tactic(auto, using(crate::proofs::NoteLaws::none_is_first))]
fn write_cure<E: Write>(manifest: NamedManifest, logs: &[FolderFile], err: &mut E) -> io::Result<()>
    ensures quiet { NoneUnread manifest.log manifest.prev_log logs.now
        → Keeps (E.contents err.old) (E.contents err.new) }
{
    match first_unread(logs, manifest.log, manifest.prev_log) {
        Some(_) => write_lines(b"note: --logs reads what stands there\n", err),
        None => Ok(()),
    }
}

/// Writes the same notes, with each log among these files, and by what it is read.
fn write_logs<E: Write>(
    alloc: Global,
    manifest: NamedManifest,
    beside: &Beside,
    err: &mut E,
) -> io::Result<()>
    ensures quiet { IsPlain manifest.number beside.now → manifest.rest ≡ 0
        → NoneUnread manifest.log manifest.prev_log beside.now.logs.items
        → Keeps (E.contents err.old) (E.contents err.new) }
{
    write_notes(alloc, manifest, beside, &beside.logs, err)?;
    write_cure(manifest, &beside.logs, err)
}

/// Writes the note of so many bytes that are left out at the ends of the manifest and of logs.
fn write_ends<E: Write>(rest: u64, err: &mut E) -> io::Result<()> {
    writeln!(
        err,
        "note: {rest} bytes at the ends of the manifest and the logs hold no whole record, and are not read"
    )?;
    err.flush()
}

/// Notes so many bytes that are left out at the ends of the manifest and of logs, where there are
/// any. What can't be written is left out.
#[tactic(auto, using(lsm_directory::proofs::CallerLemmas::keeps_same))]
pub(crate) fn tell_ends<E: Write>(rest: u64, err: &mut E)
    ensures quiet { rest ≡ 0 → Keeps (E.contents err.old) (E.contents err.new) }
{
    if rest > 0 {
        let _ = write_ends(rest, err);
    }
}

/// Notes what is not read, and each log where a command does not print it: only a check does. What
/// can't be written is left out.
#[tactic(auto, using(crate::proofs::NoteLaws::no_files))]
pub(crate) fn tell_notes<E: Write>(
    alloc: Global,
    command: &DirectoryCommand,
    manifest: NamedManifest,
    beside: &Beside,
    err: &mut E,
)
    ensures quiet { HasNoNote command.now manifest beside.now
        → Keeps (E.contents err.old) (E.contents err.new) }
{
    match command {
        DirectoryCommand::Check(_) => {
            let _ = write_notes(alloc, manifest, beside, &[], err);
        }
        DirectoryCommand::List | DirectoryCommand::Get(_, _) | DirectoryCommand::Scan(_) => {
            let _ = write_logs(alloc, manifest, beside, err);
        }
    }
}
