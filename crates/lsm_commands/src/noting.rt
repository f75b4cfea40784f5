//! What is noted of a folder that is written, before the command.

ghost use Rattle.std.specs.Prelude.{◌≡◌, ◌≢◌, ◌↔◌, ◌++◌, IfErr, IfOk, IsTrue, OnErr, OnOk};
ghost use Rattle.std.specs.Prelude.{option_map};
ghost use Rattle.std.specs.Io.KnownBytes.{Appends, Keeps};
ghost use Rattle.lsm_text.specs.Printing.{Begins};
ghost use Rattle.lsm_directory.specs.Beside.{IsFirstLeftOut, IsWhole, LooksBeside};
ghost use Rattle.lsm_directory.specs.Folders.{IsShelfAt};
ghost use Rattle.lsm_directory.specs.Holding.{IsFolderFault};
ghost use Rattle.lsm_directory.specs.declared.faults.directory_fault.DirectoryFault.{DirectoryFault};
ghost use Rattle.lsm_commands.specs.Noting.{Counts, IsNew, IsNoted, IsNotedAt, IsRefused};
ghost use Rattle.lsm_commands.specs.Noting.{IsRefusedAt, IsSeenAt, IsUnseenAt, noted_by, noted_by_shell, notes};
ghost use Rattle.lsm_commands.specs.Noting.{rest_text};

use lsm_admission::recover_manifest;
use lsm_directory::{
    Beside, DirectoryFault, NamedManifest, OutputFault, Paths, look_beside, open_at, push_beside,
    push_rest, refuse, refuse_beside, write_output,
};
use lsm_folder::{FolderCalls, Reasons};
use lsm_grammar::{Request, ShellLine};
use lsm_journal::{ManifestLimit, RecoverFault, Recovered};
use lsm_shelf::ShelfFault;
use lsm_storage::FileShelf;
use std::alloc::{AllocError, Global};
use std::io::Write;
use std::sync::Wait;

/// The folder that is looked at before a shell. One that only reads notes itself, so that is left to
/// it unless what it would note is to be refused: then logs count too.
fn noted_by_shell<'a>(line: &ShellLine<'a>, strict: bool) -> Option<(&'a str, bool)>
    ensures { option_map (λ r. (r.0.now, r.1)) result ≡ noted_by_shell line.now strict }
{
    if !line.reads_only {
        return Some((line.path, false));
    }
    if strict {
        return Some((line.path, true));
    }
    None
}

/// The folder that is looked at before a request: that of a command which writes in a database; and
/// whether logs count there, of which such a command says itself what it does.
fn noted_by<'a>(request: &Request<'a>, strict: bool) -> Option<(&'a str, bool)>
    ensures { option_map (λ r. (r.0.now, r.1)) result ≡ noted_by request.now strict }
{
    match request {
        Request::Write(line) => Some((line.path, false)),
        Request::Load(line) => Some((line.path, false)),
        Request::Recover(line) => Some((line.path, false)),
        Request::Compact(line) => Some((line.path, false)),
        Request::Shell(line) => noted_by_shell(line, strict),
        _ => None,
    }
}

/// Opens the folder at a path, and looks at it: a shelf on it, and what `look_beside` finds there.
fn open_to_see<C: FolderCalls, P: Paths<C>, R: Wait>(
    rt: &R,
    paths: &P,
    path: &str,
    reasons: &Reasons,
) -> Result<(FileShelf<C>, Beside), DirectoryFault>
    ensures found { IfOk result (λ o. IsShelfAt C.FolderCalls path.now (LooksBeside o.1) o.0) }
    ensures fault { IfErr result IsFolderFault }
{
    let mut folder = open_at(paths, path, reasons)?;
    let beside = look_beside(rt, paths.alloc(), &mut folder)?;
    Ok((FileShelf::over(folder), beside))
}

/// What counts of what lies beside the tables, with the logs or without them.
fn counted(alloc: Global, seen: Beside, logs: bool) -> Beside
    ensures { Counts logs seen result }
{
    if logs {
        return seen;
    }
    Beside {
        logs: Vec::new(alloc),
        manifest: seen.manifest,
        rocksdb: seen.rocksdb,
    }
}

/// The manifest that was read, by its numbers and its end.
fn named(recovered: &Recovered) -> NamedManifest
    ensures number { result.number ≡ recovered.now.journal.number }
    ensures rest { result.rest ≡ recovered.now.rest }
    ensures log { result.log ≡ recovered.now.journal.log }
    ensures previous { result.prev_log ≡ recovered.now.journal.prev_log }
{
    NamedManifest {
        number: recovered.journal.number(),
        rest: recovered.rest,
        log: recovered.journal.log(),
        prev_log: recovered.journal.prev_log(),
    }
}

/// Looks at the folder at a path, and reads its manifest. Its lock is shared meanwhile, and let go.
///
/// `Locked` where another has it alone; `Manifest` of the refusals of `recover_manifest`; `Shelf`
/// of a folder that is not opened or not looked at.
fn see<C: FolderCalls + Send + Sync, P: Paths<C>, R: Wait>(
    rt: &R,
    paths: &P,
    path: &str,
    logs: bool,
    reasons: &Reasons,
) -> Result<(NamedManifest, Beside), DirectoryFault>
where
    C::Mark: Send + Sync,
    ensures seen { IfOk result (λ r. IsSeenAt C.FolderCalls path.now logs r.0 r.1) }
    ensures unseen { IfErr result (IsUnseenAt C.FolderCalls path.now) }
{
    let (shelf, beside) = open_to_see(rt, paths, path, reasons)?;
    // A journal that nothing is sent through has no use for its limit.
    let (found, _shelf) = recover_manifest(rt, paths.alloc(), shelf, ManifestLimit::none());
    match found {
        Ok(found) => Ok((named(&found), counted(paths.alloc(), beside, logs))),
        Err(fault) => Err(DirectoryFault::Manifest(fault)),
    }
}

/// Appends the note of so many bytes at the manifest's end, where there are any.
fn push_end(out: &mut Vec<u8>, rest: u64) -> Result<(), AllocError>
    ensures { OnOk result (out.new.items ≡ out.old.items ++ rest_text rest) }
{
    if rest > 0 {
        push_rest(out, rest)?;
    }
    Ok(())
}

/// The notes of a manifest and of what lies beside the tables.
fn notes(alloc: Global, manifest: NamedManifest, beside: &Beside) -> Result<Vec<u8>, AllocError>
    ensures { IfOk result (λ text. text.items ≡ notes manifest beside.now) }
{
    let mut text = Vec::new(alloc);
    push_end(&mut text, manifest.rest)?;
    push_beside(alloc, &mut text, manifest.number, beside)?;
    Ok(text)
}

/// Writes these notes. A beginning of them was written where memory ran out, or a write failed.
#[tactic(auto, using(crate::proofs::NoteLaws::none_begun))]
fn write_notes<E: Write>(
    alloc: Global,
    manifest: NamedManifest,
    beside: &Beside,
    err: &mut E,
) -> Result<(), OutputFault>
    ensures written { OnOk result
        (Appends (E.contents err.old) (E.contents err.new) (notes manifest beside.now)) }
    ensures begun { OnErr result
        (Begins (E.contents err.old) (E.contents err.new) (notes manifest beside.now)) }
{
    match notes(alloc, manifest, beside) {
        Ok(text) => write_output(err, text.as_slice()),
        Err(_) => Err(OutputFault),
    }
}

/// Notes what is not read of a folder that was seen, or is refused by that, and answers the exit
/// status. A note that can't be written is left out.
#[tactic(auto, using(crate::proofs::NoteLaws::begun_at_least))]
fn note_seen<E: Write>(
    alloc: Global,
    manifest: NamedManifest,
    beside: &Beside,
    strict: bool,
    err: &mut E,
) -> u8
    ensures whole { result ≡ 0 → IsTrue strict → IsWhole manifest beside.now }
    ensures noted { result ≡ 0
        → Begins (E.contents err.old) (E.contents err.new) (notes manifest beside.now) }
    ensures refused { result ≢ 0 → (result ≡ 1) × IsTrue strict
        × ((fault : DirectoryFault) × IsFirstLeftOut manifest beside.now fault) }
{
    if let Err(fault) = refuse_beside(strict, manifest, beside) {
        return refuse(fault, err);
    }
    let _ = write_notes(alloc, manifest, beside, err);
    0
}

/// Whether a folder that was not seen has no database: the manifest that `CURRENT` names is not
/// there.
fn is_new(fault: &DirectoryFault) -> bool
    ensures { IsTrue result ↔ IsNew fault.now }
{
    match fault {
        DirectoryFault::Manifest(RecoverFault::Shelf(ShelfFault::Missing)) => true,
        _ => false,
    }
}

/// Answers the exit status where a folder was not seen: 0, or where it is strict and there is a
/// database the refusal's.
fn note_unseen<E: Write>(fault: DirectoryFault, strict: bool, err: &mut E) -> u8
    ensures left { result ≡ 0 → (IsTrue strict → IsNew fault)
        × Keeps (E.contents err.old) (E.contents err.new) }
    ensures refused { result ≢ 0 → (result ≡ 1) × IsTrue strict × (IsNew fault → ⊥) }
{
    if strict && !is_new(&fault) {
        return refuse(fault, err);
    }
    0
}

/// Notes what is not read of the folder at a path, or is refused by that, and answers the exit
/// status.
fn note_at<C: FolderCalls + Send + Sync, P: Paths<C>, R: Wait, E: Write>(
    rt: &R,
    paths: &P,
    path: &str,
    logs: bool,
    strict: bool,
    err: &mut E,
) -> u8
where
    C::Mark: Send + Sync,
    ensures done { result ≡ 0 → IsNotedAt C.FolderCalls path.now logs strict
        (E.contents err.old) (E.contents err.new) }
    ensures refused { result ≢ 0
        → (result ≡ 1) × IsRefusedAt C.FolderCalls path.now logs strict }
{
    let Ok(reasons) = Reasons::new(paths.alloc()) else {
        return note_unseen(DirectoryFault::OutOfMemory, strict, err);
    };
    match see(rt, paths, path, logs, &reasons) {
        Ok(seen) => note_seen(paths.alloc(), seen.0, &seen.1, strict, err),
        Err(fault) => note_unseen(fault, strict, err),
    }
}

/// Notes on `err` what a command that writes leaves unread in its folder: bytes at the manifest's
/// end that hold no whole record, a manifest that is later than the one that `CURRENT` names, and
/// files of RocksDB; and answers the exit status, 0. Where it is strict the first of these is
/// refused: then the status is 1, and the command is not to be done. The folder is only read, and
/// its lock let go: in between another program may change it.
///
/// Nothing is noted where the folder is not opened, another has its lock, or its manifest is not
/// read. Where it is strict that is refused, unless there is no database.
pub(crate) fn note<C: FolderCalls + Send + Sync, P: Paths<C>, R: Wait, E: Write>(
    rt: &R,
    paths: &P,
    request: &Request<'_>,
    strict: bool,
    err: &mut E,
) -> u8
where
    C::Mark: Send + Sync,
    ensures done { result ≡ 0 → IsNoted C.FolderCalls (noted_by request.now strict) strict
        (E.contents err.old) (E.contents err.new) }
    ensures refused { result ≢ 0
        → (result ≡ 1) × IsRefused C.FolderCalls (noted_by request.now strict) strict }
{
    match noted_by(request, strict) {
        Some((path, logs)) => note_at(rt, paths, path, logs, strict, err),
        None => 0,
    }
}
