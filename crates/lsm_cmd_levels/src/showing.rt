//! What is shown of a folder's manifest.

ghost use Rattle.std.specs.Prelude.{◌≡◌, ◌⊎◌, IfErr, IfOk, IsTrue, OnOk, true};
ghost use Rattle.std.specs.Io.KnownBytes.{Keeps};
ghost use Rattle.lsm_directory.specs.Logs.{NoneUnread};
ghost use Rattle.lsm_directory.specs.Rest.{IsLeftOut, LeavesNothingOut};
ghost use Rattle.lsm_cmd_levels.specs.Layout.{IsGone, IsLaidOut, IsLayoutFault, IsNotNamed};
ghost use Rattle.lsm_cmd_levels.specs.Layout.{IsShown, IsUnshown, Names, ReadsManifest, Shows};
ghost use Rattle.lsm_cmd_levels.specs.Layout.{text_of};

use crate::drawing::{Sheet, picture_text};
use crate::due::{Due, due_next};
use crate::lines::{files_text, levels_text};
use crate::totals::Totals;
use lsm_directory::{
    DirectoryFault, FolderFile, Wording, first_unread, push_logs, push_rest, refuse_left_out,
    write_output,
};
use lsm_journal::{Journal, ManifestLimit, Recovered};
use lsm_manifest::Shape;
use lsm_requests::LevelsOutput;
use lsm_table::{NamedShelf, Naming, Shelf};
use lsm_text::Form;
use std::alloc::{AllocError, Global};
use std::io::{self, Write};
use std::marker::Brand;
use std::sync::Wait;

/// What is shown of a shape, of what is due in it, of so many bytes at its manifest's end, and of
/// totals.
fn text_with(
    alloc: Global,
    form: Form,
    output: LevelsOutput,
    shape: &Shape,
    rest: u64,
    due: Option<Due<'_>>,
    totals: Totals,
) -> Result<Vec<u8>, AllocError>
    ensures { IfOk result (λ text.
        text.items ≡ text_of form output shape.now rest due.entry totals) }
{
    match output {
        LevelsOutput::Levels => levels_text(alloc, shape, rest, due, totals),
        LevelsOutput::Files => files_text(alloc, form, shape, rest, due, totals),
        LevelsOutput::Svg => picture_text(alloc, Sheet { shape, due, form }, rest),
    }
}

/// What is shown of a shape whose manifest has so many bytes at its end that hold no whole record,
/// with the compaction that is due in it, and the sums of it and of a folder's files. `AllocError`
/// where a growth was refused.
#[tactic(auto, using(crate::proofs::ShowLaws::shown_as))]
pub fn text_of(
    alloc: Global,
    form: Form,
    output: LevelsOutput,
    shape: &Shape,
    rest: u64,
    files: &[FolderFile],
) -> Result<Vec<u8>, AllocError>
    ensures { IfOk result (λ text. IsShown form output shape.now rest files.now text.items) }
{
    let due = due_next(shape)?;
    let totals = Totals::of(shape, files)?;
    let text = text_with(alloc, form, output, shape, rest, due, totals)?;
    Ok(text)
}

/// Writes a note of the manifest's end, where that is no whole record, and one for each log that is
/// not read.
fn write_notes<E: Write>(
    alloc: Global,
    files: &[FolderFile],
    recovered: &Recovered,
    err: &mut E,
) -> io::Result<()> {
    let shape = &recovered.shape;
    let mut text = Vec::new(alloc);
    if recovered.rest > 0 {
        push_rest(&mut text, recovered.rest)?;
    }
    push_logs(&mut text, Wording::Noted, files, shape.log, shape.prev_log)?;
    err.write_all(text.as_slice())?;
    err.flush()
}

/// Whether there is anything to note: the manifest's end is no whole record, or a log is not read.
#[tactic(auto, using(crate::proofs::ShowLaws::noted))]
fn has_note(files: &[FolderFile], recovered: &Recovered) -> bool
    ensures { result ≡ true → recovered.now.rest ≡ 0
        → NoneUnread recovered.now.shape.log recovered.now.shape.prev_log files.now → ⊥ }
{
    if recovered.rest > 0 {
        return true;
    }
    let shape = &recovered.shape;
    match first_unread(files, shape.log, shape.prev_log) {
        Some(_) => true,
        None => false,
    }
}

/// Notes the manifest's end, where that is no whole record, and each log that is not read. What
/// can't be written is left out.
fn tell_notes<E: Write>(alloc: Global, files: &[FolderFile], recovered: &Recovered, err: &mut E)
    ensures { recovered.now.rest ≡ 0
        → NoneUnread recovered.now.shape.log recovered.now.shape.prev_log files.now
        → Keeps (E.contents err.old) (E.contents err.new) }
{
    if has_note(files, recovered) {
        let _ = write_notes(alloc, files, recovered, err);
    }
}

/// Writes what is shown of a manifest, and of a folder's files.
#[tactic(auto, using(crate::proofs::ShowLaws::shows_text, crate::proofs::ShowLaws::stops_text))]
fn show<O: Write>(
    alloc: Global,
    form: Form,
    output: LevelsOutput,
    files: &[FolderFile],
    recovered: &Recovered,
    out: &mut O,
) -> Result<(), DirectoryFault>
    ensures shown { OnOk result (Shows form output recovered.now.shape recovered.now.rest files.now
        (O.contents out.old) (O.contents out.new)) }
    ensures fault { IfErr result (λ e. IsUnshown form output recovered.now.shape
        recovered.now.rest files.now e (O.contents out.old) (O.contents out.new)) }
{
    let text = match text_of(alloc, form, output, &recovered.shape, recovered.rest, files) {
        Ok(text) => text,
        Err(_) => return Err(DirectoryFault::OutOfMemory),
    };
    match write_output(out, text.as_slice()) {
        Ok(()) => Ok(()),
        Err(_) => Err(DirectoryFault::Write),
    }
}

/// Reads the manifest that the directory of a shelf names.
fn read_named<N: Naming, S: Shelf, R: Wait>(
    rt: &R,
    alloc: Global,
    shelf: &mut NamedShelf<N, S>,
) -> Result<Recovered, DirectoryFault>
    ensures named { IfOk result (λ r. Names shelf.old shelf.new r.shape r.rest) }
    ensures fault { IfErr result (λ e. IsNotNamed (S.refuses N.place) e shelf.old shelf.new) }
{
    // Nothing is sent through the journal, so it has no use for its limit.
    match Journal::recover(rt, alloc, shelf, ManifestLimit::none()) {
        Ok(recovered) => Ok(recovered),
        Err(fault) => Err(DirectoryFault::Manifest(fault)),
    }
}

/// The same under the name that was picked for the shelf, which is given back.
fn read_as<N: Naming, S: Shelf, R: Wait>(
    rt: &R,
    alloc: Global,
    shelf: S,
) -> (Result<Recovered, DirectoryFault>, S)
    requires shelf { (S.told shelf).place ≡ N.place }
    ensures named { IfOk result.0 (λ r. Names (S.told shelf) (S.told result.1) r.shape r.rest) }
    ensures fault { IfErr result.0 (λ e.
        IsNotNamed (S.refuses N.place) e (S.told shelf) (S.told result.1)) }
{
    let mut shelf: NamedShelf<N, S> = NamedShelf::of(shelf);
    let read = read_named(rt, alloc, &mut shelf);
    (read, shelf.into_shelf())
}

/// Notes on `err` what is not read of a manifest and beside it, or is refused by that, and writes
/// on `out` what is shown.
#[tactic(auto, using(crate::proofs::ShowLaws::not_left_out))]
fn show_noted<O: Write, E: Write>(
    alloc: Global,
    form: Form,
    output: LevelsOutput,
    strict: bool,
    files: &[FolderFile],
    recovered: &Recovered,
    out: &mut O,
    err: &mut E,
) -> Result<(), DirectoryFault>
    ensures whole { OnOk result (IsTrue strict → LeavesNothingOut recovered.now.rest
        recovered.now.shape.log recovered.now.shape.prev_log files.now) }
    ensures shown { OnOk result (Shows form output recovered.now.shape recovered.now.rest files.now
        (O.contents out.old) (O.contents out.new)) }
    ensures fault { IfErr result (λ e. (IsTrue strict × IsLeftOut recovered.now.rest
        recovered.now.shape.log recovered.now.shape.prev_log files.now e
        × Keeps (O.contents out.old) (O.contents out.new))
        ⊎ IsUnshown form output recovered.now.shape recovered.now.rest files.now e
        (O.contents out.old) (O.contents out.new)) }
    ensures quiet { recovered.now.rest ≡ 0
        → NoneUnread recovered.now.shape.log recovered.now.shape.prev_log files.now
        → Keeps (E.contents err.old) (E.contents err.new) }
{
    let shape = &recovered.shape;
    refuse_left_out(strict, recovered.rest, files, shape.log, shape.prev_log)?;
    tell_notes(alloc, files, recovered, err);
    match show(alloc, form, output, files, recovered, out) {
        Ok(()) => Ok(()),
        Err(fault) => Err(fault),
    }
}

/// Reads the manifest that the directory of a shelf names, and writes what is shown of it on
/// `out`, with the sums of these files; notes on `err` what is not read, or where it is strict is
/// refused by that. The shelf is given back.
#[tactic(auto, using(crate::proofs::ShowLaws::laid_out, crate::proofs::ShowLaws::not_shown, crate::proofs::ShowLaws::not_named, crate::proofs::ShowLaws::named_reads, crate::proofs::ShowLaws::fault_reads))]
pub fn lay_out<S: Shelf, R: Wait, O: Write, E: Write>(
    rt: &R,
    alloc: Global,
    shelf: S,
    form: Form,
    output: LevelsOutput,
    strict: bool,
    files: &[FolderFile],
    out: &mut O,
    err: &mut E,
) -> (Result<(), DirectoryFault>, S)
    ensures done { OnOk result.0 (IsLaidOut form output strict files.now (S.told shelf)
        (S.told result.1) (O.contents out.old) (O.contents out.new) (E.contents err.old)
        (E.contents err.new)) }
    ensures fault { IfErr result.0 (λ e. IsLayoutFault (S.refuses (S.told shelf).place) form output
        strict files.now e (S.told shelf) (S.told result.1) (O.contents out.old)
        (O.contents out.new)) }
    ensures reads { ReadsManifest (S.told shelf) (S.told result.1) }
    ensures gone { IfErr result.0 (λ e. IsGone e → Keeps (O.contents out.old) (O.contents out.new)
        × Keeps (E.contents err.old) (E.contents err.new)) }
{
    let (read, shelf) = read_as::<Brand, S, R>(rt, alloc, shelf);
    match read {
        Ok(recovered) => {
            let shown = show_noted(alloc, form, output, strict, files, &recovered, out, err);
            (shown, shelf)
        }
        Err(fault) => (Err(fault), shelf),
    }
}
