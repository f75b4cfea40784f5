//! A conversation with the database on a shelf.

ghost use Rattle.std.specs.Prelude.{◌≡◌, Ok, IfErr, OnOk};
ghost use Rattle.lsm_shelf.specs.Stored.{Stored};
ghost use Rattle.lsm_cmd_shell.specs.Conversing.{Converses, IsConverseFault};
ghost use Rattle.lsm_opening.specs.Parts.{AreOf, usual};

use crate::shell_fault::ShellFault;
use crate::talking::talk;
use lsm_folder::Reasons;
use lsm_lines::LineReader;
use lsm_opening::{NewParts, Prepared, WriterFault, start};
use lsm_script::Desk;
use lsm_slots::Boarded;
use lsm_state::State;
use lsm_table::{NamedShelf, Shelf};
use lsm_text::Form;
use std::alloc::Global;
use std::io::{Read, Write};
use std::marker::Brand;
use std::sync::Wait;

/// Begins or opens the directory of a shelf, and replies to lines.
fn converse_named<N: Boarded, S: Shelf, R: Wait, I: Read + Drop, O: Write>(
    rt: &R,
    alloc: Global,
    shelf: &mut NamedShelf<N, S>,
    prepared: &Prepared,
    parts: NewParts<S>,
    form: Form,
    bails: bool,
    reasons: Option<&Reasons>,
    lines: &mut LineReader<I>,
    out: &mut O,
) -> Result<(), ShellFault>
    requires parts { AreOf usual N.registry N.board N.history parts }
    ensures done { OnOk result (Converses S.honest prepared.now.start prepared.now.logs.items
        form bails lines.old.left (Ok tt) shelf.old shelf.new
        (O.contents out.old) (O.contents out.new)) }
    ensures fault { IfErr result (λ e. IsConverseFault (Stored S.Receipt (S.is_of N.place)
        S.Receipt.number S.Receipt.image) (S.refuses N.place) S.honest prepared.now.start
        prepared.now.logs.items form bails lines.old.left e shelf.old shelf.new
        (O.contents out.old) (O.contents out.new)) }
{
    let mut state: State<N, S> = match start(rt, alloc, shelf, prepared, parts) {
        Ok(state) => state,
        Err(fault) => return Err(ShellFault::of_writer(fault)),
    };
    let mut desk = match Desk::new(alloc, &state) {
        Ok(desk) => desk,
        Err(_) => return Err(ShellFault::of_writer(WriterFault::OutOfMemory)),
    };
    match talk(
        rt, alloc, &mut state, &mut desk, shelf, form, bails, reasons, lines, out,
    ) {
        Ok(()) => Ok(()),
        Err(fault) => Err(ShellFault::of_talk(fault)),
    }
}

/// The same under the name that was picked for the parts and the shelf, which is given back.
fn converse_as<N: Boarded, S: Shelf, R: Wait, I: Read + Drop, O: Write>(
    rt: &R,
    alloc: Global,
    shelf: S,
    prepared: &Prepared,
    parts: NewParts<S>,
    form: Form,
    bails: bool,
    reasons: Option<&Reasons>,
    lines: &mut LineReader<I>,
    out: &mut O,
) -> (Result<(), ShellFault>, S)
    requires parts { AreOf usual N.registry N.board N.history parts }
    requires shelf { (S.told shelf).place ≡ N.place }
    ensures done { OnOk result.0 (Converses S.honest prepared.now.start prepared.now.logs.items
        form bails lines.old.left (Ok tt) (S.told shelf) (S.told result.1)
        (O.contents out.old) (O.contents out.new)) }
    ensures fault { IfErr result.0 (λ e. IsConverseFault (Stored S.Receipt (S.is_of N.place)
        S.Receipt.number S.Receipt.image) (S.refuses N.place) S.honest prepared.now.start
        prepared.now.logs.items form bails lines.old.left e (S.told shelf) (S.told result.1)
        (O.contents out.old) (O.contents out.new)) }
{
    let mut shelf: NamedShelf<N, S> = NamedShelf::of(shelf);
    let done = converse_named(
        rt, alloc, &mut shelf, prepared, parts, form, bails, reasons, lines, out,
    );
    (done, shelf.into_shelf())
}

/// Begins a database on the shelf, or opens the one that is there, as `prepare` found it, and
/// replies to the lines of an input, up to `quit` or to its end, or if it bails to the first line
/// that fails. The shelf is given back.
///
/// Neither is done beside a log that LevelDB would read when it opens the folder, if logs were
/// looked at: `UnflushedLog` with the number of the first one.
pub fn converse<S: Shelf, R: Wait, I: Read + Drop, O: Write>(
    rt: &R,
    alloc: Global,
    shelf: S,
    prepared: &Prepared,
    form: Form,
    bails: bool,
    reasons: Option<&Reasons>,
    input: I,
    out: &mut O,
) -> (Result<(), ShellFault>, S)
    ensures done { OnOk result.0 (Converses S.honest prepared.now.start prepared.now.logs.items
        form bails (I.remaining input) (Ok tt) (S.told shelf) (S.told result.1)
        (O.contents out.old) (O.contents out.new)) }
    ensures fault { IfErr result.0 (λ e.
        IsConverseFault (Stored S.Receipt (S.is_of (S.told shelf).place) S.Receipt.number
        S.Receipt.image) (S.refuses (S.told shelf).place) S.honest prepared.now.start
        prepared.now.logs.items form bails (I.remaining input) e (S.told shelf) (S.told result.1)
        (O.contents out.old) (O.contents out.new)) }
{
    let mut lines = match LineReader::new(alloc, input) {
        Ok(lines) => lines,
        Err(_) => return (Err(ShellFault::of_writer(WriterFault::OutOfMemory)), shelf),
    };
    let parts = match NewParts::make(alloc) {
        Ok(parts) => parts,
        Err(_) => return (Err(ShellFault::of_writer(WriterFault::OutOfMemory)), shelf),
    };
    converse_as::<Brand, S, R, I, O>(
        rt, alloc, shelf, prepared, parts, form, bails, reasons, &mut lines, out,
    )
}
