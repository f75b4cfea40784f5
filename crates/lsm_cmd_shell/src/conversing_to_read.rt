//! A conversation with the database on a shelf that is only read.

ghost use Rattle.std.specs.Prelude.{◌≡◌, Ok, IfErr, OnOk};
ghost use Rattle.lsm_shelf.specs.Stored.{Stored};
ghost use Rattle.lsm_cmd_shell.specs.Reading.{ConversesToRead, IsReadingFault};
ghost use Rattle.lsm_opening.specs.Parts.{AreOf, usual};
ghost use Rattle.lsm_opening.specs.Reading.{OnlyReads};

use crate::notes::tell_notes;
use crate::shell_fault::ShellFault;
use crate::talking::talk;
use lsm_directory::Beside;
use lsm_folder::Reasons;
use lsm_lines::LineReader;
use lsm_opening::{NewParts, WriterFault, open_to_read};
use lsm_script::Desk;
use lsm_slots::Boarded;
use lsm_table::{NamedShelf, Shelf};
use lsm_text::Form;
use std::alloc::Global;
use std::io::{Read, Write};
use std::marker::Brand;
use std::sync::Wait;

/// Opens the directory of a shelf to read, notes what is not read of it, and replies to lines.
fn converse_named<N: Boarded, S: Shelf, R: Wait, I: Read + Drop, O: Write, E: Write>(
    rt: &R,
    alloc: Global,
    shelf: &mut NamedShelf<N, S>,
    beside: &Beside,
    parts: NewParts<S>,
    form: Form,
    bails: bool,
    reasons: Option<&Reasons>,
    lines: &mut LineReader<I>,
    out: &mut O,
    err: &mut E,
) -> Result<(), ShellFault>
    requires parts { AreOf usual N.registry N.board N.history parts }
    ensures done { OnOk result (ConversesToRead S.honest form bails lines.old.left (Ok tt)
        shelf.old shelf.new (O.contents out.old) (O.contents out.new)) }
    ensures fault { IfErr result (λ e. IsReadingFault (Stored S.Receipt (S.is_of N.place)
        S.Receipt.number S.Receipt.image) (S.refuses N.place) S.honest form bails lines.old.left e
        shelf.old shelf.new (O.contents out.old) (O.contents out.new)) }
    ensures reads { OnlyReads shelf.old shelf.new }
{
    let (mut state, manifest) = match open_to_read(rt, alloc, shelf, parts) {
        Ok(opened) => opened,
        Err(fault) => return Err(ShellFault::of_writer(fault)),
    };
    let mut desk = match Desk::new(alloc, &state) {
        Ok(desk) => desk,
        Err(_) => return Err(ShellFault::of_writer(WriterFault::OutOfMemory)),
    };
    tell_notes(alloc, manifest, beside, err);
    match talk(
        rt, alloc, &mut state, &mut desk, shelf, form, bails, reasons, lines, out,
    ) {
        Ok(()) => Ok(()),
        Err(fault) => Err(ShellFault::of_talk(fault)),
    }
}

/// The same under the name that was picked for the parts and the shelf, which is given back.
fn converse_as<N: Boarded, S: Shelf, R: Wait, I: Read + Drop, O: Write, E: Write>(
    rt: &R,
    alloc: Global,
    shelf: S,
    beside: &Beside,
    parts: NewParts<S>,
    form: Form,
    bails: bool,
    reasons: Option<&Reasons>,
    lines: &mut LineReader<I>,
    out: &mut O,
    err: &mut E,
) -> (Result<(), ShellFault>, S)
    requires parts { AreOf usual N.registry N.board N.history parts }
    requires shelf { (S.told shelf).place ≡ N.place }
    ensures done { OnOk result.0 (ConversesToRead S.honest form bails lines.old.left (Ok tt)
        (S.told shelf) (S.told result.1) (O.contents out.old) (O.contents out.new)) }
    ensures fault { IfErr result.0 (λ e. IsReadingFault (Stored S.Receipt (S.is_of N.place)
        S.Receipt.number S.Receipt.image) (S.refuses N.place) S.honest form bails lines.old.left e
        (S.told shelf) (S.told result.1) (O.contents out.old) (O.contents out.new)) }
    ensures reads { OnlyReads (S.told shelf) (S.told result.1) }
{
    let mut shelf: NamedShelf<N, S> = NamedShelf::of(shelf);
    let done = converse_named(
        rt, alloc, &mut shelf, beside, parts, form, bails, reasons, lines, out, err,
    );
    (done, shelf.into_shelf())
}

/// Opens the database on the shelf to read, and replies to the lines of an input, as `converse`
/// does. No manifest begins, nothing is written, and each line that would write is refused: by its
/// state, which is halted. What lies beside the tables and is not read is noted on `err`. The shelf
/// is given back.
pub fn converse_to_read<S: Shelf, R: Wait, I: Read + Drop, O: Write, E: Write>(
    rt: &R,
    alloc: Global,
    shelf: S,
    beside: &Beside,
    form: Form,
    bails: bool,
    reasons: Option<&Reasons>,
    input: I,
    out: &mut O,
    err: &mut E,
) -> (Result<(), ShellFault>, S)
    ensures done { OnOk result.0 (ConversesToRead S.honest form bails (I.remaining input) (Ok tt)
        (S.told shelf) (S.told result.1) (O.contents out.old) (O.contents out.new)) }
    ensures fault { IfErr result.0 (λ e. IsReadingFault (Stored S.Receipt
        (S.is_of (S.told shelf).place) S.Receipt.number S.Receipt.image)
        (S.refuses (S.told shelf).place) S.honest form bails (I.remaining input) e
        (S.told shelf) (S.told result.1) (O.contents out.old) (O.contents out.new)) }
    ensures reads { OnlyReads (S.told shelf) (S.told result.1) }
{
    let mut lines = match LineReader::new(alloc, input) {
        Ok(lines) => lines,
        Err(_) => return (Err(ShellFault::of_writer(WriterFault::OutOfMemory)), shelf),
    };
    let parts = match NewParts::make(alloc) {
        Ok(parts) => parts,
        Err(_) => return (Err(ShellFault::of_writer(WriterFault::OutOfMemory)), shelf),
    };
    converse_as::<Brand, S, R, I, O, E>(
        rt, alloc, shelf, beside, parts, form, bails, reasons, &mut lines, out, err,
    )
}
