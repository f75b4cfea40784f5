//! A write buffer is filled with the writes of lines.

ghost use Rattle.std.specs.Prelude.{◌≡◌, List, ℕ, IfErr, IfNone, IfOk, IfSome, false, true};
ghost use Rattle.std.specs.Io.KnownBytes.{IsAtEnd};
ghost use Rattle.lsm_text.specs.BatchText.{IsWriteLine};
ghost use Rattle.lsm_lines.specs.Reading.{TakesLine};
ghost use Rattle.lsm_lines.specs.Gathering.{AreEnded, Stops};
ghost use Rattle.lsm_lines.specs.Filling.{IsFilled, IsNoWrite};
ghost use Rattle.lsm_lines.specs.Lines.{SpellsWrite};
ghost use Rattle.lsm_lines.specs.declared.line_form.LineForm.{LineForm};
ghost use Rattle.lsm_lines.specs.declared.line_form.LineForm.TheVariants.{Json, Words};

use crate::line_form::LineForm;
use crate::line_reader::{HeldLine, LineReader};
use crate::object_fault::ObjectFault;
use crate::put_object::put_in;
use crate::write_buffer::{PutFault, WriteBuffer};
use crate::write_line_fault::{LineFault, WriteLineFault};
use lsm_batch::{MOST_ENTRIES, Write};
use lsm_text::{BatchTextFault, Form, batch_in, write_in};
use std::alloc::Global;
use std::io::Read;

/// What ends the filling of a buffer.
#[derive(Debug, Drop)]
pub(crate) enum FillEnd {
    /// With this write, which was read, a limit would be passed.
    Over(Write),
    /// There are as many writes as may be.
    Enough,
    /// The end of the input.
    End,
    /// The next line, which is no write of a batch.
    Stopped(WriteLineFault),
}

/// Where a line of words that spells no write stops being one; none where it is empty.
fn syntax_fault(alloc: Global, form: Form, line: &[u8]) -> Option<LineFault> {
    match batch_in(alloc, form, line) {
        Err(BatchTextFault::BadLine(_, Some(fault))) => Some(LineFault::Words(fault)),
        Err(BatchTextFault::BadLine(_, None)) => None,
        Err(BatchTextFault::OutOfMemory) | Ok(_) => None,
    }
}

/// What a line of words writes.
fn write_of_words(alloc: Global, form: Form, line: &[u8]) -> Result<Write, WriteLineFault>
    ensures write { IfOk result (IsWriteLine form line.now) }
    ensures bad { IfErr result (IsNoWrite (Words form) line.now) }
{
    match write_in(alloc, form, line) {
        Ok(Some(write)) => Ok(write),
        Ok(None) => Err(WriteLineFault::BadLine(syntax_fault(alloc, form, line))),
        Err(_) => Err(WriteLineFault::OutOfMemory),
    }
}

/// What the object of a line writes.
fn write_of_object(alloc: Global, line: &[u8]) -> Result<Write, WriteLineFault>
    ensures write { IfOk result (SpellsWrite Json line.now) }
    ensures bad { IfErr result (IsNoWrite Json line.now) }
{
    match put_in(alloc, line) {
        Ok(Some(write)) => Ok(write),
        Ok(None) => match ObjectFault::of(alloc, line) {
            Ok(fault) => Err(WriteLineFault::BadLine(Some(LineFault::Object(fault)))),
            Err(_) => Err(WriteLineFault::OutOfMemory),
        },
        Err(_) => Err(WriteLineFault::OutOfMemory),
    }
}

/// What a line writes.
fn write_of(alloc: Global, form: LineForm, line: &[u8]) -> Result<Write, WriteLineFault>
    ensures write { IfOk result (SpellsWrite form line.now) }
    ensures bad { IfErr result (IsNoWrite form line.now) }
{
    match form {
        LineForm::Words(form) => write_of_words(alloc, form, line),
        LineForm::Json => write_of_object(alloc, line),
    }
}

/// Whether there is a next line, which is held then. The last one may lack its newline, or not.
#[tactic(auto, using(crate::proofs::GatherLaws::stops_long, crate::proofs::GatherLaws::stops_unended))]
fn next_line<I: Read + Drop>(last: bool, lines: &mut LineReader<I>) -> Result<bool, WriteLineFault>
    ensures line { IfOk result (λ more. more ≡ true
        → TakesLine lines.new.line lines.old.left lines.new.left
        × AreEnded last lines.old.left lines.new.left) }
    ensures none { IfOk result (λ more. more ≡ false → IsAtEnd lines.old.left) }
    ensures stops { IfErr result (λ e. (form : LineForm) → Stops form last lines.old.left e) }
{
    match lines.next_held() {
        Ok(HeldLine::Line) => Ok(true),
        Ok(HeldLine::Last) => {
            if last {
                return Ok(true);
            }
            Err(WriteLineFault::NoNewline)
        }
        Ok(HeldLine::TooLong) => Err(WriteLineFault::LongLine),
        Ok(HeldLine::NoMemory) => Err(WriteLineFault::OutOfMemory),
        Ok(HeldLine::End) => Ok(false),
        Err(_) => Err(WriteLineFault::Read),
    }
}

/// What the next line writes; none at the end. The last one may lack its newline, or not.
fn next_write<I: Read + Drop>(
    alloc: Global,
    form: LineForm,
    last: bool,
    lines: &mut LineReader<I>,
) -> Result<Option<Write>, WriteLineFault>
    ensures some { IfOk result (λ o. IfSome o (λ w. (line : List ℕ)
        × TakesLine line lines.old.left lines.new.left × SpellsWrite form line w
        × AreEnded last lines.old.left lines.new.left)) }
    ensures none { IfOk result (λ o. IfNone o (IsAtEnd lines.old.left)) }
    ensures stops { IfErr result (Stops form last lines.old.left) }
{
    match next_line(last, lines) {
        Ok(true) => match write_of(alloc, form, lines.line()) {
            Ok(write) => Ok(Some(write)),
            Err(fault) => Err(fault),
        },
        Ok(false) => Ok(None),
        Err(fault) => Err(fault),
    }
}

/// Puts the writes of the next lines, until one would pass a limit, or there are enough, or a line
/// is no write of a batch, or none is left. The last one may lack its newline, or not.
pub(crate) fn fill<I: Read + Drop>(
    alloc: Global,
    form: LineForm,
    last: bool,
    lines: &mut LineReader<I>,
    buffer: &mut WriteBuffer,
) -> FillEnd
    ensures { IsFilled form last lines.old.left lines.new.left buffer.old buffer.new result }
{
    'lines: while buffer.len() < MOST_ENTRIES {
        let write = match next_write(alloc, form, last, lines) {
            Ok(Some(write)) => write,
            Ok(None) => return FillEnd::End,
            Err(fault) => return FillEnd::Stopped(fault),
        };
        match buffer.put(write) {
            Ok(()) => {}
            Err(PutFault::Full(write)) => return FillEnd::Over(write),
            Err(PutFault::Large) => return FillEnd::Stopped(WriteLineFault::LargeWrite),
            Err(PutFault::OutOfMemory) => return FillEnd::Stopped(WriteLineFault::OutOfMemory),
        }
    }
    FillEnd::Enough
}
