//! Lines of an input, one by one.

ghost use Rattle.std.specs.Prelude.{◌≡◌, ◌≢◌, ◌++◌, List, ℕ, IfOk, OnOk};
ghost use Rattle.lsm_lines.specs.Passing.{PassesLines};
ghost use Rattle.lsm_lines.specs.Reading.{IsNext, IsNextHeld};
ghost use Rattle.lsm_lines.specs.Pieces.{Holds, last_line, whole_line};
ghost use Rattle.lsm_lines.specs.declared.line_reader.NextLine.TheVariants.{End};

use crate::ahead::{Ahead, ReadFailed};
use lsm_text::parts;
use std::alloc::{AllocError, Global};
use std::io::Read;
use std::marker::Model;

/// The most bytes of a line, without its newline: 8 MiB.
const MAX_LINE: usize = 8_388_608;

/// What was read next.
#[derive(Clone, Copy, Debug, PartialEq, Eq)]
pub enum NextLine {
    /// A line, which the reader holds.
    Line,
    /// A line of more than 8 MiB, which was passed over.
    TooLong,
    /// A line for which there is no memory, which was passed over.
    NoMemory,
    /// Nothing is left.
    End,
}

/// What was read next, where no more is read of a line than is held.
#[derive(Clone, Copy, Debug, PartialEq, Eq)]
pub enum HeldLine {
    /// A line with its newline, which the reader holds.
    Line,
    /// The last line, which the reader holds, and which has no newline.
    Last,
    /// More than 8 MiB of a line were read, and are not held. The rest of it is left.
    TooLong,
    /// There is no memory for what was read of a line. The rest of it is left.
    NoMemory,
    /// Nothing is left.
    End,
}

/// A line that ends with its newline, of which so much is held.
fn whole(line: NextLine) -> HeldLine
    ensures { result ≡ whole_line line }
{
    match line {
        NextLine::Line => HeldLine::Line,
        NextLine::TooLong => HeldLine::TooLong,
        NextLine::NoMemory => HeldLine::NoMemory,
        NextLine::End => HeldLine::End,
    }
}

/// A line that ends with the input, of which so much is held.
fn last(line: NextLine) -> HeldLine
    ensures { result ≡ last_line line }
{
    match line {
        NextLine::Line => HeldLine::Last,
        NextLine::TooLong => HeldLine::TooLong,
        NextLine::NoMemory => HeldLine::NoMemory,
        NextLine::End => HeldLine::End,
    }
}

/// Adds a piece to a line of which so much was read, if it is still held.
fn add_piece(line: &mut Vec<u8>, so_far: NextLine, piece: &[u8]) -> NextLine
    ensures holds { (front : List ℕ) → Holds so_far line.old.items front
        → Holds result line.new.items (front ++ piece.now) }
    ensures begun { result ≢ End }
{
    match so_far {
        NextLine::TooLong => NextLine::TooLong,
        NextLine::NoMemory => NextLine::NoMemory,
        NextLine::Line | NextLine::End => {
            if piece.len() > MAX_LINE.saturating_sub(line.len()) {
                return NextLine::TooLong;
            }
            match line.extend_from_slice(piece) {
                Ok(()) => NextLine::Line,
                Err(_) => NextLine::NoMemory,
            }
        }
    }
}

/// An input whose lines are read one by one, and the line that was read last. Contracts see this
/// line and all that is left of the input.
#[derive(Drop)]
pub struct LineReader<I: Read + Drop> {
    ahead: Ahead<I>,
    line: Vec<u8>,
}

impl<I: Read + Drop> Model for LineReader<I> {
    ghost use Rattle.lsm_lines.specs.Reading.{Lined, bytes_left};

    ghost Value = { Lined };

    ghost view = { λ r. record { line = r.line.items; left = bytes_left r.ahead } };
}

impl<I: Read + Drop> LineReader<I> {
    /// No line is read yet. `AllocError` where there is no memory to read ahead.
    pub fn new(alloc: Global, input: I) -> Result<LineReader<I>, AllocError>
        ensures left { IfOk result (λ r. r.left ≡ I.remaining input) }
    {
        Ok(LineReader {
            ahead: Ahead::new(alloc, input)?,
            line: Vec::new(alloc),
        })
    }

    /// The line that was read last.
    pub fn line(&self) -> &[u8]
        ensures { result.now ≡ self.now.line }
    {
        self.line.as_slice()
    }

    /// Reads the next line, up to a newline or to the end, and waits for it. A line that is not
    /// held is passed over whole.
    ///
    /// # Errors
    /// `ReadFailed` where a read of the input fails.
    pub fn next(&mut self) -> Result<NextLine, ReadFailed>
        ensures { IfOk result (IsNext self.old self.new) }
    {
        self.line.clear();
        let mut so_far = NextLine::End;
        for _turn in 0..u64::MAX {
            if !self.ahead.fill()? {
                return Ok(so_far);
            }
            let ready = self.ahead.ready();
            match parts(b'\n', ready) {
                Some((piece, _)) => {
                    let count = piece.len();
                    let next = add_piece(&mut self.line, so_far, piece);
                    self.ahead.pass(count + 1);
                    return Ok(next);
                }
                None => {
                    let count = ready.len();
                    so_far = add_piece(&mut self.line, so_far, ready);
                    self.ahead.pass(count);
                }
            }
        }
        Err(ReadFailed)
    }

    /// Reads the next line, up to a newline or to the end, and waits for it. Of a line that cannot
    /// be held no more is read than shows it; what is left of it is read next.
    ///
    /// # Errors
    /// `ReadFailed` where a read of the input fails.
    pub fn next_held(&mut self) -> Result<HeldLine, ReadFailed>
        ensures { IfOk result (IsNextHeld self.old self.new) }
    {
        self.line.clear();
        let mut so_far = NextLine::End;
        for _turn in 0..u64::MAX {
            if !self.ahead.fill()? {
                return Ok(last(so_far));
            }
            let ready = self.ahead.ready();
            match parts(b'\n', ready) {
                Some((piece, _)) => {
                    let length = piece.len();
                    let next = add_piece(&mut self.line, so_far, piece);
                    self.ahead.pass(length + 1);
                    return Ok(whole(next));
                }
                None => {
                    let count = ready.len();
                    so_far = add_piece(&mut self.line, so_far, ready);
                    self.ahead.pass(count);
                    match so_far {
                        NextLine::TooLong | NextLine::NoMemory => return Ok(last(so_far)),
                        NextLine::Line | NextLine::End => {}
                    }
                }
            }
        }
        Err(ReadFailed)
    }

    /// Passes over so many lines, whatever they are, or over all where there are fewer.
    ///
    /// # Errors
    /// `ReadFailed` where a read of the input fails.
    pub fn pass(&mut self, count: u64) -> Result<(), ReadFailed>
        ensures { OnOk result (PassesLines count self.old.left self.new.left) }
    {
        for _line in 0..count {
            match self.next()? {
                NextLine::End => return Ok(()),
                NextLine::Line | NextLine::TooLong | NextLine::NoMemory => {}
            }
        }
        Ok(())
    }
}
