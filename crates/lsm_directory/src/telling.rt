//! What is told of a fault on standard error, and the exit status.

pub(crate) mod input_fault;
pub(crate) mod output;
pub(crate) mod second_lines;
pub(crate) mod unopened;

ghost use Rattle.std.specs.Prelude.{◌≡◌, ◌++◌, [], ◌∷◌, IfSome, None, OnErr, OnOk, codes};
ghost use Rattle.std.specs.Io.KnownBytes.{Appends, Keeps};
ghost use Rattle.std.specs.Option.{option_map};
ghost use Rattle.lsm_storage.specs.FileNames.{table_name};
ghost use Rattle.lsm_directory.specs.Telling.{file_behind, line_of, named_in, told_text};

use crate::telling::second_lines::{write_file_line, write_reason, write_table};
use lsm_batch::Write as KeyWrite;
use lsm_folder::Reasons;
use std::fmt;
use std::io::{self, Write};

/// What is known beside a fault: what the batch writes that was to come in, what the system refused
/// and what was read, and whether the fault's line names the file whose table is refused.
#[derive(Clone, Copy, Debug)]
pub struct Known<'a> {
    pub writes: &'a [KeyWrite],
    pub reasons: Option<&'a Reasons>,
    pub names_files: bool,
}

impl<'a> Known<'a> {
    /// Nothing is known but what the system answered, if that is.
    pub fn answered(reasons: Option<&'a Reasons>) -> Known<'a> {
        Known {
            writes: &[],
            reasons,
            names_files: false,
        }
    }
}

/// Why a command ends with status 1. It prints as a text without a newline.
pub trait Exit: fmt::Display {
    ghost use Rattle.std.specs.Prelude.{◌≡◌, ℕ, List, Option, IfSome, OnOk};
    ghost use Rattle.std.specs.Io.KnownBytes.{Appends};

    /// The number of the file whose table is refused.
    ghost file: { Self → Option ℕ };

    /// What it means, as text, where contracts say that.
    ghost meaning: { Self → Option (List ℕ) };

    /// The number of the file whose table is refused.
    fn table_file(&self) -> Option<u64>
        ensures { result ≡ file self.now };

    /// The number of the refusal, where it may come from what the system answered, or is of a
    /// manifest.
    fn refusal(&self) -> Option<u64>;

    /// Writes what it means, on lines of its own, where there is more to say.
    fn explain<E: Write>(&self, err: &mut E, writes: &[KeyWrite]) -> io::Result<()>
        ensures { OnOk result (IfSome (meaning self.now) (λ text.
            Appends (E.contents err.old) (E.contents err.new) text)) };
}

/// Writes the line of a fault.
fn write_fault<F: Exit, E: Write>(err: &mut E, fault: &F) -> io::Result<()>
    ensures { OnOk result (IfSome (F.output fault.now) (λ text.
        Appends (E.contents err.old) (E.contents err.new) (text ++ (10 ∷ [])))) }
{
    writeln!(err, "{fault}")
}

/// Writes the text of a fault.
fn write_text<F: Exit, E: Write>(err: &mut E, fault: &F) -> io::Result<()>
    ensures { OnOk result (IfSome (F.output fault.now) (λ text.
        Appends (E.contents err.old) (E.contents err.new) text)) }
{
    write!(err, "{fault}")
}

/// Ends the line of a fault of this file's table.
fn write_file<E: Write>(err: &mut E, number: u64) -> io::Result<()>
    ensures { OnOk result (Appends (E.contents err.old) (E.contents err.new)
        (codes " in " ++ (table_name number ++ (10 ∷ [])))) }
{
    err.write_all(b" in ")?;
    write_table(err, number)
}

/// Writes the line of a fault of this file's table.
fn write_in_file<F: Exit, E: Write>(err: &mut E, fault: &F, number: u64) -> io::Result<()>
    ensures { OnOk result (IfSome (F.output fault.now) (λ text. Appends (E.contents err.old)
        (E.contents err.new) (text ++ (codes " in " ++ (table_name number ++ (10 ∷ [])))))) }
{
    write_text(err, fault)?;
    write_file(err, number)
}

/// The file that the line of a fault names, where files are named at all.
fn named_in<F: Exit>(fault: &F, names_files: bool) -> Option<u64>
    ensures { result ≡ named_in names_files (F.file fault.now) }
{
    if names_files {
        return fault.table_file();
    }
    None
}

/// Writes the line of a fault. Where it is asked to, it names the file of which a table is refused.
#[tactic(auto, using(crate::proofs::TellingLaws::told_plain, crate::proofs::TellingLaws::told_named))]
fn write_line<F: Exit, E: Write>(err: &mut E, fault: &F, names_files: bool) -> io::Result<()>
    ensures { OnOk result (IfSome (option_map (line_of (named_in names_files (F.file fault.now)))
        (F.output fault.now)) (λ line. Appends (E.contents err.old) (E.contents err.new) line)) }
{
    match named_in(fault, names_files) {
        Some(number) => write_in_file(err, fault, number),
        None => write_fault(err, fault),
    }
}

/// Writes the line of the file whose table is refused, where the fault's own line did not name it.
fn write_file_behind<E: Write>(err: &mut E, file: Option<u64>, names_files: bool) -> io::Result<()>
    ensures { OnOk result
        (Appends (E.contents err.old) (E.contents err.new) (file_behind names_files file)) }
{
    match file {
        Some(number) if !names_files => write_file_line(err, number),
        _ => Ok(()),
    }
}

/// Writes what the system answered, where the refusal of this number may come from that, or which
/// manifest it is of.
#[tactic(auto, using(crate::proofs::Quiet::keeps_same))]
fn write_answer<E: Write>(
    err: &mut E,
    refusal: Option<u64>,
    reasons: Option<&Reasons>,
) -> io::Result<()>
    ensures { reasons.entry ≡ None → Keeps (E.contents err.old) (E.contents err.new) }
{
    let Some(reasons) = reasons else {
        return Ok(());
    };
    match refusal {
        Some(number) => write_reason(err, number, reasons),
        None => Ok(()),
    }
}

/// Writes the line of a fault, and what stands behind it: the file whose table is refused, where
/// the line did not name it, what the fault means, and what the system answered or was read; and
/// flushes.
fn tell<F: Exit, E: Write>(err: &mut E, fault: &F, known: Known<'_>) -> io::Result<()>
    ensures told { known.entry.reasons ≡ None → OnOk result (IfSome (told_text
        known.entry.names_files (F.file fault.now) (F.output fault.now) (F.meaning fault.now))
        (λ text. Appends (E.contents err.old) (E.contents err.new) text)) }
{
    write_line(err, fault, known.names_files)?;
    write_file_behind(err, fault.table_file(), known.names_files)?;
    fault.explain(err, known.writes)?;
    write_answer(err, fault.refusal(), known.reasons)?;
    err.flush()
}

/// The exit status of a command: 0 where it is done, and 1 where it is refused. Of a fault all is
/// told.
#[tactic(auto, using(crate::proofs::Quiet::keeps_same))]
pub fn status_of<F: Exit + Drop, E: Write>(done: Result<(), F>, known: Known<'_>, err: &mut E) -> u8
    ensures ok { OnOk done (result ≡ 0) }
    ensures err { OnErr done (result ≡ 1) }
    ensures quiet { result ≡ 0 → Keeps (E.contents err.old) (E.contents err.new) }
{
    match done {
        Ok(()) => 0,
        Err(fault) => {
            let _ = tell(err, &fault, known);
            1
        }
    }
}

/// The exit status 1 of a command that is refused before it asks the system for anything.
pub fn refuse<F: Exit + Drop, E: Write>(fault: F, err: &mut E) -> u8
    ensures { result ≡ 1 }
{
    status_of(Err(fault), Known::answered(None), err)
}
