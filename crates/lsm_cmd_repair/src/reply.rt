//! What is said of a database that was repaired.

ghost use Rattle.std.specs.Prelude.{◌++◌, OnOk, codes};
ghost use Rattle.std.specs.Io.KnownBytes.{Appends};
ghost use Rattle.lsm_storage.specs.FileNames.{padded};
ghost use Rattle.lsm_cmd_repair.specs.Repaired.{head_text, left_text, lefts_text, note_text};
ghost use Rattle.lsm_cmd_repair.specs.Repaired.{notes_text, repaired_text, why_text};

use lsm_repair::LeftOut;
use std::io::{self, Write};

/// Writes `repaired tables T entries E level 6`.
fn write_head<O: Write>(out: &mut O, tables: u64, entries: u64) -> io::Result<()>
    ensures { OnOk result
        (Appends (O.contents out.old) (O.contents out.new) (head_text tables entries)) }
{
    writeln!(out, "repaired tables {tables} entries {entries} level 6")
}

/// Writes a number in decimal, with zeros in front to at least six digits.
fn write_number<O: Write>(out: &mut O, number: u64) -> io::Result<()>
    ensures { OnOk result (Appends (O.contents out.old) (O.contents out.new) (padded number)) }
{
    write!(out, "{number:06}")
}

/// Writes the name of the file of a table, behind `left out`.
fn write_name<O: Write>(out: &mut O, number: u64) -> io::Result<()>
    ensures { OnOk result
        (Appends (O.contents out.old) (O.contents out.new) (codes "left out " ++ padded number)) }
{
    out.write_all(b"left out ")?;
    write_number(out, number)
}

/// Writes why a table is left out, behind its number.
fn write_why<O: Write>(out: &mut O, left: LeftOut) -> io::Result<()>
    ensures { OnOk result (Appends (O.contents out.old) (O.contents out.new) (why_text left)) }
{
    let number = left.number();
    let name = left.name();
    writeln!(out, ".ldb: refused {number} {name}")
}

/// Writes the line of a table that is left out.
fn write_left<O: Write>(out: &mut O, left: LeftOut) -> io::Result<()>
    ensures { OnOk result
        (Appends (O.contents out.old) (O.contents out.new) (left_text left)) }
{
    write_name(out, left.file)?;
    write_why(out, left)
}

/// Writes the lines of the tables that are left out.
fn write_lefts<O: Write>(out: &mut O, left: &[LeftOut]) -> io::Result<()>
    ensures { OnOk result
        (Appends (O.contents out.old) (O.contents out.new) (lefts_text left.now)) }
{
    for one in left {
        write_left(out, *one)?;
    }
    Ok(())
}

/// Writes the line of what was repaired, and those of the tables that are left out.
fn write_lines<O: Write>(out: &mut O, tables: u64, entries: u64, left: &[LeftOut]) -> io::Result<()>
    ensures { OnOk result (Appends (O.contents out.old) (O.contents out.new)
        (repaired_text tables entries left.now)) }
{
    write_head(out, tables, entries)?;
    write_lefts(out, left)
}

/// Writes `repaired tables T entries E level 6`, and behind it a line for each table that is left
/// out, and flushes.
pub(crate) fn reply<O: Write>(
    out: &mut O,
    tables: u64,
    entries: u64,
    left: &[LeftOut],
) -> io::Result<()>
    ensures { OnOk result (Appends (O.contents out.old) (O.contents out.new)
        (repaired_text tables entries left.now)) }
{
    write_lines(out, tables, entries, left)?;
    out.flush()
}

/// Writes the beginning of the note of a log.
fn begin_note<E: Write>(err: &mut E, log: u64) -> io::Result<()>
    ensures { OnOk result
        (Appends (E.contents err.old) (E.contents err.new) (codes "note: " ++ padded log)) }
{
    err.write_all(b"note: ")?;
    write_number(err, log)
}

/// Writes the note of a log that may have come in before.
fn write_note<E: Write>(err: &mut E, log: u64) -> io::Result<()>
    ensures { OnOk result (Appends (E.contents err.old) (E.contents err.new) (note_text log)) }
{
    begin_note(err, log)?;
    err.write_all(b".log is not brought in, and may be older than the tables\n")
}

/// Writes the notes of these logs.
fn write_each<E: Write>(err: &mut E, logs: &[u64]) -> io::Result<()>
    ensures { OnOk result
        (Appends (E.contents err.old) (E.contents err.new) (notes_text logs.now)) }
{
    for log in logs {
        write_note(err, *log)?;
    }
    Ok(())
}

/// Writes a note for each of these logs, which may have come in before, and flushes.
pub(crate) fn note<E: Write>(err: &mut E, logs: &[u64]) -> io::Result<()>
    ensures { OnOk result
        (Appends (E.contents err.old) (E.contents err.new) (notes_text logs.now)) }
{
    write_each(err, logs)?;
    err.flush()
}
