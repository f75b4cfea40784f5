//! Lines behind the line of a refusal, for people.

ghost use Rattle.std.specs.Prelude.{◌≡◌, ◌≢◌, ◌<◌, ◌++◌, ◌∷◌, [], OnOk, codes};
ghost use Rattle.std.specs.Io.KnownBytes.{Appends, Keeps};
ghost use Rattle.lsm_storage.specs.FileNames.{padded, table_name};
ghost use Rattle.lsm_directory.specs.Telling.{file_line};

use lsm_folder::Reasons;
use std::io::{self, Write};

/// Writes the number of a file, with zeros in front to at least six digits.
fn write_number<E: Write>(err: &mut E, number: u64) -> io::Result<()>
    ensures { OnOk result (Appends (E.contents err.old) (E.contents err.new) (padded number)) }
{
    write!(err, "{number:06}")
}

/// Writes the end of a line, the name of a table's file.
pub(crate) fn write_table<E: Write>(err: &mut E, number: u64) -> io::Result<()>
    ensures { OnOk result
        (Appends (E.contents err.old) (E.contents err.new) (table_name number ++ (10 ∷ []))) }
{
    write_number(err, number)?;
    err.write_all(b".ldb\n")
}

/// Writes the line that names the file of a table: `in 000005.ldb`.
pub(crate) fn write_file_line<E: Write>(err: &mut E, number: u64) -> io::Result<()>
    ensures { OnOk result (Appends (E.contents err.old) (E.contents err.new) (file_line number)) }
{
    err.write_all(b"in ")?;
    write_table(err, number)
}

/// Writes a line with what the system last answered where it refused a call, if the refusal of this
/// number may come from that: of 9 and 10. Of 19 to 30, which are of a manifest, one that names it:
/// it is what was last read whole.
pub(crate) fn write_reason<E: Write>(err: &mut E, refusal: u64, reasons: &Reasons) -> io::Result<()>
    ensures below { refusal ≢ 9 → refusal ≢ 10 → refusal < 19
        → Keeps (E.contents err.old) (E.contents err.new) }
    ensures above { 30 < refusal → Keeps (E.contents err.old) (E.contents err.new) }
{
    match refusal {
        9 | 10 => reasons.write_last(err),
        19..=30 => reasons.write_read(err),
        _ => Ok(()),
    }
}
