//! What is said of a copy.

ghost use Rattle.std.specs.Prelude.{◌≡◌, None, OnOk};
ghost use Rattle.std.specs.Io.KnownBytes.{Appends, Keeps};
ghost use Rattle.lsm_log_files.specs.Stops.{left_text};
ghost use Rattle.lsm_cmd_import.specs.Imported.{made_text};

use lsm_directory::OutputFault;
use lsm_log_files::{LogStop, tell_left_out};
use std::alloc::Global;
use std::io::{self, Write};

/// A copy: how many tables it has; of how many logs the writes came in; how many entries the tables
/// have; how many bytes at the ends of the manifest and of the logs hold no whole record, and are
/// not read; and where the first fault of a log is, if its writes came in up to that.
#[derive(Clone, Copy, Debug)]
pub struct CopyMade {
    pub tables: u64,
    pub logs: u64,
    pub entries: u64,
    pub rest: u64,
    pub stop: Option<LogStop>,
}

/// Writes `tables T logs L entries E rest B`, and flushes.
fn reply<O: Write>(out: &mut O, made: CopyMade) -> io::Result<()>
    ensures written { OnOk result
        (Appends (O.contents out.old) (O.contents out.new) (made_text made)) }
{
    let CopyMade {
        tables,
        logs,
        entries,
        rest,
        ..
    } = made;
    writeln!(
        out,
        "tables {tables} logs {logs} entries {entries} rest {rest}"
    )?;
    out.flush()
}

/// Writes what was left out, where something was, and then the line of a copy.
pub(crate) fn tell_made<O: Write, E: Write>(
    alloc: Global,
    made: CopyMade,
    out: &mut O,
    err: &mut E,
) -> Result<(), OutputFault>
    ensures left { OnOk result
        (Appends (E.contents err.old) (E.contents err.new) (left_text made.stop)) }
    ensures written { OnOk result
        (Appends (O.contents out.old) (O.contents out.new) (made_text made)) }
    ensures quiet { made.stop ≡ None → Keeps (E.contents err.old) (E.contents err.new) }
{
    tell_left_out(alloc, made.stop, err)?;
    match reply(out, made) {
        Ok(()) => Ok(()),
        Err(_) => Err(OutputFault),
    }
}
