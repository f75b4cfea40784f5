//! What is said of writes that came in.

ghost use Rattle.std.specs.Prelude.{OnOk};
ghost use Rattle.std.specs.Io.KnownBytes.{Appends};
ghost use Rattle.lsm_cmd_recover.specs.Recovered.{brought_text};

use lsm_recovery::Brought;
use std::io::{self, Write};

/// Writes `logs L entries E rest B`, and flushes.
pub(crate) fn reply<O: Write>(out: &mut O, brought: Brought) -> io::Result<()>
    ensures written { OnOk result
        (Appends (O.contents out.old) (O.contents out.new) (brought_text brought)) }
{
    let Brought {
        logs,
        entries,
        rest,
        ..
    } = brought;
    writeln!(out, "logs {logs} entries {entries} rest {rest}")?;
    out.flush()
}
