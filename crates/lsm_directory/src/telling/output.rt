//! Standard output, written whole or piece by piece.

ghost use Rattle.std.specs.Prelude.{◌≡◌, IfErr, OnErr, OnOk};
ghost use Rattle.std.specs.Io.KnownBytes.{Appends, Keeps};
ghost use Rattle.lsm_text.specs.Printing.{Begins};

use std::io::Write;

/// A write on standard output failed.
#[derive(Clone, Copy, Debug)]
pub struct OutputFault;

/// Writes the bytes, without a flush.
pub fn write_bytes<O: Write>(out: &mut O, bytes: &[u8]) -> Result<(), OutputFault>
    ensures written { OnOk result (Appends (O.contents out.old) (O.contents out.new) bytes.now) }
{
    match out.write_all(bytes) {
        Ok(()) => Ok(()),
        Err(_) => Err(OutputFault),
    }
}

/// Flushes.
pub fn flush<O: Write>(out: &mut O) -> Result<(), OutputFault>
    ensures kept { Keeps (O.contents out.old) (O.contents out.new) }
{
    match out.flush() {
        Ok(()) => Ok(()),
        Err(_) => Err(OutputFault),
    }
}

/// Writes the bytes, and flushes. After a fault a beginning of them was written.
pub fn write_output<O: Write>(out: &mut O, bytes: &[u8]) -> Result<(), OutputFault>
    ensures written { OnOk result (Appends (O.contents out.old) (O.contents out.new) bytes.now) }
    ensures begun { OnErr result (Begins (O.contents out.old) (O.contents out.new) bytes.now) }
{
    match lsm_text::write_output(out, bytes) {
        Ok(()) => Ok(()),
        Err(_) => Err(OutputFault),
    }
}
