//! Standard input, read whole, and standard output.

ghost use Rattle.std.specs.Prelude.{◌≡◌, ◌<◌, ◌≤◌, length, IfOk, IfErr, IfSome, OnErr, OnOk};
ghost use Rattle.std.specs.Io.{WritesAtMost};
ghost use Rattle.std.specs.Io.KnownBytes.{Appends, Keeps, WriteAppends};
ghost use Rattle.lsm_text.specs.Printing.{Begins};
ghost use Rattle.lsm_text.specs.declared.fault.Fault.TheVariants.{Write as WriteFault};
ghost use Rattle.lsm_text.specs.declared.streams.InputFault.TheVariants.{TooLong};

use crate::fault::Fault;
use std::alloc::Global;
use std::io::{ErrorKind, Read, Write};

/// The most bytes that are read, 64 MiB.
const MAX_INPUT: u64 = 67_108_864;

/// Why an input was not read.
#[derive(Clone, Copy, Debug)]
pub enum InputFault {
    /// A read failed.
    Read,
    /// It has more than 64 MiB.
    TooLong,
    /// A growth of memory was refused.
    OutOfMemory,
}

/// All bytes of the input, 64 MiB at most. `TooLong` only where there are more; `Read` where a read
/// fails; `OutOfMemory`.
pub fn read_input<R: Read>(alloc: Global, input: &mut R) -> Result<Vec<u8>, InputFault>
    ensures found { IfOk result (λ bytes.
        IfSome (R.remaining input.old) (λ text. bytes.items ≡ text)) }
    ensures limit { IfOk result (λ bytes. length bytes.items ≤ 67108864) }
    ensures too_long { IfErr result (λ e. e ≡ TooLong
        → IfSome (R.remaining input.old) (λ text. 67108864 < length text)) }
{
    let mut bytes = Vec::new(alloc);
    let read = (&mut *input).take(MAX_INPUT + 1).read_to_end(&mut bytes);
    match read {
        Err(error) if error.kind() == ErrorKind::OutOfMemory => Err(InputFault::OutOfMemory),
        Err(_) => Err(InputFault::Read),
        Ok(_) if bytes.len() as u64 > MAX_INPUT => Err(InputFault::TooLong),
        Ok(_) => Ok(bytes),
    }
}

/// Writes bytes by one call, and gives how many were taken: none where it was interrupted. `Write`
/// where that fails, or takes none.
fn write_some<W: Write>(out: &mut W, bytes: &[u8]) -> Result<usize, Fault>
    ensures bound { WritesAtMost result bytes.now }
    ensures written { WriteAppends (W.contents out.old) (W.contents out.new) result bytes.now }
    ensures fault { IfErr result (λ e. e ≡ WriteFault) }
{
    match out.write(bytes) {
        Ok(0) => Err(Fault::Write),
        Ok(taken) => Ok(taken),
        Err(error) if error.kind() == ErrorKind::Interrupted => Ok(0),
        Err(_) => Err(Fault::Write),
    }
}

/// Writes the bytes. `Write` where that fails: then a beginning of them was written.
pub(crate) fn write_bytes<W: Write>(out: &mut W, bytes: &[u8]) -> Result<(), Fault>
    ensures written { OnOk result (Appends (W.contents out.old) (W.contents out.new) bytes.now) }
    ensures begun { OnErr result (Begins (W.contents out.old) (W.contents out.new) bytes.now) }
    ensures fault { IfErr result (λ e. e ≡ WriteFault) }
{
    let mut rest = bytes;
    for _turn in 0..u64::MAX {
        if rest.is_empty() {
            return Ok(());
        }
        let taken = write_some(out, rest)?;
        let (_, later) = rest.split_at(taken);
        rest = later;
    }
    Err(Fault::Write)
}

/// Flushes. `Write` where that fails.
pub(crate) fn flush<W: Write>(out: &mut W) -> Result<(), Fault>
    ensures kept { Keeps (W.contents out.old) (W.contents out.new) }
    ensures fault { IfErr result (λ e. e ≡ WriteFault) }
{
    match out.flush() {
        Ok(()) => Ok(()),
        Err(_) => Err(Fault::Write),
    }
}

/// Writes the bytes, and flushes. `Write` where that fails: then a beginning of them was written.
pub fn write_output<W: Write>(out: &mut W, bytes: &[u8]) -> Result<(), Fault>
    ensures written { OnOk result (Appends (W.contents out.old) (W.contents out.new) bytes.now) }
    ensures begun { OnErr result (Begins (W.contents out.old) (W.contents out.new) bytes.now) }
    ensures fault { IfErr result (λ e. e ≡ WriteFault) }
{
    write_bytes(out, bytes)?;
    flush(out)
}
