//! What is answered on standard input and output, and with which exit status.

ghost use Rattle.std.specs.Prelude.{◌≡◌, ◌≢◌};
ghost use Rattle.std.specs.Io.KnownBytes.{Keeps};
ghost use Rattle.lsm_cmd_convert.specs.Converted.{IsConverted, IsNotConverted, IsUnconverted};
ghost use Rattle.lsm_requests.specs.Inputs.{text_in};
ghost use Rattle.lsm_text.specs.declared.fault.Fault.{Fault};

use crate::converting::perform;
use lsm_directory::{Known, Paths, Unopened, refuse, status_of};
use lsm_folder::FolderCalls;
use lsm_requests::{Conversion, Input};
use lsm_text::Fault;
use std::alloc::Global;
use std::io::{Read, Write};

/// Reads an input whole, writes on `out` what it is converted to, and answers the exit status: 0
/// where it is done, and 1 where it is refused. A fault is one line on `err`, which for `read
/// fault` and `bad line I` a second one explains; then nothing is written to `out`, but for a write
/// fault.
///
/// `bad line I` names the first bad line of a list, `refused N Name ..` a refusal by its number
/// and name (docs/FORMATS.md). A read that fails, or that gives more than 64 MiB, is
/// `read fault`, a write that fails `write fault`.
pub fn convert<R: Read, O: Write, E: Write>(
    alloc: Global,
    conversion: Conversion,
    input: &mut R,
    out: &mut O,
    err: &mut E,
) -> u8
    ensures done { result ≡ 0
        → IsConverted conversion (R.remaining input.old) (O.contents out.old) (O.contents out.new) }
    ensures refused { result ≢ 0 → (result ≡ 1) × ((fault : Fault) × IsNotConverted conversion
        (R.remaining input.old) fault (O.contents out.old) (O.contents out.new)) }
    ensures quiet { result ≡ 0 → Keeps (E.contents err.old) (E.contents err.new) }
{
    let done = perform(alloc, conversion, input, out);
    status_of(done, Known::answered(None), err)
}

/// Converts the input that is found here, standard input or the file of a path, and answers the
/// exit status.
pub fn run_convert<C, P, I, O, E>(
    paths: &P,
    conversion: Conversion,
    found: Input<'_>,
    standard: &mut I,
    out: &mut O,
    err: &mut E,
) -> u8
where
    C: FolderCalls,
    P: Paths<C>,
    I: Read,
    O: Write,
    E: Write,
    ensures done { result ≡ 0 → IsConverted conversion
        (text_in (I.remaining standard.old) (P.text paths.now) found.entry)
        (O.contents out.old) (O.contents out.new) }
    ensures refused { result ≢ 0 → (result ≡ 1) × IsUnconverted conversion
        (text_in (I.remaining standard.old) (P.text paths.now) found.entry)
        (O.contents out.old) (O.contents out.new) }
    ensures quiet { result ≡ 0 → Keeps (E.contents err.old) (E.contents err.new) }
{
    let path = match found {
        Input::Standard => return convert(paths.alloc(), conversion, standard, out, err),
        Input::File(path) => path,
    };
    match paths.open_file(path) {
        Ok(mut file) => convert(paths.alloc(), conversion, &mut file, out, err),
        Err(error) => refuse(Unopened { path, error }, err),
    }
}
