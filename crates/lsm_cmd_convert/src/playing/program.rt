//! One run of `script`.

ghost use Rattle.std.specs.Prelude.{◌≡◌, ◌≢◌, ◌≤◌, ◌⊎◌, ◌↔◌, IfErr, IfOk, IfSome, IsTrue};
ghost use Rattle.std.specs.Prelude.{None, OnOk};
ghost use Rattle.std.specs.Io.KnownBytes.{Appends, Keeps};
ghost use Rattle.lsm_cmd_convert.specs.Played.{IsCutShort, IsEnded, IsScriptDone, IsScriptFault};
ghost use Rattle.lsm_cmd_convert.specs.Played.{IsPlayed, IsScriptRefused, IsUnplayed, meaning};
ghost use Rattle.lsm_requests.specs.Inputs.{text_in};
ghost use Rattle.lsm_opening.specs.WriterFault.{fault_text};
ghost use Rattle.lsm_script.specs.ReplyText.{replies_text};
ghost use Rattle.lsm_opening.specs.declared.faults.writer_fault.WriterFault.TheVariants.{OutOfMemory};
ghost use Rattle.lsm_opening.specs.declared.faults.writer_fault.WriterFault.TheVariants.{Write as WriteFault};

use crate::playing::play;
use crate::playing::script_input::read_script;
use crate::playing::watched::Watched;
use lsm_batch::Write as KeyWrite;
use lsm_directory::{Exit, Paths, Unopened, refuse, write_output};
use lsm_folder::FolderCalls;
use lsm_opening::WriterFault;
use lsm_requests::Input;
use lsm_script::{Reply, push_replies};
use std::alloc::Global;
use std::fmt;
use std::io::{self, Read, Write};
use std::sync::Wait;

/// Why a script ends with status 1, where memory did not run out within a command.
#[derive(Debug, Drop)]
struct Unplayed(WriterFault);

impl fmt::Display for Unplayed {
    ghost output = { λ f. fault_text f.0 };

    fn fmt<W: fmt::Write>(&self, f: &mut fmt::Formatter<W>) -> fmt::Result {
        write!(f, "{}", self.0)
    }
}

impl Exit for Unplayed {
    ghost file = { λ _. None };

    ghost meaning = { λ f. meaning f.0 };

    fn table_file(&self) -> Option<u64> {
        None
    }

    fn refusal(&self) -> Option<u64> {
        None
    }

    fn explain<E: Write>(&self, err: &mut E, _writes: &[KeyWrite]) -> io::Result<()> {
        match &self.0 {
            WriterFault::Read => {
                writeln!(err, "the input could not be read, or has more than 64 MiB")
            }
            WriterFault::BadLine(line, _) => writeln!(
                err,
                "line {line} is none of the commands that `lsm script --help` lists, with one space between words, and keys and values in hex; `.` stands for no bytes"
            ),
            WriterFault::OutOfMemory
            | WriterFault::Write
            | WriterFault::Directory(_)
            | WriterFault::LostCurrent(_)
            | WriterFault::UnflushedLog(_)
            | WriterFault::State(_) => Ok(()),
        }
    }
}

/// Whether memory ran out within a command.
fn is_cut_short(replies: &[Reply]) -> bool
    ensures { IsTrue result ↔ IsCutShort replies.now }
{
    for reply in replies {
        if reply.ends_list() {
            return true;
        }
    }
    false
}

/// Prints replies.
fn print<O: Write>(alloc: Global, replies: &[Reply], out: &mut O) -> Result<(), WriterFault>
    ensures written { OnOk result
        (Appends (O.contents out.old) (O.contents out.new) (replies_text replies.now)) }
    ensures kept { IfErr result (λ e. e ≢ WriteFault
        → Keeps (O.contents out.old) (O.contents out.new)) }
    ensures fault { IfErr result (λ e. (e ≡ WriteFault) ⊎ (e ≡ OutOfMemory)) }
{
    let mut text = Vec::new(alloc);
    push_replies(&mut text, replies)?;
    write_output(out, &text)?;
    Ok(())
}

/// Reads a script, and prints its replies: status 0, or 1 where memory ran out within a command.
#[tactic(auto, using(crate::proofs::PlayOutcomes::input_fault, crate::proofs::PlayOutcomes::play_fault, crate::proofs::PlayOutcomes::print_fault, crate::proofs::PlayOutcomes::keeps_itself))]
fn perform<R: Wait, I: Read, O: Write>(
    rt: &R,
    alloc: Global,
    input: &mut Watched<I>,
    out: &mut O,
) -> Result<u8, WriterFault>
    ensures status { IfOk result (λ status. status ≤ 1) }
    ensures ended { IfOk result (λ status. IfSome (I.remaining input.old.inner) (λ text.
        IsEnded text status (O.contents out.old) (O.contents out.new))) }
    ensures fault { IfErr result (λ e.
        IfSome (I.remaining input.old.inner) (λ text. IsScriptFault text input.new.failed e)) }
    ensures kept { IfErr result (λ e. e ≢ WriteFault
        → Keeps (O.contents out.old) (O.contents out.new)) }
{
    let commands = read_script(alloc, input)?;
    let replies = play(rt, alloc, &commands)?;
    print(alloc, replies.as_slice(), out)?;
    if is_cut_short(replies.as_slice()) {
        return Ok(1);
    }
    Ok(0)
}

/// Runs the script that stands on an input on a new database in memory, with LevelDB's sizes, and
/// answers the exit status. All lines are read before the first command is done. Each reply is
/// written on `out`, also a refusal: `refused N Name ..`.
///
/// Status 0 where every command was answered; 1 where one was refused for want of memory, and this
/// is the last reply; 1 also where a fault is one line on `err`, and, unless a write failed,
/// nothing is written on `out`: `bad line I` for the first line that spells no command, `read
/// fault` where the last read of the input failed or there are more than 64 MiB, each of the two
/// with a second line that says what it may mean; `write fault`; `refused 1 OutOfMemory`.
#[tactic(auto, using(crate::proofs::PlayOutcomes::keeps_itself))]
pub fn script<R: Wait, I: Read, O: Write, E: Write>(
    rt: &R,
    alloc: Global,
    input: &mut Watched<I>,
    out: &mut O,
    err: &mut E,
) -> u8
    ensures done { result ≡ 0 → IfSome (I.remaining input.old.inner) (λ text.
        IsScriptDone text (O.contents out.old) (O.contents out.new)) }
    ensures refused { result ≢ 0 → (result ≡ 1) × IfSome (I.remaining input.old.inner) (λ text.
        IsScriptRefused text input.new.failed (O.contents out.old) (O.contents out.new)) }
    ensures quiet { result ≡ 0 → Keeps (E.contents err.old) (E.contents err.new) }
{
    match perform(rt, alloc, input, out) {
        Ok(status) => status,
        Err(fault) => refuse(Unplayed(fault), err),
    }
}

/// Runs the script of the input that is found here, standard input or the file of a path, and
/// answers the exit status.
pub fn run_script<C, P, R, I, O, E>(
    rt: &R,
    paths: &P,
    found: Input<'_>,
    standard: I,
    out: &mut O,
    err: &mut E,
) -> u8
where
    C: FolderCalls,
    P: Paths<C>,
    R: Wait,
    I: Read + Drop,
    O: Write,
    E: Write,
    ensures done { result ≡ 0 → IsPlayed
        (text_in (I.remaining standard) (P.text paths.now) found.entry)
        (O.contents out.old) (O.contents out.new) }
    ensures refused { result ≢ 0 → (result ≡ 1)
        × IsUnplayed (text_in (I.remaining standard) (P.text paths.now) found.entry)
        (O.contents out.old) (O.contents out.new) }
    ensures quiet { result ≡ 0 → Keeps (E.contents err.old) (E.contents err.new) }
{
    let path = match found {
        Input::Standard => {
            let mut input = Watched::new(standard);
            return script(rt, paths.alloc(), &mut input, out, err);
        }
        Input::File(path) => path,
    };
    match paths.open_file(path) {
        Ok(file) => {
            let mut input = Watched::new(file);
            script(rt, paths.alloc(), &mut input, out, err)
        }
        Err(error) => refuse(Unopened { path, error }, err),
    }
}
