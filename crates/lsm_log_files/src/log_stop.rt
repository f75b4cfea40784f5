//! Where the reading of logs stopped, and what is told of it.

ghost use Rattle.std.specs.Prelude.{◌≡◌, IfOk, None, OnOk};
ghost use Rattle.std.specs.Prelude.{string_bytes};
ghost use Rattle.std.specs.Io.KnownBytes.{Appends, Keeps};
ghost use Rattle.lsm_text.specs.Printing.{Begins};
ghost use Rattle.lsm_log_files.specs.Stops.{fault_text, left_text, stop_text};

use crate::log_files::log_file;
use lsm_directory::{OutputFault, write_output};
use lsm_wal::WriteLogFault;
use std::alloc::{AllocError, Global};
use std::io::Write;

/// Where the reading of logs stopped.
#[derive(Clone, Copy, Debug)]
pub struct LogStop {
    /// The number of the log.
    pub log: u64,
    /// Its first fault, behind the logs before it.
    pub fault: WriteLogFault,
    /// How many bytes of it are left out: those behind its last whole record before the fault.
    pub bytes: u64,
    /// How many logs behind it are left out.
    pub later: u64,
}

/// Which fault a log has.
fn fault_text(alloc: Global, log: u64, fault: WriteLogFault) -> Result<String, AllocError>
    ensures { IfOk result (λ s. string_bytes s ≡ fault_text log fault) }
{
    let file = log_file(alloc, log)?;
    let number = fault.number();
    let name = fault.name();
    format!(in alloc; "{file} has {number} {name}")
}

/// What is told of logs that were left out.
fn stop_text(alloc: Global, stop: LogStop) -> Result<String, AllocError>
    ensures { IfOk result (λ s. string_bytes s ≡ stop_text stop) }
{
    let LogStop {
        log,
        fault,
        bytes,
        later,
    } = stop;
    let fault = fault_text(alloc, log, fault)?;
    format!(in alloc; "note: {fault}: its last {bytes} bytes and {later} later logs are left out\n")
}

/// Writes what is told of logs that were left out, if some were.
#[tactic(auto, using(crate::proofs::StopLaws::begun_none, crate::proofs::StopLaws::none_told))]
pub fn tell_left_out<E: Write>(
    alloc: Global,
    stop: Option<LogStop>,
    err: &mut E,
) -> Result<(), OutputFault>
    ensures told { OnOk result
        (Appends (E.contents err.old) (E.contents err.new) (left_text stop)) }
    ensures begun { Begins (E.contents err.old) (E.contents err.new) (left_text stop) }
    ensures quiet { stop ≡ None → Keeps (E.contents err.old) (E.contents err.new) }
{
    let Some(stop) = stop else {
        return Ok(());
    };
    match stop_text(alloc, stop) {
        Ok(text) => write_output(err, text.as_bytes()),
        Err(_) => Err(OutputFault),
    }
}
