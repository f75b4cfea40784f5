//! What a log holds before its first fault.

ghost use Rattle.std.specs.Prelude.{◌≡◌, ◌++◌, ◌+◌, ◌<◌, ◌≤◌, ℕ, suc, List, length, take};
ghost use Rattle.std.specs.Prelude.{IfNone, IfOk, IfSome, MatchResult};
ghost use Rattle.lsm_wal.specs.Front.{IsFaultAbove, IsFront, IsLogAbove};
ghost use Rattle.lsm_wal.specs.WriteLog.{SpellsFirstBatches};
ghost use Rattle.lsm_wal.specs.declared.write_batch.WriteBatch.{WriteBatch as Given};
ghost use Rattle.lsm_wal.specs.declared.write_log_fault.WriteLogFault.{WriteLogFault as Fault};

use crate::write_log::{WriteLog, first_batches, one_write_log, read_writes};
use crate::write_log_fault::WriteLogFault;
use crate::write_logs::begin_below;
use lsm_codec::List;
use std::alloc::{AllocError, Global};

/// What a log holds before its first fault, or all that it holds.
#[derive(Debug, Drop)]
pub(crate) struct LogFront {
    /// What the bytes before the fault hold.
    pub(crate) log: WriteLog,
    /// How many bytes these are.
    pub(crate) len: usize,
    /// The fault that they have together with the next byte; none where they are all bytes.
    pub(crate) fault: Option<WriteLogFault>,
}

/// A log, or its fault: also that its first batch begins below a sequence.
fn judged(
    alloc: Global,
    least: u64,
    bytes: &[u8],
) -> Result<Result<WriteLog, WriteLogFault>, AllocError>
    ensures { IfOk result (λ r. MatchResult r
        (λ log. IsLogAbove least bytes.now log.batches log.rest)
        (IsFaultAbove least bytes.now)) }
{
    match read_writes(alloc, bytes) {
        Ok(log) => {
            if begin_below(least, log.batches.as_slice()) {
                return Ok(Err(WriteLogFault::SequenceOrder));
            }
            Ok(Ok(log))
        }
        Err(fault) => match fault {
            WriteLogFault::OutOfMemory => Err(AllocError),
            fault => Ok(Err(fault)),
        },
    }
}

/// A front of these bytes that is a log, and which is none with the next byte. They have this
/// fault. It is looked for by halves, so that all is read some 20 times.
fn before_fault(
    alloc: Global,
    least: u64,
    bytes: &[u8],
    fault: WriteLogFault,
) -> Result<LogFront, AllocError>
    requires { IsFaultAbove least bytes.now fault }
    ensures front { IfOk result (λ f.
        IsLogAbove least (take f.len bytes.now) f.log.batches f.log.rest) }
    ensures inside { IfOk result (λ f. f.len < length bytes.now) }
    ensures fault { IfOk result (λ f. IfSome f.fault
        (IsFaultAbove least (take (suc f.len) bytes.now))) }
    ensures some { IfOk result (λ f. IfNone f.fault ⊥) }
{
    let mut log = WriteLog {
        batches: List::of(Vec::new(alloc)),
        rest: 0,
    };
    let mut len = 0;
    let mut end = bytes.len();
    let mut fault = fault;
    'halves: while len + 1 < end {
        let middle = len + (end - len) / 2;
        match judged(alloc, least, &bytes[..middle])? {
            Ok(front) => {
                log = front;
                len = middle;
            }
            Err(next) => {
                fault = next;
                end = middle;
            }
        }
    }
    Ok(LogFront {
        log,
        len,
        fault: Some(fault),
    })
}

/// Reads a log whose first batch may not begin below a sequence, up to a fault: the batches of a
/// front that is such a log, and which is none with the next byte, or of all bytes. `AllocError`
/// where a growth was refused.
pub(crate) fn read_to_first_fault(
    alloc: Global,
    least: u64,
    bytes: &[u8],
) -> Result<LogFront, AllocError>
    // The batches are those of the bytes before the fault.
    ensures front { IfOk result (λ f.
        IsLogAbove least (take f.len bytes.now) f.log.batches f.log.rest) }

    // Without a fault these are all bytes.
    ensures whole { IfOk result (λ f. IfNone f.fault (f.len ≡ length bytes.now)) }

    // With the next byte they have the fault.
    ensures inside { IfOk result (λ f. IfSome f.fault (λ _. f.len < length bytes.now)) }
    ensures fault { IfOk result (λ f. IfSome f.fault
        (IsFaultAbove least (take (suc f.len) bytes.now))) }
{
    match judged(alloc, least, bytes)? {
        Ok(log) => Ok(LogFront {
            log,
            len: bytes.len(),
            fault: None,
        }),
        Err(fault) => before_fault(alloc, least, bytes, fault),
    }
}

/// How many bytes are left out behind the whole records of a front: the rest at its end, and what
/// follows it.
pub(crate) fn left_behind(len: usize, front: usize, rest: u64) -> u64
    requires front { front ≤ len }
    requires rest { rest ≤ front }
    ensures { result + front ≡ len + rest }
{
    (len - front) as u64 + rest
}

/// A law: at most one front of a log's bytes stands before its first fault. What stands before the
/// damage of a log is in it: of the batches of the undamaged log those that its first bytes spell,
/// up to any place before the damage.
pub fn log_fronts()
    ensures one { (least : ℕ) (bytes : List ℕ) (xs ys : List Given) (m n : ℕ) (e f : Fault)
        → IsFront least bytes xs m e → IsFront least bytes ys n f
        → (xs ≡ ys) × (m ≡ n) × (e ≡ f) }
    ensures kept { (least : ℕ) (bytes undamaged : List ℕ) (batches taken : List Given)
        (rest left : ℕ) (e : Fault) → IsLogAbove least undamaged batches rest
        → IsFront least bytes taken left e → (n : ℕ) → take n bytes ≡ take n undamaged
        → (first : SpellsFirstBatches (take n undamaged) batches)
        × ((more : List Given) × (taken ≡ take first.whole batches ++ more)) }
{
    first_batches();
    one_write_log();
}
