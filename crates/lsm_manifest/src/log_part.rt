//! What stands at a place of a log.

ghost use Rattle.std.specs.Prelude.{◌≡◌, ◌+◌, ◌<◌, ◌≤◌, length, IfOk, IfSome, Ok, Err};
ghost use Rattle.lsm_manifest.specs.LogReading.{filler_at, checked_at, framed_at, found_at};

use crate::fragment::{FragmentType, room, sum};
use crate::log_fault::LogFault;

/// What stands at a place of a log.
#[derive(Clone, Copy)]
pub(crate) enum LogPart<'a> {
    /// Nothing whole up to the end of the log.
    End,
    /// A part that is skipped, before this rest.
    Skipped(&'a [u8]),
    /// A fragment with this data, before this rest.
    Fragment(FragmentType, &'a [u8], &'a [u8]),
}

impl<'a> LogPart<'a> {
    ghost use Rattle.lsm_manifest.specs.LogView.{Gives, found_of};

    /// What stands at this offset, where a record is begun or not, and the log goes on with the
    /// text.
    #[tactic(auto, unfolding(crate::specs::LogReading::found_at))]
    pub(crate) fn at(offset: u64, begun: bool, text: &'a [u8]) -> Result<LogPart<'a>, LogFault>
        ensures shorter { IfOk result (λ f.
            IfSome (found_of f) (λ x. length x.2 ≤ length text.now)) }
        ensures reads { Gives found_of result (found_at offset begun text.now) }
    {
        if text.len() < 7 {
            return Ok(LogPart::End);
        }
        let left = room(offset);
        if left < 7 {
            let (_, rest) = text.split_at(left);
            return Ok(LogPart::Skipped(rest));
        }
        let size = u16::from_le_bytes([text[4], text[5]]) as usize;
        LogPart::framed(offset, begun, text, size, text[6])
    }

    /// The same, where a header of this length and type stands.
    #[tactic(auto, unfolding(crate::specs::LogReading::framed_at))]
    fn framed(
        offset: u64,
        begun: bool,
        text: &'a [u8],
        size: usize,
        kind: u8,
    ) -> Result<LogPart<'a>, LogFault>
        requires { size < 65536 }
        ensures shorter { IfOk result (λ f.
            IfSome (found_of f) (λ x. length x.2 ≤ length text.now)) }
        ensures reads { Gives found_of result (framed_at offset begun text.now size kind) }
    {
        if kind == 0 && size == 0 {
            return LogPart::filler(offset, begun, text);
        }
        let left = room(offset);
        if 7 + size <= left && 7 + size <= text.len() {
            return LogPart::checked(offset, text, size, kind);
        }
        if text.len() <= left {
            return Ok(LogPart::End);
        }
        Err(LogFault::LogOrder(offset))
    }

    /// The same, where the type and the length are zeros.
    #[tactic(auto, unfolding(crate::specs::LogReading::filler_at))]
    fn filler(offset: u64, begun: bool, text: &'a [u8]) -> Result<LogPart<'a>, LogFault>
        ensures shorter { IfOk result (λ f.
            IfSome (found_of f) (λ x. length x.2 ≤ length text.now)) }
        ensures reads { Gives found_of result (filler_at offset begun text.now) }
    {
        if begun {
            return Err(LogFault::LogOrder(offset));
        }
        let left = room(offset);
        if text.len() <= left {
            return Ok(LogPart::End);
        }
        let (_, rest) = text.split_at(left);
        Ok(LogPart::Skipped(rest))
    }

    /// The same, where the fragment lies within its block and the log.
    #[tactic(auto, unfolding(crate::specs::LogReading::checked_at))]
    fn checked(offset: u64, text: &'a [u8], size: usize, kind: u8) -> Result<LogPart<'a>, LogFault>
        requires { 7 + size ≤ length text.now }
        ensures shorter { IfOk result (λ f.
            IfSome (found_of f) (λ x. length x.2 ≤ length text.now)) }
        ensures reads { Gives found_of result (checked_at offset text.now size kind) }
    {
        let (head, _) = text.split_at(4);
        let (_, after) = text.split_at(7);
        let (body, rest) = after.split_at(size);
        if head != sum(kind, body).as_slice() {
            return Err(LogFault::LogChecksum(offset));
        }
        match FragmentType::of(kind) {
            Some(kind) => Ok(LogPart::Fragment(kind, body, rest)),
            None => Err(LogFault::LogType(offset)),
        }
    }
}
