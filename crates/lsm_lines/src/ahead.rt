//! Bytes that are read ahead.

ghost use Rattle.std.specs.Prelude.{◌≡◌, ◌<◌, ◌≤◌, [], length, drop, false, true, IfOk};
ghost use Rattle.std.specs.Io.KnownBytes.{IsAtEnd, Keeps};
ghost use Rattle.lsm_lines.specs.Reading.{bytes_left};

use std::alloc::{AllocError, Global};
use std::io::{ErrorKind, Read};
use std::marker::Model;

/// How many bytes are read at a time at most, 64 KiB.
const AHEAD: usize = 65_536;

/// A read of the input failed.
#[derive(Clone, Copy, Debug)]
pub struct ReadFailed;

/// An input, with the bytes that were read of it and not taken yet. It takes its memory when it is
/// made. Contracts see these bytes, and what the input has left behind them.
#[derive(Drop)]
pub(crate) struct Ahead<I: Read + Drop> {
    input: I,
    buffer: Vec<u8>,
    start: usize,
    end: usize,
}

impl<I: Read + Drop> Model for Ahead<I> {
    ghost use Rattle.std.specs.Prelude.{◌≤◌, length, slice_range};
    ghost use Rattle.lsm_lines.specs.Reading.{ReadAhead};

    ghost Value = { ReadAhead };

    ghost view = { λ a. record {
      ready = slice_range a.buffer.items a.start a.end;
      behind = I.remaining a.input;
    } };

    ghost invariant = { λ a. (a.start ≤ a.end) × (a.end ≤ length a.buffer.items)
        × (65536 ≤ length a.buffer.items) };
}

impl<I: Read + Drop> Ahead<I> {
    /// Nothing is read yet.
    pub(crate) fn new(alloc: Global, input: I) -> Result<Ahead<I>, AllocError>
        ensures { IfOk result (λ a. a ≡ record { ready = []; behind = I.remaining input }) }
    {
        let mut buffer = Vec::new(alloc);
        buffer.resize(AHEAD, 0)?;
        Ok(Ahead {
            input,
            buffer,
            start: 0,
            end: 0,
        })
    }

    /// Where no byte is ready it reads some, and waits for them. Whether one is ready then; `false`
    /// at the end of the input alone.
    pub(crate) fn fill(&mut self) -> Result<bool, ReadFailed>
        ensures kept { Keeps (bytes_left self.old) (bytes_left self.new) }
        ensures some { IfOk result (λ more. more ≡ true → 0 < length self.new.ready) }
        ensures none { IfOk result (λ more. more ≡ false → IsAtEnd (bytes_left self.new)) }
    {
        if self.start < self.end {
            return Ok(true);
        }
        for _turn in 0..u64::MAX {
            match self.input.read(self.buffer.as_mut_slice()) {
                Ok(read) => {
                    self.start = 0;
                    self.end = read;
                    return Ok(read > 0);
                }
                Err(error) if error.kind() == ErrorKind::Interrupted => {}
                Err(_) => return Err(ReadFailed),
            }
        }
        Err(ReadFailed)
    }

    /// The bytes that are ready.
    pub(crate) fn ready(&self) -> &[u8]
        ensures { result.now ≡ self.now.ready }
    {
        &self.buffer[self.start..self.end]
    }

    /// Takes the first of the bytes that are ready, so many.
    pub(crate) fn pass(&mut self, count: usize)
        requires { count ≤ length self.old.ready }
        ensures { self.new ≡ record self.old { ready = drop count self.old.ready } }
    {
        self.start += count;
    }
}
