//! The entries of a text list, one after another.

ghost use Rattle.std.specs.Prelude.{◌≡◌, ◌+◌, ◌<◌, ◌^◌, length, IfOk, IfErr, None, true};
ghost use Rattle.lsm_text.specs.declared.entry_reader.LineFault.TheVariants.{OutOfMemory};

use crate::entry_buffer::EntryBuffer;
use crate::text_parts::first_line;
use std::alloc::{AllocError, Global};
use std::cmp::Ordering;
use std::mem;

/// Why a text list could not be read on.
#[derive(Debug, Drop)]
pub enum LineFault {
    /// The number of the first bad line, from 1.
    BadLine(usize),
    /// A growth of memory was refused.
    OutOfMemory,
}

impl From<AllocError> for LineFault {
    ghost from_gives = { λ _ f. f ≡ OutOfMemory };

    fn from(_error: AllocError) -> LineFault {
        LineFault::OutOfMemory
    }
}

/// A text list that is being read, and the entry read last.
#[derive(Debug, Drop)]
pub struct EntryReader<'a> {
    rest: &'a [u8],
    line: usize,
    pub entry: EntryBuffer,
    spare: EntryBuffer,
    ghost counted: { line + length rest.now < 2 ^ 64 },
}

impl<'a> EntryReader<'a> {
    ghost use Rattle.lsm_text.specs.EntryReading.{list_at};
    ghost use Rattle.lsm_text.specs.ReaderView.{before_of, rest_of, left_of, Advances, Stops};

    pub fn new(alloc: Global, text: &'a [u8]) -> EntryReader<'a>
        ensures rest { rest_of result ≡ list_at text.now }
        ensures before { before_of result ≡ None }
    {
        EntryReader {
            rest: text,
            line: 0,
            entry: EntryBuffer::new(alloc),
            spare: EntryBuffer::new(alloc),
        }
    }

    /// Reads the next entry into `entry`. `false` at the end. After a fault what is held is not
    /// specified.
    #[tactic(auto, unfolding(crate::specs::EntryReading::entries_at))]
    pub fn next(&mut self) -> Result<bool, LineFault>
        ensures ok { IfOk result (λ more. Advances more self.old self.new) }
        ensures err { IfErr result (λ e. Stops e self.old) }
        ensures shorter { IfOk result (λ more. more ≡ true → left_of self.new < left_of self.old) }
    {
        if self.rest.is_empty() {
            return Ok(false);
        }
        let (line, rest) = first_line(self.rest);
        if !self.spare.read(line)? {
            return Err(LineFault::BadLine(self.line + 1));
        }
        if self.line > 0 && self.entry.key().compare(&self.spare.key()) != Ordering::Less {
            return Err(LineFault::BadLine(self.line + 1));
        }
        mem::swap(&mut self.entry, &mut self.spare);
        self.rest = rest;
        self.line += 1;
        Ok(true)
    }
}
