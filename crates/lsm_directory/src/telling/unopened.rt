//! An input that is not read, since its file cannot be opened.

ghost use Rattle.std.specs.Prelude.{None};

use crate::telling::Exit;
use lsm_batch::Write as KeyWrite;
use lsm_text::Fault;
use std::fmt;
use std::io::{self, ErrorKind, Write};

/// The file of this path cannot be opened: the system says why. It prints as `read fault`, or as
/// the refusal for want of memory.
#[derive(Drop)]
pub struct Unopened<'a> {
    pub path: &'a str,
    pub error: io::Error,
}

impl<'a> Unopened<'a> {
    /// Whether it is for want of memory.
    fn wants_memory(&self) -> bool {
        self.error.kind() == ErrorKind::OutOfMemory
    }
}

impl<'a> fmt::Display for Unopened<'a> {
    ghost output = { λ _. None };

    fn fmt<W: fmt::Write>(&self, f: &mut fmt::Formatter<W>) -> fmt::Result {
        let fault = if self.wants_memory() {
            Fault::OutOfMemory
        } else {
            Fault::Read
        };
        write!(f, "{fault}")
    }
}

impl<'a> Exit for Unopened<'a> {
    ghost file = { λ _. None };

    ghost meaning = { λ _. None };

    fn table_file(&self) -> Option<u64> {
        None
    }

    fn refusal(&self) -> Option<u64> {
        None
    }

    fn explain<E: Write>(&self, err: &mut E, _writes: &[KeyWrite]) -> io::Result<()> {
        if self.wants_memory() {
            return Ok(());
        }
        writeln!(err, "{} could not be opened: {}", self.path, self.error)
    }
}
