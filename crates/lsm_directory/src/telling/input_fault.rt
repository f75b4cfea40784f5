//! A fault of an input that is read whole, as it is told.

ghost use Rattle.std.specs.Prelude.{None};
ghost use Rattle.lsm_directory.specs.Inputs.{meaning};

use crate::faults::meanings::of_table;
use crate::telling::Exit;
use lsm_batch::Write as KeyWrite;
use lsm_text::Fault;
use std::io::{self, Write};

impl Exit for Fault {
    ghost file = { λ _. None };

    ghost meaning = { meaning };

    fn table_file(&self) -> Option<u64> {
        None
    }

    fn refusal(&self) -> Option<u64> {
        None
    }

    fn explain<E: Write>(&self, err: &mut E, _writes: &[KeyWrite]) -> io::Result<()> {
        match self {
            Fault::Read => writeln!(err, "the input could not be read, or has more than 64 MiB"),
            Fault::BadLine(line) => writeln!(
                err,
                "line {line} is not of the form KEY SEQ put VALUE or KEY SEQ del, in hex, or is out of order"
            ),
            Fault::Table(fault) => err.write_all(of_table(*fault).as_bytes()),
            Fault::Write | Fault::OutOfMemory | Fault::TooLarge | Fault::Log(_) | Fault::Edit(_) =>
                Ok(()),
        }
    }
}
