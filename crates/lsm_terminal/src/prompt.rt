//! The prompt of a shell at a terminal.

ghost use Rattle.std.specs.Prelude.{◌≡◌};

use std::io::{self, IsTerminal, Read, Write};

/// Whether standard input, output and error are terminals.
pub fn at_terminal(host: &HostRuntime) -> bool {
    host.stdin().is_terminal() && host.stdout().is_terminal() && host.stderr().is_terminal()
}

/// An input, and an output on which each read first asks for more, if it does. A terminal gives a
/// line for a read, so that there is a prompt for each line; at its end the prompt's line is ended.
/// Contracts see what the input has left: it is read as it is.
#[derive(Drop)]
pub struct Prompted<I: Read + Drop, E: Write + Drop> {
    input: I,
    asks: Option<E>,
}

impl<I: Read + Drop, E: Write + Drop> Prompted<I, E> {
    /// Reads of this input ask on this output.
    pub fn new(input: I, asks: Option<E>) -> Prompted<I, E>
        ensures { result.input ≡ input }
    {
        Prompted { input, asks }
    }

    /// Writes where it asks. What can't be written is left out.
    fn tell(&mut self, text: &[u8])
        ensures { self.new.input ≡ self.old.input }
    {
        if let Some(out) = &mut self.asks {
            let _ = out.write_all(text);
            let _ = out.flush();
        }
    }
}

impl<I: Read + Drop, E: Write + Drop> Read for Prompted<I, E> {
    ghost remaining = { λ p. I.remaining p.input };

    fn read(&mut self, buf: &mut [u8]) -> io::Result<usize> {
        self.tell(b"lsm> ");
        let read = self.input.read(buf)?;
        if read == 0 {
            self.tell(b"\n");
        }
        Ok(read)
    }
}
