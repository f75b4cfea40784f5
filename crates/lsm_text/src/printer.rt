//! Text on its way to a writer.

ghost use Rattle.std.specs.Prelude.{◌≡◌, ◌≤◌, ◌+◌, [], length, IfErr, IfOk, OnErr, OnOk, vec_len};
ghost use Rattle.std.specs.Prelude.{vec_capacity};
ghost use Rattle.std.specs.Io.KnownBytes.{Appends};
ghost use Rattle.lsm_text.specs.Printing.{Begins, Passes, Stops};
ghost use Rattle.lsm_text.specs.declared.printer.TheConstants.{ROOM};
ghost use Rattle.lsm_text.specs.declared.fault.Fault.TheVariants.{Write as WriteFault};

use crate::fault::Fault;
use crate::streams::{flush, write_bytes};
use std::alloc::{AllocError, Global};
use std::io::Write;

/// The most bytes of text that are held back, 8 KiB.
const ROOM: usize = 8192;

/// Holds printed text back until there is some to write, and never more than `ROOM` bytes of it. It
/// takes its memory when it is made, and none later.
#[derive(Debug, Drop)]
pub struct Printer {
    pub(crate) held: Vec<u8>,
    ghost room: { ROOM ≤ vec_capacity held },
    ghost most: { vec_len held ≤ ROOM },
}

impl Printer {
    /// Holds nothing.
    pub fn new(alloc: Global) -> Result<Printer, AllocError>
        ensures { IfOk result (λ p. p.held.items ≡ []) }
    {
        let held = Vec::with_capacity(alloc, ROOM)?;
        Ok(Printer { held })
    }

    /// Writes what is held.
    fn let_go<O: Write>(&mut self, out: &mut O) -> Result<(), Fault>
        ensures empty { OnOk result (self.new.held.items ≡ []) }
        ensures written { OnOk result
            (Appends (O.contents out.old) (O.contents out.new) self.old.held.items) }
        ensures begun { OnErr result
            (Begins (O.contents out.old) (O.contents out.new) self.old.held.items) }
        ensures fault { IfErr result (λ e. e ≡ WriteFault) }
    {
        write_bytes(out, self.held.as_slice())?;
        self.held.clear();
        Ok(())
    }

    /// Writes what is held where a piece has no room beside it.
    fn make_room<O: Write>(&mut self, out: &mut O, len: usize) -> Result<(), Fault>
        requires { len ≤ ROOM }
        ensures room { OnOk result (vec_len self.new.held + len ≤ ROOM) }
        ensures printed { OnOk result (Passes (O.contents out.old) self.old.held.items
            (O.contents out.new) self.new.held.items []) }
        ensures begun { OnErr result
            (Stops (O.contents out.old) self.old.held.items (O.contents out.new) []) }
        ensures fault { IfErr result (λ e. e ≡ WriteFault) }
    {
        if self.held.len() <= ROOM - len {
            return Ok(());
        }
        self.let_go(out)
    }

    /// Prints a piece of text.
    pub fn push<O: Write>(&mut self, out: &mut O, piece: &[u8]) -> Result<(), Fault>
        requires { length piece.now ≤ ROOM }
        ensures printed { OnOk result (Passes (O.contents out.old) self.old.held.items
            (O.contents out.new) self.new.held.items piece.now) }
        ensures begun { OnErr result
            (Stops (O.contents out.old) self.old.held.items (O.contents out.new) piece.now) }
        ensures fault { IfErr result (λ e. e ≡ WriteFault) }
    {
        self.make_room(out, piece.len())?;
        let Ok(()) = self.held.extend_from_slice(piece) else {
            unreachable!()
        };
        Ok(())
    }

    /// Writes what is held, and flushes.
    pub fn finish<O: Write>(&mut self, out: &mut O) -> Result<(), Fault>
        ensures written { OnOk result
            (Appends (O.contents out.old) (O.contents out.new) self.old.held.items) }
        ensures begun { OnErr result
            (Begins (O.contents out.old) (O.contents out.new) self.old.held.items) }
        ensures fault { IfErr result (λ e. e ≡ WriteFault) }
    {
        self.let_go(out)?;
        flush(out)
    }
}
