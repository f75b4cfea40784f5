//! Lines of writes, as batches.

ghost use Rattle.std.specs.Prelude.{◌≡◌, [], true, false, IfOk, OnOk};
ghost use Rattle.std.specs.Option.{option_to_list};
ghost use Rattle.lsm_lines.specs.Gathering.{EndsBy, IsGathered};
ghost use Rattle.lsm_lines.specs.Passing.{PassesLines};

use crate::ahead::ReadFailed;
use crate::filling::{FillEnd, fill};
use crate::gathered::{BatchEnd, Gathered};
use crate::line_form::LineForm;
use crate::line_reader::LineReader;
use crate::write_buffer::WriteBuffer;
use crate::write_line_fault::WriteLineFault;
use lsm_batch::Write;
use std::alloc::{AllocError, Global};
use std::io::Read;
use std::marker::Model;

/// An input whose lines spell writes in one form, as words or as JSON objects, and which is read as
/// batches. Its last line has a newline too, or may lack it. Contracts see the write that was read
/// and is in no batch yet, if there is one, and what is left of the input.
#[derive(Drop)]
pub struct BatchReader<I: Read + Drop> {
    lines: LineReader<I>,
    form: LineForm,
    last: bool,
    held: Option<Write>,
}

impl<I: Read + Drop> Model for BatchReader<I> {
    ghost use Rattle.std.specs.Option.{option_to_list};
    ghost use Rattle.lsm_lines.specs.Gathering.{Pending};

    ghost Value = { Pending };

    ghost view = { λ r. record {
      form = r.form;
      last = r.last;
      held = option_to_list r.held;
      left = r.lines.left;
    } };
}

/// Puts the write that was held back, if there is one, in an empty buffer. It is within the limits
/// of one write, so that only memory may refuse it here: `false`.
fn put_held(held: Option<Write>, buffer: &mut WriteBuffer) -> bool
    requires { buffer.old ≡ [] }
    ensures put { result ≡ true → buffer.new ≡ option_to_list held }
    ensures refused { result ≡ false → buffer.new ≡ [] }
{
    match held {
        Some(write) => buffer.put(write).is_ok(),
        None => true,
    }
}

impl<I: Read + Drop> BatchReader<I> {
    /// Nothing is read yet; `last` says whether the last line may lack its newline. `AllocError`
    /// where there is no memory to read ahead.
    pub fn new(
        alloc: Global,
        form: LineForm,
        last: bool,
        input: I,
    ) -> Result<BatchReader<I>, AllocError>
        ensures { IfOk result (λ r. r
            ≡ record { form = form; last = last; held = []; left = I.remaining input }) }
    {
        Ok(BatchReader {
            lines: LineReader::new(alloc, input)?,
            form,
            last,
            held: None,
        })
    }

    /// Passes over so many lines, whatever they are, or over all where there are fewer. The write
    /// that is held back stays.
    ///
    /// # Errors
    /// `ReadFailed` where a read of the input fails.
    pub fn pass(&mut self, count: u64) -> Result<(), ReadFailed>
        ensures passed { OnOk result (PassesLines count self.old.left self.new.left) }
        ensures rest { self.new ≡ record self.old { left = self.new.left } }
    {
        self.lines.pass(count)
    }

    /// Puts the writes that come next in an empty buffer. What ended it.
    fn fill(&mut self, alloc: Global, buffer: &mut WriteBuffer) -> BatchEnd
        requires { buffer.old ≡ [] }
        ensures form { self.new.form ≡ self.old.form }
        ensures last { self.new.last ≡ self.old.last }
        ensures ends { EndsBy self.old self.new buffer.new result }
    {
        let held = self.held.take();
        if !put_held(held, buffer) {
            return BatchEnd::Stopped(WriteLineFault::OutOfMemory);
        }
        match fill(alloc, self.form, self.last, &mut self.lines, buffer) {
            FillEnd::Over(write) => {
                self.held = Some(write);
                BatchEnd::Full
            }
            FillEnd::Enough => BatchEnd::Full,
            FillEnd::End => BatchEnd::End,
            FillEnd::Stopped(fault) => BatchEnd::Stopped(fault),
        }
    }

    /// The batch of the next lines: as many as a batch may have, or all up to a line that is no
    /// write of a batch, or to the end. Of a line that is too long no more is read than shows it,
    /// and nothing may be read behind it. It may have no entry. `AllocError` where there is no
    /// memory for the batch; then its lines are lost.
    pub fn next(&mut self, alloc: Global) -> Result<Gathered, AllocError>
        ensures { IfOk result (IsGathered self.old self.new) }
    {
        let mut buffer = WriteBuffer::new(alloc);
        let end = self.fill(alloc, &mut buffer);
        let lines = buffer.len();
        let batch = buffer.into_batch(alloc)?;
        Ok(Gathered { batch, lines, end })
    }
}
