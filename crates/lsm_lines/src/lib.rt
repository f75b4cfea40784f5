//! Lines of writes, and the batches that they are gathered to.
#![tactic(auto)]

// Lines that are read.
mod ahead;
mod line_reader;

// Writes that are gathered.
mod write_buffer;

// What a line writes.
mod line_form;
mod object_fault;
mod put_object;
mod write_line_fault;

// Lines as batches.
mod batch_reader;
mod filling;
mod gathered;

// What holds of batches.
mod laws;

pub use ahead::ReadFailed;
pub use batch_reader::BatchReader;
pub use gathered::{BatchEnd, Gathered};
pub use laws::{a_cut_keeps_the_last, what_is_printed_is_read};
pub use line_form::LineForm;
pub use line_reader::{HeldLine, LineReader, NextLine};
pub use object_fault::ObjectFault;
pub use write_buffer::{PutFault, WriteBuffer};
pub use write_line_fault::{LineFault, WriteLineFault};
