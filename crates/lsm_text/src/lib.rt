//! How the program `lsm` spells keys, values, numbers, entries, batches, edits and refusals, and how
//! it reads them.
//!
//! Stands on the crates of the files, on `hex` for words of bytes, and on `memchr` for what separates
//! them. Its contract: what is printed is exact, and what is read is what was spelled.
#![tactic(auto)]

// What is read from an input, and written on an output.
mod streams;

// The lists of entries that are read.
mod entry_buffer;
mod entry_reader;
mod number;
mod text_parts;
mod words;

// Batches as text.
mod batch_text;
mod line_syntax;
mod write_line;

// What is printed.
mod edit_spelling;
mod entry_printing;
mod fault;
mod printer;
mod refusal;
mod spelling;

// Words for bytes, in hex or as text.
mod form;
mod syntax_fault;
mod text_words;

// What holds of lists.
mod laws;

pub use batch_text::{BatchTextFault, batch_in, push_write};
pub use edit_spelling::{push_edit, push_file_words, push_key, push_number};
pub use entry_buffer::EntryBuffer;
pub use entry_printing::print_entry;
pub use entry_reader::{EntryReader, LineFault};
pub use fault::Fault;
pub use form::Form;
pub use laws::{one_batch, one_list, one_word, printed_list};
pub use line_syntax::LineSyntaxFault;
pub use number::number_in;
pub use printer::Printer;
pub use refusal::Refusal;
pub use spelling::{push_bytes, push_decimal};
pub use streams::{InputFault, read_input, write_output};
pub use syntax_fault::{SyntaxFault, syntax_fault_in};
pub use text_parts::{first_line, parts};
pub use write_line::write_in;
