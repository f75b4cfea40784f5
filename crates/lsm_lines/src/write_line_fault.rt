//! Why a line is no write of a batch.

use crate::object_fault::ObjectFault;
use lsm_text::LineSyntaxFault;

/// Where a line stops being one of its form, and what is wrong there.
#[derive(Clone, Copy, Debug)]
pub enum LineFault {
    /// Of words.
    Words(LineSyntaxFault),
    /// Of a JSON object.
    Object(ObjectFault),
}

/// Why a line is no write of a batch.
#[derive(Clone, Copy, Debug)]
pub enum WriteLineFault {
    /// It spells no write, and this is where that is seen.
    BadLine(Option<LineFault>),
    /// It has more than 8 MiB.
    LongLine,
    /// It spells a write whose key or value is over its limit.
    LargeWrite,
    /// It is the last one, and has no newline.
    NoNewline,
    /// The input could not be read.
    Read,
    /// There is no memory for it.
    OutOfMemory,
}
