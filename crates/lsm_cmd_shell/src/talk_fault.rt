//! Why a conversation is a fault.

/// Why a conversation is a fault.
#[derive(Clone, Copy, Debug)]
pub enum TalkFault {
    /// A read of the input failed.
    Read,
    /// A write of a reply failed.
    Write,
    /// A line was bad, or was refused.
    LineFailed,
    /// A batch was begun, and neither committed nor aborted.
    BatchOpen,
}
