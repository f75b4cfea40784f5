//! How a command is done, whichever it is.

/// What the words of a command line say of any command on a folder.
#[derive(Clone, Copy, Debug)]
pub struct Manner {
    /// The logs that are not flushed come in first.
    pub recovers: bool,
    /// What is read of tables is compared with what was read before.
    pub compares: bool,
    /// What would be noted of the folder is refused.
    pub strict: bool,
    /// So many seconds at most are waited for a lock that another program holds.
    pub waits: Option<u64>,
}
