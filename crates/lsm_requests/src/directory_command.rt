//! What is asked of a directory.

use crate::get_output::GetOutput;
use crate::scan_options::ScanOptions;
use lsm_codec::Bytes;

/// A command on a directory.
#[derive(Debug, Drop)]
pub enum DirectoryCommand {
    /// All that a read can reach is verified, by so many threads, 1 to 16: as many as the machine
    /// has processors, 16 at most, where it is not said.
    Check(Option<usize>),
    /// The files.
    List,
    /// The value of a key.
    Get(Bytes, GetOutput),
    /// The live keys within bounds, with their values.
    Scan(ScanOptions),
}
