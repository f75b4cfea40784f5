//! Commands on a folder, from standard input.

use lsm_requests::IngestOptions;

/// Commands on the folder of this path, one a line of standard input: it is opened or begun as a
/// batch that is to come in asks for. Workers, 1 to 16, compact beside; none where it is not said.
/// If it bails it ends behind the first line that fails. If it only reads, the lock is shared, and
/// each line that would write is refused.
#[derive(Clone, Copy, Debug)]
pub struct ShellLine<'a> {
    pub path: &'a str,
    pub options: IngestOptions,
    pub workers: Option<usize>,
    pub bails: bool,
    pub reads_only: bool,
}
