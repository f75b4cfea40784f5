//! A command on a folder that is only read.

use crate::directory_command::DirectoryCommand;
use lsm_text::Form;

/// A command on a directory that is only read, and the path of that.
#[derive(Debug, Drop)]
pub struct DirectoryLine<'a> {
    pub path: &'a str,
    pub command: DirectoryCommand,
    /// How keys and values are spelled: `Text` where there is `--text`.
    pub form: Form,
    /// Whether it is refused where it would note what is not read: where there is `--strict`.
    pub strict: bool,
    /// Whether logs that are not flushed are seen as brought in: where there is `--logs`.
    pub logs: bool,
    /// Whether compressed tables are seen as plain ones: where there is `--inflate`.
    pub inflates: bool,
    /// Whether no table is read that the command does not come to: where there is `--quick`, which
    /// excludes `--logs` and `--inflate`.
    pub quick: bool,
    /// Whether it is to say on standard error how far it is: where there is `--progress`.
    pub progress: bool,
}
