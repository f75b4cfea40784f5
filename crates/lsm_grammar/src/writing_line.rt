//! A command that writes a folder.

use crate::writing_command::WritingCommand;

/// A command that writes a directory, and the path of that.
#[derive(Debug, Drop)]
pub struct WritingLine<'a> {
    pub path: &'a str,
    pub command: WritingCommand<'a>,
}
