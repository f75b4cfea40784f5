//! What is asked of a directory, with all that an answer needs beside it.

use lsm_directory::Beside;
use lsm_folder::Reasons;
use lsm_requests::DirectoryCommand;
use lsm_text::Form;

/// What is asked of a directory: the command; the form of keys and values; what lies beside its
/// tables, as `look_beside` finds it, and is not read; whether it is refused where there is such;
/// whether `check` and `scan` are to say on standard error how far they are; and where the system's
/// answers are kept of which a refusal tells.
#[derive(Clone, Copy, Debug)]
pub struct Inquiry<'a> {
    pub command: &'a DirectoryCommand,
    pub form: Form,
    pub beside: &'a Beside,
    pub strict: bool,
    pub progress: bool,
    pub reasons: Option<&'a Reasons>,
}
