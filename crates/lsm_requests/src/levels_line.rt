//! The levels of a folder.

use crate::levels_output::LevelsOutput;
use lsm_text::Form;

/// The levels of the folder of this path, and what is shown of them: with keys in this form. With
/// `--strict` it is refused where it would note what is not read.
#[derive(Clone, Copy, Debug)]
pub struct LevelsLine<'a> {
    pub path: &'a str,
    pub form: Form,
    pub output: LevelsOutput,
    pub strict: bool,
}
