//! A load.

use crate::input::Input;
use crate::load_options::LoadOptions;

/// A load: of the lines of this input into the folder of this path, with these options.
#[derive(Clone, Copy, Debug)]
pub struct LoadLine<'a> {
    pub path: &'a str,
    pub input: Input<'a>,
    pub options: LoadOptions,
}
