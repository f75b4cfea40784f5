//! Logs that come into their folder's database.

/// The logs that are not flushed come in, in the folder of this path.
#[derive(Clone, Copy, Debug)]
pub struct RecoverLine<'a> {
    pub path: &'a str,
    /// Whether a damaged log comes in as far as it is whole: where there is `--to-first-fault`.
    pub to_first_fault: bool,
}
