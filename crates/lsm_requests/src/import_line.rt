//! A copy of a folder's database.

/// A copy: of the database in the folder of one path, to the folder of another.
#[derive(Clone, Copy, Debug)]
pub struct ImportLine<'a> {
    pub source: &'a str,
    pub target: &'a str,
    /// Whether a damaged log comes in as far as it is whole: where there is `--to-first-fault`.
    pub to_first_fault: bool,
}
