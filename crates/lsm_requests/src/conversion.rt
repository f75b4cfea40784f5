//! What is made of an input.

/// A command that prints what an input has in another form.
#[derive(Clone, Copy, Debug)]
pub enum Conversion {
    /// A table from a list of entries.
    MakeTable,
    /// The list of a table's entries.
    Dump,
    /// The edits of a manifest.
    Manifest,
}
