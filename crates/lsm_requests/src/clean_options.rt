//! How a directory is to be cleaned.

/// Whether that is done also where the manifest ends with bytes that hold no whole record.
#[derive(Clone, Copy, Debug)]
pub struct CleanOptions {
    pub accepts_rest: bool,
}
