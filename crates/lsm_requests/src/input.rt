//! What a command reads beside folders.

/// Where an input is found.
#[derive(Clone, Copy, Debug)]
pub enum Input<'a> {
    /// On standard input, which is called `-`.
    Standard,
    /// In the file of this path.
    File(&'a str),
}
