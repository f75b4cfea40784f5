//! What comes over a channel.

/// What comes over a channel.
#[derive(Drop)]
pub enum Incoming {
    /// What a frame has behind its length.
    Content(Vec<u8>),
    /// A length that no request has. Nothing behind it was read.
    Misfit,
    /// Nothing more comes, or not all of a frame.
    End,
    /// A frame for which there was no memory. Nothing behind its length was read.
    Unheld,
}
