//! What a request writes of one key.

/// What is written of a key, as it lies in a frame.
#[derive(Clone, Copy)]
pub struct Write<'a> {
    /// The key, of any length.
    pub key: &'a [u8],
    /// Its new value, or none for a deletion.
    pub value: Option<&'a [u8]>,
}
