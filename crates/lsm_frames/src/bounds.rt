//! Which keys are compacted.

/// Which keys are compacted, as it lies in a frame.
#[derive(Clone, Copy)]
pub struct Bounds<'a> {
    /// The first key. The empty one is before each key.
    pub from: &'a [u8],
    /// The last key, which is compacted too, or none: no bound.
    pub to: Option<&'a [u8]>,
}
