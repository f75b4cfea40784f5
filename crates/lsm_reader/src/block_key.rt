//! Under what a block is kept.

/// Under what a block is kept: the number of its table, and its offset in bytes.
#[derive(Clone, Copy, Debug, PartialEq, Eq, Hash)]
pub struct BlockKey {
    pub(crate) number: u64,
    pub(crate) offset: u64,
}
