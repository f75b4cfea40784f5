//! A plain table, as its image.

use lsm_codec::Bytes;

/// The image of a plain table that has an entry at least, with its first and last internal key.
#[derive(Debug, Drop)]
pub struct PlainTable {
    /// The first internal key.
    pub smallest: Bytes,
    /// The last internal key.
    pub largest: Bytes,
    /// The file.
    pub bytes: Vec<u8>,
}
