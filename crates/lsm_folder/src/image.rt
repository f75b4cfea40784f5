//! The bytes of a file in memory.

use crate::file_life::FileLife;
use std::sync::Arc;

/// The bytes of a file, which never change: a file that is written or appended to has another
/// image.
#[derive(Drop)]
pub struct Image {
    pub(crate) bytes: Vec<u8>,
    /// The images that appends left of one file share it.
    pub(crate) life: Arc<FileLife>,
}
