//! What the forks of a `MemoryShelf` share.

use crate::memory::directory::Directory;
use crate::memory::image::Image;
use std::alloc::{AllocError, Global};
use std::sync::Mutex;

/// What forks share: images, to which images are only added, and the directory under its lock.
#[derive(Drop)]
pub(crate) struct Contents {
    pub(crate) images: boxcar::Vec<Image>,
    pub(crate) directory: Mutex<Directory>,
}

impl Contents {
    /// No images, and an empty directory.
    pub(crate) fn new(alloc: Global) -> Result<Contents, AllocError> {
        Ok(Contents {
            images: boxcar::Vec::new(alloc)?,
            directory: Mutex::new(Directory::new(alloc)),
        })
    }
}
