//! A file of a folder in memory.

use crate::image::Image;
use boxcar::Pushed;

/// A file: what shows where its bytes are, and how many of them, from the front, are durable.
#[derive(Drop)]
pub(crate) struct File {
    pub(crate) token: Pushed<Image>,
    pub(crate) durable: usize,
}
