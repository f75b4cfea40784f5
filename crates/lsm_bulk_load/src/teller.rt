//! What is told of each batch that came in.

use crate::progress::Progress;

/// Is told of each batch that came in. It promises nothing, and nothing rests on what it does.
pub trait Teller {
    /// So much is in now.
    fn came(&mut self, progress: Progress);
}

/// A teller that does nothing.
#[derive(Clone, Copy, Debug)]
pub struct NoTeller;

impl Teller for NoTeller {
    fn came(&mut self, _progress: Progress) {}
}
