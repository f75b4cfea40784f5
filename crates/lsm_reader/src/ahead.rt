//! What a reader that goes on has read ahead of a table.

ghost use Rattle.std.specs.Prelude.{◌≡◌, ◌≤◌, ◌<◌, ◌+◌};

use crate::part::Part;
use lsm_table::{FOOTER, Naming, Shelf};

/// How many bytes are read ahead at first: some three blocks of 4 KiB.
const FIRST: usize = 16 << 10;

/// How many bytes are read ahead at most: some 32 such blocks.
const MOST: usize = 128 << 10;

/// What a reader of a table that goes on from block to block has read ahead of it: bytes of its
/// image, with the receipt that they were read by. The first block that is asked for is read alone;
/// then more is read at once each time, up to 128 KiB. A block is judged when it is asked for.
#[derive(Drop)]
pub struct Ahead<N: Naming, S: Shelf> {
    pub(crate) part: Option<Part<N, S>>,
    // How many bytes are read at once next.
    pub(crate) window: usize,
}

impl<N: Naming, S: Shelf> Ahead<N, S> {
    /// Nothing yet. Takes no memory.
    pub fn none() -> Ahead<N, S> {
        Ahead {
            part: None,
            window: 0,
        }
    }
}

/// How many bytes are read at once from an offset on of an image of this size, before its footer.
pub(crate) fn reach(window: usize, offset: u64, size: u64) -> usize
    ensures { 0 < result → offset + result ≤ size }
{
    let left = size.saturating_sub(FOOTER as u64).saturating_sub(offset);
    left.min(window as u64) as usize
}

/// How many bytes are read at once the next time.
pub(crate) fn wider(window: usize) -> usize {
    window.saturating_mul(2).max(FIRST).min(MOST)
}
