//! A view of a database, with what is told of it.

use lsm_mirror::View;

/// A view of a database; how many bytes at the ends of its manifest and of its logs hold no whole
/// record; and how many entries of the logs it has.
#[derive(Drop)]
pub struct Preview {
    pub view: View,
    pub rest: u64,
    pub entries: u64,
}
