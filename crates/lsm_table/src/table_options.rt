//! The sizes that a table is written with.

/// When the builder closes a data block, and how often a block has a restart (`block_size` and
/// `block_restart_interval` of LevelDB's `include/leveldb/options.h`).
#[derive(Clone, Copy, Debug, PartialEq, Eq)]
pub struct TableOptions {
    /// A data block is closed when its size estimate, after an entry is added, reaches this many
    /// bytes: 64 to 1,048,576.
    pub block_size: usize,
    /// A data block has a restart at every so many entries: 1 to 128. Index blocks have one at each
    /// entry.
    pub restart_interval: u32,
}

impl TableOptions {
    ghost use Rattle.std.specs.Prelude.{◌≡◌, ◌↔◌, IsTrue};
    ghost use Rattle.lsm_table.specs.Options.{AreInRange};

    /// Whether both options are in range.
    pub fn fits(&self) -> bool
        ensures { IsTrue result ↔ AreInRange self.now }
    {
        64 <= self.block_size
            && self.block_size <= 1_048_576
            && 1 <= self.restart_interval
            && self.restart_interval <= 128
    }

    /// LevelDB's own: blocks of 4,096 bytes, a restart at every 16th entry.
    pub fn usual() -> TableOptions
        ensures { result ≡ record { block_size = 4096; restart_interval = 16 } }
    {
        TableOptions {
            block_size: 4096,
            restart_interval: 16,
        }
    }
}
