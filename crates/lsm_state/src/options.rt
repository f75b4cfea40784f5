//! The sizes and counts that a database is run with.

ghost use Rattle.std.specs.Prelude.{◌≡◌, ◌↔◌, IsTrue, false, true};
ghost use Rattle.lsm_state.specs.Options.{Fits, HasSizes, SeatsReaders, limit_of, sizes_of};

use lsm_journal::ManifestLimit;
use lsm_table::TableOptions;

/// The sizes and counts that a database is run with. The first three are LevelDB's
/// (`include/leveldb/options.h`), with its defaults.
#[derive(Clone, Copy, Debug, PartialEq, Eq)]
pub struct Options {
    /// A data block is closed when its size estimate reaches this many bytes: 64 to 1,048,576.
    pub block_size: usize,
    /// A data block has a restart at every so many entries: 1 to 128.
    pub restart_interval: u32,
    /// An output of a compaction is closed at the next user key after so many bytes of finished
    /// blocks: 1,024 to 67,108,864.
    pub target_size: u64,
    /// How many slots for versions the board has: 3 to 64, and two more than readers at least.
    pub versions: usize,
    /// How many readers the board has: 1 to 62.
    pub readers: usize,
    /// How many blocks a reader's cache holds, of large ones fewer: 1 to 4,096.
    pub cache_blocks: usize,
    /// A manifest of so many bytes is followed by a new one at the next change: 64 to 536,870,912.
    pub manifest_limit: u64,
    /// Whether a new manifest raises that to twice its own bytes, where that is more, and to 2^29
    /// at most, as long as the database is open. So what manifests take grows as changes do.
    pub manifest_grows: bool,
}

impl Options {
    /// LevelDB's sizes, 64 slots, 4 readers, 64 cached blocks, and manifests of 1 MiB.
    pub fn usual() -> Options
        ensures { result ≡ record {
          block_size = 4096;
          restart_interval = 16;
          target_size = 2097152;
          versions = 64;
          readers = 4;
          cache_blocks = 64;
          manifest_limit = 1048576;
          manifest_grows = false;
        } }
    {
        Options {
            block_size: 4096,
            restart_interval: 16,
            target_size: 2_097_152,
            versions: 64,
            readers: 4,
            cache_blocks: 64,
            manifest_limit: 1_048_576,
            manifest_grows: false,
        }
    }

    /// The same for a program that keeps a database for long: a manifest is followed by a new one
    /// at 64 KiB, or at twice what a whole one has, where that is more; and a cache holds 512
    /// blocks.
    pub fn for_programs() -> Options
        ensures { result ≡ record {
          block_size = 4096;
          restart_interval = 16;
          target_size = 2097152;
          versions = 64;
          readers = 4;
          cache_blocks = 512;
          manifest_limit = 65536;
          manifest_grows = true;
        } }
    {
        Options {
            cache_blocks: 512,
            manifest_limit: 65_536,
            manifest_grows: true,
            ..Options::usual()
        }
    }

    /// The sizes that tables are written with.
    pub fn sizes(&self) -> TableOptions
        ensures { result ≡ sizes_of self.now }
    {
        TableOptions {
            block_size: self.block_size,
            restart_interval: self.restart_interval,
        }
    }

    /// From how many bytes on a new manifest is due.
    pub fn limit(&self) -> ManifestLimit
        ensures { result ≡ limit_of self.now }
    {
        ManifestLimit {
            bytes: self.manifest_limit,
            grows: self.manifest_grows,
        }
    }

    // Whether the board has room for the readers.
    fn seats_readers(&self) -> bool
        ensures { IsTrue result ↔ SeatsReaders self.now }
    {
        1 <= self.readers
            && self.readers <= 62
            && 3 <= self.versions
            && self.versions <= 64
            && self.readers + 2 <= self.versions
    }

    // Whether each other size is in its range.
    fn has_sizes(&self) -> bool
        ensures { IsTrue result ↔ HasSizes self.now }
    {
        1024 <= self.target_size
            && self.target_size <= 67_108_864
            && 1 <= self.cache_blocks
            && self.cache_blocks <= 4096
            && 64 <= self.manifest_limit
            && self.manifest_limit <= 536_870_912
    }

    /// Whether each option is in its range.
    pub fn fits(&self) -> bool
        ensures { IsTrue result ↔ Fits self.now }
    {
        self.sizes().fits() && self.has_sizes() && self.seats_readers()
    }
}
