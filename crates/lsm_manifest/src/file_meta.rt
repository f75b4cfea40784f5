//! A table file as the manifest names it.

ghost use Rattle.std.specs.Prelude.{◌≡◌, IfOk};

use lsm_codec::{Bytes, key_parts};
use std::alloc::{AllocError, Global};
use std::cmp::Ordering;

/// A table file.
#[derive(Debug, Drop)]
pub struct FileMeta {
    /// The number in the file's name.
    pub number: u64,
    /// The size in bytes.
    pub size: u64,
    /// The smallest internal key.
    pub smallest: Bytes,
    /// The largest internal key.
    pub largest: Bytes,
}

impl FileMeta {
    ghost use Rattle.lsm_manifest.specs.FileOrder.{file_cmp};

    /// The order of files in a level: by smallest internal key (user keys ascending bytewise, of
    /// one user key the newest first), then by number.
    pub fn compare(&self, other: &FileMeta) -> Ordering
        ensures { result ≡ file_cmp self.now other.now }
    {
        compare_places(
            self.smallest.as_slice(),
            self.number,
            other.smallest.as_slice(),
            other.number,
        )
    }

    /// A copy, in memory of its own.
    pub fn try_copy(&self, alloc: Global) -> Result<FileMeta, AllocError>
        ensures { IfOk result (λ file. file ≡ self.now) }
    {
        Ok(FileMeta {
            number: self.number,
            size: self.size,
            smallest: self.smallest.try_copy(alloc)?,
            largest: self.largest.try_copy(alloc)?,
        })
    }
}

ghost use Rattle.std.specs.Ordering.{nat_cmp};
ghost use Rattle.lsm_codec.specs.Keys.{InternalKey, IsKey, key_cmp, then_by};
ghost use Rattle.lsm_manifest.specs.FileOrder.{file_cmp, place_cmp, TableFile};

/// The order of two files in a level, by their smallest internal keys and their numbers: what
/// `FileMeta::compare` goes by.
pub fn compare_places(
    smallest: &[u8],
    number: u64,
    other_smallest: &[u8],
    other_number: u64,
) -> Ordering
    ensures { result ≡ place_cmp smallest.now number other_smallest.now other_number }
{
    let (user, packed) = key_parts(smallest);
    let (other_user, other_packed) = key_parts(other_smallest);
    user.cmp(other_user)
        .then(other_packed.cmp(&packed))
        .then(number.cmp(&other_number))
}

/// A law: over internal keys `compare` is the order of internal keys, then of numbers.
pub fn file_order()
    ensures { (f g : TableFile) (k l : InternalKey) → IsKey f.smallest k → IsKey g.smallest l
        → file_cmp f g ≡ then_by (key_cmp k l) (nat_cmp f.number g.number) }
{}
