//! Bytes of an image that were read ahead.

ghost use Rattle.std.specs.Prelude.{◌≡◌, ◌≤◌, ◌-◌, ◌+◌, ℕ, List, take, drop, IsTrue, IfSome};
ghost use Rattle.lsm_reader.specs.Parts.{IsPartOf};

use lsm_table::{Naming, Shelf};
use std::alloc::Global;
use std::marker::{Model, PhantomData};

/// Bytes of an image from a place on, and the receipt that they were read by.
pub(crate) struct Part<N: Naming, S: Shelf> {
    pub(crate) receipt: S::Receipt,
    pub(crate) offset: u64,
    pub(crate) bytes: Vec<u8>,
    pub(crate) of: PhantomData<N>,
}

impl<N: Naming, S: Shelf> Drop for Part<N, S> {
    fn drop(self) {
        let Self {
            receipt: _,
            offset: _,
            bytes: _,
            of: _,
        } = self;
    }
}

impl<N: Naming, S: Shelf> Model for Part<N, S> {
    ghost use Rattle.lsm_reader.specs.Parts.{PartOf, IsPartOf};

    ghost Value = { PartOf };

    ghost view = { λ p. record {
      image = S.Receipt.image p.receipt;
      offset = p.offset;
      bytes = p.bytes.items;
    } };

    ghost invariant = { λ p. S.is_of N.place p.receipt
        × (S.honest → IsPartOf record {
          image = S.Receipt.image p.receipt;
          offset = p.offset;
          bytes = p.bytes.items;
        }) };
}

/// Whether so many bytes from an offset on are among those that are held from another offset on.
pub(crate) fn is_within(from: u64, held: usize, offset: u64, len: usize) -> bool
    ensures { IsTrue result → (from ≤ offset) × (offset - from + len ≤ held) }
{
    if offset < from {
        return false;
    }
    let start = offset - from;
    start <= held as u64 && len as u64 <= held as u64 - start
}

/// A copy of so many bytes of an image from an offset on, where these are its bytes from another
/// offset on and have all of them. None also where memory was refused.
#[tactic(auto, using(crate::proofs::AheadLaws::part_there))]
pub(crate) fn copied(
    alloc: Global,
    from: u64,
    bytes: &[u8],
    offset: u64,
    len: usize,
) -> Option<Vec<u8>>
    ensures { (image : List ℕ)
        → IsPartOf (record { image = image; offset = from; bytes = bytes.now })
        → IfSome result (λ v. v.items ≡ take len (drop offset image)) }
{
    if !is_within(from, bytes.len(), offset, len) {
        return None;
    }
    let (_, rest) = bytes.split_at((offset - from) as usize);
    let (part, _) = rest.split_at(len);
    match Vec::from_slice(alloc, part) {
        Ok(text) => Some(text),
        Err(_) => None,
    }
}
