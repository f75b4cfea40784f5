//! Plain tables that are held.

use crate::mirroring::Mirroring;
use lsm_shelf::Shelf;
use std::marker::{Model, PhantomData};

/// How many plain tables a mirror holds at most: more than a scan goes through at a time.
pub const MAX_HELD: usize = 32;

/// The plain table that was made of a table below, with the receipt by which that was read.
/// Contracts see both images.
pub(crate) struct HeldTable<V: Mirroring, S: Shelf> {
    pub(crate) receipt: S::Receipt,
    pub(crate) image: Vec<u8>,
    pub(crate) of: PhantomData<V>,
}

impl<V: Mirroring, S: Shelf> Drop for HeldTable<V, S> {
    fn drop(self) {
        let Self {
            receipt: _,
            image: _,
            of: _,
        } = self;
    }
}

impl<V: Mirroring, S: Shelf> Model for HeldTable<V, S> {
    ghost use Rattle.std.specs.Prelude.{◌≡◌};
    ghost use Rattle.lsm_mirror.specs.Held.{Held};
    ghost use Rattle.lsm_mirror.specs.Shown.{plain_image};

    ghost Value = { Held };

    ghost view = { λ h. record {
      packed = S.Receipt.image h.receipt;
      plain = h.image.items;
    } };

    ghost invariant = { λ h. S.is_of V.place h.receipt
        × (S.honest → h.image.items ≡ plain_image (S.Receipt.image h.receipt)) };
}

/// Holds one more, in the place of the one that was held first where there are `MAX_HELD`, unless a
/// growth is refused. `next` is that place.
pub(crate) fn hold<T: Drop>(held: &mut Vec<T>, next: &mut usize, item: T) {
    match held.get_mut(*next) {
        Some(first) => *first = item,
        None => {
            let _ = held.push(item);
        }
    }
    *next = next.wrapping_add(1) % MAX_HELD;
}
