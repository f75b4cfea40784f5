//! What a mirror stores.

ghost use Rattle.std.specs.Prelude.{◌≤◌, ◌^◌, ℕ, List, length};
ghost use Rattle.lsm_shelf.specs.Stored.{Stored};
ghost use Rattle.lsm_mirror.specs.Mirrored.{MirrorStored};
ghost use Rattle.lsm_mirror.specs.Shown.{IsShown};

use crate::mirroring::Mirroring;
use lsm_shelf::Shelf;

/// A law: a mirror stores just what is shown of the shelf below, in tables of 1 GiB at most.
pub fn stored_is_shown<V: Mirroring, S: Shelf>()
    ensures shown { (number : ℕ) (image : List ℕ)
        → MirrorStored S.Receipt.TableReceipt (S.is_of V.place) V.shown number image
        → IsShown (Stored S.Receipt (S.is_of V.place) S.Receipt.number S.Receipt.image) V.shown
        number image }
    ensures stored { (number : ℕ) (image : List ℕ) → length image ≤ 2 ^ 30
        → IsShown (Stored S.Receipt (S.is_of V.place) S.Receipt.number S.Receipt.image) V.shown
        number image
        → MirrorStored S.Receipt.TableReceipt (S.is_of V.place) V.shown number image }
{}
