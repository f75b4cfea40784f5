//! A name for what a mirror shows.

ghost use Rattle.std.specs.Prelude.{[], None, false};
ghost use Rattle.lsm_shelf.specs.Told.{in_memory};

use std::marker::Brand;

/// Stands for what a mirror shows, and for the contents of the shelf below. It has no calls: a
/// program picks it once both are there, and what is generic in it is of these.
pub trait Mirroring: Send + Sync {
    ghost use Rattle.lsm_shelf.specs.Told.{Place};
    ghost use Rattle.lsm_mirror.specs.Shown.{Shown};

    /// What is shown.
    ghost shown: { Shown };

    /// The contents of the shelf below and its forks.
    ghost place: { Place };
}

impl Mirroring for Brand {
    ghost shown = { record { manifest = []; made = None; inflates = false } };

    ghost place = { in_memory record { tag = []; buckets = [] } };
}
