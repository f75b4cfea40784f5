//! A list of what happened that only contracts read.

ghost use Rattle.std.specs.Prelude.{◌≡◌, List, [], ◌∷◌};
ghost use Rattle.std.specs.Borrow.{ftrue};
ghost use Rattle.lsm_wire.specs.Happenings.{Happening, Went, what_came};

use lsm_wire::Incoming;
use std::marker::{Model, PhantomData};

/// How a list is read off a value.
pub(crate) trait Tells<X> {
    ghost happened: { X → List Happening };
}

/// What happened, the latest first. It has no bytes.
pub(crate) struct Log {
    marker: PhantomData<()>,
    pub ghost happened: { List Happening },
}

impl Model for Log {
    ghost also_owns = { λ _. ftrue };
}

impl Log {
    fn of<X, M: Tells<X>>(x: &X) -> Log
        ensures { result.happened ≡ M.happened x.now }
    {
        let _ = x;
        Log {
            marker: PhantomData,
        }
    }
}

impl Drop for Log {
    fn drop(self) {
        let Self { marker: _ } = self;
    }
}

unsafe impl Send for Log {}

unsafe impl Sync for Log {}

/// Nothing.
struct Nothing;

impl Tells<()> for Nothing {
    ghost happened = { λ _. [] };
}

/// What came, with what happened before it.
#[derive(Drop)]
struct Coming<'a> {
    older: &'a Log,
    incoming: &'a Incoming,
}

struct Came;

impl<'a> Tells<Coming<'a>> for Came {
    ghost happened = { λ c. what_came c.incoming.now ∷ c.older.now.happened };
}

/// Bytes that were written, with what happened before.
#[derive(Drop)]
struct Writing<'a> {
    older: &'a Log,
    bytes: &'a [u8],
    whole: bool,
}

struct Wrote;

impl<'a> Tells<Writing<'a>> for Wrote {
    ghost happened = { λ w. Went w.bytes.now w.whole ∷ w.older.now.happened };
}

impl Log {
    /// Nothing happened yet.
    pub(crate) fn empty() -> Log
        ensures { result.happened ≡ [] }
    {
        Log::of::<(), Nothing>(&())
    }

    /// This came.
    pub(crate) fn add_incoming(&mut self, incoming: &Incoming)
        ensures { self.new.happened ≡ what_came incoming.now ∷ self.old.happened }
    {
        *self = Log::of::<Coming, Came>(&Coming {
            older: self,
            incoming,
        });
    }

    /// These bytes were written, all of them or not.
    pub(crate) fn add_written(&mut self, bytes: &[u8], whole: bool)
        ensures { self.new.happened ≡ Went bytes.now whole ∷ self.old.happened }
    {
        *self = Log::of::<Writing, Wrote>(&Writing {
            older: self,
            bytes,
            whole,
        });
    }
}
