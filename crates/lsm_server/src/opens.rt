//! A list of descriptors that only contracts read.

ghost use Rattle.std.specs.Prelude.{◌≡◌, ℤ, List, [], ◌∷◌};
ghost use Rattle.std.specs.Borrow.{ftrue};

use std::marker::{Model, PhantomData};

/// How a list is read off a value.
trait Lists<X> {
    ghost opened: { X → List ℤ };
}

/// Of which descriptors a wire was made, the last one first. It has no bytes.
pub(crate) struct Opens {
    marker: PhantomData<()>,
    pub ghost opened: { List ℤ },
}

impl Model for Opens {
    ghost also_owns = { λ _. ftrue };
}

impl Opens {
    fn of<X, M: Lists<X>>(x: &X) -> Opens
        ensures { result.opened ≡ M.opened x.now }
    {
        let _ = x;
        Opens {
            marker: PhantomData,
        }
    }
}

impl Drop for Opens {
    fn drop(self) {
        let Self { marker: _ } = self;
    }
}

unsafe impl Send for Opens {}

unsafe impl Sync for Opens {}

/// None.
struct Nothing;

impl Lists<()> for Nothing {
    ghost opened = { λ _. [] };
}

/// One descriptor, with those before it.
#[derive(Drop)]
struct Opening<'a> {
    older: &'a Opens,
    fd: i32,
}

struct Opened;

impl<'a> Lists<Opening<'a>> for Opened {
    ghost opened = { λ o. o.fd ∷ o.older.now.opened };
}

impl Opens {
    /// No wire was made yet.
    pub(crate) fn empty() -> Opens
        ensures { result.opened ≡ [] }
    {
        Opens::of::<(), Nothing>(&())
    }

    /// A wire of this descriptor was made.
    pub(crate) fn add(&mut self, fd: i32)
        ensures { self.new.opened ≡ fd ∷ self.old.opened }
    {
        *self = Opens::of::<Opening, Opened>(&Opening { older: self, fd });
    }
}
