//! Entries and editions that only contracts read.

ghost use Rattle.std.specs.Prelude.{◌≡◌, List, [], ◌++◌};
ghost use Rattle.std.specs.Borrow.{ftrue};
ghost use Rattle.lsm_codec.specs.Entries.{Entry};
ghost use Rattle.lsm_history.specs.History.{Edition};

use crate::recalls::Recalls;
use std::marker::{Model, PhantomData};

/// A list of entries, and one of editions, that only contracts read: a value of it takes no memory
/// and holds no bytes. It tells a history what comes into it.
pub struct History {
    marker: PhantomData<()>,
    pub ghost entries: { List Entry },
    pub ghost editions: { List Edition },
}

impl Model for History {
    ghost also_owns = { λ _. ftrue };
}

impl Drop for History {
    fn drop(self) {
        let Self { marker: _ } = self;
    }
}

unsafe impl Send for History {}

unsafe impl Sync for History {}

struct NoEntry;

impl Recalls<()> for NoEntry {
    ghost entries = { λ _. [] };

    ghost editions = { λ _. [] };
}

struct Same;

impl Recalls<History> for Same {
    ghost entries = { λ h. h.entries };

    ghost editions = { λ h. h.editions };
}

/// Entries, and those that were there before them.
#[derive(Drop)]
struct Grown<'a> {
    new: &'a History,
    older: &'a History,
}

struct Both;

impl<'a> Recalls<Grown<'a>> for Both {
    ghost entries = { λ g. g.new.now.entries ++ g.older.now.entries };

    ghost editions = { λ g. g.new.now.editions ++ g.older.now.editions };
}

impl History {
    /// The entries and editions that are read off a value.
    pub fn of<X, M: Recalls<X>>(x: &X) -> History
        ensures entries { result.entries ≡ M.entries x.now }
        ensures editions { result.editions ≡ M.editions x.now }
    {
        let _ = x;
        History {
            marker: PhantomData,
        }
    }

    /// No entry and no edition.
    pub fn empty() -> History
        ensures entries { result.entries ≡ [] }
        ensures editions { result.editions ≡ [] }
    {
        History::of::<(), NoEntry>(&())
    }

    /// The same once more.
    pub fn again(&self) -> History
        ensures entries { result.entries ≡ self.now.entries }
        ensures editions { result.editions ≡ self.now.editions }
    {
        History::of::<History, Same>(self)
    }

    /// These, with new ones in front.
    pub fn with(&self, new: &History) -> History
        ensures entries { result.entries ≡ new.now.entries ++ self.now.entries }
        ensures editions { result.editions ≡ new.now.editions ++ self.now.editions }
    {
        History::of::<Grown, Both>(&Grown { new, older: self })
    }
}
