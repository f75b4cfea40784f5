//! A list of calls that only contracts read.

ghost use Rattle.std.specs.Prelude.{◌≡◌, ℕ, Ok, Err, List, [], ◌∷◌, map, string_bytes, MatchResult};
ghost use Rattle.std.specs.Result.{result_map_both};
ghost use Rattle.std.specs.Borrow.{ftrue};
ghost use Rattle.lsm_folder.specs.Calls.{Call, Answer, answer_of, opened, made, wrote, appended};
ghost use Rattle.lsm_folder.specs.Calls.{synced, folder_synced, renamed, removed, measured, read};
ghost use Rattle.lsm_folder.specs.Calls.{loaded, listed, locked};

use crate::folder_fault::FolderFault;
use crate::lock_kind::LockKind;
use boxcar::tag::Tag;
use std::marker::{Model, PhantomData};

/// How a list of calls is read off a value.
pub(crate) trait Tells<X> {
    ghost calls: { X → List Call };
}

/// Calls, the newest first. It has no bytes.
pub(crate) struct Log {
    marker: PhantomData<()>,
    pub ghost calls: { List Call },
}

impl Model for Log {
    ghost also_owns = { λ _. ftrue };
}

impl Log {
    fn of<X, M: Tells<X>>(x: &X) -> Log
        ensures { result.calls ≡ M.calls x.now }
    {
        let _ = x;
        Log {
            marker: PhantomData,
        }
    }
}

impl Drop for Log {
    fn drop(self) {
        let Self { marker: _ } = self;
    }
}

unsafe impl Send for Log {}

unsafe impl Sync for Log {}

/// No call.
struct Nothing;

impl Tells<()> for Nothing {
    ghost calls = { λ _. [] };
}

/// The folder was opened.
struct Opened;

impl Tells<()> for Opened {
    ghost calls = { λ _. opened ∷ [] };
}

/// A call of at most two texts, which answers that it was Ok, or why it was refused.
pub(crate) trait Kind {
    ghost call: { List ℕ → List ℕ → Answer → Call };
}

pub(crate) struct Made;

impl Kind for Made {
    ghost call = { λ name bytes answer. made name bytes answer };
}

pub(crate) struct Wrote;

impl Kind for Wrote {
    ghost call = { λ name bytes answer. wrote name bytes answer };
}

pub(crate) struct Appended;

impl Kind for Appended {
    ghost call = { λ name bytes answer. appended name bytes answer };
}

pub(crate) struct Synced;

impl Kind for Synced {
    ghost call = { λ name _ answer. synced name answer };
}

pub(crate) struct FolderSynced;

impl Kind for FolderSynced {
    ghost call = { λ _ _ answer. folder_synced answer };
}

pub(crate) struct Renamed;

impl Kind for Renamed {
    ghost call = { λ from to answer. renamed from to answer };
}

pub(crate) struct Removed;

impl Kind for Removed {
    ghost call = { λ name _ answer. removed name answer };
}

/// A call that was made, with the calls before it.
#[derive(Drop)]
struct Asked<'a> {
    older: &'a Log,
    name: &'a [u8],
    bytes: &'a [u8],
    answer: &'a Result<(), FolderFault>,
}

struct Last<K: Kind> {
    kind: PhantomData<K>,
}

impl<'a, K: Kind> Tells<Asked<'a>> for Last<K> {
    ghost calls = { λ a. K.Kind.call a.name.now a.bytes.now a.answer.now ∷ a.older.now.calls };
}

/// A file that was to be read whole, with the calls before it.
#[derive(Drop)]
struct Loading<'a, T> {
    older: &'a Log,
    name: &'a [u8],
    answer: &'a Result<(T, Vec<u8>), FolderFault>,
}

struct Loaded;

impl<'a, T> Tells<Loading<'a, T>> for Loaded {
    ghost calls = { λ a. loaded a.name.now
        (result_map_both (λ r. r.1.items) (λ e. e) a.answer.now) ∷ a.older.now.calls };
}

/// A file's length that was asked, with the calls before it.
#[derive(Drop)]
struct Measuring<'a> {
    older: &'a Log,
    name: &'a [u8],
    answer: &'a Result<u64, FolderFault>,
}

struct Measured;

impl<'a> Tells<Measuring<'a>> for Measured {
    ghost calls = { λ a. measured a.name.now
        (result_map_both (λ n. n) (λ e. e) a.answer.now) ∷ a.older.now.calls };
}

/// Names that were to be listed, with the calls before it.
#[derive(Drop)]
struct Listing<'a> {
    older: &'a Log,
    answer: &'a Result<Vec<String>, FolderFault>,
}

struct Listed;

impl<'a> Tells<Listing<'a>> for Listed {
    ghost calls = { λ a. listed (result_map_both (λ v. map string_bytes v.items) (λ e. e)
        a.answer.now) ∷ a.older.now.calls };
}

/// A lock that was asked for, with the calls before it.
#[derive(Drop)]
struct Locking<'a> {
    older: &'a Log,
    name: &'a [u8],
    kind: LockKind,
    answer: &'a Result<bool, FolderFault>,
}

struct Locked;

impl<'a> Tells<Locking<'a>> for Locked {
    ghost calls = { λ a. locked a.name.now a.kind a.answer.now ∷ a.older.now.calls };
}

/// A part that was to be read, with the calls before it.
#[derive(Drop)]
struct Reading<'a> {
    older: &'a Log,
    name: &'a [u8],
    image: &'a Tag,
    offset: u64,
    len: usize,
    answer: &'a Result<Vec<u8>, FolderFault>,
}

struct Read;

impl<'a> Tells<Reading<'a>> for Read {
    ghost calls = { λ a. read a.name.now a.image.now.numbers a.offset a.len
        (result_map_both (λ v. v.items) (λ e. e) a.answer.now) ∷ a.older.now.calls };
}

/// The answer of a call without what it gave.
pub(crate) fn answered<T>(answer: &Result<T, FolderFault>) -> Result<(), FolderFault>
    ensures { result ≡ answer_of answer.now }
{
    match answer {
        Ok(_) => Ok(()),
        Err(fault) => Err(*fault),
    }
}

impl Log {
    /// No call.
    pub(crate) fn empty() -> Log
        ensures { result.calls ≡ [] }
    {
        Log::of::<(), Nothing>(&())
    }

    /// The folder was opened.
    pub(crate) fn opened() -> Log
        ensures { result.calls ≡ opened ∷ [] }
    {
        Log::of::<(), Opened>(&())
    }

    /// One call more.
    pub(crate) fn add<K: Kind>(
        &mut self,
        name: &[u8],
        bytes: &[u8],
        answer: &Result<(), FolderFault>,
    )
        ensures { self.new.calls ≡ K.Kind.call name.now bytes.now answer.now ∷ self.old.calls }
    {
        *self = Log::of::<Asked, Last<K>>(&Asked {
            older: self,
            name,
            bytes,
            answer,
        });
    }

    /// A read more, with its answer.
    pub(crate) fn add_read(
        &mut self,
        name: &[u8],
        image: &Tag,
        offset: u64,
        len: usize,
        answer: &Result<Vec<u8>, FolderFault>,
    )
        ensures { MatchResult answer.now (λ v. self.new.calls
            ≡ read name.now image.now.numbers offset len (Ok v.items) ∷ self.old.calls)
            (λ e. self.new.calls
            ≡ read name.now image.now.numbers offset len (Err e) ∷ self.old.calls) }
    {
        *self = Log::of::<Reading, Read>(&Reading {
            older: self,
            name,
            image,
            offset,
            len,
            answer,
        });
    }

    /// A file more that was to be read whole, with the answer.
    pub(crate) fn add_load<T>(&mut self, name: &[u8], answer: &Result<(T, Vec<u8>), FolderFault>)
        ensures { MatchResult answer.now
            (λ r. self.new.calls ≡ loaded name.now (Ok r.1.items) ∷ self.old.calls)
            (λ e. self.new.calls ≡ loaded name.now (Err e) ∷ self.old.calls) }
    {
        *self = Log::of::<Loading<T>, Loaded>(&Loading {
            older: self,
            name,
            answer,
        });
    }

    /// A file more whose length was asked, with the answer.
    pub(crate) fn add_length(&mut self, name: &[u8], answer: &Result<u64, FolderFault>)
        ensures { MatchResult answer.now
            (λ n. self.new.calls ≡ measured name.now (Ok n) ∷ self.old.calls)
            (λ e. self.new.calls ≡ measured name.now (Err e) ∷ self.old.calls) }
    {
        *self = Log::of::<Measuring, Measured>(&Measuring {
            older: self,
            name,
            answer,
        });
    }

    /// A lock more that was asked for, with the answer.
    pub(crate) fn add_lock(
        &mut self,
        name: &[u8],
        kind: LockKind,
        answer: &Result<bool, FolderFault>,
    )
        ensures { self.new.calls ≡ locked name.now kind answer.now ∷ self.old.calls }
    {
        *self = Log::of::<Locking, Locked>(&Locking {
            older: self,
            name,
            kind,
            answer,
        });
    }

    /// A list more, with its answer.
    pub(crate) fn add_list(&mut self, answer: &Result<Vec<String>, FolderFault>)
        ensures { MatchResult answer.now
            (λ v. self.new.calls ≡ listed (Ok (map string_bytes v.items)) ∷ self.old.calls)
            (λ e. self.new.calls ≡ listed (Err e) ∷ self.old.calls) }
    {
        *self = Log::of::<Listing, Listed>(&Listing {
            older: self,
            answer,
        });
    }
}
