//! The calls on a folder of the system, of which a witness saw the reads.

ghost use Rattle.std.specs.Prelude.{◌≡◌, ℕ, Ok, Err, List, [], ◌∷◌, map, string_bytes};
ghost use Rattle.std.specs.Prelude.{MatchResult, IfOk};
ghost use Rattle.lsm_folder.specs.Calls.{LastIsTrue, LastIsTrue-prop, IsTrueCall, opened, read};
ghost use Rattle.lsm_folder.specs.Calls.{loaded, measured, listed, locked};
ghost use Rattle.lsm_folder.specs.Truth.{TellsTruth, premised-prop};

use crate::folder_fault::FolderFault;
use crate::lock_kind::LockKind;
use crate::log::{Kind, Log};
use crate::witness::Witness;
use boxcar::tag::Tag;
use std::marker::PhantomData;

/// Calls of which the last answer is true where the witness tells the truth. It has no bytes.
#[derive(Drop)]
pub(crate) struct SeenLog<W: Witness> {
    pub(crate) log: Log,
    by: PhantomData<W>,
    ghost honest: { TellsTruth W.Witness.happened
        → LastIsTrue log.calls } by { premised-prop (LastIsTrue-prop log.calls) },
}

impl<W: Witness> SeenLog<W> {
    /// No call.
    pub(crate) fn empty() -> SeenLog<W>
        ensures { result.log.calls ≡ [] }
    {
        SeenLog {
            log: Log::empty(),
            by: PhantomData,
        }
    }

    /// The folder was opened.
    pub(crate) fn opened() -> SeenLog<W>
        ensures { result.log.calls ≡ opened ∷ [] }
    {
        SeenLog {
            log: Log::opened(),
            by: PhantomData,
        }
    }

    /// One call more, whose answer is true whatever it is.
    pub(crate) fn add<K: Kind>(
        &mut self,
        name: &[u8],
        bytes: &[u8],
        answer: &Result<(), FolderFault>,
    )
        requires { IsTrueCall (K.Kind.call name.now bytes.now answer.now) }
        ensures { self.new.log.calls
            ≡ K.Kind.call name.now bytes.now answer.now ∷ self.old.log.calls }
    {
        self.log.add::<K>(name, bytes, answer);
    }

    /// A read more, with its answer, of which the witness saw what was read.
    pub(crate) fn add_read(
        &mut self,
        name: &[u8],
        image: &Tag,
        offset: u64,
        len: usize,
        answer: &Result<Vec<u8>, FolderFault>,
    )
        requires seen { IfOk answer.now (λ v. W.happened image.now.numbers offset len v.items) }
        ensures { MatchResult answer.now (λ v. self.new.log.calls
            ≡ read name.now image.now.numbers offset len (Ok v.items) ∷ self.old.log.calls)
            (λ e. self.new.log.calls
            ≡ read name.now image.now.numbers offset len (Err e) ∷ self.old.log.calls) }
    {
        self.log.add_read(name, image, offset, len, answer);
    }

    /// A file more that was to be read whole, with the answer.
    pub(crate) fn add_load<T>(&mut self, name: &[u8], answer: &Result<(T, Vec<u8>), FolderFault>)
        ensures { MatchResult answer.now
            (λ r. self.new.log.calls ≡ loaded name.now (Ok r.1.items) ∷ self.old.log.calls)
            (λ e. self.new.log.calls ≡ loaded name.now (Err e) ∷ self.old.log.calls) }
    {
        self.log.add_load(name, answer);
    }

    /// A file more whose length was asked, with the answer.
    pub(crate) fn add_length(&mut self, name: &[u8], answer: &Result<u64, FolderFault>)
        ensures { MatchResult answer.now
            (λ n. self.new.log.calls ≡ measured name.now (Ok n) ∷ self.old.log.calls)
            (λ e. self.new.log.calls ≡ measured name.now (Err e) ∷ self.old.log.calls) }
    {
        self.log.add_length(name, answer);
    }

    /// A lock more that was asked for, with the answer.
    pub(crate) fn add_lock(
        &mut self,
        name: &[u8],
        kind: LockKind,
        answer: &Result<bool, FolderFault>,
    )
        ensures { self.new.log.calls ≡ locked name.now kind answer.now ∷ self.old.log.calls }
    {
        self.log.add_lock(name, kind, answer);
    }

    /// A list more, with its answer.
    pub(crate) fn add_list(&mut self, answer: &Result<Vec<String>, FolderFault>)
        ensures { MatchResult answer.now
            (λ v. self.new.log.calls ≡ listed (Ok (map string_bytes v.items)) ∷ self.old.log.calls)
            (λ e. self.new.log.calls ≡ listed (Err e) ∷ self.old.log.calls) }
    {
        self.log.add_list(answer);
    }
}
