//! The inputs of a job as one stream, with the entry before.

ghost use Rattle.std.specs.Prelude.{◌≡◌, ◌<◌, ◌^◌, [], ℕ, List, false, None, Option, Some, IfErr};
ghost use Rattle.std.specs.Prelude.{OnOk};
ghost use Rattle.std.specs.Option.{option_map};
ghost use Rattle.lsm_codec.specs.KeyRef.{key_of};
ghost use Rattle.lsm_codec.specs.Keys.{InternalKey, UserKey};
ghost use Rattle.lsm_codec.specs.declared.kind.Kind.{Kind};
ghost use Rattle.lsm_block.specs.Block.{entry_of};
ghost use Rattle.lsm_model.specs.Streams.{is_shadowed};
ghost use Rattle.lsm_iterators.specs.Heads.{after_first, first_of, key_in, no_more, value_in};
ghost use Rattle.lsm_iterators.specs.Runs.{IsOfFirst, ReadsNoOther};
ghost use Rattle.lsm_shelf.specs.Told.{Becomes};
ghost use Rattle.lsm_table.specs.declared.table_options.TableOptions.{TableOptions};
ghost use Rattle.lsm_merge.specs.Causes.{HasCause, NamesRefused};
ghost use Rattle.lsm_merge.specs.Dropping.{follows};
ghost use Rattle.lsm_merge.specs.Inputs.{AreInputs, IsOfReading, IsReadable};
ghost use Rattle.lsm_merge.specs.Remembered.{entry_passed, order_to};

use crate::merge_fault::MergeFault;
use lsm_codec::{KeyRef, Kind};
use lsm_iterators::{Merger, Walk};
use lsm_reader::Direct;
use lsm_table::{NamedShelf, Naming, Shelf};
use std::alloc::Global;
use std::cmp::Ordering;
use std::marker::Model;

/// The inputs of a job as one stream, and of the entry that it passed last as much as a merge
/// remembers: its key. Of the two user keys only what stands behind a front that both share is
/// compared and copied. Contracts see what is left, and the entry before without its value.
#[derive(Drop)]
pub(crate) struct Stream<N: Naming, S: Shelf> {
    // With the user key of the entry before.
    walk: Walk<N, S>,
    // How that stands to the user key of the entry at which it stands.
    order: Option<Ordering>,
    // The sequence and the kind of the entry before.
    seq: u64,
    kind: Kind,
}

impl<N: Naming, S: Shelf> Model for Stream<N, S> {
    ghost use Rattle.std.specs.Prelude.{◌≡◌, ◌<◌, ◌^◌};
    ghost use Rattle.lsm_iterators.specs.Heads.{first_of};
    ghost use Rattle.lsm_iterators.specs.Walks.{order_first};
    ghost use Rattle.lsm_merge.specs.Remembered.{Streaming, entry_passed};

    ghost Value = { Streaming };

    ghost view = { λ s. record {
      left = s.walk.left;
      before = entry_passed s.walk.passed s.seq s.kind;
    } };

    ghost invariant = { λ s. s.seq < 2 ^ 56
        × (s.order ≡ order_first s.walk.passed (first_of s.walk.left.placed)) };
}

/// Whether an entry of this key stands after the one before, whose user key stands so to its own,
/// and whose sequence and kind these are.
#[tactic(auto, using(crate::proofs::StreamLaws::follows_none, crate::proofs::StreamLaws::follows_some))]
fn follows_by(order: Option<Ordering>, seq: u64, kind: Kind, key: &KeyRef<'_>) -> bool
    requires { seq < 2 ^ 56 }
    ensures { (user : Option UserKey) → order ≡ order_to user (key_of key.now).user
        → result ≡ follows (entry_passed user seq kind) (key_of key.now) }
{
    let own = KeyRef {
        user: key.user,
        seq,
        kind,
    };
    match order {
        None => true,
        Some(order) => order.then(key.packed().cmp(&own.packed())).is_lt(),
    }
}

/// Whether no read from the floor on comes to an entry after one of this sequence, whose user key
/// stands so to its own.
#[tactic(auto, using(crate::proofs::StreamLaws::shadows_none, crate::proofs::StreamLaws::shadows_some))]
fn shadows_by(order: Option<Ordering>, seq: u64, floor: u64) -> bool
    ensures { (user : Option UserKey) (kind : Kind) (key : InternalKey)
        → order ≡ order_to user key.user
        → result ≡ is_shadowed floor (entry_passed user seq kind) (entry_of key []) }
{
    match order {
        None => false,
        Some(order) => order.is_eq() && seq <= floor,
    }
}

impl<N: Naming, S: Shelf> Stream<N, S> {
    /// Along this merge. No entry came before.
    pub(crate) fn new(alloc: Global, merger: Merger<N, S>) -> Stream<N, S>
        ensures { result ≡ record { left = merger; before = None } }
    {
        Stream {
            walk: Walk::new(alloc, merger),
            order: None,
            seq: 0,
            kind: Kind::Deletion,
        }
    }

    /// The key of the entry at which it stands, if it stands at one.
    pub(crate) fn key(&self) -> Option<KeyRef<'_>>
        ensures { option_map key_of result ≡ key_in (first_of self.now.left.placed) }
    {
        self.walk.key()
    }

    /// Its value; no bytes where there is none.
    pub(crate) fn value(&self) -> &[u8]
        ensures { result.now ≡ value_in (first_of self.now.left.placed) }
    {
        self.walk.value()
    }

    /// The number of its file; 0 where there is none.
    pub(crate) fn number(&self) -> u64
        ensures { no_more self.now.left.placed ≡ false → IsOfFirst self.now.left result }
    {
        self.walk.number()
    }

    /// Whether it stands at no entry. Then none is left.
    pub(crate) fn is_at_end(&self) -> bool
        ensures { result ≡ no_more self.now.left.placed }
    {
        self.walk.is_at_end()
    }

    /// Whether the entry at which it stands, which has this key, stands after the entry before.
    pub(crate) fn is_followed_by(&self, key: &KeyRef<'_>) -> bool
        ensures { Some (key_of key.now) ≡ key_in (first_of self.now.left.placed)
            → result ≡ follows self.now.before (key_of key.now) }
    {
        follows_by(self.order, self.seq, self.kind, key)
    }

    /// Whether no read from the floor on comes to the entry at which it stands, which has this key:
    /// the entry before has its user key, and a sequence at most the floor.
    pub(crate) fn shadows(&self, floor: u64, key: &KeyRef<'_>) -> bool
        ensures { Some (key_of key.now) ≡ key_in (first_of self.now.left.placed)
            → result ≡ is_shadowed floor self.now.before (entry_of (key_of key.now) []) }
    {
        shadows_by(self.order, self.seq, floor)
    }

    /// Passes the entry at which it stands, which is then the one before.
    #[tactic(auto, using(crate::proofs::InputLaws::readable_of, crate::proofs::InputLaws::cause_of_read, crate::proofs::InputLaws::reading_of, crate::proofs::Refused::refused_read, crate::proofs::StreamLaws::passed_entry))]
    pub(crate) fn pass(
        &mut self,
        shelf: &mut NamedShelf<N, S>,
        alloc: Global,
    ) -> Result<(), MergeFault>
        requires { no_more self.old.left.placed ≡ false }
        ensures ok { S.honest
            → OnOk result (self.new.left.placed ≡ after_first self.old.left.placed) }
        ensures before { (key : InternalKey) → Some key ≡ key_in (first_of self.old.left.placed)
            → OnOk result (self.new.before ≡ Some (entry_of key [])) }
        ensures files { OnOk result (ReadsNoOther self.old.left self.new.left) }
        ensures kind { IfErr result IsOfReading }
        ensures sound { S.honest → IfErr result IsReadable }
        ensures told { Becomes shelf.old shelf.new }
        ensures cause { IfErr result (λ e. (inputs : List ℕ) → AreInputs self.old.left.files inputs
            → HasCause inputs e shelf.old shelf.new) }
        ensures refused { (options : TableOptions) → IfErr result
            (NamesRefused (S.refuses N.place) options) }
    {
        let Some(key) = self.walk.key() else {
            unreachable!()
        };
        let (seq, kind) = (key.seq, key.kind);
        let mut direct = Direct::new(shelf);
        let passed = self.walk.pass_by(&mut direct, alloc);
        self.order = self.walk.order();
        match passed {
            Ok(()) => {
                self.seq = seq;
                self.kind = kind;
                Ok(())
            }
            Err(fault) => Err(MergeFault::of_read(fault.number, fault.fault)),
        }
    }
}
