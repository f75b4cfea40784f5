//! The live snapshots.

ghost use Rattle.std.specs.Prelude.{◌≡◌, ℕ, suc, ◌-◌, ◌^◌, ◌<◌, ◌≤◌, ◌↔◌, [], ◌∷◌, ◌++◌, Some};
ghost use Rattle.std.specs.Prelude.{None, IfOk, IfSome, IfNone, OnErr, IsTrue};
ghost use Rattle.lsm_codec.specs.Lists.{Has};
ghost use Rattle.lsm_model.specs.Plain.{floor_of, without_snapshot};
ghost use Rattle.lsm_slots.specs.Snapshots.{AreSnapshots, HasId};

use std::alloc::{AllocError, Global};
use std::marker::Model;

/// The live snapshots, each an id and a sequence, the oldest first, and the id that comes next.
pub struct Snapshots {
    taken: Vec<(u64, u64)>,
    next: u64,
}

impl Drop for Snapshots {
    fn drop(self) {
        let Self { taken: _, next: _ } = self;
    }
}

impl Model for Snapshots {
    ghost use Rattle.lsm_slots.specs.Snapshots.{AreSnapshots, Taken};

    ghost Value = { Taken };

    ghost view = { λ s. record { taken = s.taken.items; next = s.next } };

    ghost invariant = { λ s. AreSnapshots record { taken = s.taken.items; next = s.next } };
}

// The sequence of the snapshot of this id, if it is live.
fn find(taken: &[(u64, u64)], id: u64) -> Option<u64>
    ensures some { IfSome result (λ seq. Has taken.now (id, seq)) }
    ensures none { IfNone result (HasId taken.now id → ⊥) }
{
    for one in taken {
        if one.0 == id {
            return Some(one.1);
        }
    }
    None
}

// The snapshots but that of this id.
fn take_out(taken: &mut Vec<(u64, u64)>, id: u64)
    ensures { taken.new.items ≡ without_snapshot id taken.old.items }
{
    taken.retain(|one| one.0 != id);
}

impl Snapshots {
    /// No snapshot; ids begin at 1.
    pub fn new(alloc: Global) -> Snapshots
        ensures { result ≡ record { taken = []; next = 1 } }
    {
        Snapshots {
            taken: Vec::new(alloc),
            next: 1,
        }
    }

    /// Whether no id is left: the next would be 2^64 - 1.
    pub fn are_spent(&self) -> bool
        ensures { IsTrue result ↔ (self.now.next ≡ 2 ^ 64 - 1) }
    {
        self.next == u64::MAX
    }

    /// A snapshot at this sequence, under the next id.
    pub fn take(&mut self, seq: u64) -> Result<u64, AllocError>
        requires more { self.old.next ≡ 2 ^ 64 - 1 → ⊥ }
        requires last { (p : ℕ × ℕ) → Has self.old.taken p → p.1 ≤ seq }
        ensures ok { IfOk result (λ id. (id ≡ self.old.next)
            × (self.new ≡ record { taken = self.old.taken ++ (id, seq) ∷ []; next = suc id })) }
        ensures err { OnErr result (self.new ≡ self.old) }
    {
        let id = self.next;
        self.taken.push((id, seq))?;
        self.next = id + 1;
        Ok(id)
    }

    /// Gives up the snapshot of this id. Answers whether it was live.
    pub fn release(&mut self, id: u64) -> bool
        ensures live { IsTrue result ↔ HasId self.old.taken id }
        ensures released { IsTrue result
            → self.new ≡ record self.old { taken = without_snapshot id self.old.taken } }
        ensures unknown { (IsTrue result → ⊥) → self.new ≡ self.old }
    {
        let Some(_) = find(self.taken.as_slice(), id) else {
            return false;
        };
        take_out(&mut self.taken, id);
        true
    }

    /// The sequence of the snapshot of this id, none where it is not live.
    pub fn sequence_of(&self, id: u64) -> Option<u64>
        ensures some { IfSome result (λ seq. Has self.now.taken (id, seq)) }
        ensures none { IfNone result (HasId self.now.taken id → ⊥) }
    {
        find(self.taken.as_slice(), id)
    }

    /// The least sequence at which reads are still promised, where this one is the last.
    pub fn floor(&self, last: u64) -> u64
        ensures { result ≡ floor_of last self.now.taken }
    {
        match self.taken.first() {
            Some(oldest) => oldest.1,
            None => last,
        }
    }

    /// The live snapshots, the oldest first, each an id and a sequence. What holds of all snapshots
    /// is told here.
    pub fn live(&self) -> &[(u64, u64)]
        ensures live { result.now ≡ self.now.taken }
        ensures law { AreSnapshots self.now }
    {
        self.taken.as_slice()
    }
}
