//! Removing tables that no reader and no job needs.

ghost use Rattle.std.specs.Prelude.{◌≡◌, ◌≤◌, ℕ, [], length, IfErr, IfOk, OnErr, OnOk, false};
ghost use Rattle.std.specs.Prelude.{vec_capacity, vec_len};
ghost use Rattle.std.specs.List.Sorted.{IsStrictlyIncreasing};
ghost use Rattle.lsm_codec.specs.Lists.{Has};
ghost use Rattle.lsm_shelf.specs.Asked.{Remove};
ghost use Rattle.lsm_shelf.specs.Told.{Becomes, Counted, CountedBy, NotTaken};
ghost use Rattle.lsm_state.specs.Asked.{CollectRefused, OnShelf};
ghost use Rattle.lsm_state.specs.Collecting.{AreCollected, HasLookedAround, IsCollectRefusal};
ghost use Rattle.lsm_state.specs.Collecting.{IsCountedOnce, IsKeptNumber, IsMemoryOrShelf};
ghost use Rattle.lsm_state.specs.Collecting.{IsRefusedMemory, IsStopped, IsWantOfMemory};
ghost use Rattle.lsm_state.specs.Collecting.{SameCounts, StoppedEarly, TellsAll, is_in, outside};
ghost use Rattle.lsm_state.specs.Collecting.{removing_all};
ghost use Rattle.lsm_state.specs.Held.{plain};

use crate::state::State;
use crate::state_fault::StateFault;
use lsm_slots::Boarded;
use lsm_table::{NamedShelf, Naming, Shelf, ShelfFault};
use std::alloc::Global;
use std::sync::Wait;

// Whether a number is one of ascending ones.
pub(crate) fn is_among(numbers: &[u64], number: u64) -> bool
    ensures { IsStrictlyIncreasing numbers.now → result ≡ is_in numbers.now number }
{
    numbers.binary_search(&number).is_ok()
}

// The numbers that are not kept. Those that are ascend.
pub(crate) fn keep_outside(numbers: &mut Vec<u64>, kept: &[u64])
    requires { IsStrictlyIncreasing kept.now }
    ensures { numbers.new.items ≡ outside kept.now numbers.old.items }
{
    numbers.retain(|number| !is_among(kept, *number));
}

// Removes tables one after another, and notes each that was removed; there is room for that.
fn remove_all<N: Naming, S: Shelf, R: Wait>(
    shelf: &mut NamedShelf<N, S>,
    rt: &R,
    numbers: &[u64],
    removed: &mut Vec<u64>,
) -> Result<(), ShelfFault>
    requires none { (removed.old.items ≡ []) × (vec_len removed.old ≡ 0) }
    requires room { length numbers.now ≤ vec_capacity removed.old }
    ensures ok { OnOk result ((removed.new.items ≡ numbers.now)
        × Becomes (removing_all numbers.now shelf.old) shelf.new) }
    ensures err { OnErr result (IsStopped numbers.now removed.new.items shelf.old shelf.new) }
    ensures cause { IfErr result (λ e. NotTaken e × Counted e shelf.old shelf.new) }
    ensures counts { CountedBy result shelf.old shelf.new }
    ensures asked { IfErr result (λ e. (n : ℕ) × Has numbers.now n
        × S.refuses N.place (Remove n) e) }
    ensures untold { IfErr result (λ e. IsRefusedMemory e
        → TellsAll removed.new.items shelf.old shelf.new) }
{
    for number in numbers {
        shelf.remove(rt, *number)?;
        let Ok(()) = removed.push(*number) else {
            unreachable!()
        };
    }
    Ok(())
}

impl<N: Boarded, S: Shelf> State<N, S> {
    // Removes the listed tables that are not kept.
    fn sweep<R: Wait>(
        &self,
        rt: &R,
        alloc: Global,
        shelf: &mut NamedShelf<N, S>,
        removed: &mut Vec<u64>,
    ) -> Result<(), StateFault>
        requires none { (removed.old.items ≡ []) × (vec_len removed.old ≡ 0) }
        ensures ok { OnOk result (AreCollected self.now removed.new.items shelf.old shelf.new) }
        ensures err { OnErr result (StoppedEarly self.now removed.new.items shelf.old shelf.new) }
        ensures cause { IfErr result (λ e. IsMemoryOrShelf e shelf.old shelf.new) }
        ensures counts { OnOk result (SameCounts shelf.old shelf.new) }
        ensures counts_err { IfErr result (λ e. IsCountedOnce e shelf.old shelf.new) }
        ensures asked { IfErr result (OnShelf (CollectRefused (S.refuses N.place) self.now)) }
        ensures untold { IfErr result (λ e. IsWantOfMemory e
            → TellsAll removed.new.items shelf.old shelf.new) }
    {
        let kept = self.kept(alloc)?;
        let mut numbers = shelf.list(rt, alloc)?;
        keep_outside(&mut numbers, &kept);
        removed.reserve(numbers.len())?;
        remove_all(shelf, rt, &numbers, removed)?;
        Ok(())
    }

    /// Looks at the slots that may turn free, and removes the listed tables that are not kept.
    /// Answers their numbers, ascending.
    ///
    /// `Halted` where the state is halted; else `OutOfMemory`, and the shelf's refusals. A refusal
    /// has the numbers of the tables that were removed, but perhaps for one that the shelf refused
    /// to remove, other than for want of memory; the state goes on, and a later call removes the
    /// others.
    pub fn collect<R: Wait>(
        &mut self,
        rt: &R,
        alloc: Global,
        shelf: &mut NamedShelf<N, S>,
    ) -> Result<Vec<u64>, (StateFault, Vec<u64>)>
        ensures ok { IfOk result (λ v. (self.old.halted ≡ false) × HasLookedAround self.old self.new
            × AreCollected self.new v.items shelf.old shelf.new) }
        ensures event { plain self.new ≡ plain self.old }
        ensures kept { (n : ℕ) → IsKeptNumber self.new n → IsKeptNumber self.old n }
        ensures rest { self.new ≡ record self.old { slots = self.new.slots } }
        ensures refused { IfErr result (λ e. IsCollectRefusal self.old self.new e.0 e.1.items
            shelf.old shelf.new) }
        ensures counts { OnOk result (SameCounts shelf.old shelf.new) }
        ensures counts_err { IfErr result (λ e. IsCountedOnce e.0 shelf.old shelf.new) }
        ensures asked { IfErr result (λ e.
            OnShelf (CollectRefused (S.refuses N.place) self.new) e.0) }
        ensures untold { IfErr result (λ e. IsWantOfMemory e.0
            → TellsAll e.1.items shelf.old shelf.new) }
    {
        let mut removed = Vec::new(alloc);
        if self.halted {
            return Err((StateFault::Halted, removed));
        }
        self.slots.look_around();
        match self.sweep(rt, alloc, shelf, &mut removed) {
            Ok(()) => Ok(removed),
            Err(fault) => Err((fault, removed)),
        }
    }
}
