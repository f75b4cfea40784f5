//! Removing tables one at a time.

ghost use Rattle.std.specs.Prelude.{◌≡◌, ℕ, ◌⊎◌, ◌↔◌, List, false, true, IfErr, IfOk, OnErr, OnOk};
ghost use Rattle.lsm_codec.specs.Lists.{Has};
ghost use Rattle.lsm_state.specs.Collecting.{HasLookedAround, IsKeptNumber, IsRemoveRefusal};
ghost use Rattle.lsm_state.specs.Collecting.{IsRemovedOrKept, outside};
ghost use Rattle.lsm_state.specs.Held.{plain};
ghost use Rattle.lsm_state.specs.declared.state_fault.StateFault.TheVariants.{Halted, OutOfMemory};

use crate::collect::{is_among, keep_outside};
use crate::state::State;
use crate::state_fault::StateFault;
use lsm_slots::Boarded;
use lsm_table::{NamedShelf, Shelf};
use std::alloc::Global;
use std::sync::Wait;

impl<N: Boarded, S: Shelf> State<N, S> {
    /// Looks at the slots that may turn free, and leaves of these numbers those that are not kept.
    ///
    /// `Halted` where the state is halted; else `OutOfMemory`. Then the numbers are what they were.
    pub fn leave_unkept(&mut self, alloc: Global, numbers: &mut Vec<u64>) -> Result<(), StateFault>
        ensures ok { OnOk result ((self.old.halted ≡ false) × HasLookedAround self.old self.new
            × ((kept : List ℕ) × ((n : ℕ) → Has kept n ↔ IsKeptNumber self.new n)
            × (numbers.new.items ≡ outside kept numbers.old.items))) }
        ensures event { plain self.new ≡ plain self.old }
        ensures kept { (n : ℕ) → IsKeptNumber self.new n → IsKeptNumber self.old n }
        ensures rest { self.new ≡ record self.old { slots = self.new.slots } }
        ensures err { OnErr result (numbers.new ≡ numbers.old) }
        ensures refused { IfErr result (λ e.
            ((e ≡ Halted) × (self.old.halted ≡ true) × (self.new ≡ self.old))
            ⊎ ((e ≡ OutOfMemory) × (self.old.halted ≡ false)
            × HasLookedAround self.old self.new)) }
    {
        if self.halted {
            return Err(StateFault::Halted);
        }
        self.slots.look_around();
        let kept = self.kept(alloc)?;
        keep_outside(numbers, &kept);
        Ok(())
    }

    /// Removes the table of a number, unless it is kept. Whether it did: a part of what `collect`
    /// does, for who holds the lock no longer than one removal takes.
    ///
    /// `Halted` where the state is halted; else `OutOfMemory`, and the shelf's refusals.
    pub fn remove_unkept<R: Wait>(
        &self,
        rt: &R,
        alloc: Global,
        shelf: &mut NamedShelf<N, S>,
        number: u64,
    ) -> Result<bool, StateFault>
        ensures ok { IfOk result (λ did. (self.now.halted ≡ false)
            × IsRemovedOrKept self.now number did shelf.old shelf.new) }
        ensures refused { IfErr result (λ e.
            IsRemoveRefusal self.now number e shelf.old shelf.new) }
    {
        if self.halted {
            return Err(StateFault::Halted);
        }
        let kept = self.kept(alloc)?;
        if is_among(&kept, number) {
            return Ok(false);
        }
        shelf.remove(rt, number)?;
        Ok(true)
    }
}
