//! Live jobs: cancels, and numbers for their outputs.

ghost use Rattle.std.specs.Prelude.{◌≡◌, suc, ◌-◌, ◌^◌, ◌⊎◌, IfErr, IfOk, OnErr, OnOk};
ghost use Rattle.lsm_model.specs.Plain.{Cancels, Draws};
ghost use Rattle.lsm_live.specs.Booked.{HasTicket, booked, without};
ghost use Rattle.lsm_state.specs.Held.{plain};
ghost use Rattle.lsm_state.specs.declared.state_fault.StateFault.TheVariants.{NumbersSpent};
ghost use Rattle.lsm_state.specs.declared.state_fault.StateFault.TheVariants.{OutOfMemory};
ghost use Rattle.lsm_state.specs.declared.state_fault.StateFault.TheVariants.{UnknownTicket};

use crate::state::State;
use crate::state_fault::StateFault;
use lsm_slots::Boarded;
use lsm_table::Shelf;

impl<N: Boarded, S: Shelf> State<N, S> {
    /// Gives up the live job of this ticket. Its numbers are kept no longer. `UnknownTicket` where
    /// it is not live.
    pub fn cancel(&mut self, ticket: u64) -> Result<(), StateFault>
        ensures ok { OnOk result (HasTicket self.old.live ticket
            × (self.new ≡ record self.old { live = without ticket self.old.live })) }
        ensures event { OnOk result (Cancels (plain self.old) ticket (plain self.new)) }
        ensures err { OnErr result (self.new ≡ self.old) }
        ensures refused { IfErr result (λ e. (e ≡ UnknownTicket ticket)
            × (HasTicket self.old.live ticket → ⊥)) }
    {
        if !self.live.is_live(ticket) {
            return Err(StateFault::UnknownTicket(ticket));
        }
        self.live.remove(ticket);
        Ok(())
    }

    /// The next file number, booked under the ticket of a live job, so that its table is kept.
    ///
    /// `UnknownTicket` where the ticket is not live; then `NumbersSpent` where the number would be
    /// 2^64 - 1; then `OutOfMemory`.
    pub fn new_number(&mut self, ticket: u64) -> Result<u64, StateFault>
        ensures ok { IfOk result (λ n. HasTicket self.old.live ticket × (n ≡ self.old.next)
            × (n ≡ 2 ^ 64 - 1 → ⊥)
            × (self.new ≡ record self.old { live = booked ticket n self.old.live; next = suc n })) }
        ensures event { OnOk result (Draws (plain self.old) ticket (plain self.new)) }
        ensures err { OnErr result (self.new ≡ self.old) }
        ensures refused { IfErr result (λ e.
            ((e ≡ UnknownTicket ticket) × (HasTicket self.old.live ticket → ⊥))
            ⊎ (HasTicket self.old.live ticket × (((e ≡ NumbersSpent) × (self.old.next ≡ 2 ^ 64 - 1))
            ⊎ ((e ≡ OutOfMemory) × (self.old.next ≡ 2 ^ 64 - 1 → ⊥))))) }
    {
        if !self.live.is_live(ticket) {
            return Err(StateFault::UnknownTicket(ticket));
        }
        if self.next == u64::MAX {
            return Err(StateFault::NumbersSpent);
        }
        let number = self.next;
        self.live.draw(ticket, number)?;
        self.next = number + 1;
        Ok(number)
    }
}
