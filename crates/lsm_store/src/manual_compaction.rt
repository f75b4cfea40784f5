//! Compactions of a range of keys (LevelDB's `CompactRange`).

ghost use Rattle.std.specs.Prelude.{◌≡◌, ◌↔◌, IfErr, IfOk, IfSome, IsTrue, OnErr};
ghost use Rattle.lsm_picker.specs.Manual.{IsCleared, IsToClear};
ghost use Rattle.lsm_state.specs.Reserving.{IsReserving};
ghost use Rattle.lsm_store.specs.Picking.{IsBooked, IsManual};
ghost use Rattle.lsm_store.specs.Workers.{IsOfReserving};

use lsm_codec::Bytes;
use lsm_merge::Job;
use lsm_picker::{is_cleared, span_to_clear};
use lsm_slots::Boarded;
use lsm_state::{State, StateFault};
use lsm_table::Shelf;
use std::alloc::{AllocError, Global};
use std::marker::Model;

/// The user keys from one to another, both included, whose files are compacted level by level, from
/// level 0 to a last one: the files of that one into the next level.
#[derive(Drop)]
pub struct ManualCompaction {
    from: Bytes,
    to: Bytes,
    last: u8,
}

impl Model for ManualCompaction {
    ghost use Rattle.std.specs.Prelude.{◌≤◌};
    ghost use Rattle.lsm_picker.specs.Joining.{Span};

    ghost Value = { Span };

    ghost view = { λ m. record { level = m.last; from = m.from; to = m.to } };

    ghost invariant = { λ m. m.last ≤ 5 };
}

/// Bytes of its own.
fn owned(alloc: Global, key: &[u8]) -> Result<Bytes, AllocError>
    ensures { IfOk result (λ b. b ≡ key.now) }
{
    Ok(Bytes::of(Vec::from_slice(alloc, key)?))
}

impl ManualCompaction {
    /// That of the keys from `from` to `to` over the files of a state, where none is no bound. Its
    /// last level is the deepest one of which a file meets the range (5 where that is level 6).
    /// `AllocError` where a growth was refused.
    pub fn of<N: Boarded, S: Shelf>(
        alloc: Global,
        state: &State<N, S>,
        from: &Option<Bytes>,
        to: &Option<Bytes>,
    ) -> Result<ManualCompaction, AllocError>
        ensures { IfOk result (IsToClear state.now.slots.version from.now to.now) }
    {
        let (_id, version) = state.current();
        let span = span_to_clear(state.registry(), version, from, to);
        Ok(ManualCompaction {
            from: owned(alloc, span.from())?,
            to: owned(alloc, span.to())?,
            last: span.level(),
        })
    }

    /// Whether no file of a state at these levels meets the range.
    pub fn is_done<N: Boarded, S: Shelf>(&self, state: &State<N, S>) -> bool
        ensures { IsTrue result ↔ IsCleared state.now.slots.version self.now }
    {
        let (_id, version) = state.current();
        let (from, to) = (self.from.as_slice(), self.to.as_slice());
        is_cleared(state.registry(), version, self.last, from, to)
    }

    /// Reserves the files of the first of these levels that has some which meet the range, unless a
    /// live job is in their way. None where there is no such level.
    pub(crate) fn reserve<N: Boarded, S: Shelf>(
        &self,
        state: &mut State<N, S>,
        alloc: Global,
    ) -> Result<Option<Job<N, S>>, StateFault>
        ensures next { S.honest → IfOk result (λ r. IsManual self.now state.old r) }
        ensures booked { IfOk result (λ r. IsBooked r state.old state.new) }
        ensures event { IfOk result (λ r.
            IfSome r (λ w. IsReserving S.honest state.old w state.new)) }
        ensures err { OnErr result (state.new ≡ state.old) }
        ensures refused { IfErr result IsOfReserving }
    {
        let (from, to) = (self.from.as_slice(), self.to.as_slice());
        for level in 0..=self.last {
            match state.reserve_range(alloc, level, from, to) {
                Ok(Some(job)) => return Ok(Some(job)),
                // A plan that conflicts with a live job has to wait.
                Ok(None) | Err(StateFault::Conflict(_)) => {}
                Err(fault) => return Err(fault),
            }
        }
        Ok(None)
    }
}
