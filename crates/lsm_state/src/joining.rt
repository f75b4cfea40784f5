//! What workers reserve: the choice below level 0, or that moves a file which is not small; then
//! runs of files that are joined; then the outermost file of level 0; then level 0.

ghost use Rattle.std.specs.Prelude.{◌≡◌, ◌≤◌, ◌-◌, ◌^◌, ◌↔◌, false, IfErr, IfNone, IfOk, IfSome};
ghost use Rattle.std.specs.Prelude.{IsTrue, MatchOption, OnErr, OnOk};
ghost use Rattle.lsm_picker.specs.Moves.{IsMovable};
ghost use Rattle.lsm_picker.specs.Reservations.{IsClear};
ghost use Rattle.lsm_picker.specs.TablePlans.{StandsIn};
ghost use Rattle.lsm_live.specs.Reserving.{reserved_jobs};
ghost use Rattle.lsm_state.specs.Reserving.{GoesAtOnce, GoesBefore, GoesDown, HasNoJoining};
ghost use Rattle.lsm_state.specs.Reserving.{HasNoNext, HasOrderedInputs, HasToWait, IsJoining};
ghost use Rattle.lsm_state.specs.Reserving.{IsNext, IsNextRefusal, IsOfMoment, IsPlanRefusal};
ghost use Rattle.lsm_state.specs.Reserving.{IsRangePlan, IsReady, IsReserving, MovesLarge};
ghost use Rattle.lsm_state.specs.Reserving.{NoneGoesBefore, NoneGoesDown, plan_in, reserved};

use crate::state::State;
use crate::state_fault::StateFault;
use lsm_merge::Job;
use lsm_picker::{
    Plan, Span, is_large_move, is_move, level_zero_is_ready, outermost_span, span_to_join,
};
use lsm_slots::Boarded;
use lsm_table::Shelf;
use std::alloc::{AllocError, Global};

impl<N: Boarded, S: Shelf> State<N, S> {
    // The plan of the files that meet a range; none where no file does, or where that plan
    // conflicts with a live job, and so has to wait.
    #[tactic(auto, using(crate::proofs::ReserveLaws::range_refused))]
    fn plan_over(&self, alloc: Global, span: &Span<'_>) -> Result<Option<Plan<N, S>>, StateFault>
        requires open { self.now.halted ≡ false }
        requires level { span.now.level ≤ 5 }
        ensures planned { S.honest → IfOk result (λ r.
            MatchOption r (HasToWait self.now span.now) (λ p.
            IsRangePlan self.now span.now.level span.now.from span.now.to p)) }
        ensures stands { IfOk result (λ r.
            IfSome r (λ p. StandsIn self.now.slots.version p)) }
        ensures clear { IfOk result (λ r.
            IfSome r (λ p. IsClear p (reserved_jobs self.now.live))) }
        ensures refused { IfErr result (IsPlanRefusal self.now) }
    {
        match self.range_plan(alloc, span.level(), span.from(), span.to()) {
            Ok(plan) => Ok(plan),
            Err(fault) => match fault {
                StateFault::Conflict(_) => Ok(None),
                _ => Err(fault),
            },
        }
    }

    // The plan of the outermost file of level 0; none where none goes down so.
    #[tactic(auto, using(crate::proofs::ReserveLaws::outermost_low, crate::proofs::ReserveLaws::outermost_of))]
    fn outermost_plan(&self, alloc: Global) -> Result<Option<Plan<N, S>>, StateFault>
        requires open { self.now.halted ≡ false }
        ensures down { S.honest → IfOk result (λ r.
            MatchOption r (NoneGoesDown self.now) (λ p. GoesDown self.now p)) }
        ensures stands { IfOk result (λ r.
            IfSome r (λ p. StandsIn self.now.slots.version p)) }
        ensures clear { IfOk result (λ r.
            IfSome r (λ p. IsClear p (reserved_jobs self.now.live))) }
        ensures refused { IfErr result (IsPlanRefusal self.now) }
    {
        let live = self.live.reservations(alloc, &self.registry)?;
        let Some(span) = outermost_span(&self.registry, self.slots.version(), &live) else {
            return Ok(None);
        };
        self.plan_over(alloc, &span)
    }

    // The plan of the files that are joined; none where nothing can be joined.
    #[tactic(auto, using(crate::proofs::ReserveLaws::joined_low))]
    fn joining_plan(&self, alloc: Global) -> Result<Option<Plan<N, S>>, StateFault>
        requires open { self.now.halted ≡ false }
        ensures joined { S.honest → IfOk result (λ r.
            MatchOption r (HasNoJoining self.now) (λ p. IsJoining self.now p)) }
        ensures stands { IfOk result (λ r.
            IfSome r (λ p. StandsIn self.now.slots.version p)) }
        ensures clear { IfOk result (λ r.
            IfSome r (λ p. IsClear p (reserved_jobs self.now.live))) }
        ensures refused { IfErr result (IsPlanRefusal self.now) }
    {
        let version = self.slots.version();
        let Some(span) = span_to_join(&self.registry, version, self.options.target_size) else {
            return Ok(None);
        };
        self.plan_over(alloc, &span)
    }

    // The plan that goes before a choice which has to wait; none where there is none.
    #[tactic(auto, using(crate::proofs::ReserveLaws::outermost_before))]
    fn plan_before(&self, alloc: Global) -> Result<Option<Plan<N, S>>, StateFault>
        requires open { self.now.halted ≡ false }
        ensures before { S.honest → IfOk result (λ r.
            MatchOption r (NoneGoesBefore self.now) (λ p. GoesBefore self.now p)) }
        ensures stands { IfOk result (λ r.
            IfSome r (λ p. StandsIn self.now.slots.version p)) }
        ensures clear { IfOk result (λ r.
            IfSome r (λ p. IsClear p (reserved_jobs self.now.live))) }
        ensures refused { IfErr result (IsPlanRefusal self.now) }
    {
        if let Some(plan) = self.joining_plan(alloc)? {
            return Ok(Some(plan));
        }
        self.outermost_plan(alloc)
    }

    // Whether a plan is below level 0, or only moves a file that is not small.
    fn goes_at_once(&self, plan: &Plan<N, S>) -> bool
        ensures goes { IsTrue result → GoesAtOnce self.now plan.now }
        ensures waits { result ≡ false
            → (plan.now.level ≡ 0) × (MovesLarge self.now plan.now → ⊥) }
    {
        let target_size = self.options.target_size;
        plan.level() > 0 || is_large_move(&self.registry, self.slots.version(), plan, target_size)
    }

    // Whether level 0 is compacted.
    #[tactic(auto, using(crate::proofs::ReserveLaws::ready_of))]
    fn is_ready(&self, alloc: Global) -> Result<bool, AllocError>
        ensures { IfOk result (λ ready. IsTrue ready ↔ IsReady self.now) }
    {
        let live = self.live.reservations(alloc, &self.registry)?;
        let target_size = self.options.target_size;
        Ok(level_zero_is_ready(&self.registry, self.slots.version(), &live, target_size))
    }

    // The plan of a worker's next compaction; none where there is none.
    #[tactic(auto, using(crate::proofs::ReserveLaws::next_unchosen))]
    fn next_plan(&self, alloc: Global) -> Result<Option<Plan<N, S>>, StateFault>
        ensures next { S.honest → IfOk result (λ r.
            MatchOption r (HasNoNext self.now) (λ p. IsNext self.now p)) }
        ensures stands { IfOk result (λ r.
            IfSome r (λ p. StandsIn self.now.slots.version p)) }
        ensures clear { IfOk result (λ r.
            IfSome r (λ p. IsClear p (reserved_jobs self.now.live))) }
        ensures open { OnOk result (self.now.halted ≡ false) }
        ensures refused { IfErr result (IsPlanRefusal self.now) }
    {
        let Some(chosen) = self.chosen_plan(alloc)? else {
            return self.plan_before(alloc);
        };
        if self.goes_at_once(&chosen) {
            return Ok(Some(chosen));
        }
        if let Some(plan) = self.plan_before(alloc)? {
            return Ok(Some(plan));
        }
        if !self.is_ready(alloc)? {
            return Ok(None);
        }
        Ok(Some(chosen))
    }

    /// Reserves the next compaction of a worker: the chosen one, as `reserve` does, where that is
    /// below level 0, or only moves a file that is not small; else that of the files that are joined
    /// (`lsm_picker::span_to_join`), so that small files become larger ones; else that of the
    /// outermost file of level 0 (`lsm_picker::outermost_span`), which only moves it; and where there
    /// is neither, or a live job is in the way, the chosen one, where level 0 is ready for it
    /// (`lsm_picker::level_zero_is_ready`). None exactly where there is none of these; then nothing
    /// changes.
    ///
    /// `Halted` where the state is halted; `NumbersSpent` in place of a job whose ticket would be
    /// 2^64 - 1; `OutOfMemory`. A refusal leaves the state as it was.
    #[tactic(auto, using(crate::proofs::ReserveLaws::closed_next, crate::proofs::ReserveLaws::refused_next, crate::proofs::ReserveLaws::plan_unfit))]
    pub fn reserve_next(&mut self, alloc: Global) -> Result<Option<Job<N, S>>, StateFault>
        ensures next { S.honest → IfOk result (λ r.
            MatchOption r (HasNoNext self.old) (λ w. IsNext self.old (plan_in w))) }
        ensures moment { IfOk result (λ r. IfSome r (λ w. IsOfMoment self.old w)) }
        ensures in_order { S.honest → IfOk result (λ r. IfSome r HasOrderedInputs) }
        ensures is_move { IfOk result (λ r. IfSome r (λ w. IsTrue w.is_move
            ↔ IsMovable self.old.slots.version (plan_in w) self.old.options.target_size)) }
        ensures ok { IfOk result (λ r. IfSome r (λ w. self.new ≡ reserved w self.old)) }
        ensures event { IfOk result (λ r.
            IfSome r (λ w. IsReserving S.honest self.old w self.new)) }
        ensures none { IfOk result (λ r. IfNone r (self.new ≡ self.old)) }
        ensures open { OnOk result (self.old.halted ≡ false) }
        ensures unspent { IfOk result (λ r. IfSome r (λ w. w.ticket ≡ 2 ^ 64 - 1 → ⊥)) }
        ensures err { OnErr result (self.new ≡ self.old) }
        ensures refused { IfErr result (λ e. IsNextRefusal S.honest self.old e) }
    {
        let Some(plan) = self.next_plan(alloc)? else {
            return Ok(None);
        };
        let version = self.slots.version();
        let moves = is_move(&self.registry, version, &plan, self.options.target_size);
        Ok(Some(self.book(alloc, plan, moves)?))
    }
}
