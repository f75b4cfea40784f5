//! Reservations of compactions.

ghost use Rattle.std.specs.Prelude.{◌≡◌, ◌≤◌, ◌-◌, ◌^◌, ◌↔◌, ◌⊎◌, [], length, false, IfErr};
ghost use Rattle.std.specs.Prelude.{IfNone, IfOk, IfSome, IsTrue, MatchOption, OnErr, OnOk};
ghost use Rattle.lsm_picker.specs.Choice.{HasNoChoice};
ghost use Rattle.lsm_picker.specs.Moves.{IsMovable};
ghost use Rattle.lsm_picker.specs.Reservations.{IsClear};
ghost use Rattle.lsm_picker.specs.TablePlans.{StandsIn, tables_over};
ghost use Rattle.lsm_live.specs.Reserving.{reserved_jobs};
ghost use Rattle.lsm_state.specs.Reserving.{HasOrderedInputs, IsChosen, IsClosedPlan, IsOfMoment};
ghost use Rattle.lsm_state.specs.Reserving.{IsPlanAt, IsPlanRefusal, IsRangePlan, IsRangeRefusal};
ghost use Rattle.lsm_state.specs.Reserving.{IsReserveRefusal, IsReserving, plan_in, reserved};
ghost use Rattle.lsm_state.specs.declared.state_fault.StateFault.TheVariants.{NumbersSpent};
ghost use Rattle.lsm_state.specs.declared.state_fault.StateFault.TheVariants.{OutOfMemory};

use crate::state::State;
use crate::state_fault::StateFault;
use lsm_live::laws::planned_inputs_stand_in_order;
use lsm_merge::{Job, JobParts};
use lsm_picker::laws::{conflicts_are_those_of_jobs, inputs_are_of_the_version};
use lsm_picker::{Plan, PlanFault, choose, conflict, is_move, plan_range, ranges_below};
use lsm_slots::Boarded;
use lsm_table::Shelf;
use std::alloc::{AllocError, Global};

impl From<PlanFault> for StateFault {
    ghost use Rattle.lsm_state.specs.Reserving.{plan_refusal};

    ghost from_gives = { λ fault e. e ≡ plan_refusal fault };

    fn from(fault: PlanFault) -> StateFault {
        match fault {
            PlanFault::OutOfMemory => StateFault::OutOfMemory,
            PlanFault::BadLevel(level) => StateFault::BadLevel(level),
        }
    }
}

impl<N: Boarded, S: Shelf> State<N, S> {
    // The job of a plan at this moment.
    fn job_of(
        &self,
        alloc: Global,
        plan: Plan<N, S>,
        is_move: bool,
    ) -> Result<Job<N, S>, AllocError>
        requires stands { StandsIn self.now.slots.version plan }
        requires moves { IsTrue is_move → (length plan.upper ≡ 1) × (plan.lower ≡ []) }
        requires closed { S.honest → IsClosedPlan self.now plan }
        ensures plan { IfOk result (λ w. plan_in w ≡ plan) }
        ensures moment { IfOk result (λ w. IsOfMoment self.now w) }
        ensures is_move { IfOk result (λ w. w.is_move ≡ is_move) }
        ensures in_order { S.honest → IfOk result HasOrderedInputs }
    {
        planned_inputs_stand_in_order();
        let version = self.slots.version();
        let floor = self.snapshots.floor(version.last());
        let ranges = ranges_below(alloc, &self.registry, version, plan.level())?;
        let level = usize::from(plan.level());
        let (upper, lower, (low, high)) = plan.into_parts();
        Ok(Job::of(JobParts {
            ticket: self.next_ticket,
            level,
            upper,
            lower,
            low,
            high,
            floor,
            ranges,
            is_move,
            table: self.options.sizes(),
            target_size: self.options.target_size,
        }))
    }

    // Books the job of a plan that conflicts with no live job: it stays among these, and an equal
    // one is handed out.
    pub(crate) fn book(
        &mut self,
        alloc: Global,
        plan: Plan<N, S>,
        is_move: bool,
    ) -> Result<Job<N, S>, StateFault>
        requires stands { StandsIn self.old.slots.version plan }
        requires moves { IsTrue is_move → (length plan.upper ≡ 1) × (plan.lower ≡ []) }
        requires clear { IsClear plan (reserved_jobs self.old.live) }
        requires closed { S.honest → IsClosedPlan self.old plan }
        ensures plan { IfOk result (λ w. plan_in w ≡ plan) }
        ensures moment { IfOk result (λ w. IsOfMoment self.old w) }
        ensures is_move { IfOk result (λ w. w.is_move ≡ is_move) }
        ensures in_order { S.honest → IfOk result HasOrderedInputs }
        ensures unspent { OnOk result (self.old.next_ticket ≡ 2 ^ 64 - 1 → ⊥) }
        ensures ok { IfOk result (λ w. self.new ≡ reserved w self.old) }
        ensures event { IfOk result (λ w. IsReserving S.honest self.old w self.new) }
        ensures err { OnErr result (self.new ≡ self.old) }
        ensures refused { IfErr result (λ e.
            ((e ≡ NumbersSpent) × (self.old.next_ticket ≡ 2 ^ 64 - 1)) ⊎ (e ≡ OutOfMemory)) }
    {
        inputs_are_of_the_version();
        conflicts_are_those_of_jobs();
        if self.next_ticket == u64::MAX {
            return Err(StateFault::NumbersSpent);
        }
        let job = self.job_of(alloc, plan, is_move)?;
        let kept = job.try_copy(alloc)?;
        self.live.add(alloc, kept)?;
        self.next_ticket += 1;
        Ok(job)
    }

    // The chosen plan; none where there is no choice.
    #[tactic(auto, using(crate::proofs::ReserveLaws::chosen_of))]
    pub(crate) fn chosen_plan(&self, alloc: Global) -> Result<Option<Plan<N, S>>, StateFault>
        ensures chosen { S.honest → IfOk result (λ r.
            MatchOption r (HasNoChoice self.now.slots.version (reserved_jobs self.now.live)) (λ p.
            IsChosen self.now p)) }
        ensures stands { IfOk result (λ r.
            IfSome r (λ p. StandsIn self.now.slots.version p)) }
        ensures clear { IfOk result (λ r.
            IfSome r (λ p. IsClear p (reserved_jobs self.now.live))) }
        ensures open { OnOk result (self.now.halted ≡ false) }
        ensures refused { IfErr result (IsPlanRefusal self.now) }
    {
        if self.halted {
            return Err(StateFault::Halted);
        }
        let reservations = self.live.reservations(alloc, &self.registry)?;
        Ok(choose(alloc, &self.registry, self.slots.version(), &reservations)?)
    }

    /// Reserves the next compaction: the job of the chosen plan, under the next ticket. None
    /// exactly where there is no choice; then nothing changes.
    ///
    /// `Halted` where the state is halted; `NumbersSpent` in place of a job whose ticket would be
    /// 2^64 - 1; `OutOfMemory`. A refusal leaves the state as it was.
    #[tactic(auto, using(crate::proofs::ReserveLaws::plan_refused))]
    pub fn reserve(&mut self, alloc: Global) -> Result<Option<Job<N, S>>, StateFault>
        ensures choice { S.honest → IfOk result (λ r.
            MatchOption r (HasNoChoice self.old.slots.version (reserved_jobs self.old.live)) (λ w.
            IsChosen self.old (plan_in w))) }
        ensures moment { IfOk result (λ r. IfSome r (λ w. IsOfMoment self.old w)) }
        ensures in_order { S.honest → IfOk result (λ r. IfSome r HasOrderedInputs) }
        ensures is_move { IfOk result (λ r. IfSome r (λ w. IsTrue w.is_move
            ↔ IsMovable self.old.slots.version (plan_in w) self.old.options.target_size)) }
        ensures ok { IfOk result (λ r. IfSome r (λ w. self.new ≡ reserved w self.old)) }
        ensures event { IfOk result (λ r.
            IfSome r (λ w. IsReserving S.honest self.old w self.new)) }
        ensures none { IfOk result (λ r. IfNone r (self.new ≡ self.old)) }
        ensures open { OnOk result (self.old.halted ≡ false) }
        ensures unspent { IfOk result (λ r. IfSome r (λ w. w.ticket ≡ 2 ^ 64 - 1 → ⊥)) }
        ensures err { OnErr result (self.new ≡ self.old) }
        ensures refused { IfErr result (λ e. IsReserveRefusal S.honest self.old e) }
    {
        let Some(plan) = self.chosen_plan(alloc)? else {
            return Ok(None);
        };
        let version = self.slots.version();
        let moves = is_move(&self.registry, version, &plan, self.options.target_size);
        Ok(Some(self.book(alloc, plan, moves)?))
    }

    // The closed plan of the files of a level that meet a range, which conflicts with no live job.
    // None where no file does.
    //
    // `Halted`, `BadLevel`, `OutOfMemory` and `Conflict`.
    pub(crate) fn range_plan(
        &self,
        alloc: Global,
        level: u8,
        from: &[u8],
        to: &[u8],
    ) -> Result<Option<Plan<N, S>>, StateFault>
        ensures planned { S.honest → IfOk result (λ r.
            MatchOption r (tables_over self.now.slots.version level from.now to.now ≡ []) (λ p.
            IsRangePlan self.now level from.now to.now p)) }
        ensures plan { IfOk result (λ r. IfSome r (λ p. IsPlanAt self.now level p)) }
        ensures clear { IfOk result (λ r.
            IfSome r (λ p. IsClear p (reserved_jobs self.now.live))) }
        ensures open { OnOk result ((self.now.halted ≡ false) × (level ≤ 5)) }
        ensures refused { IfErr result (λ e.
            IsRangeRefusal S.honest self.now level from.now to.now e) }
        ensures unspent { IfErr result (λ e. e ≡ NumbersSpent → ⊥) }
    {
        if self.halted {
            return Err(StateFault::Halted);
        }
        let version = self.slots.version();
        let Some(plan) = plan_range(alloc, &self.registry, version, level, from, to)? else {
            return Ok(None);
        };
        let reservations = self.live.reservations(alloc, &self.registry)?;
        if let Some(ticket) = conflict(&self.registry, &plan, &reservations) {
            return Err(StateFault::Conflict(ticket));
        }
        Ok(Some(plan))
    }

    /// Reserves the compaction of all files of a level, 0 to 5, that meet the range of user keys
    /// from `from` to `to`, both included, with those that they lead to. It is never a move. None
    /// exactly where no file meets the range; then nothing changes.
    ///
    /// `Halted` where the state is halted; `BadLevel` exactly where the level is above 5;
    /// `Conflict` exactly where the plan conflicts with a live job, with the least ticket of these;
    /// `NumbersSpent` in place of a job whose ticket would be 2^64 - 1; `OutOfMemory`. A refusal
    /// leaves the state as it was.
    pub fn reserve_range(
        &mut self,
        alloc: Global,
        level: u8,
        from: &[u8],
        to: &[u8],
    ) -> Result<Option<Job<N, S>>, StateFault>
        ensures planned { S.honest → IfOk result (λ r.
            MatchOption r (tables_over self.old.slots.version level from.now to.now ≡ []) (λ w.
            IsRangePlan self.old level from.now to.now (plan_in w))) }
        ensures level { IfOk result (λ r. IfSome r (λ w. w.level ≡ level)) }
        ensures moment { IfOk result (λ r. IfSome r (λ w. IsOfMoment self.old w)) }
        ensures in_order { S.honest → IfOk result (λ r. IfSome r HasOrderedInputs) }
        ensures no_move { IfOk result (λ r. IfSome r (λ w. w.is_move ≡ false)) }
        ensures clear { IfOk result (λ r.
            IfSome r (λ w. IsClear (plan_in w) (reserved_jobs self.old.live))) }
        ensures ok { IfOk result (λ r. IfSome r (λ w. self.new ≡ reserved w self.old)) }
        ensures event { IfOk result (λ r.
            IfSome r (λ w. IsReserving S.honest self.old w self.new)) }
        ensures none { IfOk result (λ r. IfNone r (self.new ≡ self.old)) }
        ensures open { OnOk result ((self.old.halted ≡ false) × (level ≤ 5)) }
        ensures unspent { IfOk result (λ r. IfSome r (λ w. w.ticket ≡ 2 ^ 64 - 1 → ⊥)) }
        ensures err { OnErr result (self.new ≡ self.old) }
        ensures refused { IfErr result (λ e.
            IsRangeRefusal S.honest self.old level from.now to.now e) }
    {
        let Some(plan) = self.range_plan(alloc, level, from, to)? else {
            return Ok(None);
        };
        Ok(Some(self.book(alloc, plan, false)?))
    }
}
