//! Numbers that a merge draws from a state.

ghost use Rattle.std.specs.Prelude.{◌≡◌, []};
ghost use Rattle.lsm_script.specs.Drawing.{GivesNumber, refusal_of};

use boxcar::tag::Tag;
use lsm_merge::{NumberFault, NumberSource, with_number};
use lsm_slots::Boarded;
use lsm_state::{State, StateFault};
use lsm_table::Shelf;
use std::alloc::Global;
use std::marker::{Brand, PhantomData};
use std::sync::Wait;

/// What holds of a state that gave numbers: of the state, of the numbers given, of the
/// numbers of its refusals, and of the tickets that it was asked for, each list the last first; and
/// which loan the state is. A merge picks it.
pub(crate) trait Noted<X> {
    ghost use Rattle.std.specs.Prelude.{ℕ, List};
    ghost use base.Fml.{GName};

    ghost holds: { X → List ℕ → List ℕ → List ℕ → Type 0 };

    ghost loan: { GName };
}

impl<X> Noted<X> for Brand {
    ghost holds = { λ state drew refused asked. Unit {0} };

    ghost loan = { 0 };
}

/// What a source of numbers answered, which only clauses read.
#[derive(Drop)]
pub(crate) struct Answered {
    pub(crate) drew: Tag,
    pub(crate) refused: Tag,
    pub(crate) asked: Tag,
}

impl Answered {
    /// Nothing yet.
    pub(crate) fn nothing() -> Answered
        ensures { (result.drew.numbers ≡ []) × (result.refused.numbers ≡ [])
            × (result.asked.numbers ≡ []) }
    {
        Answered {
            drew: Tag::empty(),
            refused: Tag::empty(),
            asked: Tag::empty(),
        }
    }
}

/// A state that is lent, the function that draws a number from it, and what was answered. They have
/// no bound: a method of an impl may call no function that is bounded by a shelf, so the function
/// is a value.
#[derive(Drop)]
pub(crate) struct Numbers<'a, M, X, F> {
    pub(crate) state: &'a mut X,
    pub(crate) answered: &'a mut Answered,
    pub(crate) draw: F,
    pub(crate) noted: PhantomData<M>,
}

impl<'a, M, X, F> Numbers<'a, M, X, F> {
    /// Those of this state.
    pub(crate) fn of(state: &'a mut X, answered: &'a mut Answered, draw: F) -> Numbers<'a, M, X, F>
        ensures state { result.state ≡ state.entry }
        ensures answered { result.answered ≡ answered.entry }
        ensures draw { result.draw ≡ draw }
    {
        Numbers {
            state,
            answered,
            draw,
            noted: PhantomData,
        }
    }
}

impl<'a, M: Noted<X>, X, F: Fn(&mut X, u64) -> Result<u64, NumberFault>> NumberSource
    for Numbers<'a, M, X, F> {
    ghost use Rattle.lsm_script.specs.Drawing.{IsSource};

    ghost drew = { λ n. n.answered.now.drew.numbers };

    ghost refused = { λ n. n.answered.now.refused.numbers };

    ghost asked = { λ n. n.answered.now.asked.numbers };

    ghost ready = { λ n. F.IsAlwaysCallable n.draw × (n.state.ghost_name ≡ M.loan)
        × IsSource (λ p drew refused asked. M.holds p.now drew refused asked)
        (λ p t q r. F.post n.draw p t r q) record {
          state = n.state;
          drew = n.answered.now.drew.numbers;
          refused = n.answered.now.refused.numbers;
          asked = n.answered.now.asked.numbers;
        } };

    fn draw<R: Wait>(&mut self, _rt: &R, _alloc: Global, ticket: u64) -> Result<u64, NumberFault> {
        let state = &mut *self.state;
        let answer = (self.draw)(state, ticket);
        let answered = &mut *self.answered;
        answered.asked = with_number(ticket, &answered.asked);
        match answer {
            Ok(number) => {
                answered.drew = with_number(number, &answered.drew);
                Ok(number)
            }
            Err(fault) => {
                answered.refused = with_number(u64::from(fault.number()), &answered.refused);
                Err(fault)
            }
        }
    }
}

/// The state's refusal of a number.
fn refusal_of(fault: StateFault) -> NumberFault
    ensures { result ≡ refusal_of fault }
{
    match fault {
        StateFault::UnknownTicket(ticket) => NumberFault::UnknownTicket(ticket),
        StateFault::NumbersSpent => NumberFault::NumbersSpent,
        _ => NumberFault::OutOfMemory,
    }
}

/// The state's next number, booked under the ticket.
pub(crate) fn drawn<N: Boarded, S: Shelf>(
    state: &mut State<N, S>,
    ticket: u64,
) -> Result<u64, NumberFault>
    ensures { GivesNumber state.old ticket state.new result }
{
    match state.new_number(ticket) {
        Ok(number) => Ok(number),
        Err(fault) => Err(refusal_of(fault)),
    }
}
