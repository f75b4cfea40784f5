//! Numbers for the outputs of merges: workers ask, and one other thread draws under the lock.

ghost use Rattle.std.specs.Prelude.{IfErr};
ghost use Rattle.lsm_merge.specs.NumberFault.{IsOfTicket};

use lsm_merge::NumberFault;
use std::sync::{Condvar, Mutex, Wait};

/// What is asked, what is answered, and how many workers still may ask.
#[derive(Drop)]
struct Question {
    working: usize,
    asked: Option<u64>,
    answer: Option<Result<u64, NumberFault>>,
}

/// Where workers ask for numbers, one at a time, and where another thread answers: the one that
/// started them, or one that was started with them.
///
/// A merge draws its numbers through a trait (`NumberSource`), and the toolchain proves no call in
/// a method of a trait's impl of a function whose type parameters may be sent to a thread, as those
/// of a state. So a source of numbers asks here.
#[derive(Drop)]
pub(crate) struct NumberService {
    turn: Mutex<()>,
    question: Mutex<Question>,
    changed: Condvar,
}

impl NumberService {
    /// A service for so many workers. Each of them leaves it once.
    pub(crate) fn new(workers: usize) -> NumberService {
        NumberService {
            turn: Mutex::new(()),
            question: Mutex::new(Question {
                working: workers,
                asked: None,
                answer: None,
            }),
            changed: Condvar::new(),
        }
    }

    /// A worker asks for a number for its ticket, and waits for the answer.
    pub(crate) fn ask<R: Wait>(&self, rt: &R, ticket: u64) -> Result<u64, NumberFault>
        ensures named { IfErr result (λ e. IsOfTicket e ticket) }
    {
        let turn = self.turn.lock(rt);
        let answer = self.answer_to(rt, ticket);
        drop(turn);
        match answer {
            Ok(number) => Ok(number),
            Err(NumberFault::UnknownTicket(_)) => Err(NumberFault::UnknownTicket(ticket)),
            Err(fault) => Err(fault),
        }
    }

    // What is answered once this was asked.
    fn answer_to<R: Wait>(&self, rt: &R, ticket: u64) -> Result<u64, NumberFault> {
        let mut question = self.question.lock(rt);
        question.asked = Some(ticket);
        self.changed.notify_all();
        for _ in rt.forever() {
            if let Some(answer) = question.answer.take() {
                return answer;
            }
            question = self.changed.wait(rt, question);
        }
        unreachable!()
    }

    /// A worker asks no more.
    pub(crate) fn leave<R: Wait>(&self, rt: &R) {
        let mut question = self.question.lock(rt);
        question.working = question.working.saturating_sub(1);
        self.changed.notify_all();
    }

    /// The next ticket for which a number is asked; none once no worker may ask any more.
    pub(crate) fn next<R: Wait>(&self, rt: &R) -> Option<u64> {
        let mut question = self.question.lock(rt);
        for _ in rt.forever() {
            if let Some(ticket) = question.asked.take() {
                return Some(ticket);
            }
            if question.working == 0 {
                return None;
            }
            question = self.changed.wait(rt, question);
        }
        unreachable!()
    }

    /// Answers what was asked.
    pub(crate) fn answer<R: Wait>(&self, rt: &R, answer: Result<u64, NumberFault>) {
        let mut question = self.question.lock(rt);
        question.answer = Some(answer);
        self.changed.notify_all();
    }
}
