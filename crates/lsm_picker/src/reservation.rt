//! A live job, as far as a choice has to know it.

ghost use Rattle.std.specs.Prelude.{◌≡◌};
ghost use Rattle.lsm_picker.specs.Reservations.{has_input};

use lsm_codec::{Bytes, List};
use std::marker::Model;

/// A live job, as far as a choice has to know it: its ticket, its level, the numbers of its inputs,
/// and its hull, the least and the greatest user key of these. Its output level is the next one.
pub struct Reservation {
    ticket: u64,
    level: u8,
    inputs: List<u64>,
    low: Bytes,
    high: Bytes,
}

impl Drop for Reservation {
    fn drop(self) {
        let Self {
            ticket: _,
            level: _,
            inputs: _,
            low: _,
            high: _,
        } = self;
    }
}

impl Model for Reservation {
    ghost use Rattle.lsm_picker.specs.Reservations.{Reserved};

    ghost Value = { Reserved };

    ghost view = { λ r. record {
      ticket = r.ticket;
      level = r.level;
      inputs = r.inputs;
      low = r.low;
      high = r.high;
    } };
}

impl Reservation {
    /// The live job of a ticket, a level, the numbers of its inputs, and its hull.
    pub fn new(ticket: u64, level: u8, inputs: List<u64>, hull: (Bytes, Bytes)) -> Reservation
        ensures { result ≡ record {
          ticket = ticket;
          level = level;
          inputs = inputs;
          low = hull.0;
          high = hull.1;
        } }
    {
        let (low, high) = hull;
        Reservation {
            ticket,
            level,
            inputs,
            low,
            high,
        }
    }

    /// The ticket under which the job is reserved.
    pub fn ticket(&self) -> u64
        ensures { result ≡ self.now.ticket }
    {
        self.ticket
    }

    /// The job's level; its outputs come to the next one.
    pub fn level(&self) -> u8
        ensures { result ≡ self.now.level }
    {
        self.level
    }

    /// The numbers of the job's inputs.
    pub fn inputs(&self) -> &[u64]
        ensures { result.now ≡ self.now.inputs }
    {
        self.inputs.as_slice()
    }

    /// The least user key of the job's inputs.
    pub fn low(&self) -> &[u8]
        ensures { result.now ≡ self.now.low }
    {
        self.low.as_slice()
    }

    /// The greatest user key of the job's inputs.
    pub fn high(&self) -> &[u8]
        ensures { result.now ≡ self.now.high }
    {
        self.high.as_slice()
    }

    /// Whether the file of this number is an input.
    pub(crate) fn has_input(&self, number: u64) -> bool
        ensures { result ≡ has_input self.now number }
    {
        self.inputs.as_slice().contains(&number)
    }
}
