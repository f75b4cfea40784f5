//! Numbers for the outputs of one merge.

use crate::number_service::NumberService;
use boxcar::tag::Tag;
use lsm_merge::{NumberFault, NumberSource, with_number};
use std::alloc::Global;
use std::sync::Wait;

/// Asks for the numbers of the outputs of a merge.
#[derive(Drop)]
pub(crate) struct TicketNumbers<'a> {
    service: &'a NumberService,
    // What it answered, which only clauses read.
    drew: Tag,
    refused: Tag,
    asked: Tag,
}

impl<'a> TicketNumbers<'a> {
    /// One that has asked nothing yet.
    pub(crate) fn of(service: &'a NumberService) -> TicketNumbers<'a> {
        TicketNumbers {
            service,
            drew: Tag::empty(),
            refused: Tag::empty(),
            asked: Tag::empty(),
        }
    }
}

impl<'a> NumberSource for TicketNumbers<'a> {
    ghost drew = { λ n. n.drew.numbers };

    ghost refused = { λ n. n.refused.numbers };

    ghost asked = { λ n. n.asked.numbers };

    ghost ready = { λ _. Unit {0} };

    fn draw<R: Wait>(&mut self, rt: &R, _alloc: Global, ticket: u64) -> Result<u64, NumberFault> {
        self.asked = with_number(ticket, &self.asked);
        match self.service.ask(rt, ticket) {
            Ok(number) => {
                self.drew = with_number(number, &self.drew);
                Ok(number)
            }
            Err(fault) => {
                self.refused = with_number(u64::from(fault.number()), &self.refused);
                Err(fault)
            }
        }
    }
}
