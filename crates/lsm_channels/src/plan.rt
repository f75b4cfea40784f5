//! What is to be served.

ghost use Rattle.std.specs.Prelude.{◌≡◌, ◌≤◌};
ghost use Rattle.lsm_frames.specs.OpeningView.{opened_of};
ghost use Rattle.lsm_frames.specs.Openings.{FitsOpened};

use lsm_frames::Opening;

/// How many channels there are, and how many workers compact.
#[derive(Clone, Copy, Debug)]
pub(crate) struct Plan {
    pub(crate) channels: usize,
    pub(crate) workers: usize,
}

impl Plan {
    /// What an opening asks for.
    pub(crate) fn of(opening: &Opening<'_>) -> Plan
        requires { FitsOpened (opened_of opening.now) }
        ensures channels { result.channels ≡ opening.now.channels }
        ensures workers { result.workers ≡ opening.now.workers }
        ensures some { 1 ≤ result.channels }
        ensures few { result.channels ≤ 62 }
    {
        Plan {
            channels: opening.channels as usize,
            workers: opening.workers as usize,
        }
    }
}
