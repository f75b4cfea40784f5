//! How much is loaded.

ghost use Rattle.std.specs.Prelude.{◌≡◌, ◌+◌, ◌≤◌, ◌<◌, ◌^◌};

/// How many lines are in, and in how many batches they came.
#[derive(Clone, Copy, Debug, PartialEq, Eq)]
pub struct Progress {
    /// The lines.
    pub lines: u128,
    /// The batches.
    pub batches: u128,
}

impl Progress {
    /// None is in.
    pub(crate) fn none() -> Progress
        ensures { result ≡ record { lines = 0; batches = 0 } }
    {
        Progress {
            lines: 0,
            batches: 0,
        }
    }

    /// The same with one batch more, of so many lines.
    pub(crate) fn with(self, lines: usize) -> Progress
        requires lines { self.lines + lines < 2 ^ 128 }
        requires batches { self.batches + 1 < 2 ^ 128 }
        ensures { result
            ≡ record { lines = self.lines + lines; batches = self.batches + 1 } }
    {
        Progress {
            lines: self.lines + lines as u128,
            batches: self.batches + 1,
        }
    }
}
