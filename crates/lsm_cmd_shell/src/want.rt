//! What a line wants in one of its places.

ghost use Rattle.std.specs.Prelude.{◌≡◌};
ghost use Rattle.lsm_cmd_shell.specs.Mistakes.{most_of};
ghost use Rattle.lsm_cmd_shell.specs.MistakeText.{want_name};

/// What a line wants in one of its places behind its name.
#[derive(Clone, Copy, Debug)]
pub enum Want {
    /// The word of a key.
    Key,
    /// The word of a value.
    Value,
    /// The word of a range's first key.
    From,
    /// The same before the word of its last key and `limit`: it is not the word `limit`.
    FromBeside,
    /// The word of a range's last key.
    To,
    /// `KEY=VALUE` or `KEY!`.
    KeyWrite,
    /// The word `limit`, which is there already.
    Limit,
    /// The number of pairs at most.
    Count,
    /// The number of a snapshot.
    Snapshot,
    /// The number of a pin.
    Pin,
    /// The ticket of a job.
    Ticket,
    /// The number of a level.
    Level,
}

impl Want {
    /// What it is called in `help`.
    pub(crate) fn name(self) -> &'static str
        ensures { result.now ≡ want_name self }
    {
        match self {
            Want::Key => "KEY",
            Want::Value => "VALUE",
            Want::From | Want::FromBeside => "FROM",
            Want::To => "TO",
            Want::KeyWrite => "W",
            Want::Limit => "limit",
            Want::Count => "N",
            Want::Snapshot | Want::Pin => "ID",
            Want::Ticket => "T",
            Want::Level => "LEVEL",
        }
    }

    /// The greatest number that may stand there, where it is one.
    pub(crate) fn most(self) -> u64
        ensures { result ≡ most_of self }
    {
        match self {
            Want::Level => u64::from(u8::MAX),
            Want::Pin => u64::from(u32::MAX),
            _ => u64::MAX,
        }
    }
}
