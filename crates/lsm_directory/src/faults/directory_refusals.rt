//! Refusals of the parts of a directory, as they are printed.

ghost use Rattle.std.specs.Prelude.{◌≡◌, None, Some, codes};
ghost use Rattle.std.specs.Option.{option_map};
ghost use Rattle.lsm_text.specs.FaultText.{refusal_text};
ghost use Rattle.lsm_directory.specs.DirectoryFault.{check_text, recover_text};

use lsm_journal::RecoverFault;
use lsm_text::Refusal;
use lsm_verify::CheckFault;

/// A refusal of a manifest.
pub(crate) fn of_manifest(fault: RecoverFault) -> Refusal
    ensures { refusal_text result.number result.name.now result.field ≡ recover_text fault }
{
    match fault {
        RecoverFault::Shelf(fault) => Refusal::of_shelf(fault),
        RecoverFault::Log(fault) => Refusal::of_log(fault),
        RecoverFault::Edit(fault) => Refusal::of_edit(fault),
        RecoverFault::Replay(fault) => Refusal::of_replay(fault),
    }
}

/// A refusal of tables that are no version; none where it names a key.
pub(crate) fn of_tables(fault: &CheckFault) -> Option<Refusal>
    ensures { option_map (λ r. refusal_text r.number r.name.now r.field) result
        ≡ check_text fault.now }
{
    let field = match fault {
        CheckFault::Read(_, fault) => return Some(Refusal::of_read(*fault)),
        CheckFault::AgeOrder(_) => return None,
        CheckFault::DoubleFile(number) | CheckFault::WrongRange(number) => *number,
        CheckFault::Overlap(level) => u64::from(*level),
    };
    Some(Refusal {
        number: fault.number(),
        name: fault.name(),
        field: Some(field),
    })
}

/// The refusal where a number is the last one.
pub(crate) fn of_spent() -> Refusal
    ensures { refusal_text result.number result.name.now result.field
        ≡ refusal_text 46 (codes "NumbersSpent") None }
{
    Refusal {
        number: 46,
        name: "NumbersSpent",
        field: None,
    }
}

/// The refusal where another program holds the lock.
pub(crate) fn of_locked() -> Refusal
    ensures { refusal_text result.number result.name.now result.field
        ≡ refusal_text 52 (codes "Locked") None }
{
    Refusal {
        number: 52,
        name: "Locked",
        field: None,
    }
}

/// The refusal where so many bytes at the manifest's end hold no whole record.
pub(crate) fn of_torn(rest: u64) -> Refusal
    ensures { refusal_text result.number result.name.now result.field
        ≡ refusal_text 61 (codes "TornManifest") (Some rest) }
{
    Refusal {
        number: 61,
        name: "TornManifest",
        field: Some(rest),
    }
}

/// The refusal where the log of this number is not flushed.
pub(crate) fn of_unflushed(number: u64) -> Refusal
    ensures { refusal_text result.number result.name.now result.field
        ≡ refusal_text 51 (codes "UnflushedLog") (Some number) }
{
    Refusal {
        number: 51,
        name: "UnflushedLog",
        field: Some(number),
    }
}

/// The refusal where the manifest of this number is later than the one that `CURRENT` names.
pub(crate) fn of_later(number: u64) -> Refusal
    ensures { refusal_text result.number result.name.now result.field
        ≡ refusal_text 62 (codes "LaterManifest") (Some number) }
{
    Refusal {
        number: 62,
        name: "LaterManifest",
        field: Some(number),
    }
}

/// The refusal where files of RocksDB are there.
pub(crate) fn of_rocksdb() -> Refusal
    ensures { refusal_text result.number result.name.now result.field
        ≡ refusal_text 63 (codes "RocksDbFiles") None }
{
    Refusal {
        number: 63,
        name: "RocksDbFiles",
        field: None,
    }
}
