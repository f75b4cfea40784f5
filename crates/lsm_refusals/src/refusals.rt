//! Refusals of a database and of a merge, as they are printed.

ghost use Rattle.std.specs.Prelude.{◌≡◌};
ghost use Rattle.lsm_merge.specs.MergeFault.{name_of, number_of};
ghost use Rattle.lsm_text.specs.FaultText.{refusal_text};
ghost use Rattle.lsm_refusals.specs.RefusalText.{merge_cause, merge_field, state_field, state_text};

use lsm_merge::MergeFault;
use lsm_state::StateFault;
use lsm_text::Refusal;

/// The number that a refusal of a database names.
fn field_of_state(fault: StateFault) -> Option<u64>
    ensures { result ≡ state_field fault }
{
    match fault {
        StateFault::Shelf(fault) => Refusal::of_shelf(fault).field,
        StateFault::Read(fault) => Refusal::of_read(fault).field,
        StateFault::BadLevel(level) => Some(u64::from(level)),
        StateFault::KeyOrder(number)
        | StateFault::UnknownSnapshot(number)
        | StateFault::Conflict(number)
        | StateFault::UnknownTicket(number) => Some(number),
        StateFault::OutOfMemory
        | StateFault::EmptyBatch
        | StateFault::TooLarge
        | StateFault::LevelZeroFull
        | StateFault::SequencesSpent
        | StateFault::Halted
        | StateFault::NumbersSpent
        | StateFault::Stale
        | StateFault::SlotsHeld
        | StateFault::VersionsSpent
        | StateFault::PinsSpent => None,
    }
}

/// A refusal of a database.
pub fn of_state(fault: StateFault) -> Refusal
    ensures { refusal_text result.number result.name.now result.field ≡ state_text fault }
{
    Refusal {
        number: fault.number(),
        name: fault.name(),
        field: field_of_state(fault),
    }
}

/// The number of the table or of the ticket that a refusal of a merge names.
fn field_of_merge(fault: MergeFault) -> Option<u64>
    ensures { result ≡ merge_field fault }
{
    match fault {
        MergeFault::ReadFailed(number, _) | MergeFault::PutFailed(number, _) => Some(number),
        MergeFault::UnknownTicket(ticket) => Some(ticket),
        MergeFault::OutOfMemory | MergeFault::NumbersSpent => None,
    }
}

/// A refusal of a merge, with the table or the ticket that it names. `cause_of_merge` says what
/// stands behind it.
pub fn of_merge(fault: MergeFault) -> Refusal
    ensures { refusal_text result.number result.name.now result.field
        ≡ refusal_text (number_of fault) (name_of fault) (merge_field fault) }
{
    Refusal {
        number: fault.number(),
        name: fault.name(),
        field: field_of_merge(fault),
    }
}

/// The number of the refusal that stands behind one of a merge, which is printed after it.
pub fn cause_of_merge(fault: MergeFault) -> Option<u64>
    ensures { result ≡ merge_cause fault }
{
    match fault {
        MergeFault::ReadFailed(_, cause) => Some(u64::from(cause.number())),
        MergeFault::PutFailed(_, cause) => Some(u64::from(cause.number())),
        MergeFault::OutOfMemory | MergeFault::UnknownTicket(_) | MergeFault::NumbersSpent => None,
    }
}
