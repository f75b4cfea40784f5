//! The next file number.

ghost use Rattle.std.specs.Prelude.{◌≡◌, ◌-◌, ◌^◌, IfErr, IfOk};
ghost use Rattle.lsm_codec.specs.Lists.{Has};
ghost use Rattle.lsm_journal.specs.Finding.{IsLeastFree};
ghost use Rattle.lsm_journal.specs.declared.open_fault.OpenFault.TheVariants.{NumbersSpent};

use lsm_journal::OpenFault;

/// The least number that is at least the first one and above all of these; `NumbersSpent` where one
/// of them is 2^64 - 1.
pub(crate) fn next_free(from: u64, taken: &[u64]) -> Result<u64, OpenFault>
    ensures ok { IfOk result (λ n. IsLeastFree from taken.now n) }
    ensures err { IfErr result (λ e. (e ≡ NumbersSpent) × Has taken.now (2 ^ 64 - 1)) }
{
    let mut next = from;
    for number in taken {
        if *number == u64::MAX {
            return Err(OpenFault::NumbersSpent);
        }
        next = next.max(*number + 1);
    }
    Ok(next)
}
