//! The pairs of a scan, printed as it goes.

ghost use Rattle.std.specs.Prelude.{◌≡◌, ◌≢◌, ◌⊎◌, ◌++◌, IfErr, IfOk, OnOk, Some};
ghost use Rattle.std.specs.Io.KnownBytes.{Appends, Keeps};
ghost use Rattle.lsm_model.specs.Scanning.{UsersAscend};
ghost use Rattle.lsm_table.specs.ReadFault.{IsMemoryOrShelf, ReadCounted};
ghost use Rattle.lsm_table.specs.Told.{Becomes};
ghost use Rattle.lsm_cmd_shell.specs.Pairs.{IsScanFault, PrintsLeft, PrintsNext, PrintsVersion, Steps, one_less};
ghost use Rattle.lsm_cmd_shell.specs.Pairs.{pair_line};
ghost use Rattle.lsm_cmd_shell.specs.declared.pairs.ScanFault.TheVariants.{NoMemory};
ghost use Rattle.lsm_cmd_shell.specs.declared.pairs.ScanFault.TheVariants.{Write as WriteFault};

use lsm_query::{Blocks, Direct, Scan};
use lsm_requests::KeyBounds;
use lsm_table::{NamedShelf, Naming, ReadFault, Shelf};
use lsm_text::Form;
use lsm_version::Version;
use std::alloc::{AllocError, Global};
use std::io::Write;

/// Why a scan was stopped.
#[derive(Clone, Copy, Debug)]
pub enum ScanFault {
    /// A table could not be read.
    Read(ReadFault),
    /// A growth of memory was refused.
    NoMemory,
    /// A write of a line failed.
    Write,
}

/// What a step of a scan came to.
#[derive(Clone, Copy, Debug)]
pub enum Step {
    /// None of the pairs that are left is within the bounds.
    End,
    /// A pair that is not.
    Outside,
    /// A pair that is, at which the scan stands.
    Within,
}

/// Goes on to the next pair.
fn take_step<N: Naming, S: Shelf, B: Blocks<N, S>>(
    scan: &mut Scan<N, S>,
    blocks: &mut B,
    alloc: Global,
    bounds: &KeyBounds,
) -> Result<Step, ReadFault>
    requires ascending { S.honest → UsersAscend scan.old.left }
    ensures stepped { S.honest → IfOk result (Steps bounds.now scan.old.left scan.new) }
    ensures sound { S.honest → IfErr result IsMemoryOrShelf }
    ensures told { Becomes (B.told blocks.old) (B.told blocks.new) }
    ensures loan { B.loan blocks.new ≡ B.loan blocks.old }
    ensures cause { IfErr result (λ e. ReadCounted e (B.told blocks.old) (B.told blocks.new)) }
{
    if !scan.step_by(blocks, alloc)? {
        return Ok(Step::End);
    }
    let key = scan.user();
    if bounds.is_within(key) {
        return Ok(Step::Within);
    }
    if bounds.ends_at(key) {
        return Ok(Step::End);
    }
    Ok(Step::Outside)
}

/// Appends the line of a pair: `KEY=VALUE`.
#[tactic(auto, unfolding(crate::specs::Pairs::pair_line))]
fn push_pair(out: &mut Vec<u8>, form: Form, user: &[u8], value: &[u8]) -> Result<(), AllocError>
    ensures { OnOk result (out.new.items ≡ out.old.items ++ pair_line form (user.now, value.now)) }
{
    form.push_bytes(out, user)?;
    out.push(b'=')?;
    form.push_bytes(out, value)?;
    out.push(b'\n')?;
    Ok(())
}

/// Prints the line of a pair. `line` is memory for it.
fn print_pair<O: Write>(
    line: &mut Vec<u8>,
    form: Form,
    user: &[u8],
    value: &[u8],
    out: &mut O,
) -> Result<(), ScanFault>
    ensures printed { OnOk result
        (Appends (O.contents out.old) (O.contents out.new) (pair_line form (user.now, value.now))) }
    ensures kept { IfErr result (λ e. e ≢ WriteFault
        → Keeps (O.contents out.old) (O.contents out.new)) }
    ensures fault { IfErr result (λ e. (e ≡ NoMemory) ⊎ (e ≡ WriteFault)) }
{
    line.clear();
    if push_pair(line, form, user, value).is_err() {
        return Err(ScanFault::NoMemory);
    }
    match out.write_all(line.as_slice()) {
        Ok(()) => Ok(()),
        Err(_) => Err(ScanFault::Write),
    }
}

/// The limit after one more was shown.
fn one_less(limit: Option<u64>) -> Option<u64>
    ensures { result ≡ one_less limit }
{
    match limit {
        None => None,
        Some(limit) => Some(limit.saturating_sub(1)),
    }
}

/// Goes on to the next pair, and prints it where it is within the bounds. `false` where none is
/// left that is.
fn print_next<N: Naming, S: Shelf, B: Blocks<N, S>, O: Write>(
    scan: &mut Scan<N, S>,
    blocks: &mut B,
    alloc: Global,
    form: Form,
    bounds: &KeyBounds,
    limit: &mut Option<u64>,
    line: &mut Vec<u8>,
    out: &mut O,
) -> Result<bool, ScanFault>
    requires ascending { S.honest → UsersAscend scan.old.left }
    requires more { limit.old ≢ Some 0 }
    ensures next { PrintsNext S.honest form bounds.now limit.old limit.new scan.old.left
        scan.new.left result (O.contents out.old) (O.contents out.new) }
    ensures fault { IfErr result (IsScanFault S.honest (B.told blocks.old) (B.told blocks.new)) }
    ensures told { Becomes (B.told blocks.old) (B.told blocks.new) }
    ensures loan { B.loan blocks.new ≡ B.loan blocks.old }
{
    match take_step(scan, blocks, alloc, bounds) {
        Ok(Step::End) => Ok(false),
        Ok(Step::Outside) => Ok(true),
        Ok(Step::Within) => match print_pair(line, form, scan.user(), scan.value(), out) {
            Ok(()) => {
                *limit = one_less(*limit);
                Ok(true)
            }
            Err(fault) => Err(fault),
        },
        Err(fault) => Err(ScanFault::Read(fault)),
    }
}

/// Prints the pairs that are left of a scan and to be shown, as it goes on.
fn print_left<N: Naming, S: Shelf, B: Blocks<N, S>, O: Write>(
    scan: &mut Scan<N, S>,
    blocks: &mut B,
    alloc: Global,
    form: Form,
    bounds: &KeyBounds,
    limit: Option<u64>,
    out: &mut O,
) -> Result<(), ScanFault>
    requires ascending { S.honest → UsersAscend scan.old.left }
    ensures printed { PrintsLeft S.honest form bounds.now limit scan.old.left result
        (O.contents out.old) (O.contents out.new) }
    ensures fault { IfErr result (IsScanFault S.honest (B.told blocks.old) (B.told blocks.new)) }
    ensures told { Becomes (B.told blocks.old) (B.told blocks.new) }
    ensures loan { B.loan blocks.new ≡ B.loan blocks.old }
{
    let mut line = Vec::new(alloc);
    let mut left = limit;
    for _turn in 0..u64::MAX {
        if left == Some(0) {
            return Ok(());
        }
        match print_next(scan, blocks, alloc, form, bounds, &mut left, &mut line, out) {
            Ok(true) => {}
            Ok(false) => return Ok(()),
            Err(fault) => return Err(fault),
        }
    }
    // Only a shelf that is not honest could give so many.
    Err(ScanFault::NoMemory)
}

/// Prints what a version shows, as it goes on.
pub(crate) fn print_version<N: Naming, S: Shelf, O: Write>(
    shelf: &mut NamedShelf<N, S>,
    alloc: Global,
    version: &Version<N, S>,
    form: Form,
    bounds: &KeyBounds,
    limit: Option<u64>,
    out: &mut O,
) -> Result<(), ScanFault>
    ensures printed { PrintsVersion S.honest form bounds.now limit version.now result
        (O.contents out.old) (O.contents out.new) }
    ensures fault { IfErr result (IsScanFault S.honest shelf.old shelf.new) }
    ensures told { Becomes shelf.old shelf.new }
{
    let mut scan = match lsm_query::scan(version, shelf, alloc, version.last()) {
        Ok(scan) => scan,
        Err(fault) => return Err(ScanFault::Read(fault)),
    };
    let mut direct = Direct::new(shelf);
    print_left(&mut scan, &mut direct, alloc, form, bounds, limit, out)
}
