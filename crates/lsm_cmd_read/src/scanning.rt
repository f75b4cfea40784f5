//! A scan, printed as it goes.

ghost use Rattle.std.specs.Prelude.{◌≡◌, ◌≢◌, ◌≤◌, ◌<◌, ◌+◌, ◌^◌, ◌++◌, ◌∷◌, List};
ghost use Rattle.std.specs.Prelude.{IfErr, IfOk, IsFalse, OnOk, true};
ghost use Rattle.std.specs.Io.KnownBytes.{Appends, Keeps};
ghost use Rattle.lsm_codec.specs.Keys.{UserKey, UserLe};
ghost use Rattle.lsm_table.specs.Told.{Becomes};
ghost use Rattle.lsm_model.specs.Scanning.{Pair, UsersAscend};
ghost use Rattle.lsm_cmd_read.specs.Scanned.{BeginsPrinting, LeavesScan, Passes, PassesNext};
ghost use Rattle.lsm_cmd_read.specs.Scanned.{PrintsLines, PrintsScan, count_line, is_full, key_line};
ghost use Rattle.lsm_cmd_read.specs.JsonLines.{json_line};
ghost use Rattle.lsm_cmd_read.specs.Scanned.{line_of, pair_line, scan_text};
ghost use Rattle.lsm_cmd_read.specs.ReadFault.{IsAnswerFault, IsOutputFault};
ghost use Rattle.lsm_requests.specs.KeyBounds.{is_within};
ghost use Rattle.lsm_directory.specs.declared.faults.directory_fault.DirectoryFault.TheVariants.{Write as WriteFault};

use crate::json_lines::append_json;
use crate::progress::tell_keys;
use lsm_directory::{DirectoryFault, OutputFault, flush, write_bytes};
use lsm_model::is_at_most;
use lsm_query::Scan;
use lsm_reader::{Blocks, Direct};
use lsm_requests::{KeyBounds, ScanOptions, ScanOutput};
use lsm_table::{NamedShelf, Naming, Shelf};
use lsm_text::Form;
use lsm_version::Version;
use std::alloc::{AllocError, Global};
use std::io::Write;
use std::mem;

/// Appends the line of a pair: `KEY=VALUE`.
#[tactic(auto, unfolding(crate::specs::Scanned::pair_line))]
fn push_pair(out: &mut Vec<u8>, form: Form, user: &[u8], value: &[u8]) -> Result<(), AllocError>
    ensures { OnOk result (out.new.items ≡ out.old.items ++ pair_line form (user.now, value.now)) }
{
    form.push_bytes(out, user)?;
    out.push(b'=')?;
    form.push_bytes(out, value)?;
    out.push(b'\n')?;
    Ok(())
}

/// Appends the line of a key: `KEY`.
#[tactic(auto, unfolding(crate::specs::Scanned::key_line))]
fn push_key(out: &mut Vec<u8>, form: Form, user: &[u8]) -> Result<(), AllocError>
    ensures { OnOk result (out.new.items ≡ out.old.items ++ key_line form user.now) }
{
    form.push_bytes(out, user)?;
    out.push(b'\n')?;
    Ok(())
}

/// Appends the line of a pair as a JSON object.
fn push_json(out: &mut Vec<u8>, user: &[u8], value: &[u8]) -> Result<(), AllocError>
    ensures { OnOk result (out.new.items ≡ out.old.items ++ json_line (user.now, value.now)) }
{
    let alloc = *out.allocator();
    let line = mem::replace(out, Vec::new(alloc));
    *out = append_json(line, alloc, user, value)?;
    Ok(())
}

/// Appends the line of a pair; nothing where they are counted.
fn push_line(
    out: &mut Vec<u8>,
    form: Form,
    output: ScanOutput,
    user: &[u8],
    value: &[u8],
) -> Result<(), AllocError>
    ensures { OnOk result
        (out.new.items ≡ out.old.items ++ line_of form output (user.now, value.now)) }
{
    match output {
        ScanOutput::Pairs => push_pair(out, form, user, value),
        ScanOutput::Keys => push_key(out, form, user),
        ScanOutput::Json => push_json(out, user, value),
        ScanOutput::Count => Ok(()),
    }
}

/// Prints the line of a pair. `line` is memory for it.
fn print_pair<O: Write>(
    line: &mut Vec<u8>,
    form: Form,
    output: ScanOutput,
    user: &[u8],
    value: &[u8],
    out: &mut O,
) -> Result<(), DirectoryFault>
    ensures printed { OnOk result (Appends (O.contents out.old) (O.contents out.new)
        (line_of form output (user.now, value.now))) }
    ensures left { IfErr result (λ e. e ≢ WriteFault
        → Keeps (O.contents out.old) (O.contents out.new)) }
    ensures fault { IfErr result IsOutputFault }
{
    line.clear();
    push_line(line, form, output, user, value)?;
    write_bytes(out, line.as_slice())?;
    Ok(())
}

/// Prints how many pairs there are, where they are counted.
fn print_count<O: Write>(output: ScanOutput, count: u64, out: &mut O) -> Result<(), OutputFault>
    ensures { OnOk result
        (Appends (O.contents out.old) (O.contents out.new) (count_line output count)) }
{
    match output {
        ScanOutput::Pairs | ScanOutput::Keys | ScanOutput::Json => Ok(()),
        ScanOutput::Count => write_count(count, out),
    }
}

/// Prints a number on a line.
fn write_count<O: Write>(count: u64, out: &mut O) -> Result<(), OutputFault>
    ensures { OnOk result
        (Appends (O.contents out.old) (O.contents out.new) (count_line ScanOutput.Count count)) }
{
    match writeln!(out, "{count}") {
        Ok(()) => Ok(()),
        Err(_) => Err(OutputFault),
    }
}

/// Prints the line of a pair that is within the bounds, and counts it.
fn print_within<O: Write>(
    form: Form,
    options: &ScanOptions,
    user: &[u8],
    value: &[u8],
    line: &mut Vec<u8>,
    printed: &mut u64,
    out: &mut O,
) -> Result<(), DirectoryFault>
    requires room { printed.old + 1 < 2 ^ 64 }
    ensures passed { OnOk result ((left : List Pair) → Passes form options.now
        ((user.now, value.now) ∷ left) left printed.old printed.new (O.contents out.old)
        (O.contents out.new)) }
    ensures one { printed.new ≤ printed.old + 1 }
    ensures left { IfErr result (λ e. e ≢ WriteFault
        → Keeps (O.contents out.old) (O.contents out.new)) }
    ensures fault { IfErr result IsOutputFault }
{
    if !options.bounds.is_within(user) {
        return Ok(());
    }
    print_pair(line, form, options.output, user, value, out)?;
    *printed += 1;
    Ok(())
}

/// Goes on to the next pair, prints it where it is within the bounds, and counts it then. `false`
/// where none that is left is within them.
#[tactic(auto, using(crate::proofs::FaultLaws::answer_fault_later, crate::proofs::FaultLaws::answer_fault_from_output))]
fn print_next<N: Naming, S: Shelf, B: Blocks<N, S>, O: Write>(
    scan: &mut Scan<N, S>,
    blocks: &mut B,
    alloc: Global,
    form: Form,
    options: &ScanOptions,
    line: &mut Vec<u8>,
    printed: &mut u64,
    out: &mut O,
) -> Result<bool, DirectoryFault>
    requires ascending { S.honest → UsersAscend scan.old.left }
    requires room { printed.old + 1 < 2 ^ 64 }
    ensures next { S.honest → IfOk result (λ more. PassesNext form options.now more scan.old.left
        scan.new.left printed.old printed.new (O.contents out.old) (O.contents out.new)) }
    ensures one { printed.new ≤ printed.old + 1 }
    ensures left { IfErr result (λ e. e ≢ WriteFault
        → Keeps (O.contents out.old) (O.contents out.new)) }
    ensures fault { IfErr result (λ e.
        IsAnswerFault S.honest e (B.told blocks.old) (B.told blocks.new)) }
    ensures told { Becomes (B.told blocks.old) (B.told blocks.new) }
    ensures loan { B.loan blocks.new ≡ B.loan blocks.old }
{
    if !scan.step_by(blocks, alloc)? {
        return Ok(false);
    }
    let key = scan.user();
    print_within(form, options, key, scan.value(), line, printed, out)?;
    Ok(!options.bounds.ends_at(key))
}

/// Whether so many pairs are as many as the limit says.
fn is_full(limit: Option<u64>, printed: u64) -> bool
    ensures { result ≡ is_full limit printed }
{
    match limit {
        None => false,
        Some(limit) => limit <= printed,
    }
}

/// Prints the lines of those that are asked for among the pairs that are left of a scan, as it goes
/// on, and answers how many these are. It goes no further than to the last of them, where the order
/// of keys or the limit tells that it is the last one.
#[tactic(auto, using(crate::proofs::ScanLaws::passes_none, crate::proofs::ScanLaws::fits_none, crate::proofs::FaultLaws::answer_fault_later, lsm_directory::proofs::CallerLemmas::keeps_same, lsm_directory::proofs::CallerLemmas::keeps_then))]
fn print_pairs<N: Naming, S: Shelf, B: Blocks<N, S>, O: Write, E: Write>(
    scan: &mut Scan<N, S>,
    blocks: &mut B,
    alloc: Global,
    form: Form,
    options: &ScanOptions,
    progress: bool,
    out: &mut O,
    err: &mut E,
) -> Result<u64, DirectoryFault>
    requires ascending { S.honest → UsersAscend scan.old.left }
    ensures done { S.honest → IfOk result (λ n. PrintsLines form options.now scan.old.left n
        (O.contents out.old) (O.contents out.new)) }
    ensures left { S.honest → IfErr result (λ e. e ≢ WriteFault → BeginsPrinting form options.now
        scan.old.left (O.contents out.old) (O.contents out.new)) }
    ensures fault { IfErr result (λ e.
        IsAnswerFault S.honest e (B.told blocks.old) (B.told blocks.new)) }
    ensures told { Becomes (B.told blocks.old) (B.told blocks.new) }
    ensures loan { B.loan blocks.new ≡ B.loan blocks.old }
    ensures quiet { IsFalse progress → Keeps (E.contents err.old) (E.contents err.new) }
{
    let mut line = Vec::new(alloc);
    let mut printed = 0u64;
    for passed in 0..u64::MAX {
        if is_full(options.limit, printed) {
            return Ok(printed);
        }
        let more = print_next(
            scan,
            blocks,
            alloc,
            form,
            options,
            &mut line,
            &mut printed,
            out,
        )?;
        if !more {
            return Ok(printed);
        }
        tell_keys(err, progress, passed + 1);
    }
    // Only a shelf that is not honest could give so many.
    Err(DirectoryFault::OutOfMemory)
}

/// The same, and prints how many they are, where that is asked for.
fn print_asked<N: Naming, S: Shelf, O: Write, E: Write>(
    shelf: &mut NamedShelf<N, S>,
    alloc: Global,
    scan: &mut Scan<N, S>,
    form: Form,
    options: &ScanOptions,
    progress: bool,
    out: &mut O,
    err: &mut E,
) -> Result<(), DirectoryFault>
    requires ascending { S.honest → UsersAscend scan.old.left }
    ensures done { S.honest → OnOk result (Appends (O.contents out.old) (O.contents out.new)
        (scan_text form options.now scan.old.left)) }
    ensures left { S.honest → IfErr result (λ e. e ≢ WriteFault → BeginsPrinting form options.now
        scan.old.left (O.contents out.old) (O.contents out.new)) }
    ensures fault { IfErr result (λ e.
        IsAnswerFault S.honest e shelf.old shelf.new) }
    ensures told { Becomes shelf.old shelf.new }
    ensures quiet { IsFalse progress → Keeps (E.contents err.old) (E.contents err.new) }
{
    let mut direct = Direct::new(shelf);
    let printed = print_pairs(scan, &mut direct, alloc, form, options, progress, out, err)?;
    print_count(options.output, printed, out)?;
    Ok(())
}

/// The same, and flushes: what was printed before a fault of the shelf is not held back.
fn print_open<N: Naming, S: Shelf, O: Write, E: Write>(
    shelf: &mut NamedShelf<N, S>,
    alloc: Global,
    scan: &mut Scan<N, S>,
    form: Form,
    options: &ScanOptions,
    progress: bool,
    out: &mut O,
    err: &mut E,
) -> Result<(), DirectoryFault>
    requires ascending { S.honest → UsersAscend scan.old.left }
    ensures done { S.honest → OnOk result (Appends (O.contents out.old) (O.contents out.new)
        (scan_text form options.now scan.old.left)) }
    ensures left { S.honest → IfErr result (λ e. e ≢ WriteFault → BeginsPrinting form options.now
        scan.old.left (O.contents out.old) (O.contents out.new)) }
    ensures fault { IfErr result (λ e.
        IsAnswerFault S.honest e shelf.old shelf.new) }
    ensures told { Becomes shelf.old shelf.new }
    ensures quiet { IsFalse progress → Keeps (E.contents err.old) (E.contents err.new) }
{
    let printed = print_asked(shelf, alloc, scan, form, options, progress, out, err);
    let flushed = flush(out);
    printed?;
    flushed?;
    Ok(())
}

/// A user key that none within the bounds is below: the greater one of the first key and of the
/// bytes with which a key is to begin, as far as there are any.
#[tactic(auto, using(lsm_iterators::proofs::CallerLemmas::least, crate::proofs::BeginLaws::from_first, crate::proofs::BeginLaws::from_prefix))]
fn first_within(bounds: &KeyBounds) -> &[u8]
    ensures { (key : UserKey) → is_within bounds.now key ≡ true → UserLe result.now key }
{
    match (&bounds.from, &bounds.prefix) {
        (None, None) => &[],
        (Some(from), None) => from.as_slice(),
        (None, Some(prefix)) => prefix.as_slice(),
        (Some(from), Some(prefix)) => {
            if is_at_most(prefix.as_slice(), from.as_slice()) {
                from.as_slice()
            } else {
                prefix.as_slice()
            }
        }
    }
}

/// Prints what is asked for of the pairs that a version shows. What was printed before a fault of
/// the shelf stands. The scan begins where the bounds do, so no pair below them is read.
#[tactic(auto, using(lsm_directory::proofs::CallerLemmas::keeps_same))]
pub(crate) fn print_scan<N: Naming, S: Shelf, O: Write, E: Write>(
    shelf: &mut NamedShelf<N, S>,
    alloc: Global,
    version: &Version<N, S>,
    form: Form,
    options: &ScanOptions,
    progress: bool,
    out: &mut O,
    err: &mut E,
) -> Result<(), DirectoryFault>
    ensures done { S.honest → OnOk result
        (PrintsScan form options.now version.now (O.contents out.old) (O.contents out.new)) }
    ensures left { IfErr result (λ e. e ≢ WriteFault → LeavesScan form options.now S.honest
        version.now (O.contents out.old) (O.contents out.new)) }
    ensures fault { IfErr result (λ e.
        IsAnswerFault S.honest e shelf.old shelf.new) }
    ensures told { Becomes shelf.old shelf.new }
    ensures quiet { IsFalse progress → Keeps (E.contents err.old) (E.contents err.new) }
{
    let from = first_within(&options.bounds);
    let mut scan = lsm_query::scan_from(version, shelf, alloc, version.last(), from)?;
    print_open(shelf, alloc, &mut scan, form, options, progress, out, err)
}
