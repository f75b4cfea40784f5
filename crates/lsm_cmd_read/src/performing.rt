//! What the commands on a directory do. Each opens it to read, and writes nothing there.

ghost use Rattle.std.specs.Prelude.{◌≡◌, ◌≢◌, All, IfErr, IfOk, IsFalse, OnOk, Some};
ghost use Rattle.std.specs.Io.KnownBytes.{Keeps};
ghost use Rattle.lsm_codec.specs.Entries.{answer};
ghost use Rattle.lsm_table.specs.Told.{Becomes};
ghost use Rattle.lsm_model.specs.Files.{all_entries};
ghost use Rattle.lsm_version.specs.Versions.{files};
ghost use Rattle.lsm_cmd_read.specs.Answers.{IsLookFault, IsLookedIntoAsGiven, IsNotLookedInto};
ghost use Rattle.lsm_cmd_read.specs.Answers.{IsPerformFault};
ghost use Rattle.lsm_cmd_read.specs.Answers.{Leaves, Prints, PrintsBefore, ReliesOn, asking, moment};
ghost use Rattle.lsm_cmd_read.specs.Quick.{is_check};
ghost use Rattle.lsm_cmd_read.specs.Directory.{AreGiven, Holds, OnlyReads};
ghost use Rattle.lsm_cmd_read.specs.Opening.{IsOpenRefusal};
ghost use Rattle.lsm_cmd_read.specs.Listing.{IsChecked, shown_answer};
ghost use Rattle.lsm_directory.specs.declared.faults.directory_fault.DirectoryFault.TheVariants.{Write as WriteFault};
ghost use Rattle.lsm_directory.specs.declared.folder.named_manifest.NamedManifest.{NamedManifest};
ghost use Rattle.lsm_shelf.specs.Stored.{Stored};

use crate::answering::shown_answer;
use crate::checking::describe;
use crate::inquiry::Inquiry;
use crate::listing::list_files;
use crate::notes::tell_notes;
use crate::opened::{Opened, open};
use crate::progress::FileTeller;
use crate::scanning::print_scan;
use lsm_codec::Bytes;
use lsm_directory::{DirectoryFault, Wording, push_logs, refuse_beside, write_output};
use lsm_requests::{DirectoryCommand, GetOutput};
use lsm_table::{NamedShelf, Naming, Records, Registry, Shelf};
use lsm_text::Form;
use lsm_verify::NoWatch;
use lsm_version::Version;
use std::alloc::{AllocError, Global};
use std::io::Write;
use std::marker::Brand;
use std::sync::{Arc, Wait};
use std::thread::Threads;

/// What is written of what a version answers for a key. `Absent` where there is no answer, and no
/// line is asked for.
fn answer_of<N: Naming, S: Shelf>(
    shelf: &mut NamedShelf<N, S>,
    alloc: Global,
    version: &Version<N, S>,
    form: Form,
    key: &Bytes,
    output: GetOutput,
) -> Result<Vec<u8>, DirectoryFault>
    ensures text { S.honest → IfOk result (λ text. shown_answer form output
        (answer (all_entries (files version.now)) key.now version.now.last) ≡ Some text.items) }
    ensures fault { IfErr result (λ e. IsPerformFault S.honest
        (DirectoryCommand.Get key.now output) version.now e shelf.old shelf.new) }
    ensures told { Becomes shelf.old shelf.new }
{
    let answer = lsm_query::get(version, shelf, alloc, key.as_slice(), version.last())?;
    match shown_answer(alloc, form, output, answer)? {
        Some(text) => Ok(text),
        None => Err(DirectoryFault::Absent),
    }
}

/// What a check prints: of the version, and of the logs that are not read.
fn checked<N: Naming, S: Shelf>(
    alloc: Global,
    registry: &Registry<N, S>,
    opened: &Opened<N, S>,
    inquiry: &Inquiry<'_>,
) -> Result<Vec<u8>, AllocError>
    ensures { IfOk result (λ text. IsChecked opened.now.version opened.now.manifest
        inquiry.now.beside.now text.items) }
{
    let mut text = describe(alloc, registry, opened)?;
    push_logs(
        &mut text,
        Wording::Listed,
        &inquiry.beside.logs,
        opened.manifest.log,
        opened.manifest.prev_log,
    )?;
    Ok(text)
}

/// Does what a command that is no check asks of a version.
#[tactic(auto, using(crate::proofs::PerformLaws::perform_from_output, crate::proofs::PerformLaws::perform_from_answer, lsm_directory::proofs::CallerLemmas::keeps_same))]
pub(crate) fn read_on<N: Naming, S: Shelf, O: Write, E: Write>(
    shelf: &mut NamedShelf<N, S>,
    alloc: Global,
    registry: &Registry<N, S>,
    version: &Version<N, S>,
    inquiry: &Inquiry<'_>,
    out: &mut O,
    err: &mut E,
) -> Result<(), DirectoryFault>
    requires reads { IsFalse (is_check inquiry.now.command.now) }
    ensures done { (manifest : NamedManifest) → ReliesOn S.honest inquiry.now.command.now
        → OnOk result (Prints inquiry.now.form inquiry.now.command.now version.now manifest
        inquiry.now.beside.now (O.contents out.old) (O.contents out.new)) }
    ensures left { IfErr result (λ e. e ≢ WriteFault
        → PrintsBefore inquiry.now.form inquiry.now.command.now S.honest version.now
        (O.contents out.old) (O.contents out.new)) }
    ensures fault { IfErr result (λ e. IsPerformFault S.honest inquiry.now.command.now
        version.now e shelf.old shelf.new) }
    ensures told { Becomes shelf.old shelf.new }
    ensures quiet { IsFalse inquiry.now.progress → Keeps (E.contents err.old) (E.contents err.new) }
{
    let text = match inquiry.command {
        DirectoryCommand::Check(_) => unreachable!(),
        DirectoryCommand::List => list_files(alloc, inquiry.form, registry, version)?,
        DirectoryCommand::Get(key, output) => {
            answer_of(shelf, alloc, version, inquiry.form, key, *output)?
        }
        DirectoryCommand::Scan(options) => {
            return print_scan(
                shelf,
                alloc,
                version,
                inquiry.form,
                options,
                inquiry.progress,
                out,
                err,
            );
        }
    };
    write_output(out, text.as_slice())?;
    Ok(())
}

/// Does what a command asks of a directory that is open.
#[tactic(auto, using(crate::proofs::PerformLaws::perform_from_output, crate::proofs::PerformLaws::perform_from_answer, lsm_directory::proofs::CallerLemmas::keeps_same))]
fn perform_on<N: Naming, S: Shelf, O: Write, E: Write>(
    shelf: &mut NamedShelf<N, S>,
    alloc: Global,
    registry: &Registry<N, S>,
    opened: &Opened<N, S>,
    inquiry: &Inquiry<'_>,
    out: &mut O,
    err: &mut E,
) -> Result<(), DirectoryFault>
    ensures done { ReliesOn S.honest inquiry.now.command.now → OnOk result
        (Prints inquiry.now.form inquiry.now.command.now opened.now.version opened.now.manifest
        inquiry.now.beside.now (O.contents out.old) (O.contents out.new)) }
    ensures left { IfErr result (λ e. e ≢ WriteFault
        → PrintsBefore inquiry.now.form inquiry.now.command.now S.honest opened.now.version
        (O.contents out.old) (O.contents out.new)) }
    ensures fault { IfErr result (λ e. IsPerformFault S.honest inquiry.now.command.now
        opened.now.version e shelf.old shelf.new) }
    ensures told { Becomes shelf.old shelf.new }
    ensures quiet { IsFalse inquiry.now.progress → Keeps (E.contents err.old) (E.contents err.new) }
{
    match inquiry.command {
        DirectoryCommand::Check(_) => {
            let text = checked(alloc, registry, opened, inquiry)?;
            write_output(out, text.as_slice())?;
            Ok(())
        }
        DirectoryCommand::List | DirectoryCommand::Get(_, _) | DirectoryCommand::Scan(_) => {
            read_on(shelf, alloc, registry, &opened.version, inquiry, out, err)
        }
    }
}

/// Opens the directory of a shelf to read, by a thread for each of the other ones, and says of each
/// file that it is judged, where that is asked for.
#[tactic(auto, using(lsm_directory::proofs::CallerLemmas::keeps_same))]
fn open_told<N: Naming, S: Shelf, R: Threads + Wait + Sync, E: Write + Send>(
    rt: &R,
    alloc: Global,
    shelf: &mut NamedShelf<N, S>,
    registry: &Arc<Registry<N, S>>,
    shelves: Vec<NamedShelf<N, S>>,
    progress: bool,
    err: &mut E,
) -> Result<Opened<N, S>, DirectoryFault>
    ensures opened { IfOk result (λ o.
        Holds S.honest shelf.old shelf.new o.version o.manifest) }
    ensures given { IfOk result (λ o. AreGiven (Stored S.Receipt (S.is_of N.place) S.Receipt.number
        S.Receipt.image) o.version) }
    ensures refused { IfErr result (λ e.
        IsOpenRefusal (Stored S.Receipt (S.is_of N.place) S.Receipt.number S.Receipt.image)
        (S.refuses N.place) S.honest e shelf.old shelf.new) }
    ensures reads { OnlyReads shelf.old shelf.new }
    ensures quiet { IsFalse progress → Keeps (E.contents err.old) (E.contents err.new) }
{
    if progress {
        let teller = FileTeller::new(rt, err);
        return open(rt, alloc, shelf, registry, shelves, &teller);
    }
    open(rt, alloc, shelf, registry, shelves, &NoWatch)
}

/// Whether a command says of each file that it is judged.
fn tells_files(inquiry: &Inquiry<'_>) -> bool
    ensures { IsFalse inquiry.now.progress → IsFalse result }
{
    match inquiry.command {
        DirectoryCommand::Check(_) => inquiry.progress,
        DirectoryCommand::List | DirectoryCommand::Get(_, _) | DirectoryCommand::Scan(_) => false,
    }
}

/// These shelves, under the name that was picked for their contents.
fn named<N: Naming, S: Shelf>(
    alloc: Global,
    shelves: Vec<S>,
) -> Result<Vec<NamedShelf<N, S>>, AllocError>
    requires { All (λ s. (S.told s).place ≡ N.place) shelves.items }
{
    let mut named = Vec::with_capacity(alloc, shelves.len())?;
    for shelf in shelves {
        named.push(NamedShelf::of(shelf))?;
    }
    Ok(named)
}

/// Opens the directory of a shelf to read, by a thread for each of the other ones, notes what is
/// not read, or is refused by that, and does what a command asks of it. Nothing is written there.
#[tactic(auto, using(crate::proofs::ReadingOutcomes::reads_none, crate::proofs::ReadingOutcomes::reads_later, lsm_directory::proofs::CallerLemmas::keeps_same))]
fn perform<N: Naming, S: Shelf, R: Threads + Wait + Sync, O: Write, E: Write + Send>(
    rt: &R,
    alloc: Global,
    shelf: &mut NamedShelf<N, S>,
    shelves: Vec<S>,
    records: Records<S::Receipt>,
    inquiry: &Inquiry<'_>,
    out: &mut O,
    err: &mut E,
) -> Result<(), DirectoryFault>
    requires named { records ≡ N.registry }
    requires shelves { All (λ s. (S.told s).place ≡ N.place) shelves.items }
    ensures done { OnOk result (IsLookedIntoAsGiven (asking inquiry.now)
        (Stored S.Receipt (S.is_of N.place) S.Receipt.number S.Receipt.image) S.honest
        (moment shelf.old (O.contents out.old)) (moment shelf.new (O.contents out.new))
        (E.contents err.old) (E.contents err.new)) }
    ensures fault { IfErr result (λ e. IsLookFault (asking inquiry.now)
        (Stored S.Receipt (S.is_of N.place) S.Receipt.number S.Receipt.image) (S.refuses N.place)
        S.honest e shelf.old shelf.new) }
    ensures left { IfErr result (λ e. Leaves (asking inquiry.now)
        (Stored S.Receipt (S.is_of N.place) S.Receipt.number S.Receipt.image) S.honest e
        (moment shelf.old (O.contents out.old)) (moment shelf.new (O.contents out.new))) }
    ensures reads { OnlyReads shelf.old shelf.new }
{
    let registry = Registry::shared(alloc, records)?;
    let shelves = named(alloc, shelves)?;
    let progress = tells_files(inquiry);
    let opened = open_told(rt, alloc, shelf, &registry, shelves, progress, err)?;
    refuse_beside(inquiry.strict, opened.manifest, inquiry.beside)?;
    tell_notes(alloc, inquiry.command, opened.manifest, inquiry.beside, err);
    perform_on(shelf, alloc, &registry, &opened, inquiry, out, err)
}

/// The same under the name that was picked for the records and the shelves. The first shelf is
/// given back.
fn perform_as<N: Naming, S: Shelf, R: Threads + Wait + Sync, O: Write, E: Write + Send>(
    rt: &R,
    alloc: Global,
    shelf: S,
    shelves: Vec<S>,
    records: Records<S::Receipt>,
    inquiry: &Inquiry<'_>,
    out: &mut O,
    err: &mut E,
) -> (Result<(), DirectoryFault>, S)
    requires records { records ≡ N.registry }
    requires shelf { (S.told shelf).place ≡ N.place }
    requires shelves { All (λ s. (S.told s).place ≡ N.place) shelves.items }
    ensures done { OnOk result.0 (IsLookedIntoAsGiven (asking inquiry.now)
        (Stored S.Receipt (S.is_of N.place) S.Receipt.number S.Receipt.image) S.honest
        (moment (S.told shelf) (O.contents out.old)) (moment (S.told result.1) (O.contents out.new))
        (E.contents err.old) (E.contents err.new)) }
    ensures fault { IfErr result.0 (λ e. IsLookFault (asking inquiry.now)
        (Stored S.Receipt (S.is_of N.place) S.Receipt.number S.Receipt.image) (S.refuses N.place)
        S.honest e (S.told shelf) (S.told result.1)) }
    ensures left { IfErr result.0 (λ e. Leaves (asking inquiry.now)
        (Stored S.Receipt (S.is_of N.place) S.Receipt.number S.Receipt.image) S.honest e
        (moment (S.told shelf) (O.contents out.old))
        (moment (S.told result.1) (O.contents out.new))) }
    ensures reads { OnlyReads (S.told shelf) (S.told result.1) }
{
    let mut shelf: NamedShelf<N, S> = NamedShelf::of(shelf);
    let done = perform(rt, alloc, &mut shelf, shelves, records, inquiry, out, err);
    (done, shelf.into_shelf())
}

/// Does what a command asks, with records of its own.
#[tactic(auto, using(crate::proofs::ReadingOutcomes::memory_refused, crate::proofs::ReadingOutcomes::reads_none))]
pub(crate) fn begin<S: Shelf, R: Threads + Wait + Sync, O: Write, E: Write + Send>(
    rt: &R,
    alloc: Global,
    shelf: S,
    shelves: Vec<S>,
    inquiry: &Inquiry<'_>,
    out: &mut O,
    err: &mut E,
) -> (Result<(), DirectoryFault>, S)
    requires shelves { All (λ s. (S.told s).place ≡ (S.told shelf).place) shelves.items }
    ensures done { OnOk result.0 (IsLookedIntoAsGiven (asking inquiry.now)
        (Stored S.Receipt (S.is_of (S.told shelf).place) S.Receipt.number S.Receipt.image) S.honest
        (moment (S.told shelf) (O.contents out.old)) (moment (S.told result.1) (O.contents out.new))
        (E.contents err.old) (E.contents err.new)) }
    ensures refused { IfErr result.0 (λ e. IsNotLookedInto (asking inquiry.now)
        (Stored S.Receipt (S.is_of (S.told shelf).place) S.Receipt.number S.Receipt.image)
        (S.refuses (S.told shelf).place) S.honest e (moment (S.told shelf) (O.contents out.old))
        (moment (S.told result.1) (O.contents out.new))) }
    ensures reads { OnlyReads (S.told shelf) (S.told result.1) }
{
    match Records::new(alloc) {
        Ok(records) => {
            perform_as::<Brand, S, R, O, E>(rt, alloc, shelf, shelves, records, inquiry, out, err)
        }
        Err(fault) => (Err(DirectoryFault::from(fault)), shelf),
    }
}
