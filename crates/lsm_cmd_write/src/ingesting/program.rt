//! One run of `ingest`, `put` or `delete`.

ghost use Rattle.std.specs.Prelude.{◌≡◌, ◌≢◌, ◌∷◌, [], IfErr, OnErr, OnOk};
ghost use Rattle.std.specs.Io.KnownBytes.{Keeps};
ghost use Rattle.lsm_shelf.specs.Stored.{Stored};
ghost use Rattle.lsm_cmd_write.specs.Ingesting.{IsBroughtIn, IsNotBroughtIn};
ghost use Rattle.lsm_cmd_write.specs.Ingested.{ComesInAt, FailsToBringIn, IsIngested, IsUningested};
ghost use Rattle.lsm_requests.specs.Inputs.{text_in};
ghost use Rattle.lsm_opening.specs.declared.faults.writer_fault.WriterFault.{WriterFault};

use crate::ingesting::batch_input::read_batch;
use crate::ingesting::bring_in;
use crate::ingesting::one_write::batch_of;
use crate::ingesting::quick::bring_in_as_said;
use lsm_batch::{Batch, Write as KeyWrite};
use lsm_directory::{Known, Paths, Unopened, open_at, refuse, status_of};
use lsm_folder::{FindingCalls, Reasons};
use lsm_opening::{Prepared, WriterFault, prepare};
use lsm_requests::{IngestOptions, Input};
use lsm_storage::FileShelf;
use lsm_table::Shelf;
use std::alloc::Global;
use std::io::{Read, Write};
use std::sync::Wait;

/// Begins a database on the shelf, or opens the one that is there, as `prepare` found it, brings a
/// batch in, writes `file N first F last L`, and answers the exit status: 0 where it is done, and 1
/// where it is refused. A fault is one line on `err`, and may have more behind it that say what it
/// means.
///
/// Neither is done beside a log that LevelDB would read when it opens the folder, if logs were
/// looked at: `UnflushedLog` with the number of the first one. The shelf is given back.
pub fn ingest<S: Shelf, R: Wait, O: Write, E: Write>(
    rt: &R,
    alloc: Global,
    shelf: S,
    prepared: &Prepared,
    batch: &Batch,
    out: &mut O,
    err: &mut E,
) -> (u8, S)
    ensures done { result.0 ≡ 0 → IsBroughtIn S.honest prepared.now.start prepared.now.logs.items
        batch.now (S.told shelf) (S.told result.1) (O.contents out.old) (O.contents out.new) }
    ensures refused { result.0 ≢ 0 → (result.0 ≡ 1) × ((fault : WriterFault)
        × IsNotBroughtIn (Stored S.Receipt (S.is_of (S.told shelf).place) S.Receipt.number
        S.Receipt.image) (S.refuses (S.told shelf).place) S.honest prepared.now.start
        prepared.now.logs.items batch.now fault (S.told shelf) (S.told result.1)
        (O.contents out.old) (O.contents out.new)) }
    ensures quiet { result.0 ≡ 0 → Keeps (E.contents err.old) (E.contents err.new) }
{
    let (done, shelf) = bring_in(rt, alloc, shelf, prepared, batch, out);
    let known = Known {
        writes: batch.writes(),
        reasons: None,
        names_files: false,
    };
    (status_of(done, known, err), shelf)
}

/// Brings a batch into the folder at a path.
fn ingest_at<C: FindingCalls + Send + Sync, P: Paths<C>, R: Wait, O: Write>(
    rt: &R,
    paths: &P,
    path: &str,
    options: IngestOptions,
    batch: &Batch,
    reasons: &Reasons,
    out: &mut O,
) -> Result<(), WriterFault>
where
    C::Mark: Send + Sync,
    ensures done { OnOk result (ComesInAt C.FolderCalls C.holds path.now options batch.now
        (O.contents out.old) (O.contents out.new)) }
    ensures refused { OnErr result (FailsToBringIn C.FolderCalls C.Mark.Mark C.holds path.now
        options batch.now (O.contents out.old) (O.contents out.new)) }
{
    let mut folder = open_at(paths, path, reasons)?;
    let prepared = prepare(rt, paths.alloc(), &mut folder, options)?;
    let shelf = FileShelf::over(folder);
    let (done, _shelf) = bring_in_as_said(
        rt,
        paths.alloc(),
        shelf,
        &prepared,
        options.quick,
        batch,
        out,
    );
    done
}

/// Brings the batch of one write into the folder at a path, writes `file N first L last L`, and
/// answers the exit status, as `ingest` does.
pub fn run_write<C, P, R, O, E>(
    rt: &R,
    paths: &P,
    path: &str,
    options: IngestOptions,
    write: &KeyWrite,
    out: &mut O,
    err: &mut E,
) -> u8
where
    C: FindingCalls + Send + Sync,
    C::Mark: Send + Sync,
    P: Paths<C>,
    R: Wait,
    O: Write,
    E: Write,
    ensures done { result ≡ 0 → ComesInAt C.FolderCalls C.holds path.now options (write.now ∷ [])
        (O.contents out.old) (O.contents out.new) }
    ensures refused { result ≢ 0 → (result ≡ 1) × FailsToBringIn C.FolderCalls C.Mark.Mark
        C.holds path.now options (write.now ∷ []) (O.contents out.old) (O.contents out.new) }
    ensures quiet { result ≡ 0 → Keeps (E.contents err.old) (E.contents err.new) }
{
    let reasons = match Reasons::new(paths.alloc()) {
        Ok(reasons) => reasons,
        Err(fault) => return refuse(WriterFault::from(fault), err),
    };
    let batch = match batch_of(paths.alloc(), write) {
        Ok(batch) => batch,
        Err(fault) => return refuse(WriterFault::from(fault), err),
    };
    let done = ingest_at(rt, paths, path, options, &batch, &reasons, out);
    let known = Known {
        writes: batch.writes(),
        reasons: Some(&reasons),
        names_files: false,
    };
    status_of(done, known, err)
}

/// Brings the batch that an input spells into the folder at a path, and answers the exit status.
fn ingest_from<C, P, R, I, O, E>(
    rt: &R,
    paths: &P,
    path: &str,
    options: IngestOptions,
    input: &mut I,
    out: &mut O,
    err: &mut E,
) -> u8
where
    C: FindingCalls + Send + Sync,
    C::Mark: Send + Sync,
    P: Paths<C>,
    R: Wait,
    I: Read,
    O: Write,
    E: Write,
    ensures done { result ≡ 0 → IsIngested C.FolderCalls C.holds path.now options
        (I.remaining input.old) (O.contents out.old) (O.contents out.new) }
    ensures refused { result ≢ 0 → (result ≡ 1) × IsUningested C.FolderCalls C.Mark.Mark
        C.holds path.now options (I.remaining input.old) (O.contents out.old) (O.contents out.new) }
    ensures quiet { result ≡ 0 → Keeps (E.contents err.old) (E.contents err.new) }
{
    let reasons = match Reasons::new(paths.alloc()) {
        Ok(reasons) => reasons,
        Err(fault) => return refuse(WriterFault::from(fault), err),
    };
    let batch = match read_batch(paths.alloc(), options.form, input) {
        Ok(batch) => batch,
        Err(fault) => return refuse(fault, err),
    };
    let done = ingest_at(rt, paths, path, options, &batch, &reasons, out);
    let known = Known {
        writes: batch.writes(),
        reasons: Some(&reasons),
        names_files: false,
    };
    status_of(done, known, err)
}

/// The same for the input that is found here, standard input or the file of a path.
pub fn run_ingest<C, P, R, I, O, E>(
    rt: &R,
    paths: &P,
    path: &str,
    options: IngestOptions,
    found: Input<'_>,
    standard: &mut I,
    out: &mut O,
    err: &mut E,
) -> u8
where
    C: FindingCalls + Send + Sync,
    C::Mark: Send + Sync,
    P: Paths<C>,
    R: Wait,
    I: Read,
    O: Write,
    E: Write,
    ensures done { result ≡ 0 → IsIngested C.FolderCalls C.holds path.now options
        (text_in (I.remaining standard.old) (P.text paths.now) found.entry)
        (O.contents out.old) (O.contents out.new) }
    ensures refused { result ≢ 0 → (result ≡ 1) × IsUningested C.FolderCalls C.Mark.Mark
        C.holds path.now options
        (text_in (I.remaining standard.old) (P.text paths.now) found.entry) (O.contents out.old)
        (O.contents out.new) }
    ensures quiet { result ≡ 0 → Keeps (E.contents err.old) (E.contents err.new) }
{
    let file = match found {
        Input::Standard => return ingest_from(rt, paths, path, options, standard, out, err),
        Input::File(file) => file,
    };
    match paths.open_file(file) {
        Ok(mut input) => ingest_from(rt, paths, path, options, &mut input, out, err),
        Err(error) => refuse(Unopened { path: file, error }, err),
    }
}
