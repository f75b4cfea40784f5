//! The state with which a command or the server begins.

ghost use Rattle.std.specs.Prelude.{◌≡◌, ◌≤◌, ◌⊎◌, IfErr, IfOk, OnOk};
ghost use Rattle.lsm_directory.specs.Logs.{NoneUnread};
ghost use Rattle.lsm_opening.specs.Parts.{AreOf, usual};
ghost use Rattle.lsm_opening.specs.Starting.{FindsFlushed, IsBeginRefusal, IsNew, IsNewWith};
ghost use Rattle.lsm_opening.specs.Starting.{IsNotOpenedWith, IsNotReopenedWith, IsOpeningRefusal};
ghost use Rattle.lsm_opening.specs.Starting.{IsOutOfMemory, IsReopenedWith, IsStartRefusal};
ghost use Rattle.lsm_opening.specs.Starting.{IsStartRefusalWith};
ghost use Rattle.lsm_opening.specs.Starting.{IsStarted, IsStartedWith, IsUnbegun, IsUncreated};
ghost use Rattle.lsm_opening.specs.Starting.{IsUnflushed, Opens, OpensWith};
ghost use Rattle.lsm_shelf.specs.Stored.{Stored};
ghost use Rattle.lsm_store.specs.Readers.{SeatsPinners};

use crate::faults::writer_fault::WriterFault;
use crate::parts::{NewParts, Parts, named_parts, usual_parts};
use crate::prepared::{Prepared, Start};
use lsm_directory::{DirectoryFault, FolderFile, first_unread};
use lsm_journal::{Journal, ManifestLimit};
use lsm_slots::Boarded;
use lsm_state::State;
use lsm_store::laws::made_states_seat_their_pinners;
use lsm_table::{NamedShelf, Shelf};
use std::alloc::Global;
use std::sync::Wait;

/// Reads the manifest, and refuses the first log among these that LevelDB would read.
fn judge_found<N: Boarded, S: Shelf, R: Wait>(
    rt: &R,
    alloc: Global,
    shelf: &mut NamedShelf<N, S>,
    logs: &[FolderFile],
) -> Result<(), WriterFault>
    ensures found { OnOk result (FindsFlushed logs.now shelf.old shelf.new) }
    ensures refused { IfErr result (λ e.
        IsUnflushed (S.refuses N.place) logs.now e shelf.old shelf.new) }
{
    // A journal that nothing is sent through has no use for its limit.
    let found = Journal::recover(rt, alloc, shelf, ManifestLimit::none())?;
    if let Some(number) = first_unread(logs, found.shape.log, found.shape.prev_log) {
        return Err(WriterFault::UnflushedLog(number));
    }
    Ok(())
}

/// The state of a new database on the shelf, whose manifest has this number.
fn create<N: Boarded, S: Shelf, R: Wait>(
    rt: &R,
    alloc: Global,
    shelf: &mut NamedShelf<N, S>,
    number: u64,
    parts: Parts<N, S>,
) -> Result<State<N, S>, WriterFault>
    ensures created { IfOk result (λ s. IsNewWith parts number s shelf.old shelf.new) }
    ensures seats { IfOk result (λ s. SeatsPinners s) }
    ensures refused { IfErr result (λ e.
        IsUncreated number (S.refuses N.place) e shelf.old shelf.new) }
{
    if number == u64::MAX {
        return Err(WriterFault::Directory(DirectoryFault::NumbersSpent));
    }
    made_states_seat_their_pinners();
    let Parts {
        options,
        registry,
        publisher,
        pinners,
        history,
    } = parts;
    let board = (publisher, pinners);
    match State::create_under(rt, alloc, shelf, options, registry, board, history, number) {
        Ok(state) => Ok(state),
        Err(fault) => Err(WriterFault::of_shelf(fault)),
    }
}

/// The state of a new database on the shelf, if each of these logs is empty: its manifest names no
/// log, and so LevelDB would read them all.
fn create_beside<N: Boarded, S: Shelf, R: Wait>(
    rt: &R,
    alloc: Global,
    shelf: &mut NamedShelf<N, S>,
    number: u64,
    logs: &[FolderFile],
    parts: Parts<N, S>,
) -> Result<State<N, S>, WriterFault>
    ensures flushed { OnOk result (NoneUnread 0 0 logs.now) }
    ensures created { IfOk result (λ s. IsNewWith parts number s shelf.old shelf.new) }
    ensures seats { IfOk result (λ s. SeatsPinners s) }
    ensures refused { IfErr result (λ e.
        IsUnbegun number logs.now (S.refuses N.place) e shelf.old shelf.new) }
{
    if let Some(log) = first_unread(logs, 0, 0) {
        return Err(WriterFault::UnflushedLog(log));
    }
    match create(rt, alloc, shelf, number, parts) {
        Ok(state) => Ok(state),
        Err(fault) => Err(fault),
    }
}

/// The state of the database that is on the shelf.
fn reopen<N: Boarded, S: Shelf, R: Wait>(
    rt: &R,
    alloc: Global,
    shelf: &mut NamedShelf<N, S>,
    parts: Parts<N, S>,
) -> Result<State<N, S>, WriterFault>
    ensures opened { IfOk result (λ s. IsReopenedWith S.honest parts s shelf.old shelf.new) }
    ensures board { IfOk result (λ s. s.slots.board.board ≡ N.board) }
    ensures seats { IfOk result (λ s. SeatsPinners s) }
    ensures refused { IfErr result (λ e. IsNotReopenedWith
        (Stored S.Receipt (S.is_of N.place) S.Receipt.number S.Receipt.image)
        (S.refuses N.place) S.honest parts e shelf.old shelf.new) }
{
    made_states_seat_their_pinners();
    let Parts {
        options,
        registry,
        publisher,
        pinners,
        history,
    } = parts;
    let board = (publisher, pinners);
    match State::open(rt, alloc, shelf, options, registry, board, history) {
        Ok(state) => {
            // The law of the state is told by this call.
            let _options = state.options();
            Ok(state)
        }
        Err(fault) => Err(WriterFault::of_open(fault)),
    }
}

/// The state of the database that is on the shelf, if none of these logs is one that is not
/// flushed.
fn open_beside<N: Boarded, S: Shelf, R: Wait>(
    rt: &R,
    alloc: Global,
    shelf: &mut NamedShelf<N, S>,
    logs: &[FolderFile],
    parts: Parts<N, S>,
) -> Result<State<N, S>, WriterFault>
    ensures opened { IfOk result (λ s. OpensWith S.honest parts logs.now s shelf.old shelf.new) }
    ensures board { IfOk result (λ s. s.slots.board.board ≡ N.board) }
    ensures seats { IfOk result (λ s. SeatsPinners s) }
    ensures refused { IfErr result (λ e. IsNotOpenedWith
        (Stored S.Receipt (S.is_of N.place) S.Receipt.number S.Receipt.image)
        (S.refuses N.place) S.honest parts logs.now e shelf.old shelf.new) }
{
    judge_found(rt, alloc, shelf, logs)?;
    match reopen(rt, alloc, shelf, parts) {
        Ok(state) => Ok(state),
        Err(fault) => Err(fault),
    }
}

/// The state of a new database on the shelf, or of the one that is there, with the options of its
/// parts.
fn start_named<N: Boarded, S: Shelf, R: Wait>(
    rt: &R,
    alloc: Global,
    shelf: &mut NamedShelf<N, S>,
    prepared: &Prepared,
    parts: Parts<N, S>,
) -> Result<State<N, S>, WriterFault>
    ensures started { IfOk result (λ s. IsStartedWith S.honest parts prepared.now.start
        prepared.now.logs.items s shelf.old shelf.new) }
    ensures seats { IfOk result (λ s. SeatsPinners s) }
    ensures refused { IfErr result (λ e. IsStartRefusalWith (Stored S.Receipt (S.is_of N.place)
        S.Receipt.number S.Receipt.image) (S.refuses N.place) S.honest parts prepared.now.start
        prepared.now.logs.items e shelf.old shelf.new) }
{
    match prepared.start {
        Start::Open => open_beside(rt, alloc, shelf, &prepared.logs, parts),
        Start::Begin(number) => create_beside(rt, alloc, shelf, number, &prepared.logs, parts),
    }
}

/// The state of a new database on the shelf, or of the one that is there, with the usual options.
/// Neither is done beside a log that LevelDB would then read, if logs were looked at.
pub fn start<N: Boarded, S: Shelf, R: Wait>(
    rt: &R,
    alloc: Global,
    shelf: &mut NamedShelf<N, S>,
    prepared: &Prepared,
    parts: NewParts<S>,
) -> Result<State<N, S>, WriterFault>
    requires parts { AreOf usual N.registry N.board N.history parts }
    ensures started { IfOk result (λ s. IsStarted S.honest prepared.now.start
        prepared.now.logs.items s shelf.old shelf.new) }
    ensures seats { IfOk result (λ s. SeatsPinners s) }
    ensures refused { IfErr result (λ e. IsStartRefusal (Stored S.Receipt (S.is_of N.place)
        S.Receipt.number S.Receipt.image) (S.refuses N.place) S.honest prepared.now.start
        prepared.now.logs.items e shelf.old shelf.new) }
{
    let parts = usual_parts(alloc, parts)?;
    match start_named(rt, alloc, shelf, prepared, parts) {
        Ok(state) => Ok(state),
        Err(fault) => Err(fault),
    }
}

/// The same with the options of these parts.
pub fn start_with<N: Boarded, S: Shelf, R: Wait>(
    rt: &R,
    alloc: Global,
    shelf: &mut NamedShelf<N, S>,
    prepared: &Prepared,
    parts: NewParts<S>,
) -> Result<State<N, S>, WriterFault>
    requires parts { AreOf parts.options N.registry N.board N.history parts }
    ensures started { IfOk result (λ s. IsStartedWith S.honest parts.options prepared.now.start
        prepared.now.logs.items s shelf.old shelf.new) }
    ensures seats { IfOk result (λ s. SeatsPinners s) }
    ensures refused { IfErr result (λ e. IsOutOfMemory e shelf.old shelf.new
        ⊎ IsStartRefusalWith (Stored S.Receipt (S.is_of N.place) S.Receipt.number S.Receipt.image)
        (S.refuses N.place) S.honest parts.options prepared.now.start prepared.now.logs.items e
        shelf.old shelf.new) }
{
    let parts = named_parts(alloc, parts)?;
    match start_named(rt, alloc, shelf, prepared, parts) {
        Ok(state) => Ok(state),
        Err(fault) => Err(fault),
    }
}

/// The state of the database that is on the shelf, with the usual options, as `start` opens it
/// where no log was looked at.
pub fn open<N: Boarded, S: Shelf, R: Wait>(
    rt: &R,
    alloc: Global,
    shelf: &mut NamedShelf<N, S>,
    parts: NewParts<S>,
) -> Result<State<N, S>, WriterFault>
    requires parts { AreOf usual N.registry N.board N.history parts }
    ensures opened { IfOk result (λ s. Opens S.honest s shelf.old shelf.new) }
    ensures board { IfOk result (λ s. s.slots.board.board ≡ N.board) }
    ensures seats { IfOk result (λ s. SeatsPinners s) }
    ensures refused { IfErr result (λ e. IsOpeningRefusal
        (Stored S.Receipt (S.is_of N.place) S.Receipt.number S.Receipt.image)
        (S.refuses N.place) S.honest e shelf.old shelf.new) }
{
    let parts = usual_parts(alloc, parts)?;
    match open_beside(rt, alloc, shelf, &[], parts) {
        Ok(state) => Ok(state),
        Err(fault) => Err(fault),
    }
}

/// The state of a new database on the shelf, whose manifest has this number, with the usual
/// options.
pub fn begin<N: Boarded, S: Shelf, R: Wait>(
    rt: &R,
    alloc: Global,
    shelf: &mut NamedShelf<N, S>,
    number: u64,
    parts: NewParts<S>,
) -> Result<State<N, S>, WriterFault>
    requires parts { AreOf usual N.registry N.board N.history parts }
    ensures begun { IfOk result (λ s. IsNew number s shelf.old shelf.new) }
    ensures seats { IfOk result (λ s. SeatsPinners s) }
    ensures refused { IfErr result (λ e.
        IsBeginRefusal number (S.refuses N.place) e shelf.old shelf.new) }
{
    let parts = usual_parts(alloc, parts)?;
    match create(rt, alloc, shelf, number, parts) {
        Ok(state) => Ok(state),
        Err(fault) => Err(fault),
    }
}

/// The same with the options of these parts.
pub fn begin_with<N: Boarded, S: Shelf, R: Wait>(
    rt: &R,
    alloc: Global,
    shelf: &mut NamedShelf<N, S>,
    number: u64,
    parts: NewParts<S>,
) -> Result<State<N, S>, WriterFault>
    requires parts { AreOf parts.options N.registry N.board N.history parts }
    ensures begun { IfOk result (λ s. IsNewWith parts.options number s shelf.old shelf.new) }
    ensures seats { IfOk result (λ s. SeatsPinners s) }
    ensures refused { IfErr result (λ e.
        IsBeginRefusal number (S.refuses N.place) e shelf.old shelf.new) }
{
    let parts = named_parts(alloc, parts)?;
    match create(rt, alloc, shelf, number, parts) {
        Ok(state) => Ok(state),
        Err(fault) => Err(fault),
    }
}
