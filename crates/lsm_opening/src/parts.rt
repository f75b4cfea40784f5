//! What a state is made with, as one value.

ghost use Rattle.std.specs.Prelude.{◌≡◌, ◌≤◌, IfErr, IfOk};
ghost use Rattle.lsm_opening.specs.Parts.{AreOf, usual};
ghost use Rattle.lsm_opening.specs.declared.faults.writer_fault.WriterFault.TheVariants.{OutOfMemory};
ghost use Rattle.lsm_state.specs.Options.{Fits};

use crate::faults::writer_fault::WriterFault;
use lsm_finding::{Vouched, Vouching};
use lsm_history::NewHistory;
use lsm_pins::{Board, Pinner, Publisher};
use lsm_slots::Boarded;
use lsm_state::Options;
use lsm_table::{Records, Registry, Shelf};
use std::alloc::{AllocError, Global};
use std::marker::Model;
use std::sync::Arc;

/// Options, and what fits them, all new: records of tables, the ends of a board with the options'
/// slots and a pinner for each of their readers, and a history. A program makes them before it
/// picks a name for them: the name's registry is that of the records, and its board and history are
/// these.
pub struct NewParts<S: Shelf> {
    options: Options,
    records: Records<S::Receipt>,
    publisher: Publisher,
    pinners: Vec<Pinner>,
    history: NewHistory,
}

impl<S: Shelf> Drop for NewParts<S> {
    fn drop(self) {
        let Self {
            options: _,
            records: _,
            publisher: _,
            pinners: _,
            history: _,
        } = self;
    }
}

impl<S: Shelf> Model for NewParts<S> {
    ghost use Rattle.lsm_opening.specs.Parts.{AreNew, Made};

    ghost Value = { Made };

    ghost view = { λ p. record {
      options = p.options;
      registry = p.records;
      board = p.publisher.board;
      history = p.history.table.shared.table_id;
    } };

    ghost invariant = { λ p. AreNew p.publisher.board p.options p.publisher p.pinners.items };
}

impl<S: Shelf> NewParts<S> {
    /// For these options. `AllocError` where a growth was refused.
    pub fn with(alloc: Global, options: Options) -> Result<NewParts<S>, AllocError>
        requires fits { Fits options }
        ensures options { IfOk result (λ p. p.options ≡ options) }
    {
        let records = Records::new(alloc)?;
        let (publisher, pinners) = Board::new(alloc, options.readers, options.versions)?;
        let history = NewHistory::new(alloc)?;
        Ok(NewParts {
            options,
            records,
            publisher,
            pinners,
            history,
        })
    }

    /// For the options of a program that keeps a database for long. `AllocError` where a growth was
    /// refused.
    pub fn make(alloc: Global) -> Result<NewParts<S>, AllocError>
        ensures options { IfOk result (λ p. p.options ≡ usual) }
    {
        NewParts::with(alloc, Options::for_programs())
    }

    /// The options.
    pub fn options(&self) -> &Options
        ensures { result.now ≡ self.now.options }
    {
        &self.options
    }

    /// The same for the shelf under a premise, whose tables have the same receipts.
    pub(crate) fn vouched<V: Vouching>(self) -> NewParts<Vouched<V, S>>
        ensures { result ≡ self }
    {
        let NewParts {
            options,
            records,
            publisher,
            pinners,
            history,
        } = self;
        NewParts {
            options,
            records,
            publisher,
            pinners,
            history,
        }
    }

    /// The same under the name that stands for them. `AllocError` where a growth was refused.
    pub(crate) fn named<N: Boarded>(self, alloc: Global) -> Result<Parts<N, S>, AllocError>
        requires named { AreOf self.options N.registry N.board N.history self }
        ensures options { IfOk result (λ p. p ≡ self.options) }
    {
        let NewParts {
            options,
            records,
            publisher,
            pinners,
            history,
        } = self;
        Ok(Parts {
            options,
            registry: Registry::shared(alloc, records)?,
            publisher,
            pinners,
            history,
        })
    }
}

/// The same under a name: the registry of the name `N`, and the ends of its board and its history,
/// all new. Contracts see them as the options that they fit.
#[derive(Drop)]
pub(crate) struct Parts<N: Boarded, S: Shelf> {
    pub(crate) options: Options,
    pub(crate) registry: Arc<Registry<N, S>>,
    pub(crate) publisher: Publisher,
    pub(crate) pinners: Vec<Pinner>,
    pub(crate) history: NewHistory,
}

impl<N: Boarded, S: Shelf> Model for Parts<N, S> {
    ghost use Rattle.lsm_opening.specs.Parts.{AreNamed};
    ghost use Rattle.lsm_state.specs.declared.options.Options.{Options};

    ghost Value = { Options };

    ghost view = { λ p. p.options };

    ghost invariant = { λ p.
        AreNamed N.board N.history p.options p.publisher p.pinners.items p.history };
}

/// The usual parts, under the name that stands for them.
pub(crate) fn usual_parts<N: Boarded, S: Shelf>(
    alloc: Global,
    parts: NewParts<S>,
) -> Result<Parts<N, S>, WriterFault>
    requires parts { AreOf usual N.registry N.board N.history parts }
    ensures options { IfOk result (λ p. p ≡ usual) }
    ensures memory { IfErr result (λ e. e ≡ OutOfMemory) }
{
    match parts.named(alloc) {
        Ok(parts) => Ok(parts),
        Err(_) => Err(WriterFault::OutOfMemory),
    }
}

/// The parts, under the name that stands for them.
pub(crate) fn named_parts<N: Boarded, S: Shelf>(
    alloc: Global,
    parts: NewParts<S>,
) -> Result<Parts<N, S>, WriterFault>
    requires named { AreOf parts.options N.registry N.board N.history parts }
    ensures options { IfOk result (λ p. p ≡ parts.options) }
    ensures memory { IfErr result (λ e. e ≡ OutOfMemory) }
{
    match parts.named(alloc) {
        Ok(parts) => Ok(parts),
        Err(_memory) => Err(WriterFault::OutOfMemory),
    }
}
