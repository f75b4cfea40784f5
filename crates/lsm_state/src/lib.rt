//! The value behind the lock of a database.
//!
//! Stands on `lsm_slots` for versions, pins and snapshots, on `lsm_live` for live jobs, on
//! `lsm_journal` for the manifest, on `lsm_history` for the history of all that came in, and on
//! `lsm_model` for the law of the store as a plain machine. Its contract: the law of a state holds
//! after every call, and each call says all that it leaves.
//!
//! # What holds
//!
//! The law of a state (`IsLawfulState`) is the invariant of its type, so it holds after refused
//! calls too. `State::options` tells it. In brackets stands the clause that carries what was said,
//! or the field of the law.
//!
//! - Over an honest shelf the files of each level from 1 on are sorted and share no key of an entry
//!   (`split`), and of a user key each entry is newer than all that lie deeper (`depth`; both in
//!   `meaning` of `law`). Whatever the shelf is, no two files or tickets have one number, numbers
//!   drawn are no file's, inputs of live jobs are files of the version, no two live jobs conflict,
//!   and no floor is above the last sequence or a live snapshot's (`books` of `law`).
//! - The current version is what the edits of the manifest held come to (`journaled`). What is held
//!   is what the shelf was sent: as a state is made (`sent` of `create`, `begun` of `open`, `found`
//!   of `open_to_read`), and at each change of the version (`sends`, in `ok` of `ingest` and of
//!   `gather`, and `installed` of `install`).
//! - The tables of the current version, of every version whose slot is not free, and those that a
//!   live job drew are kept: `State::kept` answers just these (`numbers`), a reader's are among
//!   them (`kept` of `meet`), and `collect` removes no others than listed ones that are not among
//!   them (`ok`, `refused`).
//! - An ingest adds just its batch: one table of the batch's entries, at the sequences after the
//!   last, comes in at level 0 (`ok`), so the entries of all tables gain just these (`entries`).
//! - An install changes no answer: over an honest shelf a read at the last sequence, or at a live
//!   snapshot's, gives for each key what it gave before (`answers`), whatever came since the job
//!   was reserved. Nor does a gather, by which small files of level 0 become one with all their
//!   entries (`ok`, `answers`).
//! - A stale result changes nothing: `install` refuses one whose job is not live, or that has
//!   numbers which the job did not draw or which do not rise, leaves all as it was (`refused`), and
//!   hands the result back (`back`).
//! - Over an honest shelf a read gives the newest value at or before its sequence (`answer` of
//!   `get`).
//! - The state carries the history of all that ever came in, and over an honest shelf each promised
//!   read gives what it gives over that history (`agrees`; `reads` of `law`, `history` of `get`).
//!   An ingest adds just its batch to it (`history`), and nothing else adds or takes any. Who calls
//!   `remember` and later `recall` knows that the history goes on from what was remembered
//!   (`later`).
//! - What changes entries, snapshots or jobs is an event of the plain machine (`event`), so the
//!   laws of `lsm_model` over whole runs speak of states.
#![tactic(auto)]

// The state, and how it begins.
mod create;
mod open;
mod options;
mod state;
mod state_fault;
mod unjudged;

// What changes the version.
mod changing;
mod coming;
mod gather;
mod gather_fault;
mod ingest;
mod install;
mod install_change;

// Compactions under way.
mod jobs;
mod joining;
mod reserve;

// Reads, snapshots and pins.
mod pins;
mod reads;

// What is kept, and what is removed.
mod collect;
mod listing;
mod unkept;

pub use gather_fault::GatherFault;
pub use ingest::Ingested;
pub use lsm_journal::OpenFault;
pub use options::Options;
pub use state::State;
pub use state_fault::StateFault;
