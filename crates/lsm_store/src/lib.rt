//! The store: the state behind its lock, and readers that need no lock.
//!
//! Stands on `lsm_state` for what the lock keeps, on `lsm_pins` for the board that readers pin
//! versions on, and on `lsm_reader` for the blocks of each reader. Data flows from `store` to
//! `reader` and from there to `view`, which a reader becomes while it holds a pin. Its contract:
//! the lock lends a state that keeps its law; what a view answers is of the version that it holds,
//! and at a promised sequence it is the answer of all that had come in when its reader learnt the
//! version.
#![tactic(auto)]

// The state behind its lock, its readers, and shelves for who works on it.
mod begin_fault;
mod forking;
mod guarded;
mod invariant;
mod reader;
mod reader_cache;
mod store;
mod view;

// Workers, each in a thread of its own.
mod background;
mod background_workers;
mod bell;
mod ends;
mod gate;
mod look;
mod manual_compaction;
mod picks;
mod ringing;
mod sweeper;
mod sweeping;
mod turn;
mod worker;
mod worker_end;
mod worker_fault;
mod worker_thread;
mod workers;

// Numbers for what workers write.
mod drawing;
mod number_service;
mod ticket_numbers;

// What callers learn of both.
pub mod laws;

pub use background::Background;
pub use background_workers::{ReturnedBeside, with_workers, with_workers_returning};
pub use begin_fault::BeginFault;
pub use ends::judge_ends;
pub use forking::{Shelves, forks};
pub use gate::{Gate, NoGate};
pub use guarded::Guarded;
pub use invariant::{Invariant, Lawful};
pub use lsm_storage::{FileReceipt, FileShelf, MemoryReceipt, MemoryShelf, SystemShelf};
pub use manual_compaction::ManualCompaction;
pub use picks::Picks;
pub use reader::Reader;
pub use reader_cache::ReaderCache;
pub use store::Store;
pub use view::View;
pub use worker_end::WorkerEnd;
pub use worker_fault::WorkerFault;
pub use worker_thread::Returned;
pub use workers::{run_workers, run_workers_by, run_workers_returning};
