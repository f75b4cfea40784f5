//! Opening a database in the number of its tables: they are found on the shelf, and not read.
//!
//! Stands on `lsm_finding` for shelves that find tables, on `lsm_journal` for what a manifest says,
//! on `lsm_verify` for what a judgment is, on `lsm_version` and `lsm_query` for versions and their
//! reads, and on `lsm_storage` for the shelf in memory that `Known` wraps. Its contract: what is
//! admitted has a table on the shelf for each file of the manifest; and where the shelf keeps its
//! tables, it is what a judgment of every table finds.
#![tactic(auto)]

// What a manifest says of its files.
mod file_numbers;
mod layouts;

// Their tables, found.
mod admitting;
mod finding;
mod indexes;

// A database that is there.
mod admitted;
mod next_number;

// A read of it.
mod answer_fault;
mod answering;

// Where its tables are kept.
mod known;
mod laws;

pub use admitted::{Admitted, recover_manifest};
pub use admitting::admit;
pub use answer_fault::AnswerFault;
pub use answering::get_unjudged;
pub use indexes::open_indexes;
pub use known::{Known, KnownReceipt, KnownTables, get_known};
pub use laws::{
    any_image_keeps_no_file, found_is_recorded, judged_tables_are_kept, known_tables_are_kept,
    sound_tables_have_indexes, versions_can_be_known, versions_keep_their_tables,
};
pub use lsm_finding::{Finding, Vouched, Vouching};
