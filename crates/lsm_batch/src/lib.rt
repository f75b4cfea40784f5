//! Batches, and their tables.
//!
//! Stands on `lsm_table` for tables. Data flows from `write` through `batch` (its limits and its
//! order) to `building` (its entries as a table); `last_writes` makes a batch of writes in any order.
//! Its contract: the image that comes of a batch, and is then put (`TableImage::put`), is a table of
//! just its entries, under sequences one after another.
#![tactic(auto)]

mod batch;
mod batch_fault;
mod building;
mod last_writes;
mod limits;
mod write;

pub use batch::Batch;
pub use batch_fault::BatchFault;
pub use last_writes::last_of_each;
pub use limits::{MOST_BYTES, MOST_ENTRIES, MOST_KEY, MOST_VALUE};
pub use lsm_table::TableImage;
pub use write::Write;
