//! LevelDB's write-ahead log, `N.log`: a record log of write batches, and the last write of each
//! key in it.
//!
//! Stands on `lsm_manifest` for the record log and on `lsm_batch` for writes. Its contract: a log's
//! bytes spell batches, and the batch that these fold to answers as their entries do. Data flows
//! from `write_log` through `write_batch` and `write_reader` to `folding`; `batch_writer` writes.
#![tactic(auto)]

mod batch_writer;
mod folding;
mod log_front;
mod write_batch;
mod write_log;
mod write_log_fault;
mod write_logs;
mod write_reader;

pub use folding::{last_writes, newest_is_last};
pub use log_front::log_fronts;
pub use write_batch::{WriteBatch, one_write_batch};
pub use write_log::{WriteLog, first_batches, one_write_log, read_writes};
pub use write_log_fault::WriteLogFault;
pub use write_logs::{LeftOut, WriteLogs};
