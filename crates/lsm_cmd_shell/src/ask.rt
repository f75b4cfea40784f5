//! What a line asks for.

use lsm_batch::Write;
use lsm_requests::KeyBounds;
use lsm_script::Command;

/// What a line asks for.
#[derive(Debug, Drop)]
pub enum Ask {
    /// Does a command.
    Do(Command),
    /// Writes one key, in the batch that is begun, or else by itself.
    Put(Write),
    /// Shows the keys within the bounds that have a value, with it: the first so many, or all.
    Scan(KeyBounds, Option<u64>),
    /// Begins a batch.
    Begin,
    /// Brings the batch in that is begun.
    Commit,
    /// Lets the batch go that is begun.
    Abort,
    /// Compacts all that is due, and collects.
    Compact,
    /// Tells how much there is.
    Stats,
    /// Tells what lines there are.
    Help,
}
