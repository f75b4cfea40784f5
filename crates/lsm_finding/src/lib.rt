//! Finding a table on a shelf without reading it, and a shelf with one premise more.
//!
//! Stands on `lsm_shelf` alone. Its contract: a table is found by its number, and of its image only
//! the length is asked; a vouched shelf answers as the one inside it, and is honest where that one
//! is and its premise holds.
#![tactic(auto)]

mod finding;
mod vouched;

pub use finding::Finding;
pub use vouched::{Vouched, Vouching};
