//! What is wrong with bytes that no request has.

use thiserror::Error;

/// The bytes are in none of the protocol's forms.
#[derive(Clone, Copy, Debug, Drop, Error, PartialEq, Eq)]
#[error("Malformed")]
pub struct Malformed;
