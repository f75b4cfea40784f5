//! Why a command on a directory ends with status 1.

pub(crate) mod directory_fault;
pub(crate) mod directory_refusals;
pub(crate) mod meanings;
