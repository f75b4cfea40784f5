//! Why a command that writes a directory ends with status 1.

pub(crate) mod compact_fault;
pub(crate) mod passed_limit;
pub(crate) mod writer_fault;
