//! What is left where nothing was served.

use lsm_wire::Wire;

/// Why nothing was served, and the wires over which it was to be.
#[derive(Drop)]
pub(crate) struct Unserved<W: Wire, E: Drop> {
    pub(crate) fault: E,
    pub(crate) wires: Vec<W>,
}
