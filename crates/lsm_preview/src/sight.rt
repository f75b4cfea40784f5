//! How a database is seen.

/// How a database is seen: with the writes of its logs, and with its tables plain, or as it lies.
#[derive(Clone, Copy, Debug, Drop, PartialEq, Eq)]
pub struct Sight {
    /// The logs that LevelDB reads come in, as `lsm recover` brings them in.
    pub logs: bool,
    /// The tables are shown plain, as `lsm import` makes them.
    pub inflates: bool,
}
