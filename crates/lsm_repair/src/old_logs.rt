//! What a manifest says of logs.

ghost use Rattle.std.specs.Prelude.{◌≡◌, None};
ghost use Rattle.lsm_repair.specs.OldManifest.{logs_of};

/// The log numbers of the manifest that a new one replaces: LevelDB reads the log of the first one
/// and those above it, and the log of the second one. Both are 0 where no manifest gives them, and
/// then it reads each.
#[derive(Clone, Copy, Debug)]
pub struct OldLogs {
    /// The number of that manifest, 0 where there is none.
    pub manifest: u64,
    pub log: u64,
    pub prev_log: u64,
    /// Whether they are those of a manifest without a fault, to its last byte.
    pub is_whole: bool,
}

impl OldLogs {
    /// Those of no manifest.
    pub(crate) fn none() -> OldLogs
        ensures { result ≡ logs_of None }
    {
        OldLogs {
            manifest: 0,
            log: 0,
            prev_log: 0,
            is_whole: false,
        }
    }
}
