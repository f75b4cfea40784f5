//! Which line a name begins.

ghost use Rattle.std.specs.Prelude.{◌≡◌};
ghost use Rattle.lsm_cmd_shell.specs.Mistakes.{is_alone, kind_of, kind_of_job, kind_of_pair};

/// Lines by what they want behind their names.
#[derive(Clone, Copy, Debug)]
pub enum LineKind {
    /// Nothing.
    Alone,
    /// `KEY VALUE`.
    Put,
    /// `KEY`.
    Delete,
    /// `KEY [ID]`.
    Get,
    /// `[FROM [TO]] [limit N]`.
    Scan,
    /// `W W ..`.
    Ingest,
    /// `ID` of a snapshot.
    Release,
    /// Nothing, or `LEVEL FROM TO`.
    Reserve,
    /// `T`.
    Job,
    /// `ID` of a pin.
    Unpin,
}

/// Whether a line of this name wants nothing else.
#[tactic(auto, unfolding(crate::specs::Mistakes::is_alone))]
fn is_alone(name: &[u8]) -> bool
    ensures { result ≡ is_alone name.now }
{
    name == b"begin".as_slice()
        || name == b"commit".as_slice()
        || name == b"abort".as_slice()
        || name == b"snapshot".as_slice()
        || name == b"compact".as_slice()
        || name == b"pin".as_slice()
        || name == b"collect".as_slice()
        || name == b"stats".as_slice()
        || name == b"list".as_slice()
        || name == b"help".as_slice()
        || name == b"quit".as_slice()
}

/// The line of this name, where it is one of keys.
#[tactic(auto, unfolding(crate::specs::Mistakes::kind_of_pair))]
fn kind_of_pair(name: &[u8]) -> Option<LineKind>
    ensures { result ≡ kind_of_pair name.now }
{
    if name == b"put".as_slice() {
        return Some(LineKind::Put);
    }
    if name == b"delete".as_slice() {
        return Some(LineKind::Delete);
    }
    if name == b"get".as_slice() {
        return Some(LineKind::Get);
    }
    if name == b"scan".as_slice() {
        return Some(LineKind::Scan);
    }
    if name == b"ingest".as_slice() {
        return Some(LineKind::Ingest);
    }
    None
}

/// The line of this name, where it is one of snapshots, jobs and pins.
#[tactic(auto, unfolding(crate::specs::Mistakes::kind_of_job))]
fn kind_of_job(name: &[u8]) -> Option<LineKind>
    ensures { result ≡ kind_of_job name.now }
{
    if name == b"release".as_slice() {
        return Some(LineKind::Release);
    }
    if name == b"reserve".as_slice() {
        return Some(LineKind::Reserve);
    }
    if name == b"merge".as_slice() {
        return Some(LineKind::Job);
    }
    if name == b"install".as_slice() {
        return Some(LineKind::Job);
    }
    if name == b"cancel".as_slice() {
        return Some(LineKind::Job);
    }
    if name == b"unpin".as_slice() {
        return Some(LineKind::Unpin);
    }
    None
}

/// The line of this name; none where it is the name of none.
#[tactic(auto, unfolding(crate::specs::Mistakes::kind_of))]
pub(crate) fn kind_of(name: &[u8]) -> Option<LineKind>
    ensures { result ≡ kind_of name.now }
{
    if is_alone(name) {
        return Some(LineKind::Alone);
    }
    if let Some(kind) = kind_of_pair(name) {
        return Some(kind);
    }
    kind_of_job(name)
}
