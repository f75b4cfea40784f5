//! Standard streams that are closed when the program starts.

use std::fs::OpenOptions;
use std::ops::RangeInclusive;
use std::os::fd::{AsRawFd, IntoRawFd, RawFd};

/// Opens `/dev/null`, and leaves it open to the end of the run where its descriptor is one of
/// these.
fn hold(files: &HostRuntime, options: &OpenOptions, wanted: RangeInclusive<RawFd>) {
    let Ok(null) = options.open(files, "/dev/null") else {
        return;
    };
    if wanted.contains(&null.as_raw_fd()) {
        let _ = null.into_raw_fd();
    }
}

/// Opens the descriptors 0 to 2 that are closed. A file that is opened takes the lowest descriptor
/// that is free: with standard error closed, lines for people would go into a table or a manifest.
///
/// Standard input is opened to be written and the others to be read, so that a read or a write of a
/// stream that was closed is refused, as it was. Where there is no `/dev/null` they stay closed.
pub fn hold_streams(files: &HostRuntime) {
    hold(files, OpenOptions::new().write(true), 0..=0);
    for _ in 0..3 {
        hold(files, OpenOptions::new().read(true), 0..=2);
    }
}
