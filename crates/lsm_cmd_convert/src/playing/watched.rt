//! A reader of which it is known whether its last read failed.

ghost use Rattle.std.specs.Prelude.{◌≡◌, OnErr, OnOk, false, true};
ghost use Rattle.std.specs.Io.{ReadsAtMost};
ghost use Rattle.std.specs.Io.KnownBytes.{ReadConsumes};

use std::io::{self, Read};

/// A reader, and whether its last read failed. A fault that is blamed on a reader can so be held
/// against it.
#[derive(Drop)]
pub struct Watched<R> {
    inner: R,
    failed: bool,
}

impl<R> Watched<R> {
    /// A reader of which no read failed yet.
    pub fn new(inner: R) -> Watched<R>
        ensures inner { result.inner ≡ inner }
        ensures failed { result.failed ≡ false }
    {
        Watched {
            inner,
            failed: false,
        }
    }

    /// Whether the last read failed.
    pub fn has_failed(&self) -> bool
        ensures { result ≡ self.now.failed }
    {
        self.failed
    }
}

impl<R: Read> Read for Watched<R> {
    ghost remaining = { λ w. R.remaining w.inner };

    fn read(&mut self, buf: &mut [u8]) -> io::Result<usize>
        ensures bound { ReadsAtMost result buf.new }
        ensures bytes { ReadConsumes (R.remaining self.old.inner) (R.remaining self.new.inner)
            result buf.new }
        ensures failed { OnErr result (self.new.failed ≡ true) }
        ensures went { OnOk result (self.new.failed ≡ false) }
    {
        let read = self.inner.read(buf);
        self.failed = read.is_err();
        read
    }
}
