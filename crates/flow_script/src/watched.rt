//! A reader or a writer that records whether it failed.
ghost use Rattle.std.specs.Prelude.{◌≡◌, ◌||◌, Bool, true, false, is_err};
ghost use Rattle.std.specs.Io.{ReadsAtMost, WritesAtMost};
ghost use Rattle.std.specs.Io.KnownBytes.{Keeps, ReadConsumes, WriteAppends};
ghost use Rattle.flow_script.specs.Playing.{took_none};
ghost use Rattle.flow_script.specs.Watching.{inner_of, has_failed};

use std::io;
use std::io::{Read, Write};

/// A reader or a writer that records whether it failed. After a call of `play`, `failed` says whether the reader or the
/// writer caused a fault.
#[derive(Drop)]
pub struct Watched<I> {
    inner: I,
    failed: bool,
}

impl<I> Watched<I> {
    /// Wraps a reader or a writer, which has not failed yet.
    pub fn new(inner: I) -> Self
        ensures inner { inner_of result ≡ inner }
        ensures failed { has_failed result ≡ false }
    {
        Watched {
            inner,
            failed: false,
        }
    }

    /// Returns whether a call has failed so far, or a write of some bytes took none of them.
    pub fn failed(&self) -> bool
        ensures { result ≡ has_failed self.now }
    {
        let Watched { failed, .. } = self;
        *failed
    }
}

impl<R: Read> Read for Watched<R> {
    ghost remaining = { λ w. R.remaining w.inner };

    fn read(&mut self, buf: &mut [u8]) -> io::Result<usize>
        ensures bound { ReadsAtMost result buf.new }
        ensures bytes { ReadConsumes (R.remaining (inner_of self.old))
            (R.remaining (inner_of self.new)) result buf.new }
        ensures failed { has_failed self.new ≡ (has_failed self.old || is_err result) }
    {
        let result = self.inner.read(buf);
        if result.is_err() {
            self.failed = true;
        }
        result
    }
}

impl<W: Write> Write for Watched<W> {
    ghost contents = { λ w. W.contents w.inner };

    fn write(&mut self, buf: &[u8]) -> io::Result<usize>
        ensures bound { WritesAtMost result buf.now }
        ensures bytes { WriteAppends (W.contents (inner_of self.old))
            (W.contents (inner_of self.new)) result buf.now }
        ensures failed { has_failed self.new ≡ (has_failed self.old || took_none result buf.now) }
    {
        let result = self.inner.write(buf);
        match &result {
            Ok(count) => {
                if *count == 0 && !buf.is_empty() {
                    self.failed = true;
                }
            }
            Err(_) => self.failed = true,
        }
        result
    }

    fn flush(&mut self) -> io::Result<()>
        ensures bytes { Keeps (W.contents (inner_of self.old)) (W.contents (inner_of self.new)) }
        ensures failed { has_failed self.new ≡ (has_failed self.old || is_err result) }
    {
        let result = self.inner.flush();
        if result.is_err() {
            self.failed = true;
        }
        result
    }
}
