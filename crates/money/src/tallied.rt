//! A stream with a count of its failed calls, which passes all bytes on.

ghost use Rattle.std.specs.Prelude.{◌≡◌, ◌<◌, ◌≤◌, ◌⊎◌, length, IfOk, OnOk, OnErr};
ghost use Rattle.std.specs.Io.{ReadsAtMost, WritesAtMost};
ghost use Rattle.std.specs.Io.KnownBytes.{Keeps, ReadConsumes, WriteAppends};

use std::io;
use std::io::{Read, Write};

/// A reader or a writer, and how many of its calls failed: each read, write and flush that answered an error, and each
/// write that took no byte of some. Nothing else moves the count.
#[derive(Drop)]
pub struct Tallied<T> {
    stream: T,
    failures: u64,
}

impl<T> Tallied<T> {
    ghost use Rattle.money.specs.Counted.{stream_of, failure_count, counted_once_more};

    /// The stream with no failure counted yet.
    pub fn new(stream: T) -> Self
        ensures stream { stream_of result ≡ stream }
        ensures none { failure_count result ≡ 0 }
    {
        Tallied {
            stream,
            failures: 0,
        }
    }

    /// How many calls failed so far. The count stays at the greatest `u64`.
    pub fn failures(&self) -> u64
        ensures { result ≡ failure_count self.now }
    {
        self.failures
    }

    /// The stream, without its count.
    pub fn into_inner(self) -> T
        ensures { result ≡ stream_of self }
    {
        self.stream
    }

    /// Counts one failure more, up to the greatest `u64`.
    fn count_failure(&mut self)
        ensures stream { stream_of self.new ≡ stream_of self.old }
        ensures count { failure_count self.new ≡ counted_once_more (failure_count self.old) }
        ensures counts { failure_count self.old ≤ failure_count self.new }
    {
        self.failures = self.failures.saturating_add(1);
    }
}

impl<R: Read> Read for Tallied<R> {
    ghost use Rattle.money.specs.Counted.{stream_of, failure_count, counted_once_more};

    ghost remaining = { λ t. R.remaining t.stream };

    fn read(&mut self, buf: &mut [u8]) -> io::Result<usize>
        ensures bound { ReadsAtMost result buf.new }
        ensures bytes { ReadConsumes (R.remaining (stream_of self.old)) (R.remaining (stream_of self.new)) result buf.new }
        ensures ok { OnOk result (failure_count self.new ≡ failure_count self.old) }
        ensures err { OnErr result (failure_count self.new ≡ counted_once_more (failure_count self.old)) }
        ensures counts { failure_count self.old ≤ failure_count self.new }
    {
        match self.stream.read(buf) {
            Ok(n) => Ok(n),
            Err(e) => {
                self.count_failure();
                Err(e)
            }
        }
    }
}

impl<W: Write> Write for Tallied<W> {
    ghost use Rattle.money.specs.Counted.{stream_of, failure_count, counted_once_more};

    ghost contents = { λ t. W.contents t.stream };

    fn write(&mut self, buf: &[u8]) -> io::Result<usize>
        ensures bound { WritesAtMost result buf.now }
        ensures bytes { WriteAppends (W.contents (stream_of self.old)) (W.contents (stream_of self.new)) result buf.now }
        ensures ok { IfOk result (λ n. (0 < n) ⊎ (length buf.now ≡ 0) → failure_count self.new ≡ failure_count self.old) }
        ensures none_taken { IfOk result (λ n. n ≡ 0 → 0 < length buf.now → failure_count self.new ≡ counted_once_more (failure_count self.old)) }
        ensures err { OnErr result (failure_count self.new ≡ counted_once_more (failure_count self.old)) }
        ensures counts { failure_count self.old ≤ failure_count self.new }
    {
        match self.stream.write(buf) {
            Ok(n) => {
                if n == 0 && !buf.is_empty() {
                    self.count_failure();
                }
                Ok(n)
            }
            Err(e) => {
                self.count_failure();
                Err(e)
            }
        }
    }

    fn flush(&mut self) -> io::Result<()>
        ensures bytes { Keeps (W.contents (stream_of self.old)) (W.contents (stream_of self.new)) }
        ensures ok { OnOk result (failure_count self.new ≡ failure_count self.old) }
        ensures err { OnErr result (failure_count self.new ≡ counted_once_more (failure_count self.old)) }
        ensures counts { failure_count self.old ≤ failure_count self.new }
    {
        match self.stream.flush() {
            Ok(()) => Ok(()),
            Err(e) => {
                self.count_failure();
                Err(e)
            }
        }
    }
}
