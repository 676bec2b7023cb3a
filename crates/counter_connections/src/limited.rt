//! Streams whose reads and writes fail once their time is over.

ghost use Rattle.std.specs.Prelude.{◌≡◌, OnOk, OnErr, option_map};
ghost use Rattle.std.specs.Io.{ReadsAtMost, WritesAtMost};
ghost use Rattle.std.specs.Io.KnownBytes.{Keeps, ReadConsumes, WriteAppends};
ghost use Rattle.std.specs.Time.{instant_nanos};
ghost use Rattle.counter_connections.specs.Limited.{PassesInTime};

use crate::running::Runs;
use counter_limits::{end_after, has_time};
use std::io;
use std::io::{ErrorKind, Read, Write};
use std::time::Instant;

/// A stream that may be used up to an instant of the machine's running clock. From then on, and if that clock can't be
/// read, its calls fail and leave the stream alone.
#[derive(Drop)]
pub(crate) struct Limited<'a, T, M: Runs> {
    stream: T,
    machine: &'a M,
    end: Option<Instant>,
}

impl<'a, T, M: Runs> Limited<'a, T, M> {
    /// The stream, which may be used for n seconds from now on.
    pub(crate) fn new(stream: T, machine: &'a M, seconds: u64) -> Limited<'a, T, M>
        ensures { result.stream ≡ stream }
    {
        let now = machine.shown();
        Limited {
            stream,
            machine,
            end: now.map(|now| end_after(now, seconds)),
        }
    }

    /// Passes if there is time left, by what the clock shows.
    fn require_time(&self) -> io::Result<()>
        ensures { PassesInTime M.may_show self.now.machine.now (option_map instant_nanos self.now.end) result }
    {
        if has_time(self.end, self.machine.shown()) {
            Ok(())
        } else {
            Err(io::Error::from(ErrorKind::TimedOut))
        }
    }
}

impl<'a, T: Read, M: Runs> Read for Limited<'a, T, M> {
    ghost remaining = { λ l. T.remaining l.stream };

    fn read(&mut self, buf: &mut [u8]) -> io::Result<usize> {
        self.require_time()?;
        self.stream.read(buf)
    }
}

impl<'a, T: Write, M: Runs> Write for Limited<'a, T, M> {
    ghost contents = { λ l. T.contents l.stream };

    fn write(&mut self, buf: &[u8]) -> io::Result<usize> {
        self.require_time()?;
        self.stream.write(buf)
    }

    fn flush(&mut self) -> io::Result<()> {
        self.stream.flush()
    }
}
