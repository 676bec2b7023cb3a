//! Connections in memory, what accepts them, and a system that reports what it is given, round by round.
use counter_door::{Accepts, Readiness, Ready, Socket};
use mio::event::Source;
use mio::{Interest, Poll, Registry, Token};
use std::io;
use std::io::{ErrorKind, Read, Write};
use std::time::{Duration, Instant};

/// A connection: what is at hand of it, read by read, where `None` is nothing at hand; after the last of them its client has
/// ended. Its client gets what is written.
#[derive(Drop)]
pub(crate) struct Line<'a> {
    pub(crate) reads: &'a [Option<&'a str>],
    pub(crate) next: usize,
    pub(crate) got: &'a mut Vec<u8>,
}

impl<'a> Read for Line<'a> {
    fn read(&mut self, buf: &mut [u8]) -> io::Result<usize> {
        let read = match self.reads.get(self.next) {
            Some(read) => *read,
            None => return Ok(0),
        };
        self.next += 1;
        let Some(text) = read else {
            return Err(ErrorKind::WouldBlock.into());
        };
        let bytes = text.as_bytes();
        let n = bytes.len().min(buf.len());
        buf[..n].copy_from_slice(&bytes[..n]);
        Ok(n)
    }
}

impl<'a> Write for Line<'a> {
    fn write(&mut self, buf: &[u8]) -> io::Result<usize> {
        self.got.extend_from_slice(buf)?;
        Ok(buf.len())
    }

    fn flush(&mut self) -> io::Result<()> {
        Ok(())
    }
}

impl<'a> Source for Line<'a> {
    fn register(
        &mut self,
        _registry: &Registry,
        _token: Token,
        _interests: Interest,
    ) -> io::Result<()> {
        Ok(())
    }

    fn reregister(
        &mut self,
        _registry: &Registry,
        _token: Token,
        _interests: Interest,
    ) -> io::Result<()> {
        Ok(())
    }

    fn deregister(&mut self, _registry: &Registry) -> io::Result<()> {
        Ok(())
    }
}

impl<'a> Socket for Line<'a> {
    ghost use Rattle.std.specs.Prelude.{refl};

    ghost stays = { λ a b is. (refl, refl) };

    fn end_writing(&self) {}

    fn end_reading(&self) {}
}

/// Two connections that wait.
#[derive(Drop)]
pub(crate) struct Two<'a> {
    pub(crate) first: Option<Line<'a>>,
    pub(crate) second: Option<Line<'a>>,
}

impl<'a> Accepts for Two<'a> {
    type Stream = Line<'a>;

    fn accept_next(&mut self) -> io::Result<Line<'a>> {
        if let Some(line) = self.first.take() {
            return Ok(line);
        }
        match self.second.take() {
            Some(line) => Ok(line),
            None => Err(ErrorKind::WouldBlock.into()),
        }
    }
}

/// What is reported, round by round.
#[derive(Drop)]
pub(crate) struct Script<'a> {
    pub(crate) rt: &'a HostRuntime,
    pub(crate) poll: Poll,
    pub(crate) rounds: &'a [&'a [Ready]],
    pub(crate) next: usize,
}

impl<'a> Readiness for Script<'a> {
    fn registry(&self) -> &Registry {
        self.poll.registry()
    }

    fn now(&self) -> io::Result<Instant> {
        Instant::now(self.rt)
    }

    fn wait(&mut self, _most: Duration, ready: &mut Vec<Ready>) -> io::Result<()> {
        ready.clear();
        let Some(round) = self.rounds.get(self.next) else {
            return Err(ErrorKind::TimedOut.into());
        };
        self.next += 1;
        ready.extend_from_slice(round)?;
        Ok(())
    }
}
