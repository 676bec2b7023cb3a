//! Writers that break after n bytes.

use crate::runtime::Runtime;
use money::Tallied;
use std::io;
use std::io::{ErrorKind, Write};

/// What a writer does that has no room left.
#[derive(Clone, Copy, Debug, PartialEq, Eq)]
pub enum Broken {
    /// It fails.
    Fails,
    /// It takes none of the bytes.
    TakesNone,
}

/// Takes `room` bytes, and is broken after them.
#[derive(Drop)]
pub struct Sink {
    /// What it took.
    pub bytes: Vec<u8>,
    room: usize,
    broken: Broken,
}

/// A writer that has room for `room` bytes.
pub fn sink(rt: &impl Runtime, room: usize, broken: Broken) -> Tallied<Sink> {
    Tallied::new(Sink {
        bytes: Vec::new(rt.alloc()),
        room,
        broken,
    })
}

/// A writer that is not broken.
pub fn whole_sink(rt: &impl Runtime) -> Tallied<Sink> {
    sink(rt, usize::MAX, Broken::Fails)
}

impl Write for Sink {
    fn write(&mut self, buf: &[u8]) -> io::Result<usize> {
        let len = buf.len().min(self.room);
        if len == 0 && self.broken == Broken::Fails {
            return Err(ErrorKind::BrokenPipe.into());
        }
        self.bytes.extend_from_slice(&buf[..len])?;
        self.room = self.room.saturating_sub(len);
        Ok(len)
    }

    fn flush(&mut self) -> io::Result<()> {
        Ok(())
    }
}
