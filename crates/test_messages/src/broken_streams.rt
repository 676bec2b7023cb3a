//! A writer in memory that fails at one of its calls.

use money::Tallied;
use std::alloc::Global;
use std::io;
use std::io::{ErrorKind, Write};

/// Takes all bytes of a call, but at one call, which fails. Its flushes are calls too.
#[derive(Drop)]
pub struct Sink {
    /// What it took.
    pub bytes: Vec<u8>,
    /// How often it was flushed.
    pub flushed: usize,
    /// How often it was called.
    pub calls: usize,
    fails_at: usize,
}

/// A writer that fails at this call.
pub fn sink(alloc: Global, fails_at: usize) -> Tallied<Sink> {
    Tallied::new(Sink {
        bytes: Vec::new(alloc),
        flushed: 0,
        calls: 0,
        fails_at,
    })
}

impl Write for Sink {
    fn write(&mut self, buf: &[u8]) -> io::Result<usize> {
        self.calls = self.calls.saturating_add(1);
        if self.calls == self.fails_at {
            return Err(ErrorKind::BrokenPipe.into());
        }
        self.bytes.extend_from_slice(buf)?;
        Ok(buf.len())
    }

    fn flush(&mut self) -> io::Result<()> {
        self.calls = self.calls.saturating_add(1);
        if self.calls == self.fails_at {
            return Err(ErrorKind::BrokenPipe.into());
        }
        self.flushed = self.flushed.saturating_add(1);
        Ok(())
    }
}
