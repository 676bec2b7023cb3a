//! A reader in memory that comes in pieces and is broken at one of its calls.

use money::Tallied;
use std::io;
use std::io::{ErrorKind, Read};

/// Gives one piece and then the other, at most `size` bytes a call, and fails at one of its calls.
#[derive(Drop)]
pub struct Pieces<'a> {
    piece: &'a [u8],
    next: &'a [u8],
    size: usize,
    /// How often it was read.
    pub calls: usize,
    fails_at: usize,
}

/// A reader that gives these pieces, at most `size` bytes a call, and fails at call `fails_at`.
pub fn pieces<'a>(
    (piece, next): (&'a [u8], &'a [u8]),
    size: usize,
    fails_at: usize,
) -> Tallied<Pieces<'a>> {
    Tallied::new(Pieces {
        piece,
        next,
        size,
        calls: 0,
        fails_at,
    })
}

impl Read for Pieces<'_> {
    fn read(&mut self, buf: &mut [u8]) -> io::Result<usize> {
        self.calls = self.calls.saturating_add(1);
        if self.calls == self.fails_at {
            return Err(ErrorKind::Interrupted.into());
        }
        if self.piece.is_empty() {
            self.piece = self.next;
            self.next = b"";
        }
        let len = self.size.min(buf.len());
        let mut rest = self.piece;
        let n = rest.read(&mut buf[..len])?;
        self.piece = rest;
        Ok(n.min(buf.len()))
    }
}
