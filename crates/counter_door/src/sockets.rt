//! The sockets of the system, over TCP and Unix: how one way of a stream is ended, and how the next is accepted.

ghost use Rattle.std.specs.Prelude.{◌≡◌, refl};

use mio::event::Source;
use mio::net::{TcpListener, TcpStream, UnixListener, UnixStream};
use std::io;
use std::io::{Read, Write};
use std::net::Shutdown;

/// A stream of the system, of which one way can be ended. None of its calls waits.
pub trait Socket: Read + Write + Source {
    /// Says that nothing more is written. What the system does not take of that is passed over.
    fn end_writing(&self);

    /// Says that nothing more is read beyond what has come. What the system does not take of that is passed over.
    fn end_reading(&self);

    /// To register it leaves what it has still to give and what it holds.
    ghost stays: { (a b : Self) → Self.Source.keeps a b → (Self.Read.remaining b ≡ Self.Read.remaining a) × (Self.Write.contents b ≡ Self.Write.contents a) };
}

impl Socket for TcpStream {
    ghost stays = { λ a b is. (refl, refl) };

    fn end_writing(&self) {
        let _ = self.shutdown(Shutdown::Write);
    }

    fn end_reading(&self) {
        let _ = self.shutdown(Shutdown::Read);
    }
}

impl Socket for UnixStream {
    ghost stays = { λ a b is. (refl, refl) };

    fn end_writing(&self) {
        let _ = self.shutdown(Shutdown::Write);
    }

    fn end_reading(&self) {
        let _ = self.shutdown(Shutdown::Read);
    }
}

/// Accepts the streams of the system.
pub trait Accepts {
    /// A stream.
    type Stream: Socket + Drop;

    /// The next stream, or an error if none waits.
    fn accept_next(&mut self) -> io::Result<Self::Stream>;
}

impl Accepts for TcpListener {
    type Stream = TcpStream;

    fn accept_next(&mut self) -> io::Result<TcpStream> {
        let (stream, _) = self.accept()?;
        let _ = stream.set_nodelay(true);
        Ok(stream)
    }
}

impl Accepts for UnixListener {
    type Stream = UnixStream;

    fn accept_next(&mut self) -> io::Result<UnixStream> {
        let (stream, _) = self.accept()?;
        Ok(stream)
    }
}
