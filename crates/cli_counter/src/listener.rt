//! The listening sockets of the machine, of either kind as one type, and the streams that they accept.

ghost use Rattle.std.specs.Prelude.{◌≡◌, refl};

use counter_door::{Accepts, Socket};
use mio::event::Source;
use mio::net::{TcpListener, TcpStream, UnixListener, UnixStream};
use mio::{Interest, Registry, Token};
use std::io;
use std::io::{Read, Write};

/// A socket at which connections are accepted.
#[derive(Drop)]
pub enum Listener {
    /// One of TCP.
    Tcp(TcpListener),
    /// A Unix socket.
    Unix(UnixListener),
}

impl Accepts for Listener {
    type Stream = Accepted;

    fn accept_next(&mut self) -> io::Result<Accepted> {
        match self {
            Listener::Tcp(listener) => Ok(Accepted::Tcp(listener.accept_next()?)),
            Listener::Unix(listener) => Ok(Accepted::Unix(listener.accept_next()?)),
        }
    }
}

impl Source for Listener {
    fn register(
        &mut self,
        registry: &Registry,
        token: Token,
        interests: Interest,
    ) -> io::Result<()> {
        match self {
            Listener::Tcp(listener) => registry.register(listener, token, interests),
            Listener::Unix(listener) => registry.register(listener, token, interests),
        }
    }

    fn reregister(
        &mut self,
        registry: &Registry,
        token: Token,
        interests: Interest,
    ) -> io::Result<()> {
        match self {
            Listener::Tcp(listener) => registry.reregister(listener, token, interests),
            Listener::Unix(listener) => registry.reregister(listener, token, interests),
        }
    }

    fn deregister(&mut self, registry: &Registry) -> io::Result<()> {
        match self {
            Listener::Tcp(listener) => registry.deregister(listener),
            Listener::Unix(listener) => registry.deregister(listener),
        }
    }
}

/// A stream that was accepted.
#[derive(Drop)]
pub enum Accepted {
    /// One of TCP.
    Tcp(TcpStream),
    /// One of a Unix socket.
    Unix(UnixStream),
}

impl Read for Accepted {
    fn read(&mut self, buf: &mut [u8]) -> io::Result<usize> {
        match self {
            Accepted::Tcp(stream) => stream.read(buf),
            Accepted::Unix(stream) => stream.read(buf),
        }
    }
}

impl Write for Accepted {
    fn write(&mut self, buf: &[u8]) -> io::Result<usize> {
        match self {
            Accepted::Tcp(stream) => stream.write(buf),
            Accepted::Unix(stream) => stream.write(buf),
        }
    }

    fn flush(&mut self) -> io::Result<()> {
        match self {
            Accepted::Tcp(stream) => stream.flush(),
            Accepted::Unix(stream) => stream.flush(),
        }
    }
}

impl Source for Accepted {
    fn register(
        &mut self,
        registry: &Registry,
        token: Token,
        interests: Interest,
    ) -> io::Result<()> {
        match self {
            Accepted::Tcp(stream) => registry.register(stream, token, interests),
            Accepted::Unix(stream) => registry.register(stream, token, interests),
        }
    }

    fn reregister(
        &mut self,
        registry: &Registry,
        token: Token,
        interests: Interest,
    ) -> io::Result<()> {
        match self {
            Accepted::Tcp(stream) => registry.reregister(stream, token, interests),
            Accepted::Unix(stream) => registry.reregister(stream, token, interests),
        }
    }

    fn deregister(&mut self, registry: &Registry) -> io::Result<()> {
        match self {
            Accepted::Tcp(stream) => registry.deregister(stream),
            Accepted::Unix(stream) => registry.deregister(stream),
        }
    }
}

impl Socket for Accepted {
    ghost stays = { λ a b is. (refl, refl) };

    fn end_writing(&self) {
        match self {
            Accepted::Tcp(stream) => stream.end_writing(),
            Accepted::Unix(stream) => stream.end_writing(),
        }
    }

    fn end_reading(&self) {
        match self {
            Accepted::Tcp(stream) => stream.end_reading(),
            Accepted::Unix(stream) => stream.end_reading(),
        }
    }
}
