//! A socket that is found to listen before it is used, with no connection lost by that.

use counter_door::Accepts;
use mio::event::Source;
use mio::{Interest, Registry, Token};
use std::io;
use std::io::ErrorKind;

/// A socket that was found to listen by accepting the first connection that waited there, if one did.
#[derive(Drop)]
pub struct Probed<A: Accepts + Drop> {
    accepts: A,
    first: Option<A::Stream>,
}

impl<A: Accepts + Drop> Probed<A> {
    /// One that is known to listen.
    pub(crate) fn unprobed(accepts: A) -> Probed<A> {
        Probed {
            accepts,
            first: None,
        }
    }

    /// The same, or none where it is no listening socket.
    pub(crate) fn new(mut accepts: A) -> Option<Probed<A>> {
        match accepts.accept_next() {
            Ok(stream) => Some(Probed {
                accepts,
                first: Some(stream),
            }),
            Err(e) => {
                if e.kind() == ErrorKind::WouldBlock {
                    Some(Probed {
                        accepts,
                        first: None,
                    })
                } else {
                    None
                }
            }
        }
    }
}

impl<A: Accepts + Drop> Accepts for Probed<A> {
    type Stream = A::Stream;

    /// The connection that waited first, and then those that come.
    fn accept_next(&mut self) -> io::Result<A::Stream> {
        match self.first.take() {
            Some(stream) => Ok(stream),
            None => self.accepts.accept_next(),
        }
    }
}

impl<A: Accepts + Source + Drop> Source for Probed<A> {
    fn register(
        &mut self,
        registry: &Registry,
        token: Token,
        interests: Interest,
    ) -> io::Result<()> {
        registry.register(&mut self.accepts, token, interests)
    }

    fn reregister(
        &mut self,
        registry: &Registry,
        token: Token,
        interests: Interest,
    ) -> io::Result<()> {
        registry.reregister(&mut self.accepts, token, interests)
    }

    fn deregister(&mut self, registry: &Registry) -> io::Result<()> {
        registry.deregister(&mut self.accepts)
    }
}
