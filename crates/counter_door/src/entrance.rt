//! The door at a listening socket.

ghost use Rattle.std.specs.Prelude.{◌≡◌, length};

use crate::door::Door;
use crate::log::Log;
use crate::recorded::Recorded;
use crate::sockets::Accepts;
use mio::event::Source;
use mio::{Interest, Registry, Token};
use std::io;

/// The door at what accepts streams. Each is counted, and recorded from when it was accepted.
#[derive(Drop)]
pub struct Entrance<A: Accepts + Drop> {
    accepts: A,
    given: Log<()>,
}

impl<A: Accepts + Drop> Entrance<A> {
    /// The door at this.
    pub fn new(accepts: A) -> Entrance<A>
        ensures { length result.given.items ≡ 0 }
    {
        Entrance {
            accepts,
            given: Log::new(),
        }
    }
}

impl<A: Accepts + Drop> Door for Entrance<A> {
    type Stream = Recorded<A::Stream>;

    ghost given = { λ e. length e.given.items };

    fn next(&mut self) -> io::Result<Recorded<A::Stream>> {
        let stream = self.accepts.accept_next()?;
        self.given = self.given.and(&());
        Ok(Recorded::new(stream))
    }
}

impl<A: Accepts + Source + Drop> Source for Entrance<A> {
    fn register(
        &mut self,
        registry: &Registry,
        token: Token,
        interests: Interest,
    ) -> io::Result<()> {
        registry.register(&mut self.accepts, token, interests)
    }

    fn reregister(
        &mut self,
        registry: &Registry,
        token: Token,
        interests: Interest,
    ) -> io::Result<()> {
        registry.reregister(&mut self.accepts, token, interests)
    }

    fn deregister(&mut self, registry: &Registry) -> io::Result<()> {
        registry.deregister(&mut self.accepts)
    }
}
