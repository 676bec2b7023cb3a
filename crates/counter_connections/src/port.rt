//! Serving a port of 127.0.0.1 over a store, as it is or with a cache in front of it.

ghost use Rattle.exit_lines.specs.Streams.{stream_at};
ghost use Rattle.counter_connections.specs.Port.{IsPortServed, IsPortServedWithCache};

use crate::connections::serve_connections;
use crate::fault::PortFault;
use crate::listener::{CountedListener, Failures};
use counter_api::{Asking, Clock, Counter, Gate};
use counter_places::{Place, say_listening};
use money::Tallied;
use std::alloc::Global;
use std::io::Write;
use std::net::{Ipv4Addr, Net, TcpListener, TcpStream};
use std::time;
use store_cached::Cached;
use store_rows::Store;

/// A port of 127.0.0.1, and how many messages are counted at it.
#[derive(Clone, Copy, Debug, PartialEq, Eq)]
pub struct CountedPort {
    /// Its number.
    pub port: u16,
    /// How many messages are counted.
    pub requests: u32,
}

/// Serves connections at a port, after a line on `output` has said that it is bound, until its messages are counted. What its listener
/// counted is handed back, if connections were served there.
pub fn serve_port<
    N: Net<Listener = TcpListener, Stream = TcpStream> + time::Clock,
    S: Store,
    G: Gate,
    C: Clock,
    W: Write,
>(
    net: &N,
    at: CountedPort,
    counter: &mut Counter<S, G, C>,
    output: &mut Tallied<W>,
) -> (Option<Failures>, Result<(), PortFault>)
    ensures { IsPortServed S.status (G.users counter.old.clerk.gate) C.may_give at.port at.requests
        (stream_at W.contents output.old) (stream_at W.contents output.new)
        (record { store = counter.old.bank.store; clock = counter.old.clock })
        (record { store = counter.new.bank.store; clock = counter.new.clock }) result.0 result.1 }
{
    let Ok(listener) = TcpListener::bind(net, (Ipv4Addr::LOCALHOST, at.port)) else {
        return (None, Err(PortFault::Broken));
    };
    let Ok(()) = say_listening(output, Place::Port(at.port)) else {
        return (None, Err(PortFault::Broken));
    };
    let mut listener = CountedListener::new(listener);
    match serve_connections(net, &mut listener, counter, at.requests) {
        Ok(()) => (Some(listener.failures()), Ok(())),
        Err(_) => (Some(listener.failures()), Err(PortFault::Broken)),
    }
}

/// Serves a port as `serve_port` does, with a cache of the rows of its policy before the store, and returns the store
/// without it, the clock, and what the listener counted. If memory was refused for the cache or for the counter, they are as
/// they were, and nothing is done.
pub fn serve_port_with_cache<
    N: Net<Listener = TcpListener, Stream = TcpStream> + time::Clock,
    S: Store,
    G: Gate + Copy,
    C: Clock,
    W: Write,
>(
    net: &N,
    alloc: Global,
    at: CountedPort,
    store: S,
    asking: Asking<G, C>,
    output: &mut Tallied<W>,
) -> (S, C, Option<Failures>, Result<(), PortFault>)
    ensures { IsPortServedWithCache S.status (G.users asking.gate) C.may_give at.port at.requests
        (stream_at W.contents output.old) (stream_at W.contents output.new)
        (record { store = store; clock = asking.moments })
        (record { store = result.0; clock = result.1 }) result.2 result.3 }
{
    let cached = match Cached::new(alloc, store) {
        Ok(cached) => cached,
        Err(store) => return (store, asking.moments, None, Err(PortFault::Memory)),
    };
    let mut counter = match Counter::new(alloc, cached, asking) {
        Ok(counter) => counter,
        Err((cached, clock)) => {
            return (cached.into_below(), clock, None, Err(PortFault::Memory));
        }
    };
    let (failed, served) = serve_port(net, at, &mut counter, output);
    let (cached, clock) = counter.into_parts();
    (cached.into_below(), clock, failed, served)
}
