//! The bank in an open file served over a port, and closed after that.

ghost use Rattle.std.specs.Prelude.{◌≡◌, false};
ghost use Rattle.exit_lines.specs.Streams.{stream_at};
ghost use Rattle.cli_serve.specs.Listening.{IsListenedIn, end_of_port};

use crate::faults::fault_of_port;
use cli_file::{ActionFault, FileConnection, FileLeft, Progress, close, find};
use counter_api::{Asking, Clock, Gate};
use counter_connections::{CountedPort, Failures, PortFault, serve_port_with_cache};
use money::Tallied;
use sqlite_disk::Disk;
use std::io::Write;

/// How an action ends over a port and a file: a fault of the port is reported before one of closing.
fn ended(
    served: Result<(), PortFault>,
    closing: Option<ActionFault<'static>>,
) -> Result<(), ActionFault<'static>>
    ensures { result ≡ end_of_port served closing.entry }
{
    match (served, closing) {
        (Err(fault), _) => Err(fault_of_port(fault)),
        (Ok(()), Some(fault)) => Err(fault),
        (Ok(()), None) => Ok(()),
    }
}

/// Serves a port of 127.0.0.1 over the bank that stands in an open file, to the users of a gate, until its messages are
/// counted: the bank is found, the port is bound and printed, connections are served with a cache of its policy in
/// front, and the bank is closed. What is left of the file is handed back, the clock, and what failed at the port, if it was
/// served.
pub fn listen_in<D: Disk + Drop, G: Gate + Copy, C: Clock, W: Write, P: Write + Drop>(
    rt: &HostRuntime,
    conn: FileConnection<D>,
    asking: Asking<G, C>,
    at: CountedPort,
    output: &mut Tallied<W>,
    progress: &mut Progress<P>,
) -> (
    FileLeft<D>,
    C,
    Option<Failures>,
    Result<(), ActionFault<'static>>,
)
    requires { conn.in_transaction ≡ false }
    ensures { IsListenedIn D.Disk (G.users asking.gate) C.may_give conn at.port at.requests
        (stream_at W.contents output.old) (stream_at W.contents output.new)
        asking.moments result.1 result.2 result.0 result.3 }
{
    let alloc = rt.alloc();
    progress.begin("reading the bank and checking its books ..\n");
    let store = match find(alloc, conn) {
        Ok(store) => store,
        Err((fault, conn)) => return (FileLeft::Open(conn), asking.moments, None, Err(fault)),
    };
    let (store, clock, failures, served) = serve_port_with_cache(
        rt, alloc, at, store, asking, output,
    );
    progress.begin("writing the log into the file ..\n");
    match close(store) {
        Ok(files) => (
            FileLeft::Closed(files),
            clock,
            failures,
            ended(served, None),
        ),
        Err((fault, left)) => (
            FileLeft::Unclosed(left),
            clock,
            failures,
            ended(served, Some(fault)),
        ),
    }
}
