//! Serving connections one after another, until enough messages are counted.

ghost use Rattle.std.specs.Prelude.{◌≡◌};
ghost use Rattle.counter_connections.specs.Connections.{AreAllServed, counted_by};
ghost use Rattle.counter_connections.specs.Failed.{failed_at};

use crate::connection::serve_connection;
use crate::listener::CountedListener;
use counter_api::{Clock, Counter, Gate, ServeFault, Served};
use std::{io, time};
use store_rows::Store;

/// Serves connections, one after another, until `requests` messages are counted: of each connection those that were answered
/// on it, at least one, and one if a fault of serving ended it, which ends no other. The error is that a connection could not
/// be accepted. The listener counts that, and each read and write of a connection that failed. How long a connection lasts goes by
/// the machine's running clock, and the moments of messages by the counter's.
pub fn serve_connections<M: time::Clock, S: Store, G: Gate, C: Clock>(
    machine: &M,
    listener: &mut CountedListener,
    counter: &mut Counter<S, G, C>,
    requests: u32,
) -> io::Result<()>
    ensures { AreAllServed S.status (G.users counter.old.clerk.gate) C.may_give requests
        (record { store = counter.old.bank.store; clock = counter.old.clock })
        (record { store = counter.new.bank.store; clock = counter.new.clock })
        (failed_at listener.old) (failed_at listener.new) result }
{
    let mut wanted = requests;
    while wanted > 0 {
        let stream = listener.accept()?;
        let exit = serve_connection(machine, &stream, counter, wanted, &mut listener.calls);
        wanted -= counted(&exit);
    }
    Ok(())
}

/// How many messages are counted of a connection that ended so.
fn counted(exit: &Result<Served, ServeFault>) -> u32
    ensures { result ≡ counted_by exit.now }
{
    match exit {
        Ok(served) => served.messages.max(1),
        Err(_) => 1,
    }
}
