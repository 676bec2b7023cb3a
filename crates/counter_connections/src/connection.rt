//! Serving one connection, within the seconds that its client may use it.

ghost use Rattle.std.specs.Prelude.{◌≡◌, ◌≤◌, None, IfOk};
ghost use Rattle.counter_connections.specs.Connections.{IsConnection};
ghost use Rattle.counter_connections.specs.Failed.{CountsEnd};

use crate::calls::CallFailures;
use crate::limited::Limited;
use crate::lingering::linger;
use counter_api::{Clock, Counter, Gate, ServeFault, Served};
use counter_limits::{MAX_READING, MAX_WAIT, MAX_WRITING};
use http_connection::serve;
use money::Tallied;
use std::io::{Read, Write};
use std::net::TcpStream;
use std::time;
use std::time::Duration;
use store_rows::Store;

/// Serves a connection, with n replies at most, and returns how that ended. No wait for its client, no reading and no
/// writing lasts longer than counter_limits has it.
pub(crate) fn serve_connection<M: time::Clock, S: Store, G: Gate, C: Clock>(
    machine: &M,
    stream: &TcpStream,
    counter: &mut Counter<S, G, C>,
    most: u32,
    calls: &mut CallFailures,
) -> Result<Served, ServeFault>
    ensures connection { IsConnection S.status (G.users counter.old.clerk.gate) C.may_give most
        (record { store = counter.old.bank.store; clock = counter.old.clock }) None None
        (record { store = counter.new.bank.store; clock = counter.new.clock }) result }
    ensures same_users { G.users counter.new.clerk.gate ≡ G.users counter.old.clerk.gate }
    ensures most { IfOk result (λ served. served.messages ≤ most) }
    ensures calls { CountsEnd calls.old calls.new result }
{
    set_waits(stream);
    let served = serve_client(machine, stream, counter, most, calls);
    if served.is_ok() {
        linger(machine, stream);
    }
    served
}

/// Serves a client by one value, from which its messages are read and to which the replies are written, so that none of
/// them can go to another.
fn serve_client<K: Read + Write + Copy, M: time::Clock, S: Store, G: Gate, C: Clock>(
    machine: &M,
    client: K,
    counter: &mut Counter<S, G, C>,
    most: u32,
    calls: &mut CallFailures,
) -> Result<Served, ServeFault>
    ensures connection { IsConnection S.status (G.users counter.old.clerk.gate) C.may_give most
        (record { store = counter.old.bank.store; clock = counter.old.clock }) (K.remaining client) (K.contents client)
        (record { store = counter.new.bank.store; clock = counter.new.clock }) result }
    ensures same_users { G.users counter.new.clerk.gate ≡ G.users counter.old.clerk.gate }
    ensures most { IfOk result (λ served. served.messages ≤ most) }
    ensures calls { CountsEnd calls.old calls.new result }
{
    let from = Limited::new(client, machine, MAX_READING);
    let to = Limited::new(client, machine, MAX_WRITING);
    let mut reader = Tallied::new(from);
    let mut writer = Tallied::new(to);
    let served = serve(counter.clerk.alloc, counter, &mut reader, &mut writer, most);
    *calls = calls.and_of(&reader, &writer);
    served
}

/// Bounds how long a read or a write of a connection may wait, and has what is written go out at once. What the system does not
/// take of that is passed over.
fn set_waits(stream: &TcpStream) {
    let wait = Some(Duration::from_secs(MAX_WAIT));
    let _ = stream.set_read_timeout(wait);
    let _ = stream.set_write_timeout(wait);
    let _ = stream.set_nodelay(true);
}
