//! The serving of one stream.

ghost use Rattle.std.specs.Prelude.{◌≡◌, ◌≤◌, IfOk, Err};
ghost use Rattle.money.specs.Counted.{stream_of};
ghost use Rattle.http_messages.specs.Failures.{CountsByExit};
ghost use Rattle.counter_api.specs.Exit.{IsServed};

use crate::counter::Counter;
use counter_clocks::Clock;
use http_messages::{ServeFault, Served, serve_messages};
use money::Tallied;
use requests::Gate;
use std::io::{Read, Write};
use store_rows::Store;

/// Has a counter answer the messages of a stream, one after another: until the input ends between
/// two of them, after a reply that ends the connection, or after `most` replies. Each message bears
/// the moment that the counter's clock gives for it.
///
/// A message is acted on once its whole body was read. It works in a bounded room, which is
/// allocated first: where that is refused, nothing is read. A call of the reader or of the writer
/// that failed ends it, and is reported: an `Ok` says that none did.
pub fn serve<R: Read, W: Write, S: Store, G: Gate, C: Clock>(
    counter: &mut Counter<S, G, C>,
    reader: &mut Tallied<R>,
    writer: &mut Tallied<W>,
    most: u32,
) -> Result<Served, ServeFault>
    ensures exit { IsServed S.status (G.users counter.old.clerk.gate) C.may_give most
        (record { left = R.remaining (stream_of reader.old); written = W.contents (stream_of writer.old); store = counter.old.bank.store; clock = counter.old.clock })
        (record { left = R.remaining (stream_of reader.new); written = W.contents (stream_of writer.new); store = counter.new.bank.store; clock = counter.new.clock })
        result }
    ensures same_users { G.users counter.new.clerk.gate ≡ G.users counter.old.clerk.gate }
    ensures memory { result ≡ Err ServeFault.Memory → (reader.new ≡ reader.old) × (writer.new ≡ writer.old) }
    ensures most { IfOk result (λ served. served.messages ≤ most) }
    ensures failures { CountsByExit reader.old reader.new writer.old writer.new result }
{
    serve_messages(counter.clerk.alloc, counter, reader, writer, most)
}
