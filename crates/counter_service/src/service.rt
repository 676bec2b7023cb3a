//! Serving one stream over a store, as it is or with a cache in front of it.

ghost use Rattle.std.specs.Prelude.{◌≡◌, ◌≤◌, IfOk, Err};
ghost use Rattle.counter_service.specs.Serving.{IsServedWithCache, IsServedOver, most_messages};
ghost use Rattle.exit_lines.specs.Streams.{streams_at};

use counter_api::{Asking, Counter, Gate, ServeFault, Served, serve};
use counter_clocks::{Fixed, Moment};
use money::Tallied;
use std::alloc::Global;
use std::io::{Read, Write};
use store_cached::Cached;
use store_rows::Store;

/// The most messages that are answered on one stream.
const MOST_MESSAGES: u32 = 1_000_000;

/// Serves a stream over a store to the users of a gate, with one moment for every message, and hands back the store as
/// that left it. At most 1,000,000 messages are answered. Where memory was refused at the start, nothing is read, done or
/// written.
pub fn serve_stream<S: Store, G: Gate + Copy, R: Read, W: Write>(
    alloc: Global,
    store: S,
    asking: Asking<G, Moment>,
    input: &mut Tallied<R>,
    output: &mut Tallied<W>,
) -> (S, Result<Served, ServeFault>)
    ensures served { IsServedOver S.status (G.users asking.gate) store asking.moments
        (streams_at R.remaining W.contents input.old output.old)
        (streams_at R.remaining W.contents input.new output.new) result.0 result.1 }
    ensures memory { result.1 ≡ Err ServeFault.Memory → (result.0 ≡ store) × (input.new ≡ input.old) × (output.new ≡ output.old) }
    ensures most { IfOk result.1 (λ served. served.messages ≤ most_messages) }
{
    let clock = Fixed {
        moment: asking.moments,
    };
    let asking = Asking {
        gate: asking.gate,
        moments: clock,
    };
    let mut counter = match Counter::new(alloc, store, asking) {
        Ok(counter) => counter,
        Err((store, _)) => return (store, Err(ServeFault::Memory)),
    };
    let served = serve(&mut counter, input, output, MOST_MESSAGES);
    let (store, _) = counter.into_parts();
    (store, served)
}

/// Serves a stream as `serve_stream` does, with a cache of the rows of its policy before the store, and hands back the
/// store without it. Where memory was refused for the cache, that is the store as it was, and nothing is read, done or
/// written.
pub fn serve_with_cache<S: Store, G: Gate + Copy, R: Read, W: Write>(
    alloc: Global,
    store: S,
    asking: Asking<G, Moment>,
    input: &mut Tallied<R>,
    output: &mut Tallied<W>,
) -> (S, Result<Served, ServeFault>)
    ensures served { IsServedWithCache S.status (G.users asking.gate) store asking.moments
        (streams_at R.remaining W.contents input.old output.old)
        (streams_at R.remaining W.contents input.new output.new) result.0 result.1 }
    ensures memory { result.1 ≡ Err ServeFault.Memory → (result.0 ≡ store) × (input.new ≡ input.old) × (output.new ≡ output.old) }
    ensures most { IfOk result.1 (λ served. served.messages ≤ most_messages) }
{
    match Cached::new(alloc, store) {
        Ok(cached) => {
            let (left, served) = serve_stream(alloc, cached, asking, input, output);
            (left.into_below(), served)
        }
        Err(store) => (store, Err(ServeFault::Memory)),
    }
}
