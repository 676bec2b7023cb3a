//! The sample bank served over a stream, with or without a cache in front.

ghost use Rattle.std.specs.Prelude.{◌≡◌, ◌≤◌, IfOk, Err};
ghost use Rattle.counter_service.specs.Serving.{most_messages};
ghost use Rattle.sample_service.specs.Serving.{IsOpening, IsSampleServed, IsSampleServedWithCache};
ghost use Rattle.exit_lines.specs.Streams.{streams_at};

use crate::badges::SampleBadges;
use counter_service::{Asking, Moment, ServeFault, Served, serve_stream, serve_with_cache};
use money::Tallied;
use std::alloc::{AllocError, Global};
use std::io::{Read, Write};
use store_rows::Store;

/// Serves a stream over a store of the sample bank as its books are opened, with one moment for every message, and hands
/// back the store as that left it. Where memory was refused for that store, there is none, and nothing is read.
pub fn serve_sample<S: Store, R: Read, W: Write>(
    alloc: Global,
    store: Result<S, AllocError>,
    moment: Moment,
    input: &mut Tallied<R>,
    output: &mut Tallied<W>,
) -> (Option<S>, Result<Served, ServeFault>)
    requires opened { IfOk store (IsOpening S.status) }
    ensures served { IsSampleServed S.status moment
        (streams_at R.remaining W.contents input.old output.old)
        (streams_at R.remaining W.contents input.new output.new) result.0 result.1 }
    ensures memory { result.1 ≡ Err ServeFault.Memory → (input.new ≡ input.old) × (output.new ≡ output.old) }
    ensures most { IfOk result.1 (λ served. served.messages ≤ most_messages) }
{
    let Ok(store) = store else {
        return (None, Err(ServeFault::Memory));
    };
    let asking = Asking {
        gate: SampleBadges,
        moments: moment,
    };
    let (left, served) = serve_stream(alloc, store, asking, input, output);
    (Some(left), served)
}

/// Serves a stream as `serve_sample` does, with a cache of the rows of its policy before the store, and hands back the
/// store without it.
pub fn serve_sample_with_cache<S: Store, R: Read, W: Write>(
    alloc: Global,
    store: Result<S, AllocError>,
    moment: Moment,
    input: &mut Tallied<R>,
    output: &mut Tallied<W>,
) -> (Option<S>, Result<Served, ServeFault>)
    requires opened { IfOk store (IsOpening S.status) }
    ensures served { IsSampleServedWithCache S.status moment
        (streams_at R.remaining W.contents input.old output.old)
        (streams_at R.remaining W.contents input.new output.new) result.0 result.1 }
    ensures memory { result.1 ≡ Err ServeFault.Memory → (input.new ≡ input.old) × (output.new ≡ output.old) }
    ensures most { IfOk result.1 (λ served. served.messages ≤ most_messages) }
{
    let Ok(store) = store else {
        return (None, Err(ServeFault::Memory));
    };
    let asking = Asking {
        gate: SampleBadges,
        moments: moment,
    };
    let (left, served) = serve_with_cache(alloc, store, asking, input, output);
    (Some(left), served)
}
