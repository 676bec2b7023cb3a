//! The sample bank served over a stream up to the exit status, with or without a cache in front.

ghost use Rattle.std.specs.Prelude.{IfOk};
ghost use Rattle.store_cached.specs.Standing.{cached_status};
ghost use Rattle.exit_lines.specs.Streams.{stream_at, streams_at};
ghost use Rattle.sample_service.specs.Ends.{IsSampleEnd};
ghost use Rattle.sample_service.specs.Serving.{IsOpening};

use crate::service::{serve_sample, serve_sample_with_cache};
use counter_service::Moment;
use exit_lines::report_end;
use money::Tallied;
use std::alloc::{AllocError, Global};
use std::io::{Read, Write};
use store_rows::Store;

/// Serves a stream over a store of the sample bank, as `serve_sample` does, and returns the status: `DONE` exactly
/// where that went well, otherwise `FAILED`, after a line on `errors` that says what failed.
pub fn answer_sample<S: Store + Drop, R: Read, W: Write, E: Write>(
    alloc: Global,
    store: Result<S, AllocError>,
    moment: Moment,
    input: &mut Tallied<R>,
    output: &mut Tallied<W>,
    errors: &mut Tallied<E>,
) -> u8
    requires opened { IfOk store (IsOpening S.status) }
    ensures { IsSampleEnd S.status moment
        (streams_at R.remaining W.contents input.old output.old)
        (streams_at R.remaining W.contents input.new output.new)
        (stream_at E.contents errors.old) (stream_at E.contents errors.new) result }
{
    let (_, served) = serve_sample(alloc, store, moment, input, output);
    report_end(errors, served)
}

/// Serves a stream as `answer_sample` does, with a cache of the rows of its policy before the store.
pub fn answer_with_cache<S: Store + Drop, R: Read, W: Write, E: Write>(
    alloc: Global,
    store: Result<S, AllocError>,
    moment: Moment,
    input: &mut Tallied<R>,
    output: &mut Tallied<W>,
    errors: &mut Tallied<E>,
) -> u8
    requires opened { IfOk store (IsOpening S.status) }
    ensures { IsSampleEnd (cached_status S.status) moment
        (streams_at R.remaining W.contents input.old output.old)
        (streams_at R.remaining W.contents input.new output.new)
        (stream_at E.contents errors.old) (stream_at E.contents errors.new) result }
{
    let (_, served) = serve_sample_with_cache(alloc, store, moment, input, output);
    report_end(errors, served)
}
