//! The sample bank served in whichever store a name picks.

ghost use Rattle.exit_lines.specs.Streams.{stream_at, streams_at};
ghost use Rattle.sample_service.specs.Answered.{IsAnswered};

use crate::answer::{answer_sample, answer_with_cache};
use crate::stores::listed_sample;
use crate::tables::sql_sample;
use counter_service::Moment;
use money::Tallied;
use std::alloc::Global;
use std::io::{Read, Write};

/// A store of the sample bank.
#[derive(Clone, Copy)]
pub enum StoreName {
    /// Lists.
    List,
    /// Lists with a cache in front.
    Cached,
    /// SQL tables in memory.
    Tables,
}

/// Serves a stream over the sample bank in the store of this name, and returns the status as `answer_sample` does.
pub fn answer_in<R: Read, W: Write, E: Write>(
    alloc: Global,
    store: StoreName,
    moment: Moment,
    input: &mut Tallied<R>,
    output: &mut Tallied<W>,
    errors: &mut Tallied<E>,
) -> u8
    ensures { IsAnswered store moment
        (streams_at R.remaining W.contents input.old output.old)
        (streams_at R.remaining W.contents input.new output.new)
        (stream_at E.contents errors.old) (stream_at E.contents errors.new) result }
{
    match store {
        StoreName::List => {
            answer_sample(alloc, listed_sample(alloc), moment, input, output, errors)
        }
        StoreName::Cached => {
            answer_with_cache(alloc, listed_sample(alloc), moment, input, output, errors)
        }
        StoreName::Tables => answer_sample(alloc, sql_sample(alloc), moment, input, output, errors),
    }
}
