//! The connections of a place, served over any store with a cache of its policy in front.

ghost use Rattle.exit_lines.specs.Streams.{stream_at};
ghost use Rattle.cli_counter.specs.Attending.{IsAttendedWithCache};

use crate::listening::Listening;
use crate::place::{PlaceLeft, attend_at};
use crate::places::Places;
use cli_file::{ActionFault, PathLeft};
use counter_api::{Asking, Clock, Counter, Gate};
use money::Tallied;
use std::io::Write;
use store_cached::Cached;
use store_rows::Store;

/// Serves the connections that come to a place, with a cache of the rows of its policy before the store, and hands back the store
/// without it, what is left of the place, and the clock. If memory was refused for the cache or for the counter, they are as they
/// were, and nothing is done.
pub(crate) fn attend_with_cache<P: Places, S: Store, G: Gate + Copy, C: Clock, W: Write>(
    rt: &HostRuntime,
    store: S,
    places: P,
    at: Listening<'_>,
    asking: Asking<G, C>,
    output: &mut Tallied<W>,
) -> (S, PlaceLeft<P>, C, Result<(), ActionFault<'static>>)
    ensures { IsAttendedWithCache (record { given = P.Entry.given; ways = P.Entry.Stream.ways; full = P.Entry.Stream.full; failed = P.Entry.Stream.failed; begun = P.begun; reported = P.System.reported; shows = P.shows })
        S.status (G.users asking.gate) C.may_give places at.entry.place result.1
        (stream_at W.contents output.old) (stream_at W.contents output.new)
        (record { store = store; clock = asking.moments })
        (record { store = result.0; clock = result.2 }) result.3 }
{
    let cached = match Cached::new(rt.alloc(), store) {
        Ok(cached) => cached,
        Err(store) => {
            let left = PathLeft::Unopened(places);
            return (store, left, asking.moments, Err(ActionFault::Memory));
        }
    };
    let mut counter = match Counter::new(rt.alloc(), cached, asking) {
        Ok(counter) => counter,
        Err((cached, clock)) => {
            let left = PathLeft::Unopened(places);
            return (cached.into_below(), left, clock, Err(ActionFault::Memory));
        }
    };
    let (left, done) = attend_at(rt, places, at, &mut counter, output);
    let (cached, clock) = counter.into_parts();
    (cached.into_below(), left, clock, done)
}
