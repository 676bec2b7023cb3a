//! How a place is acquired, printed and served.

ghost use Rattle.exit_lines.specs.Streams.{stream_at};
ghost use Rattle.cli_counter.specs.Attending.{IsAttendedAt, IsAttendedAtDoor};

use crate::faults::fault_of;
use crate::listening::Listening;
use crate::notices::ErrorLines;
use crate::places::{Places, Visited};
use cli_file::{ActionFault, PathLeft};
use counter_api::{Clock, Counter, Gate};
use counter_door::{Door, Parted, Readiness};
use counter_loop::serve_many;
use counter_places::{Place, say_listening};
use money::Tallied;
use std::io::Write;
use store_rows::Store;

/// What is left of places of this kind.
pub type PlaceLeft<P> = PathLeft<
    P,
    Visited<<P as Places>::Entry, <P as Places>::System, <<P as Places>::Entry as Door>::Stream>,
>;

/// Serves the connections that come to a place, all at once, once a line on `output` has said that it is acquired. It
/// ends well once the other side of `at.until` is closed, if that is given. What is left of the place is handed back.
pub(crate) fn attend_at<P: Places, S: Store, G: Gate, C: Clock, W: Write>(
    rt: &HostRuntime,
    places: P,
    at: Listening<'_>,
    counter: &mut Counter<S, G, C>,
    output: &mut Tallied<W>,
) -> (PlaceLeft<P>, Result<(), ActionFault<'static>>)
    ensures { IsAttendedAt (record { given = P.Entry.given; ways = P.Entry.Stream.ways; full = P.Entry.Stream.full; failed = P.Entry.Stream.failed; begun = P.begun; reported = P.System.reported; shows = P.shows })
        S.status (G.users counter.old.clerk.gate) C.may_give places at.entry.place result.0
        (stream_at W.contents output.old) (stream_at W.contents output.new)
        (record { store = counter.old.bank.store; clock = counter.old.clock })
        (record { store = counter.new.bank.store; clock = counter.new.clock }) result.1 }
{
    let (mut door, mut system) = match places.acquire(rt, at) {
        Ok(as_store_and_clock) => as_store_and_clock,
        Err(fault) => return (PathLeft::Refused, Err(fault)),
    };
    let (parted, done) = attend_door(rt, at.place, &mut door, &mut system, counter, output);
    P::leave(rt, at.place);
    let visited = Visited {
        door,
        system,
        parted,
    };
    (PathLeft::Opened(visited), done)
}

/// The same at a place that is acquired.
fn attend_door<D: Door, R: Readiness, S: Store, G: Gate, C: Clock, W: Write>(
    rt: &HostRuntime,
    place: Place<'_>,
    door: &mut D,
    system: &mut R,
    counter: &mut Counter<S, G, C>,
    output: &mut Tallied<W>,
) -> (Parted<D::Stream>, Result<(), ActionFault<'static>>)
    ensures { IsAttendedAtDoor D.Stream.begins D.Stream.ways D.Stream.full D.Stream.failed S.status (G.users counter.old.clerk.gate) C.may_give
        (R.shows system.old) (R.reported system.old) (R.reported system.new) (D.given door.old) (D.given door.new) result.0 place.entry
        (stream_at W.contents output.old) (stream_at W.contents output.new)
        (record { store = counter.old.bank.store; clock = counter.old.clock })
        (record { store = counter.new.bank.store; clock = counter.new.clock }) result.1 }
{
    let Ok(()) = say_listening(output, place) else {
        return (Parted::new(), Err(ActionFault::Broken));
    };
    let mut notices = ErrorLines { rt };
    let (parted, done) = serve_many(rt.alloc(), system, door, counter, &mut notices);
    match done {
        Ok(()) => (parted, Ok(())),
        Err(error) => (parted, Err(fault_of(&error))),
    }
}
