//! The bank in an open file served to many connections at once, and closed after that.

ghost use Rattle.std.specs.Prelude.{◌≡◌, false};
ghost use Rattle.exit_lines.specs.Streams.{stream_at};
ghost use Rattle.cli_counter.specs.InFile.{IsAttendedIn, end_of_counter};

use crate::attending::attend_with_cache;
use crate::listening::Listening;
use crate::place::PlaceLeft;
use crate::places::Places;
use cli_file::{ActionFault, FileConnection, FileLeft, PathLeft, Progress, close, find};
use counter_api::{Asking, Clock, Gate};
use money::Tallied;
use sqlite_disk::Disk;
use std::io::Write;

/// How an action ends over connections and a file: a fault of the connections is reported before one of closing.
fn ended(
    attended: Result<(), ActionFault<'static>>,
    closing: Option<ActionFault<'static>>,
) -> Result<(), ActionFault<'static>>
    ensures { result ≡ end_of_counter attended.entry closing.entry }
{
    match (attended, closing) {
        (Err(fault), _) => Err(fault),
        (Ok(()), Some(fault)) => Err(fault),
        (Ok(()), None) => Ok(()),
    }
}

/// Serves the connections that come to a place over the bank that stands in an open file, all at once, to the users of
/// a gate: the bank is found, the place is acquired and printed, connections are served with a cache of its policy in
/// front until that is ended, and the bank is closed. What is left of the file and of the place is handed back, and the
/// clock.
pub fn attend_in<D: Disk + Drop, P: Places, G: Gate + Copy, C: Clock, W: Write, E: Write + Drop>(
    rt: &HostRuntime,
    conn: FileConnection<D>,
    places: P,
    asking: Asking<G, C>,
    at: Listening<'_>,
    output: &mut Tallied<W>,
    progress: &mut Progress<E>,
) -> (
    FileLeft<D>,
    PlaceLeft<P>,
    C,
    Result<(), ActionFault<'static>>,
)
    requires { conn.in_transaction ≡ false }
    ensures { IsAttendedIn D.Disk (record { given = P.Entry.given; ways = P.Entry.Stream.ways; full = P.Entry.Stream.full; failed = P.Entry.Stream.failed; begun = P.begun; reported = P.System.reported; shows = P.shows })
        (G.users asking.gate) C.may_give conn places at.entry.place result.1
        (stream_at W.contents output.old) (stream_at W.contents output.new)
        asking.moments result.2 result.0 result.3 }
{
    progress.begin("reading the bank and checking its books ..\n");
    let store = match find(rt.alloc(), conn) {
        Ok(store) => store,
        Err((fault, conn)) => {
            let left = PathLeft::Unopened(places);
            return (FileLeft::Open(conn), left, asking.moments, Err(fault));
        }
    };
    let (store, place, clock, attended) = attend_with_cache(rt, store, places, at, asking, output);
    progress.begin("writing the log into the file ..\n");
    match close(store) {
        Ok(files) => (FileLeft::Closed(files), place, clock, ended(attended, None)),
        Err((fault, left)) => (
            FileLeft::Unclosed(left),
            place,
            clock,
            ended(attended, Some(fault)),
        ),
    }
}
