//! The action that serves the bank in the file at a path to many connections at once.

ghost use Rattle.exit_lines.specs.Streams.{stream_at};
ghost use Rattle.cli_counter.specs.Actions.{IsAttended};

use crate::in_file::attend_in;
use crate::listening::Listening;
use crate::place::PlaceLeft;
use crate::places::Places;
use cli_file::{
    ActionFault, BadgeGate, FileLeft, Lists, Opener, PathLeft, Progress, open_existing,
    read_badge_list,
};
use counter_api::{Asking, Clock};
use money::Tallied;
use sqlite_disk::Disk;
use std::io::Write;

/// Serves the connections that come to a place over the bank that stands in a file that is there, all at once, to the
/// users of a list of badges, with the moments that a clock gives. The list is read before the file is opened, and the
/// place is acquired after that. It ends well once the other side of `at.until` is closed, where that is given. What
/// is left of the file is handed back, or the opener where no file was opened; what is left of the place, with the
/// connections that came there; and the clock.
pub fn attend_file<
    'a,
    D: Disk + Drop,
    L: Lists,
    O: Opener<D>,
    P: Places,
    C: Clock,
    W: Write,
    E: Write + Drop,
>(
    rt: &HostRuntime,
    file: &str,
    lists: &L,
    badges: &'a str,
    at: Listening<'_>,
    opener: O,
    places: P,
    clock: C,
    output: &mut Tallied<W>,
    progress: &mut Progress<E>,
) -> (
    PathLeft<O, FileLeft<D>>,
    PlaceLeft<P>,
    C,
    Result<(), ActionFault<'a>>,
)
    ensures { IsAttended D.Disk (record { given = P.Entry.given; ways = P.Entry.Stream.ways; full = P.Entry.Stream.full; failed = P.Entry.Stream.failed; begun = P.begun; reported = P.System.reported; shows = P.shows })
        O.image L.text badges.now C.may_give opener places at.entry.place result.1
        (stream_at W.contents output.old) (stream_at W.contents output.new)
        clock result.2 result.0 result.3 }
{
    let list = match read_badge_list(rt.alloc(), lists, badges) {
        Ok(list) => list,
        Err(fault) => {
            let left = PathLeft::Unopened(opener);
            return (left, PathLeft::Unopened(places), clock, Err(fault));
        }
    };
    progress.begin("opening the file ..\n");
    let conn = match open_existing(rt, file, opener) {
        Ok(conn) => conn,
        Err((left, fault)) => return (left, PathLeft::Unopened(places), clock, Err(fault)),
    };
    let asking = Asking {
        gate: BadgeGate(&list),
        moments: clock,
    };
    let (left, place, clock, done) = attend_in(rt, conn, places, asking, at, output, progress);
    (PathLeft::Opened(left), place, clock, done)
}
