//! The actions that serve the bank in the file at a path, over a stream or over a port.

ghost use Rattle.exit_lines.specs.Streams.{stream_at, streams_at};
ghost use Rattle.cli_serve.specs.Actions.{IsListened, IsRun};

use crate::listening::listen_in;
use crate::serving::serve_in;
use cli_file::{
    ActionFault, BadgeGate, FileLeft, Lists, Opener, PathLeft, Progress, open_existing,
    read_badge_list,
};
use counter_api::{Asking, Clock};
use counter_clocks::Moment;
use counter_connections::{CountedPort, Failures};
use money::Tallied;
use sqlite_disk::Disk;
use std::io::{Read, Write};

/// Serves a stream over the bank that stands in a file that is there, to the users of a list of badges, with one moment for
/// every message. The list is read before the file is opened. What is left of the file is handed back, or the opener where no
/// file was opened.
pub fn run_file<'a, D: Disk + Drop, L: Lists, O: Opener<D>, R: Read, W: Write, P: Write + Drop>(
    rt: &HostRuntime,
    file: &str,
    lists: &L,
    badges: &'a str,
    moment: Moment,
    opener: O,
    input: &mut Tallied<R>,
    output: &mut Tallied<W>,
    progress: &mut Progress<P>,
) -> (PathLeft<O, FileLeft<D>>, Result<(), ActionFault<'a>>)
    ensures { IsRun D.Disk O.image L.text opener badges.now moment
        (streams_at R.remaining W.contents input.old output.old)
        (streams_at R.remaining W.contents input.new output.new) result.0 result.1 }
{
    let list = match read_badge_list(rt.alloc(), lists, badges) {
        Ok(list) => list,
        Err(fault) => return (PathLeft::Unopened(opener), Err(fault)),
    };
    progress.begin("opening the file ..\n");
    let conn = match open_existing(rt, file, opener) {
        Ok(conn) => conn,
        Err((left, fault)) => return (left, Err(fault)),
    };
    let gate = BadgeGate(&list);
    let (left, done) = serve_in(rt.alloc(), conn, &gate, moment, input, output, progress);
    (PathLeft::Opened(left), done)
}

/// Serves a port over the bank that stands in a file that is there, to the users of a list of badges, with the moments
/// that a clock gives, until its messages are counted. The list is read before the file is opened, and the port is
/// bound after that. What is left of the file is handed back, or the opener where no file was opened; the clock; and what
/// failed at the port, if it was served.
pub fn serve_file<'a, D: Disk + Drop, L: Lists, O: Opener<D>, C: Clock, W: Write, P: Write + Drop>(
    rt: &HostRuntime,
    file: &str,
    lists: &L,
    badges: &'a str,
    at: CountedPort,
    opener: O,
    clock: C,
    output: &mut Tallied<W>,
    progress: &mut Progress<P>,
) -> (
    PathLeft<O, FileLeft<D>>,
    C,
    Option<Failures>,
    Result<(), ActionFault<'a>>,
)
    ensures { IsListened D.Disk O.image L.text badges.now C.may_give opener at.port at.requests
        (stream_at W.contents output.old) (stream_at W.contents output.new)
        clock result.1 result.2 result.0 result.3 }
{
    let list = match read_badge_list(rt.alloc(), lists, badges) {
        Ok(list) => list,
        Err(fault) => return (PathLeft::Unopened(opener), clock, None, Err(fault)),
    };
    progress.begin("opening the file ..\n");
    let conn = match open_existing(rt, file, opener) {
        Ok(conn) => conn,
        Err((left, fault)) => return (left, clock, None, Err(fault)),
    };
    let asking = Asking {
        gate: BadgeGate(&list),
        moments: clock,
    };
    let (left, clock, failures, done) = listen_in(rt, conn, asking, at, output, progress);
    (PathLeft::Opened(left), clock, failures, done)
}
