//! The bank in an open file served over a stream, and closed after that.

ghost use Rattle.std.specs.Prelude.{◌≡◌, false};
ghost use Rattle.exit_lines.specs.Streams.{streams_at};
ghost use Rattle.cli_serve.specs.Serving.{IsServedIn, end_of};

use crate::faults::fault_of_serving;
use cli_file::{ActionFault, FileConnection, FileLeft, Progress, close, find};
use counter_clocks::Moment;
use counter_service::{Asking, Gate, ServeFault, Served, serve_with_cache};
use money::Tallied;
use sqlite_disk::Disk;
use std::alloc::Global;
use std::io::{Read, Write};

/// How an action ends over a stream and a file: a fault of serving is reported before one of closing.
fn ended(
    served: Result<Served, ServeFault>,
    closing: Option<ActionFault<'static>>,
) -> Result<(), ActionFault<'static>>
    ensures { result ≡ end_of served closing.entry }
{
    match (served, closing) {
        (Err(fault), _) => Err(fault_of_serving(fault)),
        (Ok(_), Some(fault)) => Err(fault),
        (Ok(_), None) => Ok(()),
    }
}

/// Serves a stream over the bank in an open file, to the users of a gate, with one moment for every message: the bank
/// is found, served with a cache of its policy in front, and closed. What is left of the file is handed back.
pub fn serve_in<D: Disk + Drop, G: Gate + Copy, R: Read, W: Write, P: Write + Drop>(
    alloc: Global,
    conn: FileConnection<D>,
    gate: &G,
    moment: Moment,
    input: &mut Tallied<R>,
    output: &mut Tallied<W>,
    progress: &mut Progress<P>,
) -> (FileLeft<D>, Result<(), ActionFault<'static>>)
    requires { conn.in_transaction ≡ false }
    ensures { IsServedIn D.Disk (G.users gate.now) conn moment
        (streams_at R.remaining W.contents input.old output.old)
        (streams_at R.remaining W.contents input.new output.new) result.0 result.1 }
{
    progress.begin("reading the bank and checking its books ..\n");
    let store = match find(alloc, conn) {
        Ok(store) => store,
        Err((fault, conn)) => return (FileLeft::Open(conn), Err(fault)),
    };
    let asking = Asking {
        gate: *gate,
        moments: moment,
    };
    let (store, served) = serve_with_cache(alloc, store, asking, input, output);
    progress.begin("writing the log into the file ..\n");
    match close(store) {
        Ok(files) => (FileLeft::Closed(files), ended(served, None)),
        Err((fault, left)) => (FileLeft::Unclosed(left), ended(served, Some(fault))),
    }
}
