//! The action that makes the bank of the next year in a new file.

ghost use Rattle.cli_make.specs.Forwarding.{IsForwarded};

use crate::making::make_in;
use crate::reading::end_year;
use cli_file::{ActionFault, FileLeft, Opener, PathLeft, Progress, open_existing};
use sqlite_disk::Disk;
use std::io::Write;

/// Makes in a new file the bank that begins the next year of the one in a file that is there, which is left as by its check.
/// What is left of the old file and of the new one is handed back, or the opener of one that was not opened.
pub fn forward_file<A: Disk + Drop, D: Disk + Drop, E: Opener<A>, O: Opener<D>, P: Write + Drop>(
    rt: &HostRuntime,
    file: &str,
    new: &str,
    sums: bool,
    earlier: E,
    opener: O,
    progress: &mut Progress<P>,
) -> (
    PathLeft<E, FileLeft<A>>,
    PathLeft<O, FileLeft<D>>,
    Result<(), ActionFault<'static>>,
)
    ensures { IsForwarded A.Disk E.image D.Disk O.image sums earlier opener result.0 result.1 result.2 }
{
    progress.begin("opening the file ..\n");
    let conn = match open_existing(rt, file, earlier) {
        Ok(conn) => conn,
        Err((old, fault)) => return (old, PathLeft::Unopened(opener), Err(fault)),
    };
    progress.begin("reading the bank and checking its books ..\n");
    let (conn, next) = end_year(rt.alloc(), conn);
    let old = PathLeft::Opened(FileLeft::Open(conn));
    let world = match next {
        Ok(world) => world,
        Err(fault) => return (old, PathLeft::Unopened(opener), Err(fault)),
    };
    progress.begin("opening the new file ..\n");
    let conn = match opener.make(rt, new, sums) {
        Ok(conn) => conn,
        Err(fault) => return (old, PathLeft::Refused, Err(fault)),
    };
    let (left, done) = make_in(rt.alloc(), conn, &world, progress);
    (old, PathLeft::Opened(left), done)
}
