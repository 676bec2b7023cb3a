//! The action that makes a bank in the file at a path.

ghost use Rattle.cli_make.specs.Inited.{IsInited};

use crate::lists::read_opening;
use crate::making::make_in;
use cli_file::{ActionFault, FileLeft, Lists, Opener, PathLeft, Progress};
use sqlite_disk::Disk;
use std::io::Write;

/// Makes a bank in a file from the opening lists in a folder. The lists are read before the file is opened, or made. A file that
/// holds nothing gets pages of 512 bytes, which end in sums where these are asked for. What is left of the file is handed back,
/// or the opener where lists were refused.
pub fn init_file<D: Disk + Drop, L: Lists, O: Opener<D>, P: Write + Drop>(
    rt: &HostRuntime,
    file: &str,
    lists: &L,
    dir: &str,
    sums: bool,
    opener: O,
    progress: &mut Progress<P>,
) -> (PathLeft<O, FileLeft<D>>, Result<(), ActionFault<'static>>)
    ensures { IsInited D.Disk O.image L.text dir.now sums opener result.0 result.1 }
{
    progress.begin("reading the lists ..\n");
    let world = match read_opening(rt.alloc(), lists, dir) {
        Ok(world) => world,
        Err(bad) => return (PathLeft::Unopened(opener), Err(bad)),
    };
    progress.begin("opening the file ..\n");
    let conn = match opener.make(rt, file, sums) {
        Ok(conn) => conn,
        Err(fault) => return (PathLeft::Refused, Err(fault)),
    };
    let (left, done) = make_in(rt.alloc(), conn, &world, progress);
    (PathLeft::Opened(left), done)
}
