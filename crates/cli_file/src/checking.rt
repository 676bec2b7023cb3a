//! The check of the bank in a file, which changes nothing.

ghost use Rattle.std.specs.Prelude.{◌≡◌, false};
ghost use Rattle.cli_file.specs.Checking.{IsChecked, IsCheckedIn};

use crate::fault::ActionFault;
use crate::file::{FileConnection, find};
use crate::left::{FileLeft, PathLeft};
use crate::opening::{Opener, open_existing};
use crate::progress::Progress;
use sqlite_disk::Disk;
use std::alloc::Global;
use std::io::Write;

/// Whether a bank whose books hold and whose policy is sound stands in an open file. Nothing is changed. The connection is
/// handed back.
pub fn check_in<D: Disk + Drop, P: Write + Drop>(
    alloc: Global,
    conn: FileConnection<D>,
    progress: &mut Progress<P>,
) -> (FileConnection<D>, Result<(), ActionFault<'static>>)
    requires { conn.in_transaction ≡ false }
    ensures { IsCheckedIn conn result.0 result.1 }
{
    progress.begin("reading the bank and checking its books ..\n");
    match find(alloc, conn) {
        Ok(store) => (store.into_connection(), Ok(())),
        Err((fault, conn)) => (conn, Err(fault)),
    }
}

/// Whether a bank whose books hold and whose policy is sound stands in a file that is there. Nothing is changed. What is left of
/// the file is handed back, or the opener where no file was opened.
pub fn check_file<D: Disk + Drop, O: Opener<D>, P: Write + Drop>(
    rt: &HostRuntime,
    file: &str,
    opener: O,
    progress: &mut Progress<P>,
) -> (PathLeft<O, FileLeft<D>>, Result<(), ActionFault<'static>>)
    ensures { IsChecked D.Disk O.image opener result.0 result.1 }
{
    progress.begin("opening the file ..\n");
    let conn = match open_existing(rt, file, opener) {
        Ok(conn) => conn,
        Err((left, fault)) => return (left, Err(fault)),
    };
    let (conn, done) = check_in(rt.alloc(), conn, progress);
    (PathLeft::Opened(FileLeft::Open(conn)), done)
}
