//! Writes the bank of a World to an open file, and closes the file.

ghost use Rattle.std.specs.Prelude.{◌≡◌, false, MatchResult};
ghost use Rattle.cli_make.specs.Making.{IsMade, IsMadeIn, IsNotMade};

use crate::faults::fault_of_making;
use bank_books::World;
use cli_file::{ActionFault, BankFile, FileConnection, FileLeft, Progress, close};
use sql_create::create;
use sqlite_disk::Disk;
use std::alloc::Global;
use std::io::Write;

/// The bank that is made of a World in an open file that holds nothing; or the connection handed back beside why none is
/// made, with nothing committed.
fn make<D: Disk + Drop>(
    alloc: Global,
    conn: FileConnection<D>,
    world: &World,
) -> Result<BankFile<D>, (ActionFault<'static>, FileConnection<D>)>
    requires { conn.in_transaction ≡ false }
    ensures { MatchResult result (IsMade conn world.now) (λ e. IsNotMade conn world.now e.0 e.1) }
{
    match create(alloc, conn, world) {
        Ok(store) => Ok(store),
        Err((fault, conn)) => Err((fault_of_making(fault), conn)),
    }
}

/// Makes the bank of a World in an open file that holds nothing, and closes it. What is left of the file is handed back.
pub fn make_in<D: Disk + Drop, P: Write + Drop>(
    alloc: Global,
    conn: FileConnection<D>,
    world: &World,
    progress: &mut Progress<P>,
) -> (FileLeft<D>, Result<(), ActionFault<'static>>)
    requires { conn.in_transaction ≡ false }
    ensures { IsMadeIn D.Disk conn world.now result.0 result.1 }
{
    progress.begin("checking the books and writing the tables ..\n");
    let store = match make(alloc, conn, world) {
        Ok(store) => store,
        Err((fault, conn)) => return (FileLeft::Open(conn), Err(fault)),
    };
    progress.begin("writing the log into the file ..\n");
    match close(store) {
        Ok(files) => (FileLeft::Closed(files), Ok(())),
        Err((fault, left)) => (FileLeft::Unclosed(left), Err(fault)),
    }
}
