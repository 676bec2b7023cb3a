//! The action that carries the bank in a file over to the newest schema version.

ghost use Rattle.std.specs.Prelude.{◌≡◌, false, MatchResult};
ghost use Rattle.cli_make.specs.Carrying.{IsCarried, IsNotCarried};
ghost use Rattle.cli_make.specs.Upgrading.{IsUpgraded, IsUpgradedIn};

use cli_file::{
    ActionFault, BankFile, FileConnection, FileLeft, Opener, PathLeft, Progress, close,
    open_existing,
};
use sql_upgrade::upgrade;
use sqlite_disk::Disk;
use std::alloc::Global;
use std::io::Write;

/// The bank in an open file, carried over from the tables of an older schema version to the newest; or the connection,
/// handed back beside why there is none.
fn carry_over<D: Disk + Drop>(
    alloc: Global,
    conn: FileConnection<D>,
) -> Result<BankFile<D>, (ActionFault<'static>, FileConnection<D>)>
    requires { conn.in_transaction ≡ false }
    ensures { MatchResult result (IsCarried conn) (λ e. IsNotCarried conn e.0 e.1) }
{
    match upgrade(alloc, conn) {
        Ok(store) => Ok(store),
        Err((fault, conn)) => Err((ActionFault::of_adopting(fault), conn)),
    }
}

/// Carries the bank in an open file of an older schema version over to the newest tables, and closes it. What is left
/// of the file is handed back.
pub fn upgrade_in<D: Disk + Drop, P: Write + Drop>(
    alloc: Global,
    conn: FileConnection<D>,
    progress: &mut Progress<P>,
) -> (FileLeft<D>, Result<(), ActionFault<'static>>)
    requires { conn.in_transaction ≡ false }
    ensures { IsUpgradedIn D.Disk conn result.0 result.1 }
{
    progress.begin("reading the bank, checking its books and writing its tables anew ..\n");
    let store = match carry_over(alloc, conn) {
        Ok(store) => store,
        Err((fault, conn)) => return (FileLeft::Open(conn), Err(fault)),
    };
    progress.begin("writing the log into the file ..\n");
    match close(store) {
        Ok(files) => (FileLeft::Closed(files), Ok(())),
        Err((fault, left)) => (FileLeft::Unclosed(left), Err(fault)),
    }
}

/// Carries the bank in a file that is there, of an older schema version, over to the newest tables. What is left of the
/// file is handed back, or the opener where no file was opened.
pub fn upgrade_file<D: Disk + Drop, O: Opener<D>, P: Write + Drop>(
    rt: &HostRuntime,
    file: &str,
    opener: O,
    progress: &mut Progress<P>,
) -> (PathLeft<O, FileLeft<D>>, Result<(), ActionFault<'static>>)
    ensures { IsUpgraded D.Disk O.image opener result.0 result.1 }
{
    progress.begin("opening the file ..\n");
    let conn = match open_existing(rt, file, opener) {
        Ok(conn) => conn,
        Err((left, fault)) => return (left, Err(fault)),
    };
    let (left, done) = upgrade_in(rt.alloc(), conn, progress);
    (PathLeft::Opened(left), done)
}
