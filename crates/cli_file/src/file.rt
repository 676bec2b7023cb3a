//! How the bank in an open file is found, and how the file is closed after use.

ghost use Rattle.std.specs.Prelude.{◌≡◌, false, MatchResult};
ghost use Rattle.cli_file.specs.Files.{IsClosed, IsFound, IsNotClosed, IsNotFound};

use crate::fault::ActionFault;
use sql_adopt::adopt;
use sqlite::{Connection, FileStore, Files};
use sqlite_disk::Disk;
use std::alloc::Global;
use store_sql::SqlStore;

/// A connection to a file and the log that stands beside it.
pub type FileConnection<D> = Connection<FileStore<D>>;

/// The store of a bank in a file.
pub type BankFile<D> = SqlStore<FileStore<D>>;

/// The bank that stands in an open file, whose books hold and whose policy is sound; or the connection handed back beside
/// why it is none, with nothing changed.
pub fn find<D: Disk + Drop>(
    alloc: Global,
    conn: FileConnection<D>,
) -> Result<BankFile<D>, (ActionFault<'static>, FileConnection<D>)>
    requires { conn.in_transaction ≡ false }
    ensures { MatchResult result (IsFound conn) (λ e. IsNotFound conn e.0 e.1) }
{
    match adopt(alloc, conn) {
        Ok(store) => Ok(store),
        Err((fault, conn)) => Err((ActionFault::of_adopting(fault), conn)),
    }
}

/// Copies the log into the file, and hands both back: the file alone is then the bank, also after a fault of the disk. Where
/// that fails, file and log together are the bank, as before.
pub fn close<D: Disk + Drop>(
    store: BankFile<D>,
) -> Result<Files<D>, (ActionFault<'static>, FileStore<D>)>
    ensures { MatchResult result (IsClosed D.Disk store) (λ e. IsNotClosed store e.0 e.1) }
{
    match store.into_connection().close_files() {
        Ok(files) => Ok(files),
        Err((error, left)) => Err((ActionFault::of_closing(error), left)),
    }
}
