//! What holds of every connection to a file that was opened, and of what a crash leaves of one. The functions do nothing, but for one that
//! gives a connection up; their contracts are the laws.

ghost use Rattle.sqlite_store.specs.FileStore.{view};
ghost use Rattle.sqlite_trees.specs.View.{IsClean};
ghost use Rattle.cli_file.specs.AfterCrash.{IsNumbered, OpensAfterCrash, PassesOverCrash};
ghost use Rattle.cli_file.specs.Laws.{OpensAgain, OpensAsItsBank, OpensUndamaged, OpensWithItsSums};
ghost use Rattle.cli_file.specs.Premises.{AreFoundAsLeft, PremisesAreMet};

use crate::file::{BankFile, FileConnection};
use sqlite::{FileStore, Files};
use sqlite_disk::Disk;
use store_rows::Store;

/// An image of a file and its log that holds the bank of a World opens as that bank: of which the clauses of every action
/// over the file speak.
pub fn image_opens_as_its_bank<D: Disk + Drop>(_conn: &FileConnection<D>)
    ensures { OpensAsItsBank _conn.now }
{}

/// A bank that was closed opens again as it was: the file with its log, the file alone, and whatever a crash leaves of either. The
/// disk that it is opened on may be of another kind.
pub fn closed_bank_opens_again<C: Disk + Drop, D: Disk + Drop>(
    _files: &Files<C>,
    _conn: &FileConnection<D>,
)
    ensures { OpensAgain C.Disk _conn.now }
{}

/// What a crash leaves of a bank in a file, after a day or in its midst, is an image that holds the bank of a World that it may leave,
/// and opens as that bank, on a disk of the same kind or another. It supposes that the tables are numbered. The toolchain ensures that
/// of a connection only as it is given up: so this function gives one up.
pub fn opens_after_crash<C: Disk + Drop, D: Disk + Drop>(
    store: BankFile<C>,
    _next: &FileConnection<D>,
) -> FileStore<C>
    ensures opens { OpensAfterCrash C.Disk _next.now }
    ensures numbered { IsClean (view result) → IsNumbered store.conn.store }
{
    store.into_connection().into_store()
}

/// What a crash leaves of a bank after a day, or within its next message, passes both checks, so that its sums agree.
pub fn checks_pass_after_crash<S: Store>(_store: &S)
    ensures { PassesOverCrash S.status }
{}

/// A file that says that its pages end in sums is opened only where each page does, but for pages that its log has.
pub fn opens_with_its_sums<D: Disk + Drop>(_conn: &FileConnection<D>)
    ensures { OpensWithItsSums _conn.now }
{}

/// A bank in a file with sums, damaged and opened, is the bank that it was, or a page was changed to another that ends in its own
/// sum.
pub fn damaged_bank_is_the_same<D: Disk + Drop>(_conn: &FileConnection<D>)
    ensures { OpensUndamaged _conn.now }
{}

/// What laws suppose is met by what it is named for. A new file that was asked for with sums says so, and so does each that has a
/// database whose pages each reserve eight bytes. No page collides where each that is damaged does not end in its sum. Requests that
/// were made and are proper are in range.
pub fn premises_are_met()
    ensures { PremisesAreMet }
{}

/// Closed files may be found as they are, and as whatever a crash leaves of them, and each file alone, with no log: so what is said of
/// each image that may be found is said of these.
pub fn closed_files_are_found<D: Disk + Drop>(_files: &Files<D>)
    ensures { AreFoundAsLeft D.Disk _files.now }
{}
