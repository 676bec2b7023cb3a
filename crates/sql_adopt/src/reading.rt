//! A whole file read: the bank's row first, then whether each table is there, then the books and the policy.

ghost use Rattle.std.specs.Prelude.{ℕ, ◌≡◌, ◌≢◌, Some, false, pos, IfErr, IfOk, IsErrAnd, IfSome, IsOk, IsSome, IsTrue, OnOk};
ghost use Rattle.sqlite.specs.Effect.{IsDatabase};
ghost use Rattle.sqlite.specs.Held.{state};
ghost use Rattle.sqlite.specs.State.{HasCleanDisk};
ghost use Rattle.sqlite.specs.Tree.{Trees};
ghost use Rattle.sql_schema.specs.Cells.{edition_number};
ghost use Rattle.sql_schema.specs.Held.{HoldsSheetsIn};
ghost use Rattle.sql_schema.specs.Readable.{AreReadable};
ghost use Rattle.sql_schema.specs.Steps.{IsReadOnly, LeavesNone};
ghost use Rattle.book_kept.specs.Sheets.{Sheets};
ghost use Rattle.sql_whole.specs.PolicyTables.{ArePolicyTables};
ghost use Rattle.sql_whole.specs.BookRows.{AreBookRows};
ghost use Rattle.sql_whole.specs.BankRow.{IsBankTable};
ghost use Rattle.sql_whole.specs.Typed.{AreBooksTyped, AreTablesTyped};
ghost use Rattle.sql_whole.specs.Whole.{OnReadable, Reads};
ghost use Rattle.sql_adopt.specs.Adopted.{AreFileRows, IsBankNumber, IsBankRow, IsLeft, IsOfAnother, OnAnyFile, OnFileIn, ReadsLast};
ghost use Rattle.sql_adopt.specs.Refused.{IsOfOther, IsOfStore, IsOfUnread, IsOutOfRange, IsRefusedIn, RefusesFor, TellsOther};

use crate::adopt_fault::{AdoptFault, books_unread, table_unread};
use book_check::BooksFault;
use sql_schema::Edition;
use sql_whole::{
    BankRow, BookRows, PolicyTables, ReadFault, all_book_rows, all_policy_tables, ask_tables,
    bank_row,
};
use sqlite::{Alter, Connection};
use std::alloc::Global;

/// The rows of all tables of a bank.
#[derive(Drop)]
pub(crate) struct FileRows {
    /// The version of the policy.
    pub version: u64,
    /// The rows of the books, and the users.
    pub books: BookRows,
    /// The rows of the policy, or none where one of them is out of its limits.
    pub policy: Option<PolicyTables>,
}

/// The row of the bank, where this is what its table has, and it is of this schema version.
fn row_of_edition(found: Option<BankRow>, edition: Edition) -> Result<BankRow, AdoptFault>
    ensures row { IfOk result (λ row. (found ≡ Some row) × (row.id ≡ pos 1) × (row.version ≡ pos (edition_number edition))) }
    ensures refused { (db : Trees) → IsBankTable db found → IfErr result (IsRefusedIn edition db) }
    ensures first { (db : Trees) (version : ℕ) → IsBankTable db found → IsBankRow edition db version → IsOk result }
{
    match found {
        Some(row) if row.id == 1 => {
            if row.version == edition.number() {
                Ok(row)
            } else {
                Err(AdoptFault::Version)
            }
        }
        _ => Err(AdoptFault::NotABank),
    }
}

fn stated_row<S: Alter>(conn: &mut Connection<S>, edition: Edition) -> Result<BankRow, AdoptFault>
    ensures mode { conn.old.in_transaction ≡ false → conn.new.in_transaction ≡ false }
    ensures whole { Reads edition (state S.Store conn.old) (state S.Store conn.new) (λ trees row. IsBankNumber edition trees row.policy) result }
    ensures refused { RefusesFor edition (state S.Store conn.old) (state S.Store conn.new) result }
    ensures other { TellsOther edition (state S.Store conn.old) (state S.Store conn.new) result }
    ensures takes { OnReadable edition (state S.Store conn.old) (state S.Store conn.new) (IfErr result IsOfStore) }
    ensures read_only { IsReadOnly (state S.Store conn.old) (state S.Store conn.new) result }
{
    match bank_row(conn) {
        Ok(found) => row_of_edition(found, edition),
        Err(fault) => Err(table_unread(fault)),
    }
}

/// The version of the policy. A number below 0 is out of the limits of the books.
fn version_in(row: &BankRow) -> Result<u64, AdoptFault>
    ensures number { IfOk result (λ version. row.now.policy ≡ pos version) }
    ensures none { IfErr result (λ _. (version : ℕ) → row.now.policy ≢ pos version) }
    ensures range { IfErr result IsOutOfRange }
{
    match u64::try_from(row.policy) {
        Ok(version) => Ok(version),
        Err(_) => Err(AdoptFault::Books(BooksFault::Range)),
    }
}

/// The version of the policy. It is not judged before each of the other tables was asked for its rows: a fault of
/// the bank's row is reported first, then a missing table, then what is out of its limits.
fn bank_version<S: Alter>(conn: &mut Connection<S>, edition: Edition) -> Result<u64, AdoptFault>
    ensures mode { conn.old.in_transaction ≡ false → conn.new.in_transaction ≡ false }
    ensures whole { Reads edition (state S.Store conn.old) (state S.Store conn.new) (IsBankRow edition) result }
    ensures refused { RefusesFor edition (state S.Store conn.old) (state S.Store conn.new) result }
    ensures other { TellsOther edition (state S.Store conn.old) (state S.Store conn.new) result }
    ensures takes { OnReadable edition (state S.Store conn.old) (state S.Store conn.new) (IfErr result IsOfStore) }
    ensures read_only { IsReadOnly (state S.Store conn.old) (state S.Store conn.new) result }
{
    let row = stated_row(conn, edition)?;
    match ask_tables(conn, edition) {
        Ok(()) => version_in(&row),
        Err(fault) => Err(table_unread(fault)),
    }
}

fn book_rows<S: Alter>(
    alloc: Global,
    conn: &mut Connection<S>,
    edition: Edition,
) -> Result<BookRows, AdoptFault>
    ensures mode { conn.old.in_transaction ≡ false → conn.new.in_transaction ≡ false }
    ensures whole { Reads edition (state S.Store conn.old) (state S.Store conn.new) (AreBookRows edition) result }
    ensures typed { IfOk result AreBooksTyped }
    ensures takes { OnReadable edition (state S.Store conn.old) (state S.Store conn.new) (IfErr result IsOfStore) }
    ensures beyond { IfErr result IsOfUnread }
    ensures survives { LeavesNone (state S.Store conn.old) (state S.Store conn.new) }
{
    match all_book_rows(alloc, conn, edition) {
        Ok(rows) => Ok(rows),
        Err(fault) => Err(books_unread(fault)),
    }
}

/// The rows of the policy, or none where one of them is out of its limits.
fn policy_tables<S: Alter>(
    alloc: Global,
    conn: &mut Connection<S>,
    edition: Edition,
) -> Result<Option<PolicyTables>, AdoptFault>
    ensures mode { conn.old.in_transaction ≡ false → conn.new.in_transaction ≡ false }
    ensures whole { ReadsLast edition (state S.Store conn.old) (state S.Store conn.new) (λ trees found. IfSome found (ArePolicyTables edition trees)) result }
    ensures typed { IfOk result (λ found. IfSome found AreTablesTyped) }
    ensures takes { OnReadable edition (state S.Store conn.old) (state S.Store conn.new) (IfOk result IsSome × IfErr result IsOfStore) }
    ensures beyond { IfErr result IsOfUnread }
    ensures survives { LeavesNone (state S.Store conn.old) (state S.Store conn.new) }
{
    match all_policy_tables(alloc, conn, edition) {
        Ok(rows) => Ok(Some(rows)),
        Err(ReadFault::OutOfLimits(_)) => Ok(None),
        Err(fault) => Err(books_unread(fault)),
    }
}

/// The rows of all tables: once each table was asked, those of the books are read, then those of the policy.
pub(crate) fn all_rows<S: Alter>(
    alloc: Global,
    conn: &mut Connection<S>,
    edition: Edition,
) -> Result<FileRows, AdoptFault>
    ensures mode { conn.old.in_transaction ≡ false → conn.new.in_transaction ≡ false }
    ensures whole { ReadsLast edition (state S.Store conn.old) (state S.Store conn.new) (AreFileRows edition) result }
    ensures refused { RefusesFor edition (state S.Store conn.old) (state S.Store conn.new) result }
    ensures other { TellsOther edition (state S.Store conn.old) (state S.Store conn.new) result }
    ensures takes { OnReadable edition (state S.Store conn.old) (state S.Store conn.new) (IfOk result (λ rows. IsSome rows.policy) × IfErr result IsOfStore) }
    ensures read_only { IsReadOnly (state S.Store conn.old) (state S.Store conn.new) result }
{
    let version = bank_version(conn, edition)?;
    let books = book_rows(alloc, conn, edition)?;
    let policy = policy_tables(alloc, conn, edition)?;
    Ok(FileRows {
        version,
        books,
        policy,
    })
}

/// The rows of all tables. Nothing is changed.
pub(crate) fn read_file<S: Alter>(
    alloc: Global,
    conn: &mut Connection<S>,
    edition: Edition,
) -> Result<FileRows, AdoptFault>
    requires { conn.old.in_transaction ≡ false }
    ensures mode { conn.new.in_transaction ≡ false }
    ensures whole { OnFileIn edition (state S.Store conn.old) (state S.Store conn.new) (IfOk result (AreFileRows edition (state S.Store conn.old).now.trees)) }
    ensures refused { OnFileIn edition (state S.Store conn.old) (state S.Store conn.new) (IfErr result (IsRefusedIn edition (state S.Store conn.old).now.trees)) }
    ensures other { HasCleanDisk (state S.Store conn.new) → IsOfAnother edition (state S.Store conn.old) → IsErrAnd result IsOfOther }
    ensures takes { OnFileIn edition (state S.Store conn.old) (state S.Store conn.new) ((s : Sheets) → HoldsSheetsIn edition (state S.Store conn.old).now.trees s → AreReadable s → IfOk result (λ rows. IsSome rows.policy) × IfErr result IsOfStore) }
    ensures left { OnAnyFile (state S.Store conn.old) (state S.Store conn.new) (λ is. IsLeft (state S.Store conn.old) (state S.Store conn.new)) }
    ensures open { HasCleanDisk (state S.Store conn.new) → OnOk result (IsTrue (state S.Store conn.old).is_open) }
    ensures sound { HasCleanDisk (state S.Store conn.new) → OnOk result (IsDatabase (state S.Store conn.old).now) }
    ensures survives { LeavesNone (state S.Store conn.old) (state S.Store conn.new) }
{
    // A connection's schema, and that nothing is begun in it, show that its state is one that it can be in.
    let _schema = conn.schema();
    let rows = all_rows(alloc, conn, edition);
    let _left = conn.schema();
    let _idle = conn.is_autocommit();
    rows
}
