//! What all reads of whole tables share: the query is run, each row that it shows is read as it comes, or the fault is named.

ghost use Rattle.std.specs.Prelude.{◌≡◌, [], ◌∷◌, ◌++◌, List, map, Contains, IfErr, IfOk, OnOk, false};
ghost use Rattle.money.specs.declared.fault.Fault.TheVariants.{Memory};
ghost use Rattle.sqlite.specs.Given.{IsPlain};
ghost use Rattle.sqlite.specs.Held.{state};
ghost use Rattle.sqlite.specs.Listing.{understood};
ghost use Rattle.sqlite.specs.State.{HasCleanDisk, IsUnchanged, KeepsCommit, Shown};
ghost use Rattle.sql_schema.specs.Held.{tree_of};
ghost use Rattle.sql_schema.specs.HeldRows.{HoldsRows};
ghost use Rattle.sql_schema.specs.Readable.{IsUnread};
ghost use Rattle.sql_schema.specs.Schema.{schema_of};
ghost use Rattle.sql_schema.specs.Steps.{IsReadOnly};
ghost use Rattle.sql_schema.specs.declared.edition.Edition.{Edition as TheEdition};
ghost use Rattle.sql_whole.specs.Faults.{IsErrorOfDatabase, IsOfDatabase};
ghost use Rattle.sql_whole.specs.Typed.{Each};
ghost use Rattle.sql_whole.specs.Whole.{AreAll, HasBankTables, IsAnswered, Reads, TellsWhole};

use crate::fault::{ReadFault, Table, read_fault, value_fault};
use money::Fault;
use sql_schema::{Edition, TableRow};
use sqlite::{Alter, Connection, Error, ErrorCode, Row};
use std::alloc::Global;

/// All rows of a table, by the query for it. Each is read as it comes, so that no other form of them is kept.
pub(crate) fn whole_table<S: Alter, T: TableRow + Drop>(
    alloc: Global,
    conn: &mut Connection<S>,
    edition: Edition,
    sql: &str,
    table: Table,
) -> Result<Vec<T>, ReadFault>
    requires { TellsWhole edition T.shows T.stated T.cells T.key T.fits T.sheet sql.now }
    ensures mode { conn.old.in_transaction ≡ false → conn.new.in_transaction ≡ false }
    ensures whole { Reads edition (state S.Store conn.old) (state S.Store conn.new) (λ trees rows. AreAll T.shows T.cells T.key T.fits T.sheet trees rows.items) result }
    ensures typed { IfOk result (λ rows. Each T.readable rows.items) }
    ensures takes { HasCleanDisk (state S.Store conn.new) → HasBankTables edition (state S.Store conn.old) → (xs : List T) → HoldsRows T.shows T.cells T.key T.fits xs ((state S.Store conn.old).now.trees (tree_of T.sheet)) → ((x : T) → Contains xs x → T.readable x) → IfErr result IsOfDatabase }
    ensures read_only { IsReadOnly (state S.Store conn.old) (state S.Store conn.new) result }
{
    match taken_rows(alloc, conn, edition, sql) {
        Ok(Ok(rows)) => Ok(rows),
        Ok(Err(fault)) => Err(value_fault(fault, table)),
        Err(error) => Err(read_fault(error, table)),
    }
}

/// The same, or the fault for which a row was not read, or the error of the database.
fn taken_rows<S: Alter, T: TableRow + Drop>(
    alloc: Global,
    conn: &mut Connection<S>,
    edition: Edition,
    sql: &str,
) -> Result<Result<Vec<T>, Fault>, Error>
    requires { TellsWhole edition T.shows T.stated T.cells T.key T.fits T.sheet sql.now }
    ensures mode { conn.old.in_transaction ≡ false → conn.new.in_transaction ≡ false }
    ensures whole { HasCleanDisk (state S.Store conn.new) → HasBankTables edition (state S.Store conn.old) → IfOk result (λ taken. IfOk taken (λ rows. AreAll T.shows T.cells T.key T.fits T.sheet (state S.Store conn.old).now.trees rows.items)) }
    ensures still { HasCleanDisk (state S.Store conn.new) → HasBankTables edition (state S.Store conn.old) → OnOk result (IsUnchanged (state S.Store conn.old) (state S.Store conn.new)) × KeepsCommit (state S.Store conn.old) (state S.Store conn.new) }
    ensures typed { IfOk result (λ taken. IfOk taken (λ rows. Each T.readable rows.items)) }
    ensures takes { HasCleanDisk (state S.Store conn.new) → HasBankTables edition (state S.Store conn.old) → (xs : List T) → HoldsRows T.shows T.cells T.key T.fits xs ((state S.Store conn.old).now.trees (tree_of T.sheet)) → ((x : T) → Contains xs x → T.readable x) → IfOk result (λ taken. IfErr taken (λ fault. fault ≡ Memory)) }
    ensures there { HasCleanDisk (state S.Store conn.new) → HasBankTables edition (state S.Store conn.old) → IfErr result IsErrorOfDatabase }
    ensures read_only { IsReadOnly (state S.Store conn.old) (state S.Store conn.new) result }
{
    let mut list = Vec::new(alloc);
    let mut rows = conn.query(sql, &[])?;
    'rows: for _ in 0..u64::MAX {
        let Some(row) = rows.next()? else {
            return Ok(Ok(list));
        };
        if let Err(fault) = take_row(alloc, row, &mut list) {
            return Ok(Err(fault));
        }
    }
    Err(Error::SqliteFailure(ErrorCode::TooBig))
}

/// Takes the row that a row of an answer represents, after those that were taken.
fn take_row<T: TableRow + Drop>(alloc: Global, row: &Row, list: &mut Vec<T>) -> Result<(), Fault>
    ensures taken { OnOk result ((x : T) × (T.stated row.now ≡ T.cells x) × T.fits x × T.readable x × (list.new.items ≡ list.old.items ++ x ∷ [])) }
    ensures unread { IfErr result (IsUnread T.cells T.readable (T.stated row.now)) }
{
    let read = T::read(alloc, row)?;
    list.push(read)?;
    Ok(())
}

/// The rows that a query shows.
pub(crate) fn shown_rows<S: Alter>(
    conn: &mut Connection<S>,
    sql: &str,
    table: Table,
) -> Result<Vec<Row>, ReadFault>
    requires { (e : TheEdition) × IsAnswered e sql.now }
    ensures mode { conn.old.in_transaction ≡ false → conn.new.in_transaction ≡ false }
    ensures shown { HasCleanDisk (state S.Store conn.new) → IfOk result (λ rows. Shown sql.now [] (state S.Store conn.old) (state S.Store conn.new) rows.items) }
    ensures still { HasCleanDisk (state S.Store conn.new) → IsPlain (understood (state S.Store conn.old).now.schema sql.now) → OnOk result (IsUnchanged (state S.Store conn.old) (state S.Store conn.new)) × KeepsCommit (state S.Store conn.old) (state S.Store conn.new) }
    ensures there { HasCleanDisk (state S.Store conn.new) → (e : TheEdition) → (state S.Store conn.old).now.schema ≡ schema_of e → IsAnswered e sql.now → IfErr result IsOfDatabase }
    ensures read_only { IsReadOnly (state S.Store conn.old) (state S.Store conn.new) result }
{
    match conn.query_all(sql, &[]) {
        Ok(rows) => Ok(rows),
        Err(error) => Err(read_fault(error, table)),
    }
}
