//! The table of the bank: its one row, with the versions of the tables and of the policy.

ghost use Rattle.std.specs.Prelude.{◌≡◌, ◌≢◌, IfErr, IfOk, false};
ghost use Rattle.money.specs.declared.fault.Fault.TheVariants.{Memory};
ghost use Rattle.sqlite.specs.Held.{state};
ghost use Rattle.sql_schema.specs.Steps.{IsReadOnly};
ghost use Rattle.sql_whole.specs.BankRow.{IsBankTable, IsReadFrom, bank_row_cells};
ghost use Rattle.sql_whole.specs.Faults.{IsOfDatabase};
ghost use Rattle.sql_schema.specs.ReadBack.{stored_by_rowid};
ghost use Rattle.sql_schema.specs.declared.edition.Edition.{Edition};
ghost use Rattle.sql_whole.specs.Whole.{IsThere, Reads};

use crate::fault::{ReadFault, Table};
use crate::table_row::shown_rows;
use money::Fault;
use sql_schema::whole_at;
use sqlite::{Alter, Connection, Row};

/// The row of a bank, whatever numbers it bears.
#[derive(Clone, Copy, Debug, PartialEq, Eq)]
pub struct BankRow {
    /// Its key, 1 in the only row of a bank.
    pub id: i64,
    /// The version of its tables.
    pub version: i64,
    /// The version of its policy.
    pub policy: i64,
}

pub(crate) const QUERY: &str = "SELECT id, version, policy FROM bank ORDER BY id";

/// The one row of the table of the bank, which is alike in all schema versions, or none where the table does not
/// have exactly one row of whole numbers.
pub fn bank_row<S: Alter>(conn: &mut Connection<S>) -> Result<Option<BankRow>, ReadFault>
    ensures mode { conn.old.in_transaction ≡ false → conn.new.in_transaction ≡ false }
    ensures whole { (e : Edition) → Reads e (state S.Store conn.old) (state S.Store conn.new) IsBankTable result }
    ensures there { (e : Edition) → IsThere e (state S.Store conn.old) (state S.Store conn.new) result }
    ensures read_only { IsReadOnly (state S.Store conn.old) (state S.Store conn.new) result }
{
    let rows = shown_rows(conn, QUERY, Table::Bank)?;
    only_row(&rows)
}

/// The row of the bank that these rows represent, or none where they are not one row of whole numbers.
fn only_row(rows: &[Row]) -> Result<Option<BankRow>, ReadFault>
    ensures stated { IfOk result (IsReadFrom rows.now) }
    ensures there { IfErr result IsOfDatabase }
{
    if rows.len() != 1 {
        return Ok(None);
    }
    match read_row(&rows[0]) {
        Ok(row) => Ok(Some(row)),
        Err(Fault::Memory) => Err(ReadFault::Fault(Fault::Memory)),
        Err(_) => Ok(None),
    }
}

/// The row of the bank that a row of the answer represents.
fn read_row(row: &Row) -> Result<BankRow, Fault>
    ensures same { IfOk result (λ b. stored_by_rowid 2 row.now ≡ bank_row_cells b) }
    ensures unread { IfErr result (λ fault. fault ≢ Memory → (b : BankRow) → stored_by_rowid 2 row.now ≢ bank_row_cells b) }
{
    Ok(BankRow {
        id: whole_at(row, 0)?,
        version: whole_at(row, 1)?,
        policy: whole_at(row, 2)?,
    })
}
