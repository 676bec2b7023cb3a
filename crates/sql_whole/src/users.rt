//! The whole table of users, and whether it was a user's number or name, or another column, that can't be read.

ghost use Rattle.std.specs.Prelude.{◌≡◌, IfErr, IfOk, false};
ghost use Rattle.money.specs.declared.fault.Fault.TheVariants.{Memory};
ghost use Rattle.sqlite.specs.Held.{state};
ghost use Rattle.sql_schema.specs.Readable.{IsReadableUser};
ghost use Rattle.sql_schema.specs.Steps.{IsReadOnly};
ghost use Rattle.sql_whole.specs.Tables.{AreUsers};
ghost use Rattle.sql_whole.specs.Faults.{IsOfDatabase};
ghost use Rattle.sql_whole.specs.Typed.{Each};
ghost use Rattle.sql_whole.specs.Whole.{OnReadable, Reads};

use crate::fault::{ReadFault, Table, value_fault};
use crate::table_row::shown_rows;
use book_kept::KeptUser;
use money::Fault;
use sql_schema::{Edition, count_at, number_at, read_rows, select_users, truth_at};
use sqlite::{Alter, Connection, Row};
use std::alloc::Global;

pub(crate) const QUERY: &str = select_users!("ORDER BY user_no");

/// All users with how many releases each was given, by number.
pub fn all_users<S: Alter>(
    alloc: Global,
    conn: &mut Connection<S>,
    edition: Edition,
) -> Result<Vec<KeptUser>, ReadFault>
    ensures mode { conn.old.in_transaction ≡ false → conn.new.in_transaction ≡ false }
    ensures whole { Reads edition (state S.Store conn.old) (state S.Store conn.new) (λ trees rows. AreUsers trees rows.items) result }
    ensures typed { IfOk result (λ rows. Each IsReadableUser rows.items) }
    ensures takes { OnReadable edition (state S.Store conn.old) (state S.Store conn.new) (IfErr result IsOfDatabase) }
    ensures read_only { IsReadOnly (state S.Store conn.old) (state S.Store conn.new) result }
{
    let rows = shown_rows(conn, QUERY, Table::Users)?;
    match read_rows(alloc, &rows) {
        Ok(users) => Ok(users),
        Err(fault) => Err(refusal(fault, &rows)),
    }
}

/// Why the users are refused, one of whom was not read for this fault. Want of memory says nothing of them.
fn refusal(fault: Fault, rows: &[Row]) -> ReadFault
    ensures { fault ≡ Memory → IsOfDatabase result }
{
    if fault == Fault::Memory {
        return ReadFault::Fault(fault);
    }
    for row in rows {
        if let Err(fault) = marks_read(row) {
            return value_fault(fault, Table::Users);
        }
    }
    ReadFault::UserOutOfLimits
}

/// Reads all of a user but the number and the name.
fn marks_read(row: &Row) -> Result<(), Fault> {
    truth_at(row, 2)?;
    truth_at(row, 3)?;
    number_at(row, 4)?;
    truth_at(row, 5)?;
    count_at(row, 6)?;
    Ok(())
}
