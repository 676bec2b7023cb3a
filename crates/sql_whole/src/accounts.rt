//! The whole table of accounts: its query, and its rows as records of accounts.

ghost use Rattle.std.specs.Prelude.{◌≡◌, IfErr, IfOk, false};
ghost use Rattle.sqlite.specs.Held.{state};
ghost use Rattle.sql_schema.specs.Readable.{IsReadableAccount};
ghost use Rattle.sql_schema.specs.Steps.{IsReadOnly};
ghost use Rattle.sql_whole.specs.Tables.{AreAccounts};
ghost use Rattle.sql_whole.specs.Faults.{IsOfDatabase};
ghost use Rattle.sql_whole.specs.Typed.{Each};
ghost use Rattle.sql_whole.specs.Whole.{OnReadable, Reads};

use crate::fault::{ReadFault, Table};
use crate::table_row::whole_table;
use bank_books::AccountRecord;
use sql_schema::{Edition, select_accounts};
use sqlite::{Alter, Connection};
use std::alloc::Global;

pub(crate) const QUERY: &str = select_accounts!("ORDER BY account");

/// All accounts with the numbers that are kept beside them, by number.
pub fn all_accounts<S: Alter>(
    alloc: Global,
    conn: &mut Connection<S>,
    edition: Edition,
) -> Result<Vec<AccountRecord>, ReadFault>
    ensures mode { conn.old.in_transaction ≡ false → conn.new.in_transaction ≡ false }
    ensures whole { Reads edition (state S.Store conn.old) (state S.Store conn.new) (λ trees rows. AreAccounts trees rows.items) result }
    ensures typed { IfOk result (λ rows. Each IsReadableAccount rows.items) }
    ensures takes { OnReadable edition (state S.Store conn.old) (state S.Store conn.new) (IfErr result IsOfDatabase) }
    ensures read_only { IsReadOnly (state S.Store conn.old) (state S.Store conn.new) result }
{
    whole_table(alloc, conn, edition, QUERY, Table::Accounts)
}
