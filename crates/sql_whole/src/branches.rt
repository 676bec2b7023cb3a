//! The whole table of branches: its query, and its rows as records of branches.

ghost use Rattle.std.specs.Prelude.{◌≡◌, pos, IfErr, IfOk, false};
ghost use Rattle.sqlite.specs.Held.{state};
ghost use Rattle.sqlite.specs.declared.types.Value.TheVariants.{Int};
ghost use Rattle.sqlite_value.specs.Order.{column};
ghost use Rattle.sql_schema.specs.Readable.{IsReadableBranch, IsUnread};
ghost use Rattle.sql_schema.specs.Steps.{IsReadOnly};
ghost use Rattle.sql_schema.specs.ReadBack.{columns_from};
ghost use Rattle.sql_whole.specs.Faults.{IsOfDatabase};
ghost use Rattle.sql_schema.specs.Heads.{IsReadableHead, branch_head};
ghost use Rattle.sql_whole.specs.Tables.{AreBranches};
ghost use Rattle.sql_whole.specs.Typed.{Each};
ghost use Rattle.sql_whole.specs.Whole.{OnReadable, Reads};

use crate::fault::{ReadFault, Table};
use crate::table_row::whole_table;
use bank_books::BranchRecord;
use sql_schema::{Edition, select_branches};
use sqlite::{Alter, Connection};
use std::alloc::Global;

pub(crate) const QUERY: &str = select_branches!("ORDER BY branch");

/// All branches with the numbers that are kept beside them, by number.
pub fn all_branches<S: Alter>(
    alloc: Global,
    conn: &mut Connection<S>,
    edition: Edition,
) -> Result<Vec<BranchRecord>, ReadFault>
    ensures mode { conn.old.in_transaction ≡ false → conn.new.in_transaction ≡ false }
    ensures whole { Reads edition (state S.Store conn.old) (state S.Store conn.new) (λ trees rows. AreBranches trees rows.items) result }
    ensures typed { IfOk result (λ rows. Each IsReadableBranch rows.items) }
    ensures takes { OnReadable edition (state S.Store conn.old) (state S.Store conn.new) (IfErr result IsOfDatabase) }
    ensures read_only { IsReadOnly (state S.Store conn.old) (state S.Store conn.new) result }
{
    whole_table(alloc, conn, edition, QUERY, Table::Branches)
}
