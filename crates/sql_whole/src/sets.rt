//! The whole table of sets, of which each row is the number of a set.

ghost use Rattle.std.specs.Prelude.{◌≡◌, IfErr, IfOk, false};
ghost use Rattle.sqlite.specs.Held.{state};
ghost use Rattle.sql_schema.specs.Readable.{IsShort};
ghost use Rattle.sql_schema.specs.Steps.{IsReadOnly};
ghost use Rattle.sql_whole.specs.Tables.{AreSets};
ghost use Rattle.sql_whole.specs.Faults.{IsOfDatabase};
ghost use Rattle.sql_whole.specs.Typed.{Each};
ghost use Rattle.sql_whole.specs.Whole.{OnReadable, Reads};

use crate::fault::{ReadFault, Table};
use crate::table_row::whole_table;
use sql_schema::{Edition, select_sets};
use sqlite::{Alter, Connection};
use std::alloc::Global;

pub(crate) const QUERY: &str = select_sets!("ORDER BY set_no");

/// The numbers of all sets, in order.
pub fn all_sets<S: Alter>(
    alloc: Global,
    conn: &mut Connection<S>,
    edition: Edition,
) -> Result<Vec<u32>, ReadFault>
    ensures mode { conn.old.in_transaction ≡ false → conn.new.in_transaction ≡ false }
    ensures whole { Reads edition (state S.Store conn.old) (state S.Store conn.new) (λ trees rows. AreSets trees rows.items) result }
    ensures typed { IfOk result (λ rows. Each IsShort rows.items) }
    ensures takes { OnReadable edition (state S.Store conn.old) (state S.Store conn.new) (IfErr result IsOfDatabase) }
    ensures read_only { IsReadOnly (state S.Store conn.old) (state S.Store conn.new) result }
{
    whole_table(alloc, conn, edition, QUERY, Table::Sets)
}
