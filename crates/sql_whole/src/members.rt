//! The whole table of the sets' members: its query, and its rows by set and place.

ghost use Rattle.std.specs.Prelude.{◌≡◌, IfErr, IfOk, false};
ghost use Rattle.sqlite.specs.Held.{state};
ghost use Rattle.sql_schema.specs.Readable.{IsReadableMember};
ghost use Rattle.sql_schema.specs.Steps.{IsReadOnly};
ghost use Rattle.sql_whole.specs.Tables.{AreMembers};
ghost use Rattle.sql_whole.specs.Faults.{IsOfDatabase};
ghost use Rattle.sql_whole.specs.Typed.{Each};
ghost use Rattle.sql_whole.specs.Whole.{OnReadable, Reads};

use crate::fault::{ReadFault, Table};
use crate::table_row::whole_table;
use book_kept::MemberRow;
use sql_schema::{Edition, select_members};
use sqlite::{Alter, Connection};
use std::alloc::Global;

pub(crate) const QUERY: &str = select_members!("ORDER BY set_no, place");

/// All members of sets, by set, then place.
pub fn all_members<S: Alter>(
    alloc: Global,
    conn: &mut Connection<S>,
    edition: Edition,
) -> Result<Vec<MemberRow>, ReadFault>
    ensures mode { conn.old.in_transaction ≡ false → conn.new.in_transaction ≡ false }
    ensures whole { Reads edition (state S.Store conn.old) (state S.Store conn.new) (λ trees rows. AreMembers trees rows.items) result }
    ensures typed { IfOk result (λ rows. Each IsReadableMember rows.items) }
    ensures takes { OnReadable edition (state S.Store conn.old) (state S.Store conn.new) (IfErr result IsOfDatabase) }
    ensures read_only { IsReadOnly (state S.Store conn.old) (state S.Store conn.new) result }
{
    whole_table(alloc, conn, edition, QUERY, Table::Members)
}
