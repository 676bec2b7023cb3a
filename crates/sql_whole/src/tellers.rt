//! The whole table of tellers: its query, and its rows as tellers with their kept numbers.

ghost use Rattle.std.specs.Prelude.{◌≡◌, IfErr, IfOk, false};
ghost use Rattle.sqlite.specs.Held.{state};
ghost use Rattle.sql_schema.specs.Readable.{IsReadableTeller};
ghost use Rattle.sql_schema.specs.Steps.{IsReadOnly};
ghost use Rattle.sql_whole.specs.Tables.{AreTellers};
ghost use Rattle.sql_whole.specs.Faults.{IsOfDatabase};
ghost use Rattle.sql_whole.specs.Typed.{Each};
ghost use Rattle.sql_whole.specs.Whole.{OnReadable, Reads};

use crate::fault::{ReadFault, Table};
use crate::table_row::whole_table;
use book_kept::KeptTeller;
use sql_schema::{Edition, select_tellers};
use sqlite::{Alter, Connection};
use std::alloc::Global;

pub(crate) const QUERY: &str = select_tellers!("ORDER BY teller");

/// All tellers with the numbers that are kept beside them, by number.
pub fn all_tellers<S: Alter>(
    alloc: Global,
    conn: &mut Connection<S>,
    edition: Edition,
) -> Result<Vec<KeptTeller>, ReadFault>
    ensures mode { conn.old.in_transaction ≡ false → conn.new.in_transaction ≡ false }
    ensures whole { Reads edition (state S.Store conn.old) (state S.Store conn.new) (λ trees rows. AreTellers trees rows.items) result }
    ensures typed { IfOk result (λ rows. Each IsReadableTeller rows.items) }
    ensures takes { OnReadable edition (state S.Store conn.old) (state S.Store conn.new) (IfErr result IsOfDatabase) }
    ensures read_only { IsReadOnly (state S.Store conn.old) (state S.Store conn.new) result }
{
    whole_table(alloc, conn, edition, QUERY, Table::Tellers)
}
