//! The slips of all users, for which only the third schema version has a table.

ghost use Rattle.std.specs.Prelude.{◌≡◌, IfErr, IfOk, IfSome, IsTrue, false};
ghost use Rattle.sqlite.specs.Held.{state};
ghost use Rattle.sql_schema.specs.Readable.{IsReadableSlip};
ghost use Rattle.sql_schema.specs.Steps.{LeavesNone};
ghost use Rattle.sql_schema.specs.declared.edition.Edition.TheVariants.{Third};
ghost use Rattle.sql_whole.specs.Tables.{AreSlips};
ghost use Rattle.sql_whole.specs.Faults.{IsOfDatabase};
ghost use Rattle.sql_whole.specs.Typed.{Each};
ghost use Rattle.sql_whole.specs.Whole.{IsAnswered, OnReadable, Reads};

use crate::fault::{ReadFault, Table};
use crate::table_row::whole_table;
use bank_books::Slip;
use sql_schema::{Edition, select_slips};
use sqlite::{Alter, Connection};
use std::alloc::Global;

const QUERY: &str = select_slips!("ORDER BY user_no, slip");

/// The query for the slips, or none where the schema version has no slips.
pub(crate) fn query(edition: Edition) -> Option<&'static str>
    ensures { IfSome result (λ sql. IsAnswered edition sql.now) }
{
    match edition {
        Edition::First => None,
        Edition::Second => None,
        Edition::Third => Some(QUERY),
    }
}

/// All slips, by user, then number. Schema versions before the third have none, and no table is asked.
pub fn all_slips<S: Alter>(
    alloc: Global,
    conn: &mut Connection<S>,
    edition: Edition,
) -> Result<Vec<Slip>, ReadFault>
    ensures mode { conn.old.in_transaction ≡ false → conn.new.in_transaction ≡ false }
    ensures whole { IsTrue (state S.Store conn.old).is_open → Reads edition (state S.Store conn.old) (state S.Store conn.new) (λ trees rows. AreSlips edition trees rows.items) result }
    ensures typed { IfOk result (λ rows. Each IsReadableSlip rows.items) }
    ensures takes { OnReadable edition (state S.Store conn.old) (state S.Store conn.new) (IfErr result IsOfDatabase) }
    ensures survives { LeavesNone (state S.Store conn.old) (state S.Store conn.new) }
{
    match edition {
        Edition::First => Ok(Vec::new(alloc)),
        Edition::Second => Ok(Vec::new(alloc)),
        Edition::Third => third_slips(alloc, conn),
    }
}

/// Those of the table `slips`.
fn third_slips<S: Alter>(alloc: Global, conn: &mut Connection<S>) -> Result<Vec<Slip>, ReadFault>
    ensures mode { conn.old.in_transaction ≡ false → conn.new.in_transaction ≡ false }
    ensures whole { Reads Third (state S.Store conn.old) (state S.Store conn.new) (λ trees rows. AreSlips Third trees rows.items) result }
    ensures typed { IfOk result (λ rows. Each IsReadableSlip rows.items) }
    ensures takes { OnReadable Third (state S.Store conn.old) (state S.Store conn.new) (IfErr result IsOfDatabase) }
    ensures survives { LeavesNone (state S.Store conn.old) (state S.Store conn.new) }
{
    whole_table(alloc, conn, Edition::Third, QUERY, Table::Slips)
}
