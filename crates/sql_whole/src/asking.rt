//! Whether all tables but the bank's own are there, asked by the queries that read them whole.

ghost use Rattle.std.specs.Prelude.{◌≡◌, IfSome, IsTrue, ⊤, false};
ghost use Rattle.sqlite.specs.Held.{state};
ghost use Rattle.sql_whole.specs.Whole.{IsAnswered, IsThere, Reads};
ghost use Rattle.sql_schema.specs.Steps.{LeavesNone};

use crate::fault::Table::{
    self, Accounts, Bank, Branches, Certifiers, Entries, Lines, Members, Proofs, Relations,
    Releases, Sets, SlipCounts, Slips, Tellers, Triples, Users,
};
use crate::fault::{ReadFault, read_fault};
use sql_schema::Edition;
use sqlite::{Alter, Connection};

/// All tables of a bank but that of its one row.
const OTHERS: [Table; 15] = [
    Users, Sets, Members, Relations, Triples, Certifiers, Branches, Tellers, Accounts, Entries,
    Lines, Proofs, Releases, Slips, SlipCounts,
];

/// The query by which the whole table is read, or none where the schema version has no such table.
fn query_for(table: Table, edition: Edition) -> Option<&'static str>
    ensures { IfSome result (λ sql. IsAnswered edition sql.now) }
{
    match table {
        Bank => Some(crate::bank::QUERY),
        Users => Some(crate::users::QUERY),
        Sets => Some(crate::sets::QUERY),
        Members => Some(crate::members::QUERY),
        Relations => Some(crate::relations::QUERY),
        Triples => Some(crate::triples::query(edition)),
        Certifiers => Some(crate::certifiers::QUERY),
        Branches => Some(crate::branches::QUERY),
        Tellers => Some(crate::tellers::QUERY),
        Accounts => Some(crate::accounts::QUERY),
        Entries => Some(crate::entries::QUERY),
        Lines => Some(crate::lines::QUERY),
        Proofs => Some(crate::day_proofs::QUERY),
        Releases => Some(crate::releases::QUERY),
        Slips => crate::slips::query(edition),
        SlipCounts => crate::slip_counts::query(edition),
    }
}

/// Asks whether the tables have an answer to a query, and reads none.
fn ask<S: Alter>(
    conn: &mut Connection<S>,
    edition: Edition,
    sql: &str,
    table: Table,
) -> Result<(), ReadFault>
    requires { IsAnswered edition sql.now }
    ensures mode { conn.old.in_transaction ≡ false → conn.new.in_transaction ≡ false }
    ensures whole { Reads edition (state S.Store conn.old) (state S.Store conn.new) (λ _ _. ⊤) result }
    ensures there { IsThere edition (state S.Store conn.old) (state S.Store conn.new) result }
    ensures survives { LeavesNone (state S.Store conn.old) (state S.Store conn.new) }
{
    let _statement = match conn.prepare(sql) {
        Ok(statement) => statement,
        Err(error) => return Err(read_fault(error, table)),
    };
    Ok(())
}

/// Asks a table for all of its rows. A table that the schema version does not have is passed over.
fn ask_table<S: Alter>(
    conn: &mut Connection<S>,
    edition: Edition,
    table: Table,
) -> Result<(), ReadFault>
    ensures mode { conn.old.in_transaction ≡ false → conn.new.in_transaction ≡ false }
    ensures whole { IsTrue (state S.Store conn.old).is_open → Reads edition (state S.Store conn.old) (state S.Store conn.new) (λ _ _. ⊤) result }
    ensures there { IsThere edition (state S.Store conn.old) (state S.Store conn.new) result }
    ensures survives { LeavesNone (state S.Store conn.old) (state S.Store conn.new) }
{
    match query_for(table, edition) {
        Some(sql) => ask(conn, edition, sql, table),
        None => Ok(()),
    }
}

/// Asks all tables but that of the bank's row for their rows, so that a missing table is reported before any
/// value of the others is read.
pub fn ask_tables<S: Alter>(conn: &mut Connection<S>, edition: Edition) -> Result<(), ReadFault>
    ensures mode { conn.old.in_transaction ≡ false → conn.new.in_transaction ≡ false }
    ensures whole { IsTrue (state S.Store conn.old).is_open → Reads edition (state S.Store conn.old) (state S.Store conn.new) (λ _ _. ⊤) result }
    ensures there { IsTrue (state S.Store conn.old).is_open → IsThere edition (state S.Store conn.old) (state S.Store conn.new) result }
    ensures survives { LeavesNone (state S.Store conn.old) (state S.Store conn.new) }
{
    for table in OTHERS {
        ask_table(conn, edition, table)?;
    }
    Ok(())
}
