//! How many slips each user has: none before the third schema version, and from then on by a table of their own.

ghost use Rattle.std.specs.Prelude.{◌≡◌, List, map, IfErr, IfOk, IfSome, IsTrue, false};
ghost use Rattle.sqlite.specs.Held.{state};
ghost use Rattle.sql_schema.specs.Held.{without_slips};
ghost use Rattle.sql_schema.specs.Readable.{IsReadableSlipCount, IsReadableUser};
ghost use Rattle.sql_schema.specs.Steps.{LeavesNone};
ghost use Rattle.sql_schema.specs.declared.edition.Edition.TheVariants.{Third};
ghost use Rattle.book_kept.specs.declared.records.KeptUser.{KeptUser as TheUser};
ghost use Rattle.sql_whole.specs.Tables.{AreSlipCounts};
ghost use Rattle.sql_whole.specs.Faults.{IsOfDatabase};
ghost use Rattle.sql_whole.specs.Typed.{Each};
ghost use Rattle.sql_whole.specs.Whole.{IsAnswered, OnReadable, Reads};

use crate::fault::{ReadFault, Table};
use crate::table_row::whole_table;
use book_kept::{KeptUser, SlipCount};
use money::Fault;
use sql_schema::{Edition, select_slip_counts};
use sqlite::{Alter, Connection};
use std::alloc::{AllocError, Global};

const QUERY: &str = select_slip_counts!("ORDER BY user_no");

/// The query for how many slips each user has, or none where the schema version has no slips.
pub(crate) fn query(edition: Edition) -> Option<&'static str>
    ensures { IfSome result (λ sql. IsAnswered edition sql.now) }
{
    match edition {
        Edition::First => None,
        Edition::Second => None,
        Edition::Third => Some(QUERY),
    }
}

/// How many slips each user has, by user. In schema versions before the third each of these users has none, and
/// no table is asked.
pub fn all_slip_counts<S: Alter>(
    alloc: Global,
    conn: &mut Connection<S>,
    edition: Edition,
    users: &[KeptUser],
) -> Result<Vec<SlipCount>, ReadFault>
    ensures mode { conn.old.in_transaction ≡ false → conn.new.in_transaction ≡ false }
    ensures whole { IsTrue (state S.Store conn.old).is_open → Reads edition (state S.Store conn.old) (state S.Store conn.new) (λ trees rows. AreSlipCounts edition users.now trees rows.items) result }
    ensures typed { Each IsReadableUser users.now → IfOk result (λ rows. Each IsReadableSlipCount rows.items) }
    ensures takes { OnReadable edition (state S.Store conn.old) (state S.Store conn.new) (IfErr result IsOfDatabase) }
    ensures survives { LeavesNone (state S.Store conn.old) (state S.Store conn.new) }
{
    match edition {
        Edition::First => no_slips(alloc, users),
        Edition::Second => no_slips(alloc, users),
        Edition::Third => third_slip_counts(alloc, conn),
    }
}

/// No slips of each of these users. Only memory keeps it from that.
fn no_slips(alloc: Global, users: &[KeptUser]) -> Result<Vec<SlipCount>, ReadFault>
    ensures counts { IfOk result (λ rows. rows.items ≡ map without_slips users.now) }
    ensures typed { Each IsReadableUser users.now → IfOk result (λ rows. Each IsReadableSlipCount rows.items) }
    ensures takes { IfErr result IsOfDatabase }
{
    match each_without(alloc, users) {
        Ok(counts) => Ok(counts),
        Err(_) => Err(ReadFault::Fault(Fault::Memory)),
    }
}

/// A count of no slips for each of these users.
fn each_without(alloc: Global, users: &[KeptUser]) -> Result<Vec<SlipCount>, AllocError>
    ensures { IfOk result (λ rows. rows.items ≡ map without_slips users.now) }
{
    let mut counts = Vec::with_capacity(alloc, users.len())?;
    for user in users {
        counts.push(SlipCount {
            user: user.row.user,
            slips: 0,
        })?;
    }
    Ok(counts)
}

/// Those of the table `slip_counts`.
fn third_slip_counts<S: Alter>(
    alloc: Global,
    conn: &mut Connection<S>,
) -> Result<Vec<SlipCount>, ReadFault>
    ensures mode { conn.old.in_transaction ≡ false → conn.new.in_transaction ≡ false }
    ensures whole { (users : List TheUser) → Reads Third (state S.Store conn.old) (state S.Store conn.new) (λ trees rows. AreSlipCounts Third users trees rows.items) result }
    ensures typed { IfOk result (λ rows. Each IsReadableSlipCount rows.items) }
    ensures takes { OnReadable Third (state S.Store conn.old) (state S.Store conn.new) (IfErr result IsOfDatabase) }
    ensures survives { LeavesNone (state S.Store conn.old) (state S.Store conn.new) }
{
    whole_table(alloc, conn, Edition::Third, QUERY, Table::SlipCounts)
}
