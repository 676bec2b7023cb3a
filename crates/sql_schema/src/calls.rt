//! The calls of the database. A fault of theirs is the name of the error that was returned.

ghost use Rattle.std.specs.Prelude.{◌≡◌, false, [], IfErr, IfOk, IsTrue, OnOk};
ghost use Rattle.sqlite.specs.Held.{state};
ghost use Rattle.sqlite.specs.State.{HasCleanDisk, KeepsCounts, Shown, Shows, Survives};
ghost use Rattle.sqlite.specs.Steps.{FailsToCommit};
ghost use Rattle.sqlite.specs.Values.{bound};
ghost use Rattle.sql_schema.specs.Faults.{IsNameOf};
ghost use Rattle.sql_schema.specs.ReadBack.{Refuses, Runs};
ghost use Rattle.sql_schema.specs.Steps.{Frame, RunsInside};

use crate::cells::fault_of;
use money::Fault;
use sqlite::types::ValueRef;
use sqlite::{Alter, Row, Transaction};

/// What a query shows. A fault is the name of the error that was returned.
pub(crate) fn shown_rows<S: Alter>(
    tx: &mut Transaction<'_, S>,
    sql: &str,
    params: &[ValueRef<'_>],
) -> Result<Vec<Row>, Fault>
    ensures frame { Frame S.Store tx.old.conn tx.new.conn }
    ensures ok { HasCleanDisk (state S.Store tx.new.conn.now) → IfOk result (λ rows. Shown sql.now (bound params.now) (state S.Store tx.old.conn.now) (state S.Store tx.new.conn.now) rows.items) }
    ensures err { HasCleanDisk (state S.Store tx.new.conn.now) → IfErr result (IsNameOf (Refuses sql.now (bound params.now) (state S.Store tx.old.conn.now) (state S.Store tx.new.conn.now))) }
{
    match tx.query_all(sql, params) {
        Ok(rows) => Ok(rows),
        Err(error) => Err(fault_of(error)),
    }
}

/// Runs a statement that writes, and returns how many rows it wrote. A fault is the name of the error returned.
pub fn run<S: Alter>(
    tx: &mut Transaction<'_, S>,
    sql: &str,
    params: &[ValueRef<'_>],
) -> Result<usize, Fault>
    ensures frame { Frame S.Store tx.old.conn tx.new.conn }
    ensures runs { RunsInside sql.now (bound params.now) (state S.Store tx.old.conn.now) (state S.Store tx.new.conn.now) result }
{
    match tx.execute(sql, params) {
        Ok(count) => Ok(count),
        Err(error) => Err(fault_of(error)),
    }
}

/// Commits the transaction. A fault is the name of the error that was returned.
pub fn commit<S: Alter>(tx: Transaction<'_, S>) -> Result<(), Fault>
    ensures ended { tx.exit.0.now.in_transaction ≡ false }
    ensures ok { HasCleanDisk (state S.Store tx.exit.0.now) → OnOk result (IsTrue (state S.Store tx.entry.conn.now).in_transaction × Shows (state S.Store tx.entry.conn.now) (state S.Store tx.exit.0.now) (state S.Store tx.entry.conn.now).now (state S.Store tx.entry.conn.now).now false × KeepsCounts (state S.Store tx.entry.conn.now) (state S.Store tx.exit.0.now) × ((state S.Store tx.exit.0.now).marks ≡ [])) }
    ensures err { HasCleanDisk (state S.Store tx.exit.0.now) → IfErr result (IsNameOf (FailsToCommit (state S.Store tx.entry.conn.now) (state S.Store tx.exit.0.now))) }
    ensures survives { Survives (state S.Store tx.entry.conn.now) (state S.Store tx.exit.0.now) (λ db. db ≡ (state S.Store tx.entry.conn.now).now.trees) }
{
    match tx.commit() {
        Ok(()) => Ok(()),
        Err(error) => Err(fault_of(error)),
    }
}
