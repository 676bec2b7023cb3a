//! A bank made of a World, and the store that answers from it then.

ghost use Rattle.std.specs.Prelude.{◌≡◌, false, IfErr, IfOk, IsTrue, MatchResult, OnOk};
ghost use Rattle.sqlite.specs.Held.{state};
ghost use Rattle.sqlite.specs.State.{HasCleanDisk, KeepsCommit, Survives};
ghost use Rattle.sql_schema.specs.Held.{AreOfWorld};
ghost use Rattle.sql_create.specs.Blank.{no_schema};
ghost use Rattle.sql_create.specs.Made.{IsBank, IsBeforehand, IsKeptAs, IsRefusal};
ghost use Rattle.store_sql.specs.Bank.{KnowsNothing};

use crate::making::make_bank;
use crate::open_fault::OpenFault;
use bank_books::World;
use sqlite::{Alter, Connection};
use std::alloc::Global;
use store_sql::SqlStore;

/// The store of a bank that is made of this World in a database with no table, no index and no view. It is
/// refused as `make_bank` says, and the connection is then handed back beside the fault, with nothing committed.
pub fn create<S: Alter>(
    alloc: Global,
    mut conn: Connection<S>,
    world: &World,
) -> Result<SqlStore<S>, (OpenFault, Connection<S>)>
    requires { conn.in_transaction ≡ false }
    ensures bank { OnOk result (IsBank world.now) }
    ensures was_empty { OnOk result ((state S.Store conn).now.schema ≡ no_schema) }
    ensures kept { IfOk result (λ store. HasCleanDisk (state S.Store store.conn) → IsKeptAs (state S.Store store.conn) world.now) }
    ensures open { IfOk result (λ store. HasCleanDisk (state S.Store store.conn) → IsTrue (state S.Store store.conn).is_open) }
    ensures works { IfOk result (λ store. (store.is_stopped ≡ false) × (store.faults ≡ 0) × (store.failures ≡ 0)) }
    ensures known { IfOk result (λ store. KnowsNothing store.known) }
    ensures refused { IfErr result (λ e. IsRefusal (state S.Store conn).now.schema world.now e.0) }
    ensures untouched { IfErr result (λ e. IsBeforehand e.0 → e.1 ≡ conn) }
    ensures unmade { IfErr result (λ e. HasCleanDisk (state S.Store e.1) → KeepsCommit (state S.Store conn) (state S.Store e.1)) }
    ensures mode { IfErr result (λ e. e.1.in_transaction ≡ false) }
    ensures crash { MatchResult result (λ store. Survives (state S.Store conn) (state S.Store store.conn) (AreOfWorld world.now)) (λ e. Survives (state S.Store conn) (state S.Store e.1) (AreOfWorld world.now)) }
{
    match make_bank(alloc, &mut conn, world) {
        Ok(()) => Ok(SqlStore::over(conn)),
        Err(fault) => Err((fault, conn)),
    }
}
