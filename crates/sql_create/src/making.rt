//! A bank made of a World in one transaction, in a database that is empty.

ghost use Rattle.std.specs.Prelude.{◌≡◌, ◌↔◌, false, IfErr, IsTrue, OnErr, OnOk};
ghost use Rattle.sqlite.specs.Held.{state};
ghost use Rattle.sqlite.specs.State.{HasCleanDisk, KeepsCommit, Survives};
ghost use Rattle.bank_books.specs.Records.{kept_of};
ghost use Rattle.book_kept.specs.Keepable.{IsKeepable};
ghost use Rattle.sql_schema.specs.Held.{AreOfWorld, HoldsBank, HoldsWorld};
ghost use Rattle.sql_schema.specs.Steps.{Frame};
ghost use Rattle.sql_create.specs.Blank.{IsBlank, no_schema};
ghost use Rattle.sql_create.specs.Goes.{Goes};
ghost use Rattle.sql_create.specs.Made.{IsBank, IsBeforehand, IsRefusal};

use crate::bank_row::add_bank;
use crate::checks::checked;
use crate::filling::fill;
use crate::open_fault::OpenFault;
use crate::tables::make_tables;
use bank_books::World;
use book_sums::Kept;
use money::Fault;
use sql_schema::commit;
use sqlite::{Alter, Connection, Transaction};
use sqlite_schema::schema::Schema;
use std::alloc::Global;

/// Whether a database of this schema has no table, no index and no view.
fn is_empty(schema: &Schema) -> bool
    ensures { IsTrue result ↔ (schema.now ≡ no_schema) }
{
    schema.tables.is_empty() && schema.indexes.is_empty() && schema.views.is_empty()
}

/// Makes the tables of the bank in the newest schema version and writes all its rows.
pub fn write_bank<S: Alter>(
    alloc: Global,
    tx: &mut Transaction<'_, S>,
    world: &World,
    kept: &Kept,
) -> Result<(), Fault>
    requires kept { kept.now ≡ kept_of world.now }
    requires keepable { IsKeepable world.now }
    ensures frame { Frame S.Store tx.old.conn tx.new.conn }
    ensures goes { Goes (state S.Store tx.old.conn.now) (state S.Store tx.new.conn.now) (IsBlank no_schema) (λ db. HoldsWorld db world.now) result }
{
    make_tables(tx)?;
    add_bank(tx, world.version())?;
    fill(alloc, tx, world, kept)
}

/// Makes the bank in one transaction, or at a fault nothing of it.
fn commit_bank<S: Alter>(
    alloc: Global,
    conn: &mut Connection<S>,
    world: &World,
    kept: &Kept,
) -> Result<(), Fault>
    requires idle { conn.old.in_transaction ≡ false }
    requires empty { (state S.Store conn.old).now.schema ≡ no_schema }
    requires kept { kept.now ≡ kept_of world.now }
    requires keepable { IsKeepable world.now }
    ensures mode { conn.new.in_transaction ≡ false }
    ensures made { HasCleanDisk (state S.Store conn.new) → OnOk result (HoldsBank (state S.Store conn.new) world.now) }
    ensures open { HasCleanDisk (state S.Store conn.new) → OnOk result (IsTrue (state S.Store conn.new).is_open) }
    ensures unmade { HasCleanDisk (state S.Store conn.new) → OnErr result (KeepsCommit (state S.Store conn.old) (state S.Store conn.new)) }
    ensures crash { Survives (state S.Store conn.old) (state S.Store conn.new) (AreOfWorld world.now) }
{
    let mut tx = conn.transaction();
    write_bank(alloc, &mut tx, world, kept)?;
    commit(tx)
}

/// Makes a bank of this World in a database that has no table, no index and no view: its tables, and in
/// them its rows with the numbers that are kept beside them, in one transaction. It is tested in this order
/// whether the books hold, whether the policy is sound and separated, and whether the database is empty;
/// memory and the disk may fail at any point. Where it is refused nothing is committed, and nothing was done
/// with the connection where it is for the World, or for what stands in the database.
pub fn make_bank<S: Alter>(
    alloc: Global,
    conn: &mut Connection<S>,
    world: &World,
) -> Result<(), OpenFault>
    requires { conn.old.in_transaction ≡ false }
    ensures mode { conn.new.in_transaction ≡ false }
    ensures bank { OnOk result (IsBank world.now) }
    ensures was_empty { OnOk result ((state S.Store conn.old).now.schema ≡ no_schema) }
    ensures made { HasCleanDisk (state S.Store conn.new) → OnOk result (HoldsBank (state S.Store conn.new) world.now) }
    ensures open { HasCleanDisk (state S.Store conn.new) → OnOk result (IsTrue (state S.Store conn.new).is_open) }
    ensures refused { IfErr result (IsRefusal (state S.Store conn.old).now.schema world.now) }
    ensures untouched { IfErr result (λ fault. IsBeforehand fault → conn.new ≡ conn.old) }
    ensures unmade { HasCleanDisk (state S.Store conn.new) → OnErr result (KeepsCommit (state S.Store conn.old) (state S.Store conn.new)) }
    ensures crash { Survives (state S.Store conn.old) (state S.Store conn.new) (AreOfWorld world.now) }
{
    let kept = checked(alloc, world)?;
    if !is_empty(conn.schema()) {
        return Err(OpenFault::NotEmpty);
    }
    match commit_bank(alloc, conn, world, &kept) {
        Ok(()) => Ok(()),
        Err(fault) => Err(OpenFault::Fault(fault)),
    }
}
