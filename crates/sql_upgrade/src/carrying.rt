//! The tables of a schema version before the newest, replaced by those of the newest.

ghost use Rattle.std.specs.Prelude.{◌≡◌, ◌≢◌, false, IsTrue, OnErr, OnOk};
ghost use Rattle.sqlite.specs.Held.{state};
ghost use Rattle.sqlite.specs.State.{HasCleanDisk, Survives};
ghost use Rattle.bank_books.specs.Records.{kept_of};
ghost use Rattle.book_kept.specs.Keepable.{IsKeepable};
ghost use Rattle.sql_schema.specs.Held.{AreOfWorld, HoldsBank, HoldsWorld};
ghost use Rattle.sql_schema.specs.Schema.{newest, schema_of};
ghost use Rattle.sql_schema.specs.Steps.{Frame};
ghost use Rattle.sql_upgrade.specs.Carried.{CommitsNone, IsOf};
ghost use Rattle.sql_upgrade.specs.Left.{HasSchema};
ghost use Rattle.sql_upgrade.specs.Proceeds.{Proceeds};

use crate::dropping::drop_tables;
use bank_books::World;
use book_sums::Kept;
use money::Fault;
use sql_create::write_bank;
use sql_schema::{Edition, commit};
use sqlite::{Alter, Connection, Transaction};
use std::alloc::Global;

/// Takes the tables of an older schema version away, and writes the bank to those of the newest.
fn rewrite_bank<S: Alter>(
    alloc: Global,
    tx: &mut Transaction<'_, S>,
    edition: Edition,
    world: &World,
    kept: &Kept,
) -> Result<(), Fault>
    requires older { edition ≢ newest }
    requires kept { kept.now ≡ kept_of world.now }
    requires keepable { IsKeepable world.now }
    ensures frame { Frame S.Store tx.old.conn tx.new.conn }
    ensures proceeds { Proceeds (state S.Store tx.old.conn.now) (state S.Store tx.new.conn.now) (HasSchema (schema_of edition)) (λ db. HoldsWorld db world.now) result }
{
    drop_tables(tx, edition)?;
    write_bank(alloc, tx, world, kept)
}

/// Carries a bank over in one transaction, or at a fault nothing of it: whatever stood in the tables of the
/// older schema version, those of the newest hold this World then.
pub(crate) fn carry_bank<S: Alter>(
    alloc: Global,
    conn: &mut Connection<S>,
    edition: Edition,
    world: &World,
    kept: &Kept,
) -> Result<(), Fault>
    requires idle { conn.old.in_transaction ≡ false }
    requires older { edition ≢ newest }
    requires kept { kept.now ≡ kept_of world.now }
    requires keepable { IsKeepable world.now }
    ensures mode { conn.new.in_transaction ≡ false }
    ensures made { HasCleanDisk (state S.Store conn.new) → IsOf edition (state S.Store conn.old) → OnOk result (HoldsBank (state S.Store conn.new) world.now) }
    ensures open { HasCleanDisk (state S.Store conn.new) → OnOk result (IsTrue (state S.Store conn.new).is_open) }
    ensures unmade { HasCleanDisk (state S.Store conn.new) → OnErr result (CommitsNone (state S.Store conn.old) (state S.Store conn.new)) }
    ensures crash { Survives (state S.Store conn.old) (state S.Store conn.new) (λ trees. IsOf edition (state S.Store conn.old) → AreOfWorld world.now trees) }
{
    let mut tx = conn.transaction();
    rewrite_bank(alloc, &mut tx, edition, world, kept)?;
    commit(tx)
}
