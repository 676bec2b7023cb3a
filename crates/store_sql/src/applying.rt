//! A plan applied to the tables, in a transaction that is committed only when the whole of it is written.

ghost use Rattle.std.specs.Prelude.{◌≡◌, false, IsTrue, OnErr, OnOk};
ghost use Rattle.sqlite.specs.Held.{state};
ghost use Rattle.sqlite.specs.State.{HasCleanDisk, Survives};
ghost use Rattle.bank_books.specs.Effects.{applied};
ghost use Rattle.bank_books.specs.Version.{has_version_for};
ghost use Rattle.bank_books.specs.WorldLists.{WorldLists};
ghost use Rattle.sql_schema.specs.Held.{AreOfWorld, HoldsBank};
ghost use Rattle.sql_writes.specs.Known.{AreKnownOf};

use bank_books::RowWrite;
use money::Fault;
use sql_schema::commit;
use sql_writes::{KnownRows, write_plan};
use sqlite::{Alter, Connection};
use std::alloc::Global;

/// Writes the whole plan in one transaction, or at a fault nothing of it. Rows that are known are not read.
fn apply_whole<S: Alter>(
    alloc: Global,
    conn: &mut Connection<S>,
    known: &mut KnownRows,
    plan: &[RowWrite],
) -> Result<(), Fault>
    requires { conn.old.in_transaction ≡ false }
    ensures mode { conn.new.in_transaction ≡ false }
    ensures in_full { HasCleanDisk (state S.Store conn.new) → (w : WorldLists) → HoldsBank (state S.Store conn.old) w → AreKnownOf w known.old → OnOk result (HoldsBank (state S.Store conn.new) (applied plan.now w)) }
    ensures known { HasCleanDisk (state S.Store conn.new) → (w : WorldLists) → HoldsBank (state S.Store conn.old) w → AreKnownOf w known.old → OnOk result (AreKnownOf (applied plan.now w) known.new) }
    ensures refused { HasCleanDisk (state S.Store conn.new) → (w : WorldLists) → HoldsBank (state S.Store conn.old) w → AreKnownOf w known.old → OnErr result (IsTrue (state S.Store conn.new).is_open → HoldsBank (state S.Store conn.new) w) }
    ensures room { HasCleanDisk (state S.Store conn.new) → (w : WorldLists) → HoldsBank (state S.Store conn.old) w → AreKnownOf w known.old → OnOk result (IsTrue (has_version_for plan.now w.version)) }
    ensures was_open { HasCleanDisk (state S.Store conn.new) → IsTrue (state S.Store conn.new).is_open → IsTrue (state S.Store conn.old).is_open }
    ensures stays_open { HasCleanDisk (state S.Store conn.new) → OnOk result (IsTrue (state S.Store conn.new).is_open) }
    ensures crash { Survives (state S.Store conn.old) (state S.Store conn.new) (λ trees. IsTrue (state S.Store conn.old).is_open × ((w : WorldLists) → HoldsBank (state S.Store conn.old) w → AreKnownOf w known.old → AreOfWorld (applied plan.now w) trees)) }
{
    let mut tx = conn.transaction();
    write_plan(alloc, &mut tx, known, plan)?;
    commit(tx)
}

/// Writes the whole plan in one transaction, or at a fault nothing of it. What is known then is so of the World after it, and at a fault
/// nothing is.
pub(crate) fn apply_plan<S: Alter>(
    alloc: Global,
    conn: &mut Connection<S>,
    known: &mut KnownRows,
    plan: &[RowWrite],
) -> Result<(), Fault>
    requires { conn.old.in_transaction ≡ false }
    ensures mode { conn.new.in_transaction ≡ false }
    ensures in_full { HasCleanDisk (state S.Store conn.new) → (w : WorldLists) → HoldsBank (state S.Store conn.old) w → AreKnownOf w known.old → OnOk result (HoldsBank (state S.Store conn.new) (applied plan.now w)) }
    ensures known { HasCleanDisk (state S.Store conn.new) → (w : WorldLists) → HoldsBank (state S.Store conn.old) w → AreKnownOf w known.old → OnOk result (AreKnownOf (applied plan.now w) known.new) }
    ensures forgot { OnErr result ((w : WorldLists) → AreKnownOf w known.new) }
    ensures refused { HasCleanDisk (state S.Store conn.new) → (w : WorldLists) → HoldsBank (state S.Store conn.old) w → AreKnownOf w known.old → OnErr result (IsTrue (state S.Store conn.new).is_open → HoldsBank (state S.Store conn.new) w) }
    ensures room { HasCleanDisk (state S.Store conn.new) → (w : WorldLists) → HoldsBank (state S.Store conn.old) w → AreKnownOf w known.old → OnOk result (IsTrue (has_version_for plan.now w.version)) }
    ensures was_open { HasCleanDisk (state S.Store conn.new) → IsTrue (state S.Store conn.new).is_open → IsTrue (state S.Store conn.old).is_open }
    ensures stays_open { HasCleanDisk (state S.Store conn.new) → OnOk result (IsTrue (state S.Store conn.new).is_open) }
    ensures crash { Survives (state S.Store conn.old) (state S.Store conn.new) (λ trees. IsTrue (state S.Store conn.old).is_open × ((w : WorldLists) → HoldsBank (state S.Store conn.old) w → AreKnownOf w known.old → AreOfWorld (applied plan.now w) trees)) }
{
    match apply_whole(alloc, conn, known, plan) {
        Ok(()) => Ok(()),
        Err(fault) => {
            *known = KnownRows::nothing();
            Err(fault)
        }
    }
}
