//! The store of a bank whose file is of an older schema version, migrated to the newest.

ghost use Rattle.std.specs.Prelude.{◌≡◌, false, IfErr, IfOk, IsErrAnd, IsTrue, MatchResult, OnErr, OnOk};
ghost use Rattle.sqlite.specs.Held.{state};
ghost use Rattle.sqlite.specs.State.{HasCleanDisk, Survives};
ghost use Rattle.sql_schema.specs.Held.{HoldsSheetsIn};
ghost use Rattle.sql_schema.specs.Readable.{AreReadable};
ghost use Rattle.sql_schema.specs.Steps.{LeavesNone};
ghost use Rattle.book_kept.specs.Sheets.{Sheets};
ghost use Rattle.sql_adopt.specs.Adopted.{IsLeft, OnAnyFile};
ghost use Rattle.sql_adopt.specs.Older.{IsNewestFile, OnOlderFile};
ghost use Rattle.sql_adopt.specs.Refused.{HoldsSoundBankIn, IsNamedBy, IsOfOther, IsOfStore, IsRefusedIn};
ghost use Rattle.sql_upgrade.specs.Carried.{Carries, IsCarriedOver};
ghost use Rattle.store_sql.specs.Bank.{KnowsNothing};

use crate::carrying::carry_bank;
use sql_adopt::{AdoptFault, read_older_bank};
use sqlite::{Alter, Connection};
use std::alloc::Global;
use store_sql::SqlStore;

/// Carries over the bank that stands in the tables of an older schema version, which its own row names: it is read
/// whole and judged, and then written to those of the newest. It is refused as `read_older_bank` says.
fn upgrade_bank<S: Alter>(alloc: Global, conn: &mut Connection<S>) -> Result<(), AdoptFault>
    requires { conn.old.in_transaction ≡ false }
    ensures mode { conn.new.in_transaction ≡ false }
    ensures carries { OnOlderFile (state S.Store conn.old) (state S.Store conn.new) (λ e. OnOk result (Carries e (state S.Store conn.old) (state S.Store conn.new))) }
    ensures refused { OnOlderFile (state S.Store conn.old) (state S.Store conn.new) (λ e. IfErr result (IsRefusedIn e (state S.Store conn.old).now.trees)) }
    ensures other { HasCleanDisk (state S.Store conn.new) → IsNewestFile (state S.Store conn.old) → IsErrAnd result IsOfOther }
    ensures sound { OnOlderFile (state S.Store conn.old) (state S.Store conn.new) (λ e. HoldsSoundBankIn e (state S.Store conn.old).now → IfErr result IsOfStore) }
    ensures named { OnOlderFile (state S.Store conn.old) (state S.Store conn.new) (λ e. (s : Sheets) → HoldsSheetsIn e (state S.Store conn.old).now.trees s → AreReadable s → IfErr result (IsNamedBy s)) }
    ensures open { HasCleanDisk (state S.Store conn.new) → OnOk result (IsTrue (state S.Store conn.new).is_open) }
    ensures unchanged { OnAnyFile (state S.Store conn.old) (state S.Store conn.new) (λ is. OnErr result (IsLeft (state S.Store conn.old) (state S.Store conn.new))) }
    ensures untouched { IfErr result (λ fault. (IsOfStore fault → ⊥) → LeavesNone (state S.Store conn.old) (state S.Store conn.new)) }
    ensures crash { Survives (state S.Store conn.old) (state S.Store conn.new) (λ trees. OnOlderFile (state S.Store conn.old) (state S.Store conn.new) (λ e. IsCarriedOver e (state S.Store conn.old) trees)) }
{
    // A connection's schema, and that nothing is begun in it, show that its state is one that it can be in.
    let _schema = conn.schema();
    let older = read_older_bank(alloc, conn)?;
    let bank = &older.bank;
    match carry_bank(alloc, conn, older.edition, &bank.world, &bank.kept) {
        Ok(()) => Ok(()),
        Err(fault) => {
            let _left = conn.schema();
            let _idle = conn.is_autocommit();
            Err(AdoptFault::Fault(fault))
        }
    }
}

/// The store of the bank that stands in the tables of a schema version before the newest, carried over to those
/// of the newest in one transaction: these hold the World that those held, in which triples of the first schema
/// version are valid from the first moment to the last that there is, and no user has a slip. A bank is refused as
/// `adopt` refuses one of the newest schema version, and one that is of the newest already, as of another version;
/// the connection is then handed back beside the fault, and what it shows is as it was. Only where the fault is
/// one of the database may a crash find the bank carried over all the same.
pub fn upgrade<S: Alter>(
    alloc: Global,
    mut conn: Connection<S>,
) -> Result<SqlStore<S>, (AdoptFault, Connection<S>)>
    requires { conn.in_transaction ≡ false }
    ensures carries { IfOk result (λ store. OnOlderFile (state S.Store conn) (state S.Store store.conn) (λ e. Carries e (state S.Store conn) (state S.Store store.conn))) }
    ensures open { IfOk result (λ store. HasCleanDisk (state S.Store store.conn) → IsTrue (state S.Store store.conn).is_open) }
    ensures works { IfOk result (λ store. (store.is_stopped ≡ false) × (store.faults ≡ 0) × (store.failures ≡ 0)) }
    ensures known { IfOk result (λ store. KnowsNothing store.known) }
    ensures refused { IfErr result (λ x. OnOlderFile (state S.Store conn) (state S.Store x.1) (λ e. IsRefusedIn e (state S.Store conn).now.trees x.0)) }
    ensures sound { IfErr result (λ x. OnOlderFile (state S.Store conn) (state S.Store x.1) (λ e. HoldsSoundBankIn e (state S.Store conn).now → IsOfStore x.0)) }
    ensures named { IfErr result (λ x. OnOlderFile (state S.Store conn) (state S.Store x.1) (λ e. (s : Sheets) → HoldsSheetsIn e (state S.Store conn).now.trees s → AreReadable s → IsNamedBy s x.0)) }
    ensures other { MatchResult result (λ store. HasCleanDisk (state S.Store store.conn) → IsNewestFile (state S.Store conn) → ⊥) (λ x. HasCleanDisk (state S.Store x.1) → IsNewestFile (state S.Store conn) → IsOfOther x.0) }
    ensures unchanged { IfErr result (λ x. OnAnyFile (state S.Store conn) (state S.Store x.1) (λ is. IsLeft (state S.Store conn) (state S.Store x.1))) }
    ensures untouched { IfErr result (λ x. (IsOfStore x.0 → ⊥) → LeavesNone (state S.Store conn) (state S.Store x.1)) }
    ensures mode { IfErr result (λ x. x.1.in_transaction ≡ false) }
    ensures crash { MatchResult result (λ store. Survives (state S.Store conn) (state S.Store store.conn) (λ trees. OnOlderFile (state S.Store conn) (state S.Store store.conn) (λ e. IsCarriedOver e (state S.Store conn) trees))) (λ x. Survives (state S.Store conn) (state S.Store x.1) (λ trees. OnOlderFile (state S.Store conn) (state S.Store x.1) (λ e. IsCarriedOver e (state S.Store conn) trees))) }
{
    match upgrade_bank(alloc, &mut conn) {
        Ok(()) => Ok(SqlStore::over(conn)),
        Err(fault) => Err((fault, conn)),
    }
}
