//! A store made from a connection where the newest tables hold a bank.

ghost use Rattle.std.specs.Prelude.{◌≡◌, false, IfErr, IfOk, MatchResult};
ghost use Rattle.sqlite.specs.Held.{state};
ghost use Rattle.sqlite.specs.State.{HasCleanDisk};
ghost use Rattle.sql_schema.specs.Held.{HoldsSheets};
ghost use Rattle.sql_schema.specs.Readable.{AreReadable};
ghost use Rattle.sql_schema.specs.Schema.{newest};
ghost use Rattle.sql_schema.specs.Steps.{LeavesNone};
ghost use Rattle.sql_schema.specs.declared.edition.Edition.{Edition};
ghost use Rattle.book_kept.specs.Sheets.{Sheets};
ghost use Rattle.sql_adopt.specs.Adopted.{Adopts, IsBankFileIn, IsLeft, IsOfAnother, OnFile};
ghost use Rattle.sql_adopt.specs.Refused.{HoldsSoundBank, IsNamedBy, IsOfOther, IsOfStore, IsRefused};
ghost use Rattle.store_sql.specs.Bank.{KnowsNothing};

use crate::adopt_fault::AdoptFault;
use crate::adopting::adopt_bank;
use sqlite::{Alter, Connection};
use std::alloc::Global;
use store_sql::SqlStore;

/// The store of the bank that stands in the database. It is refused as `adopt_bank` says, and the connection
/// is then handed back beside the fault, with nothing changed.
pub fn adopt<S: Alter>(
    alloc: Global,
    mut conn: Connection<S>,
) -> Result<SqlStore<S>, (AdoptFault, Connection<S>)>
    requires { conn.in_transaction ≡ false }
    ensures adopts { IfOk result (λ store. OnFile (state S.Store conn) (state S.Store store.conn) (Adopts (state S.Store conn) (state S.Store store.conn))) }
    ensures left { IfOk result (λ store. OnFile (state S.Store conn) (state S.Store store.conn) (IsLeft (state S.Store conn) (state S.Store store.conn))) }
    ensures works { IfOk result (λ store. (store.is_stopped ≡ false) × (store.faults ≡ 0) × (store.failures ≡ 0)) }
    ensures known { IfOk result (λ store. KnowsNothing store.known) }
    ensures refused { IfErr result (λ e. OnFile (state S.Store conn) (state S.Store e.1) (IsRefused (state S.Store conn).now.trees e.0)) }
    ensures sound { IfErr result (λ e. OnFile (state S.Store conn) (state S.Store e.1) (HoldsSoundBank (state S.Store conn).now → IsOfStore e.0)) }
    ensures named { IfErr result (λ e. OnFile (state S.Store conn) (state S.Store e.1) ((s : Sheets) → HoldsSheets (state S.Store conn).now.trees s → AreReadable s → IsNamedBy s e.0)) }
    ensures other { MatchResult result (λ store. HasCleanDisk (state S.Store store.conn) → IsOfAnother newest (state S.Store conn) → ⊥) (λ e. HasCleanDisk (state S.Store e.1) → IsOfAnother newest (state S.Store conn) → IsOfOther e.0) }
    ensures unchanged { IfErr result (λ e. HasCleanDisk (state S.Store e.1) → (is : Edition) → IsBankFileIn is (state S.Store conn) → IsLeft (state S.Store conn) (state S.Store e.1)) }
    ensures mode { IfErr result (λ e. e.1.in_transaction ≡ false) }
    ensures survives { MatchResult result (λ store. LeavesNone (state S.Store conn) (state S.Store store.conn)) (λ e. LeavesNone (state S.Store conn) (state S.Store e.1)) }
{
    match adopt_bank(alloc, &mut conn) {
        Ok(()) => Ok(SqlStore::over(conn)),
        Err(fault) => Err((fault, conn)),
    }
}
