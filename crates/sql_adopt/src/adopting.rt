//! A bank found in the tables of a schema version: all of them are read, judged, and left as they were.

ghost use Rattle.std.specs.Prelude.{◌≡◌, false, IfErr, IfOk, IsErrAnd, IsTrue, Ok, OnOk};
ghost use Rattle.sqlite.specs.Held.{state};
ghost use Rattle.sqlite.specs.State.{HasCleanDisk};
ghost use Rattle.bank_books.specs.Books.{Books};
ghost use Rattle.bank_books.specs.Records.{kept_of};
ghost use Rattle.book_kept.specs.Keepable.{IsKeepable};
ghost use Rattle.sql_schema.specs.Held.{HoldsSheets, HoldsSheetsIn};
ghost use Rattle.sql_schema.specs.Readable.{AreReadable};
ghost use Rattle.sql_schema.specs.Schema.{newest};
ghost use Rattle.sql_schema.specs.Steps.{LeavesNone};
ghost use Rattle.book_kept.specs.Sheets.{Sheets};
ghost use Rattle.policy_check.specs.PolicyVerdict.{IsPolicyVerdict};
ghost use Rattle.sql_adopt.specs.Adopted.{Adopts, Finds, IsLeft, IsOfAnother, OnAnyFile, OnFile, OnFileIn};
ghost use Rattle.sql_adopt.specs.Refused.{HoldsSoundBank, HoldsSoundBankIn, IsNamedBy, IsOfOther, IsOfStore, IsRefused, IsRefusedIn};

use crate::adopt_fault::AdoptFault;
use crate::bank_rows::BankRows;
use crate::judging::judge_file;
use crate::reading::read_file;
use sql_schema::Edition;
use sqlite::{Alter, Connection};
use std::alloc::Global;

/// The bank that stands in the database, in the tables of this schema version: each table is read whole, and the
/// numbers that are kept beside its rows are compared with those that the rows give. The faults are looked
/// for in this order: the row of the bank (not a bank, or another version), a table that can't be read (not
/// a bank), the books, the policy; a user's number or name that can't be read is reported as a fault of the policy,
/// once each row of the books was read. A fault of the database may come at any point; a bank whose books hold and
/// whose policy is sound and separated is refused for such a fault alone. Nothing is changed.
pub fn read_bank<S: Alter>(
    alloc: Global,
    conn: &mut Connection<S>,
    edition: Edition,
) -> Result<BankRows, AdoptFault>
    requires { conn.old.in_transaction ≡ false }
    ensures mode { conn.new.in_transaction ≡ false }
    ensures found { OnFileIn edition (state S.Store conn.old) (state S.Store conn.new) (IfOk result (λ bank. Finds edition (state S.Store conn.old).now bank.world)) }
    ensures refused { OnFileIn edition (state S.Store conn.old) (state S.Store conn.new) (IfErr result (IsRefusedIn edition (state S.Store conn.old).now.trees)) }
    ensures other { HasCleanDisk (state S.Store conn.new) → IsOfAnother edition (state S.Store conn.old) → IsErrAnd result IsOfOther }
    ensures sound { OnFileIn edition (state S.Store conn.old) (state S.Store conn.new) (HoldsSoundBankIn edition (state S.Store conn.old).now → IfErr result IsOfStore) }
    ensures named { OnFileIn edition (state S.Store conn.old) (state S.Store conn.new) ((s : Sheets) → HoldsSheetsIn edition (state S.Store conn.old).now.trees s → AreReadable s → IfErr result (IsNamedBy s)) }
    ensures left { OnAnyFile (state S.Store conn.old) (state S.Store conn.new) (λ is. IsLeft (state S.Store conn.old) (state S.Store conn.new)) }
    ensures kept { IfOk result (λ bank. (bank.kept ≡ kept_of bank.world) × IsKeepable bank.world) }
    ensures checked { IfOk result (λ bank. Books bank.world × IsPolicyVerdict bank.world.policy (Ok tt)) }
    ensures open { HasCleanDisk (state S.Store conn.new) → OnOk result (IsTrue (state S.Store conn.old).is_open) }
    ensures survives { LeavesNone (state S.Store conn.old) (state S.Store conn.new) }
{
    let rows = read_file(alloc, conn, edition)?;
    judge_file(alloc, rows)
}

/// The bank that stands in the newest tables, as `read_bank` says of them. Nothing is changed.
pub fn adopt_rows<S: Alter>(alloc: Global, conn: &mut Connection<S>) -> Result<BankRows, AdoptFault>
    requires { conn.old.in_transaction ≡ false }
    ensures mode { conn.new.in_transaction ≡ false }
    ensures adopts { OnFile (state S.Store conn.old) (state S.Store conn.new) (OnOk result (Adopts (state S.Store conn.old) (state S.Store conn.new))) }
    ensures found { OnFile (state S.Store conn.old) (state S.Store conn.new) (IfOk result (λ bank. Finds newest (state S.Store conn.old).now bank.world)) }
    ensures kept { IfOk result (λ bank. (bank.kept ≡ kept_of bank.world) × IsKeepable bank.world) }
    ensures checked { IfOk result (λ bank. Books bank.world × IsPolicyVerdict bank.world.policy (Ok tt)) }
    ensures refused { OnFile (state S.Store conn.old) (state S.Store conn.new) (IfErr result (IsRefused (state S.Store conn.old).now.trees)) }
    ensures other { HasCleanDisk (state S.Store conn.new) → IsOfAnother newest (state S.Store conn.old) → IsErrAnd result IsOfOther }
    ensures sound { OnFile (state S.Store conn.old) (state S.Store conn.new) (HoldsSoundBank (state S.Store conn.old).now → IfErr result IsOfStore) }
    ensures named { OnFile (state S.Store conn.old) (state S.Store conn.new) ((s : Sheets) → HoldsSheets (state S.Store conn.old).now.trees s → AreReadable s → IfErr result (IsNamedBy s)) }
    ensures left { OnAnyFile (state S.Store conn.old) (state S.Store conn.new) (λ is. IsLeft (state S.Store conn.old) (state S.Store conn.new)) }
    ensures survives { LeavesNone (state S.Store conn.old) (state S.Store conn.new) }
{
    read_bank(alloc, conn, Edition::Third)
}

/// Looks whether a bank stands in the newest tables, as `read_bank` says of them. Nothing is changed.
pub fn adopt_bank<S: Alter>(alloc: Global, conn: &mut Connection<S>) -> Result<(), AdoptFault>
    requires { conn.old.in_transaction ≡ false }
    ensures mode { conn.new.in_transaction ≡ false }
    ensures adopts { OnFile (state S.Store conn.old) (state S.Store conn.new) (OnOk result (Adopts (state S.Store conn.old) (state S.Store conn.new))) }
    ensures refused { OnFile (state S.Store conn.old) (state S.Store conn.new) (IfErr result (IsRefused (state S.Store conn.old).now.trees)) }
    ensures other { HasCleanDisk (state S.Store conn.new) → IsOfAnother newest (state S.Store conn.old) → IsErrAnd result IsOfOther }
    ensures sound { OnFile (state S.Store conn.old) (state S.Store conn.new) (HoldsSoundBank (state S.Store conn.old).now → IfErr result IsOfStore) }
    ensures named { OnFile (state S.Store conn.old) (state S.Store conn.new) ((s : Sheets) → HoldsSheets (state S.Store conn.old).now.trees s → AreReadable s → IfErr result (IsNamedBy s)) }
    ensures left { OnAnyFile (state S.Store conn.old) (state S.Store conn.new) (λ is. IsLeft (state S.Store conn.old) (state S.Store conn.new)) }
    ensures survives { LeavesNone (state S.Store conn.old) (state S.Store conn.new) }
{
    adopt_rows(alloc, conn)?;
    Ok(())
}
