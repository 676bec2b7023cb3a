//! A file of a schema version before the newest, read in the version that its own row of the bank names.

ghost use Rattle.std.specs.Prelude.{ℕ, ◌≡◌, ◌≢◌, ◌↔◌, Some, false, pos, IfErr, IfOk, IsErrAnd, IsOk, IsSome, IsTrue, OnOk};
ghost use Rattle.sqlite.specs.Effect.{IsDatabase};
ghost use Rattle.sqlite.specs.Held.{state};
ghost use Rattle.sqlite.specs.State.{HasCleanDisk};
ghost use Rattle.sqlite.specs.Tree.{Trees};
ghost use Rattle.bank_books.specs.Records.{kept_of};
ghost use Rattle.book_kept.specs.Keepable.{IsKeepable};
ghost use Rattle.sql_schema.specs.Cells.{edition_number};
ghost use Rattle.sql_schema.specs.Held.{HoldsSheetsIn};
ghost use Rattle.sql_schema.specs.Readable.{AreReadable};
ghost use Rattle.sql_schema.specs.Schema.{newest};
ghost use Rattle.sql_schema.specs.declared.edition.Edition.{Edition as TheEdition};
ghost use Rattle.sql_schema.specs.Steps.{IsReadOnly, LeavesNone};
ghost use Rattle.book_kept.specs.Sheets.{Sheets};
ghost use Rattle.sql_whole.specs.BankRow.{IsBankTable};
ghost use Rattle.sql_whole.specs.Whole.{HasBankTables, OnReadable, Reads};
ghost use Rattle.sql_adopt.specs.Adopted.{AreFileRows, Finds, IsBankRow, IsLeft, OnAnyFile, ReadsLast};
ghost use Rattle.sql_adopt.specs.Older.{BearsNoOther, IsNewestFile, IsNoBank, IsOlderRow, NamesOlder, OnOlderFile};
ghost use Rattle.sql_adopt.specs.Refused.{HoldsSoundBankIn, IsNamedBy, IsOfOther, IsOfStore, IsRefusedIn, RefusesFor};

use crate::adopt_fault::{AdoptFault, table_unread};
use crate::bank_rows::BankRows;
use crate::judging::judge_file;
use crate::reading::{FileRows, all_rows};
use sql_schema::Edition;
use sql_whole::{BankRow, bank_row};
use sqlite::{Alter, Connection};
use std::alloc::Global;

/// A bank of a schema version before the newest.
#[derive(Drop)]
pub struct OlderBank {
    /// The schema version of its tables.
    pub edition: Edition,
    /// Its World with the numbers that are kept beside it.
    pub bank: BankRows,
}

/// The rows of all tables of such a bank.
#[derive(Drop)]
struct OlderRows {
    edition: Edition,
    rows: FileRows,
}

/// The row of the bank, where this is what its table has.
fn bank_row_in(found: Option<BankRow>) -> Result<BankRow, AdoptFault>
    ensures row { IfOk result (λ row. (found ≡ Some row) × (row.id ≡ pos 1)) }
    ensures none { (db : Trees) → IsBankTable db found → IfErr result (IsNoBank db) }
{
    match found {
        Some(row) if row.id == 1 => Ok(row),
        _ => Err(AdoptFault::NotABank),
    }
}

/// Whether the row of the bank is of this schema version.
fn is_of(row: &BankRow, edition: Edition) -> bool
    ensures { IsTrue result ↔ (row.now.version ≡ pos (edition_number edition)) }
{
    row.version == edition.number()
}

/// The schema version that the row of the bank names, where that is not the newest.
fn older_in(found: Option<BankRow>) -> Result<Edition, AdoptFault>
    ensures row { IfOk result (NamesOlder found) }
    ensures refused { (e : TheEdition) → e ≢ newest → (db : Trees) → IsBankTable db found → IfErr result (IsRefusedIn e db) }
    ensures other { (db : Trees) (version : ℕ) → IsBankTable db found → IsBankRow newest db version → IsErrAnd result IsOfOther }
    ensures first { (e : TheEdition) → e ≢ newest → (db : Trees) (version : ℕ) → IsBankTable db found → IsBankRow e db version → IsOk result }
{
    let row = bank_row_in(found)?;
    if is_of(&row, Edition::First) {
        return Ok(Edition::First);
    }
    if is_of(&row, Edition::Second) {
        return Ok(Edition::Second);
    }
    Err(AdoptFault::Version)
}

fn edition_read<S: Alter>(conn: &mut Connection<S>) -> Result<Edition, AdoptFault>
    ensures mode { conn.old.in_transaction ≡ false → conn.new.in_transaction ≡ false }
    ensures whole { (e : TheEdition) → Reads e (state S.Store conn.old) (state S.Store conn.new) IsOlderRow result }
    ensures older { IfOk result (λ edition. edition ≢ newest) }
    ensures refused { (e : TheEdition) → e ≢ newest → RefusesFor e (state S.Store conn.old) (state S.Store conn.new) result }
    ensures other { HasCleanDisk (state S.Store conn.new) → (e : TheEdition) → HasBankTables e (state S.Store conn.old) → (version : ℕ) → IsBankRow newest (state S.Store conn.old).now.trees version → IsErrAnd result IsOfOther }
    ensures takes { (e : TheEdition) → e ≢ newest → OnReadable e (state S.Store conn.old) (state S.Store conn.new) (IfErr result IsOfStore) }
    ensures read_only { IsReadOnly (state S.Store conn.old) (state S.Store conn.new) result }
{
    match bank_row(conn) {
        Ok(found) => older_in(found),
        Err(fault) => Err(table_unread(fault)),
    }
}

/// The rows of all tables, in the schema version that the row of the bank names.
fn all_older_rows<S: Alter>(
    alloc: Global,
    conn: &mut Connection<S>,
) -> Result<OlderRows, AdoptFault>
    ensures mode { conn.old.in_transaction ≡ false → conn.new.in_transaction ≡ false }
    ensures whole { (e : TheEdition) → BearsNoOther e (state S.Store conn.old).now.trees → ReadsLast e (state S.Store conn.old) (state S.Store conn.new) (λ trees file. (file.edition ≡ e) × AreFileRows e trees file.rows) result }
    ensures older { IfOk result (λ file. file.edition ≢ newest) }
    ensures refused { (e : TheEdition) → e ≢ newest → BearsNoOther e (state S.Store conn.old).now.trees → RefusesFor e (state S.Store conn.old) (state S.Store conn.new) result }
    ensures other { HasCleanDisk (state S.Store conn.new) → (e : TheEdition) → HasBankTables e (state S.Store conn.old) → (version : ℕ) → IsBankRow newest (state S.Store conn.old).now.trees version → IsErrAnd result IsOfOther }
    ensures takes { (e : TheEdition) → e ≢ newest → BearsNoOther e (state S.Store conn.old).now.trees → OnReadable e (state S.Store conn.old) (state S.Store conn.new) (IfOk result (λ file. IsSome file.rows.policy) × IfErr result IsOfStore) }
    ensures read_only { IsReadOnly (state S.Store conn.old) (state S.Store conn.new) result }
{
    let edition = edition_read(conn)?;
    let rows = all_rows(alloc, conn, edition)?;
    Ok(OlderRows { edition, rows })
}

/// The rows of all tables. Nothing is changed.
fn read_older_file<S: Alter>(
    alloc: Global,
    conn: &mut Connection<S>,
) -> Result<OlderRows, AdoptFault>
    requires { conn.old.in_transaction ≡ false }
    ensures mode { conn.new.in_transaction ≡ false }
    ensures whole { OnOlderFile (state S.Store conn.old) (state S.Store conn.new) (λ e. IfOk result (λ file. (file.edition ≡ e) × AreFileRows e (state S.Store conn.old).now.trees file.rows)) }
    ensures older { IfOk result (λ file. file.edition ≢ newest) }
    ensures refused { OnOlderFile (state S.Store conn.old) (state S.Store conn.new) (λ e. IfErr result (IsRefusedIn e (state S.Store conn.old).now.trees)) }
    ensures other { HasCleanDisk (state S.Store conn.new) → IsNewestFile (state S.Store conn.old) → IsErrAnd result IsOfOther }
    ensures takes { OnOlderFile (state S.Store conn.old) (state S.Store conn.new) (λ e. (s : Sheets) → HoldsSheetsIn e (state S.Store conn.old).now.trees s → AreReadable s → IfOk result (λ file. IsSome file.rows.policy) × IfErr result IsOfStore) }
    ensures left { OnAnyFile (state S.Store conn.old) (state S.Store conn.new) (λ is. IsLeft (state S.Store conn.old) (state S.Store conn.new)) }
    ensures open { HasCleanDisk (state S.Store conn.new) → OnOk result (IsTrue (state S.Store conn.old).is_open) }
    ensures sound { OnOlderFile (state S.Store conn.old) (state S.Store conn.new) (λ e. OnOk result (IsDatabase (state S.Store conn.old).now)) }
    ensures survives { LeavesNone (state S.Store conn.old) (state S.Store conn.new) }
{
    // A connection's schema, and that nothing is begun in it, show that its state is one that it can be in.
    let _schema = conn.schema();
    let rows = all_older_rows(alloc, conn);
    let _left = conn.schema();
    let _idle = conn.is_autocommit();
    rows
}

/// The bank that stands in the tables of a schema version before the newest, which its row names: it is read whole
/// and judged as `read_bank` says. One of the newest schema version, or of none, is reported as of another version.
/// Nothing is changed.
pub fn read_older_bank<S: Alter>(
    alloc: Global,
    conn: &mut Connection<S>,
) -> Result<OlderBank, AdoptFault>
    requires { conn.old.in_transaction ≡ false }
    ensures mode { conn.new.in_transaction ≡ false }
    ensures found { OnOlderFile (state S.Store conn.old) (state S.Store conn.new) (λ e. IfOk result (λ older. (older.edition ≡ e) × Finds e (state S.Store conn.old).now older.bank.world)) }
    ensures older { IfOk result (λ older. older.edition ≢ newest) }
    ensures refused { OnOlderFile (state S.Store conn.old) (state S.Store conn.new) (λ e. IfErr result (IsRefusedIn e (state S.Store conn.old).now.trees)) }
    ensures other { HasCleanDisk (state S.Store conn.new) → IsNewestFile (state S.Store conn.old) → IsErrAnd result IsOfOther }
    ensures sound { OnOlderFile (state S.Store conn.old) (state S.Store conn.new) (λ e. HoldsSoundBankIn e (state S.Store conn.old).now → IfErr result IsOfStore) }
    ensures named { OnOlderFile (state S.Store conn.old) (state S.Store conn.new) (λ e. (s : Sheets) → HoldsSheetsIn e (state S.Store conn.old).now.trees s → AreReadable s → IfErr result (IsNamedBy s)) }
    ensures left { OnAnyFile (state S.Store conn.old) (state S.Store conn.new) (λ is. IsLeft (state S.Store conn.old) (state S.Store conn.new)) }
    ensures open { HasCleanDisk (state S.Store conn.new) → OnOk result (IsTrue (state S.Store conn.old).is_open) }
    ensures kept { IfOk result (λ older. (older.bank.kept ≡ kept_of older.bank.world) × IsKeepable older.bank.world) }
    ensures survives { LeavesNone (state S.Store conn.old) (state S.Store conn.new) }
{
    let file = read_older_file(alloc, conn)?;
    match judge_file(alloc, file.rows) {
        Ok(bank) => Ok(OlderBank {
            edition: file.edition,
            bank,
        }),
        Err(fault) => Err(fault),
    }
}
