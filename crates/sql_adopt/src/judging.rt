//! Whether rows that were read are those of a bank whose books hold and whose policy is sound.

ghost use Rattle.std.specs.Prelude.{◌≡◌, IfErr, IfOk, IsSome, Ok, OnOk};
ghost use Rattle.sqlite.specs.Effect.{Database, IsDatabase};
ghost use Rattle.sqlite.specs.Tree.{Trees};
ghost use Rattle.bank_books.specs.Books.{Books};
ghost use Rattle.bank_books.specs.Records.{kept_of};
ghost use Rattle.sql_schema.specs.Held.{HoldsSheetsIn, IsIn, Sheet, tree_of};
ghost use Rattle.sql_schema.specs.Schema.{schema_of};
ghost use Rattle.book_kept.specs.Sheets.{Sheets};
ghost use Rattle.sql_whole.specs.Whole.{IsKeptTable};
ghost use Rattle.sql_adopt.specs.Adopted.{AreFileRows, Finds};
ghost use Rattle.book_check.specs.Verdict.{IsVerdict};
ghost use Rattle.policy_check.specs.PolicyVerdict.{IsPolicyVerdict};
ghost use Rattle.book_kept.specs.Keepable.{IsKeepable};
ghost use Rattle.sql_schema.specs.declared.edition.Edition.{Edition};
ghost use Rattle.sql_adopt.specs.Refused.{HoldsSoundBankIn, IsBeyondBankRow, IsNamedBy, IsOfBooks, IsOfBooksRead, IsOfNoPolicy, IsOfPolicy, IsOfStore, IsRefusedIn};
ghost use Rattle.sql_adopt.specs.ReadBack.{AreBankOf, AreBooksInOrder, AreUsersOrdered, IsBankOf, kept_read, sheets_read, world_read};

use crate::adopt_fault::AdoptFault;
use crate::bank_rows::{BankRows, bank_rows};
use crate::reading::FileRows;
use crate::whole_policy::{users_alone, whole_policy};
use bank_policy::Policy;
use book_check::{BooksFault, check_books};
use book_kept::laws::books_are_keepable;
use policy_check::{PolicyFault, check_policy};
use sql_whole::{BookRows, PolicyTables};
use std::alloc::Global;

/// The bank of which these are the rows of all tables: its books are judged and then its policy.
pub(crate) fn judge_file(alloc: Global, rows: FileRows) -> Result<BankRows, AdoptFault>
    ensures found { (e : Edition) (db : Database) → db.schema ≡ schema_of e → ((t : Sheet) → IsIn e t → IsKeptTable (db.trees (tree_of t))) → IsDatabase db → AreFileRows e db.trees rows → IfOk result (λ bank. Finds e db bank.world) }
    ensures refused { (e : Edition) (db : Trees) → AreFileRows e db rows → IfErr result (IsRefusedIn e db) }
    ensures sound { (e : Edition) (db : Database) → AreFileRows e db.trees rows → IsSome rows.policy → HoldsSoundBankIn e db → IfErr result IsOfStore }
    ensures named { (e : Edition) (db : Trees) → AreFileRows e db rows → IsSome rows.policy → (s : Sheets) → HoldsSheetsIn e db s → IfErr result (IsNamedBy s) }
    ensures kept { IfOk result (λ bank. (bank.kept ≡ kept_of bank.world) × IsKeepable bank.world) }
    ensures checked { IfOk result (λ bank. Books bank.world × IsPolicyVerdict bank.world.policy (Ok tt)) }
{
    let FileRows {
        version,
        books,
        policy,
    } = rows;
    match policy {
        Some(tables) => judge(alloc, books, tables, version),
        None => Err(with_no_policy(alloc, books, version)),
    }
}

/// Whether these are the rows of a bank whose books hold beside the kept numbers, and then whether its
/// policy is sound. Of such a bank only a fault of the database keeps it from that answer.
fn judge(
    alloc: Global,
    books: BookRows,
    tables: PolicyTables,
    version: u64,
) -> Result<BankRows, AdoptFault>
    ensures bank { IfOk result (λ bank. AreBankOf (sheets_read books tables version) bank.world bank.kept) }
    ensures sound { IsBankOf (sheets_read books tables version) → IfErr result IsOfStore }
    ensures named { AreBooksInOrder books → AreUsersOrdered books.users.users.items → IfErr result (IsNamedBy (sheets_read books tables version)) }
    ensures beyond { IfErr result IsBeyondBankRow }
{
    let found = match whole_policy(alloc, &books.users.users, tables) {
        Ok(found) => found,
        Err(fault) => return Err(AdoptFault::Fault(fault)),
    };
    match found {
        Some(policy) => {
            let bank = judged_books(alloc, books, policy, version)?;
            judge_policy(&bank)?;
            Ok(bank)
        }
        None => Err(with_no_policy(alloc, books, version)),
    }
}

/// Why a bank whose tables give no policy is not adopted: its books are judged first.
fn with_no_policy(alloc: Global, books: BookRows, version: u64) -> AdoptFault
    ensures beyond { IsOfBooksRead result }
    ensures named { (tables : PolicyTables) → AreBooksInOrder books → AreUsersOrdered books.users.users.items → IsOfNoPolicy (sheets_read books tables version) result }
{
    match users_alone(alloc, &books.users.users) {
        Ok(Some(policy)) => match judged_books(alloc, books, policy, version) {
            Ok(_) => AdoptFault::Policy(PolicyFault::Dangling),
            Err(fault) => fault,
        },
        Ok(None) => AdoptFault::Books(BooksFault::Range),
        Err(fault) => AdoptFault::Fault(fault),
    }
}

/// The World of these rows and the numbers kept beside them, where the books hold and the numbers are
/// those that the books give.
fn judged_books(
    alloc: Global,
    books: BookRows,
    policy: Policy,
    version: u64,
) -> Result<BankRows, AdoptFault>
    ensures verdict { IfOk result (λ bank. IsVerdict bank.world bank.kept (Ok tt)) }
    ensures world { IfOk result (λ bank. bank.world ≡ world_read books policy version) }
    ensures kept { IfOk result (λ bank. bank.kept ≡ kept_read books) }
    ensures named { AreBooksInOrder books → IfErr result (IsOfBooks (world_read books policy version) (kept_read books)) }
    ensures beyond { IfErr result IsOfBooksRead }
{
    let bank = match bank_rows(alloc, books, policy, version) {
        Ok(Some(bank)) => bank,
        Ok(None) => return Err(AdoptFault::Books(BooksFault::Range)),
        Err(fault) => return Err(AdoptFault::Fault(fault)),
    };
    match check_books(alloc, &bank.world, &bank.kept) {
        Ok(Ok(())) => Ok(bank),
        Ok(Err(fault)) => Err(AdoptFault::Books(fault)),
        Err(fault) => Err(AdoptFault::Fault(fault)),
    }
}

/// Whether the policy of a bank whose books hold is sound.
fn judge_policy(bank: &BankRows) -> Result<(), AdoptFault>
    requires { IsVerdict bank.now.world bank.now.kept (Ok tt) }
    ensures policy { OnOk result (IsPolicyVerdict bank.now.world.policy (Ok tt)) }
    ensures keepable { OnOk result (IsKeepable bank.now.world) }
    ensures named { IfErr result (IsOfPolicy bank.now.world.policy) }
    ensures beyond { IfErr result IsBeyondBankRow }
{
    if let Err(fault) = check_policy(bank.world.policy()) {
        return Err(AdoptFault::Policy(fault));
    }
    books_are_keepable(&bank.world);
    Ok(())
}
