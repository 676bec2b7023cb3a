//! Opening an account: the rows that it is judged on, the rules against it, its plan, and its reply.

ghost use Rattle.std.specs.Prelude.{◌≡◌, false, nat_le, IfOk};
ghost use Rattle.std.specs.Option.{option_map_or};
ghost use Rattle.bank_terms.specs.Limits.{max_accounts};
ghost use Rattle.serde_json.specs.View.{view};
ghost use Rattle.store_rows.specs.Status.{Reads, ReadsRow};
ghost use Rattle.op_prepare.specs.Judged.{DeniesOrCounts, IsJudged, LeavesPolicy};
ghost use Rattle.bank_meaning.specs.Meaning.{by_books};
ghost use Rattle.bank_meaning.specs.NewAccount.{first_against_new_account, new_account_meaning, opened, opened_data, opened_text, opening_rows};

use crate::json_text::compact;
use crate::prepared::Prepared;
use bank_books::{Account, RowWrite};
use bank_meaning::OpeningRows;
use bank_terms::{MAX_ACCOUNTS, Rule};
use counter_ops::NewAccount;
use money::{Cents, Fault};
use rule_tests::first_denial;
use serde_json::{Value, json};
use std::alloc::{AllocError, Global};
use store_rows::BookReads;

pub(crate) fn load_opening_rows<B: BookReads>(
    alloc: Global,
    store: &mut B,
    form: &NewAccount,
) -> Result<OpeningRows, Fault>
    ensures { ReadsRow (B.status store.old) (B.status store.new) result (λ w rows. rows ≡ opening_rows w form.now) }
{
    let account = store.account(alloc, form.account)?;
    let branch = store.branch(alloc, form.branch)?;
    Ok(OpeningRows::of(account, branch))
}

/// The first rule of the books against opening an account, or none.
pub(crate) fn rule_against_new_account(rows: &OpeningRows) -> Option<Rule>
    ensures { result ≡ first_against_new_account rows.now }
{
    first_denial(&[
        (Rule::Unknown, rows.homed.is_none()),
        (Rule::Taken, rows.account.is_some()),
        (Rule::Full, has_all_accounts(rows.homed)),
    ])
}

/// Whether a branch that is the home of this number of accounts can be that of no other.
fn has_all_accounts(homed: Option<u64>) -> bool
    ensures { result ≡ option_map_or (λ n. nat_le max_accounts n) homed false }
{
    match homed {
        Some(homed) => MAX_ACCOUNTS <= homed,
        None => false,
    }
}

/// What opens an account, or the first rule of the books against it.
pub(crate) fn prepare_new_account<B: BookReads>(
    alloc: Global,
    store: &mut B,
    form: &NewAccount,
) -> Result<Result<Prepared, Rule>, Fault>
    ensures judged { Reads (B.status store.old) (B.status store.new) result (IsJudged (λ w. by_books (new_account_meaning form.now w))) }
    ensures denied { DeniesOrCounts (B.status store.old) (B.status store.new) (λ w. (by_books (new_account_meaning form.now w)).first) result }
    ensures policy { LeavesPolicy result }
{
    let rows = load_opening_rows(alloc, store, form)?;
    if let Some(rule) = rule_against_new_account(&rows) {
        return Ok(Err(rule));
    }
    let plan = vec![in alloc; RowWrite::Account(opened(form))]?;
    let text = opened_text(alloc, form)?;
    Ok(Ok(Prepared { plan, text }))
}

/// The account, with nothing in it.
fn opened(form: &NewAccount) -> Account
    ensures { result ≡ opened form.now }
{
    Account {
        account: form.account,
        home: form.branch,
        opening: cents(0),
        floor: cents(form.floor),
    }
}

/// A small amount as money.
fn cents(amount: i32) -> Cents
    ensures { result ≡ amount }
{
    Cents::new(i64::from(amount)).unwrap()
}

/// The bytes of the reply.
fn opened_text(alloc: Global, form: &NewAccount) -> Result<Vec<u8>, AllocError>
    ensures { IfOk result (λ text. text.items ≡ opened_text form.now) }
{
    let value = opened_value(alloc, form)?;
    compact(alloc, &value)
}

fn opened_value(alloc: Global, form: &NewAccount) -> Result<Value, AllocError>
    ensures { IfOk result (λ value. view value ≡ opened_data form.now) }
{
    json!(in alloc; {"account": form.account, "branch": form.branch})
}
