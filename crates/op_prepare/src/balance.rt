//! The question for a balance: the account that it is judged on, and the reply with its balance.

ghost use Rattle.std.specs.Prelude.{◌≡◌, None, Some, is_some, true, IfErr, IfOk, IfSome, OnOk};
ghost use Rattle.money.specs.Range.{is_cents};
ghost use Rattle.serde_json.specs.View.{view};
ghost use Rattle.store_rows.specs.Status.{Reads};
ghost use Rattle.bank_meaning.specs.Balance.{balance_data, balance_meaning, balance_text, first_against_balance};
ghost use Rattle.op_prepare.specs.Judged.{DeniesOrCounts, IsJudged, LeavesPolicy};
ghost use Rattle.bank_meaning.specs.Meaning.{by_books};

use crate::json_text::compact;
use crate::prepared::Prepared;
use bank_books::AccountRecord;
use bank_terms::Rule;
use counter_ops::Balance;
use money::{Cents, Fault};
use serde_json::{Value, json};
use std::alloc::{AllocError, Global};
use store_rows::BookReads;

/// The first rule of the books against the question for a balance, or none. The account's row is all
/// that it is judged on.
pub(crate) fn rule_against_balance(row: Option<AccountRecord>) -> Option<Rule>
    ensures { result ≡ first_against_balance row }
{
    match balance_stated(row) {
        Ok(_) => None,
        Err(rule) => Some(rule),
    }
}

/// What answers the question for a balance, or the first rule of the books against it.
pub(crate) fn prepare_balance<B: BookReads>(
    alloc: Global,
    store: &mut B,
    balance: &Balance,
) -> Result<Result<Prepared, Rule>, Fault>
    ensures judged { Reads (B.status store.old) (B.status store.new) result (IsJudged (λ w. by_books (balance_meaning balance.now w))) }
    ensures denied { DeniesOrCounts (B.status store.old) (B.status store.new) (λ w. (by_books (balance_meaning balance.now w)).first) result }
    ensures policy { LeavesPolicy result }
{
    let row = store.account(alloc, balance.account)?;
    match balance_stated(row) {
        Ok(balance) => {
            let text = balance_text(alloc, balance)?;
            Ok(Ok(Prepared {
                plan: Vec::new(alloc),
                text,
            }))
        }
        Err(rule) => Ok(Err(rule)),
    }
}

/// The balance that is reported of an account, or the first rule that denies it.
fn balance_stated(row: Option<AccountRecord>) -> Result<Cents, Rule>
    ensures allowed { OnOk result (first_against_balance row ≡ None) }
    ensures value { IfOk result (λ balance. IfSome row (λ a. a.balance ≡ balance)) }
    ensures there { OnOk result (is_some row ≡ true) }
    ensures denied { IfErr result (λ rule. first_against_balance row ≡ Some rule) }
{
    let Some(account) = row else {
        return Err(Rule::Unknown);
    };
    match cents_of(account.balance) {
        Some(balance) => Ok(balance),
        None => Err(Rule::Range),
    }
}

/// The amount of money that a balance is, or none where it lies out of range.
fn cents_of(balance: i128) -> Option<Cents>
    ensures in_range { is_some result ≡ is_cents balance }
    ensures value { IfSome result (λ cents. cents ≡ balance) }
{
    match i64::try_from(balance) {
        Ok(balance) => Cents::new(balance),
        Err(_) => None,
    }
}

/// The bytes of the reply.
fn balance_text(alloc: Global, balance: Cents) -> Result<Vec<u8>, AllocError>
    ensures { IfOk result (λ text. text.items ≡ balance_text balance) }
{
    let value = balance_value(alloc, balance)?;
    compact(alloc, &value)
}

fn balance_value(alloc: Global, balance: Cents) -> Result<Value, AllocError>
    ensures { IfOk result (λ value. view value ≡ balance_data balance) }
{
    json!(in alloc; {"balance": balance.get()})
}
