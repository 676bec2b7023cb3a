//! What prepares an operation of each form, and the first rule against it by rows that were loaded.

ghost use Rattle.std.specs.Prelude.{◌≡◌, false, true};
ghost use Rattle.counter_ops.specs.Operations.{IsOp};
ghost use Rattle.bank_books.specs.WorldLists.{WorldLists};
ghost use Rattle.store_rows.specs.Status.{MayRead, Reads};
ghost use Rattle.bank_meaning.specs.Meaning.{by_books};
ghost use Rattle.bank_meaning.specs.Operations.{is_report, meaning_of};
ghost use Rattle.op_prepare.specs.BookRows.{book_rows};
ghost use Rattle.op_prepare.specs.Judged.{DeniesOrCounts, IsCountedFor, IsJudged, IsReady, LeavesPolicy, LeavesPolicyReady, ReportsOnly};

use crate::accounts::prepare_accounts;
use crate::balance::{prepare_balance, rule_against_balance};
use crate::book_rows::BookRows;
use crate::close_day::prepare_close_day;
use crate::correct::prepare_correct;
use crate::drawer_off::prepare_drawer_off;
use crate::drawer_on::prepare_drawer_on;
use crate::move_cash::prepare_move_cash;
use crate::new_account::{prepare_new_account, rule_against_new_account};
use crate::post::prepare_post;
use crate::prepared::{Prepared, Ready};
use crate::proof::{prepare_proof, rule_against_proof};
use crate::release::{prepare_release, rule_against_release};
use crate::statement::{prepare_statement, rule_against_statement};
use crate::transfer::prepare_transfer;
use bank_books::Signature;
use bank_terms::Rule;
use counter_ops::Op;
use drawers::{
    rule_against_close_day, rule_against_drawer_off, rule_against_drawer_on, rule_against_move_cash,
};
use money::Fault;
use postings::{rule_against_correct, rule_against_post, rule_against_transfer};
use reports::Contents;
use std::alloc::Global;
use store_rows::{BookReads, PolicyReads, ReportReads};

/// What carries out an operation with this signature, or the first rule of the books against it. It changes
/// no policy. A report is counted, and changes nothing.
pub fn prepare_by_books<S: PolicyReads + BookReads + ReportReads>(
    alloc: Global,
    store: &mut S,
    op: &Op,
    by: Signature,
) -> Result<Result<Ready, Rule>, Fault>
    requires proper { IsOp op.now }
    ensures judged { MayRead (S.status store.old) (S.status store.new) result (IsReady (λ w. by_books (meaning_of op.now by w))) }
    ensures denied { DeniesOrCounts (S.status store.old) (S.status store.new) (λ w. (by_books (meaning_of op.now by w)).first) result }
    ensures policy { LeavesPolicyReady result }
    ensures reports { ReportsOnly (is_report op.now) result }
{
    if is_report(op) {
        match prepare_report(alloc, store, op, by)? {
            Ok(contents) => Ok(Ok(Ready::Report(contents))),
            Err(rule) => Ok(Err(rule)),
        }
    } else {
        match prepare_change(alloc, store, op, by)? {
            Ok(prepared) => Ok(Ok(Ready::Change(prepared))),
            Err(rule) => Ok(Err(rule)),
        }
    }
}

/// Whether an operation is answered by a report.
fn is_report(op: &Op) -> bool
    ensures { result ≡ is_report op.now }
{
    match op {
        Op::Statement(_) | Op::Accounts(_) | Op::Proof(_) => true,
        Op::Post(_)
        | Op::Transfer(_)
        | Op::Correct(_)
        | Op::DrawerOn(_)
        | Op::DrawerOff(_)
        | Op::MoveCash(_)
        | Op::NewAccount(_)
        | Op::Release(_)
        | Op::Balance(_)
        | Op::CloseDay(_) => false,
    }
}

/// The report that answers an operation, counted, or the first rule of the books against it.
fn prepare_report<S: BookReads + ReportReads>(
    alloc: Global,
    store: &mut S,
    op: &Op,
    by: Signature,
) -> Result<Result<Contents, Rule>, Fault>
    requires { is_report op.now ≡ true }
    ensures counted { MayRead (S.status store.old) (S.status store.new) result (IsCountedFor (λ w. by_books (meaning_of op.now by w))) }
    ensures denied { DeniesOrCounts (S.status store.old) (S.status store.new) (λ w. (by_books (meaning_of op.now by w)).first) result }
{
    match op {
        Op::Statement(form) => prepare_statement(alloc, store, form),
        Op::Accounts(form) => prepare_accounts(alloc, store, form, by),
        Op::Proof(form) => prepare_proof(alloc, store, form),
        _ => unreachable!(),
    }
}

/// What carries out an operation that is answered by a text, or the first rule of the books against it.
fn prepare_change<S: PolicyReads + BookReads>(
    alloc: Global,
    store: &mut S,
    op: &Op,
    by: Signature,
) -> Result<Result<Prepared, Rule>, Fault>
    requires text { is_report op.now ≡ false }
    requires proper { IsOp op.now }
    ensures judged { Reads (S.status store.old) (S.status store.new) result (IsJudged (λ w. by_books (meaning_of op.now by w))) }
    ensures denied { DeniesOrCounts (S.status store.old) (S.status store.new) (λ w. (by_books (meaning_of op.now by w)).first) result }
    ensures policy { LeavesPolicy result }
{
    match op {
        Op::Post(post) => prepare_post(alloc, store, post, by),
        Op::Transfer(transfer) => prepare_transfer(alloc, store, transfer, by),
        Op::Correct(correct) => prepare_correct(alloc, store, correct, by),
        Op::DrawerOn(form) => prepare_drawer_on(alloc, store, form, by),
        Op::DrawerOff(form) => prepare_drawer_off(alloc, store, form, by),
        Op::MoveCash(move_cash) => prepare_move_cash(alloc, store, move_cash, by),
        Op::NewAccount(form) => prepare_new_account(alloc, store, form),
        Op::Release(form) => prepare_release(alloc, store, form, by),
        Op::Balance(form) => prepare_balance(alloc, store, form),
        Op::CloseDay(form) => prepare_close_day(alloc, store, form),
        Op::Statement(_) | Op::Accounts(_) | Op::Proof(_) => unreachable!(),
    }
}

/// The first rule of the books against an operation with this signature, or none, where these are rows of its form.
pub fn first_of_books(rows: &BookRows, op: &Op, by: Signature) -> Option<Rule>
    ensures { (w : WorldLists) → rows.now ≡ book_rows w op.now → result ≡ (by_books (meaning_of op.now by w)).first }
{
    match (rows, op) {
        (BookRows::Post(rows), Op::Post(post)) => rule_against_post(rows, post, by),
        (BookRows::Transfer(rows), Op::Transfer(transfer)) => {
            rule_against_transfer(rows, transfer, by)
        }
        (BookRows::Correct(rows), Op::Correct(correct)) => rule_against_correct(rows, correct, by),
        (BookRows::DrawerOn(rows), Op::DrawerOn(form)) => rule_against_drawer_on(rows, form),
        (BookRows::DrawerOff(rows), Op::DrawerOff(form)) => {
            rule_against_drawer_off(rows, form, by)
        }
        (BookRows::MoveCash(rows), Op::MoveCash(move_cash)) => {
            rule_against_move_cash(rows, move_cash, by)
        }
        (BookRows::NewAccount(rows), Op::NewAccount(_)) => rule_against_new_account(rows),
        (BookRows::Release(rows), Op::Release(form)) => rule_against_release(rows, form, by),
        (BookRows::Balance(row), Op::Balance(_)) => rule_against_balance(*row),
        (BookRows::Statement(row), Op::Statement(_)) => rule_against_statement(*row),
        (BookRows::Proof(row), Op::Proof(_)) => rule_against_proof(*row),
        (BookRows::CloseDay(rows), Op::CloseDay(_)) => rule_against_close_day(rows),
        _ => None,
    }
}
