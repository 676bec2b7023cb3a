//! A drawer put on: the rules against it, and the two cash lines that it writes.

ghost use Rattle.std.specs.Prelude.{◌≡◌, ◌+◌, ◌≤◌, ◌+ℤ◌, [], ◌∷◌, IfOk, IfSome, IsNone, IsOkUnless, Ok, Err};
ghost use Rattle.bank_terms.specs.Limits.{max_key};
ghost use Rattle.money.specs.Range.{IsCents};
ghost use Rattle.rule_tests.specs.Planned.{IsPlanned};
ghost use Rattle.rule_tests.specs.Rules.{vault_covers};
ghost use Rattle.drawers.specs.DrawerOn.{drawer_on_changes, first_against_drawer_on, from_vault, given_line, into_drawer, is_in_range, put_on, put_on_of, taken_line};

use crate::amounts::{less_by, more_by, sum_of};
use crate::drawer_rows::DrawerRows;
use bank_books::{CashLine, LineForm, Plan, RowWrite, Signature, TellerRecord};
use bank_terms::Rule;
use counter_ops::DrawerOn;
use money::{Cents, Fault};
use rule_tests::{
    CashBook, Planned, cash_book_is_full, drawer_in_range, drawer_is_held, drawers_in_range,
    first_denial, teller_is_of, vault_covers, vault_in_range,
};
use std::alloc::Global;

/// What a drawer that is put on leaves.
#[derive(Clone, Copy, Debug, PartialEq, Eq)]
pub struct PutOn {
    /// The cash of the drawer.
    pub cash: Cents,
    /// The teller whose drawer it is.
    pub teller: u32,
    /// The cash of the vault.
    pub vault: Cents,
}

/// What carries out that a drawer is put on, or the first rule of the books that denies it. Only memory
/// keeps it from an answer.
pub fn plan_drawer_on(
    alloc: Global,
    rows: &DrawerRows,
    form: &DrawerOn,
    by: Signature,
) -> Result<Result<Planned<PutOn>, Rule>, Fault>
    ensures planned { IfOk result (IsPlanned (first_against_drawer_on rows.now form.now) (drawer_on_changes rows.now form.now by) (put_on_of rows.now form.now)) }
    ensures denied { IfSome (first_against_drawer_on rows.now form.now) (λ rule. result ≡ Ok (Err rule)) }
    ensures memory { IsOkUnless result Fault.Memory }
{
    if let Some(rule) = rule_against_drawer_on(rows, form) {
        return Ok(Err(rule));
    }
    let (Some(teller), Some(book), Some(vault)) = (rows.teller, rows.cash_book, rows.vault) else {
        unreachable!();
    };
    let plan = put_on_plan(alloc, &book, form, by)?;
    let left = put_on(form, &teller, vault);
    Ok(Ok(Planned { plan, left }))
}

/// The first rule of the books that denies that the drawer is put on, or none. It takes no memory.
pub fn rule_against_drawer_on(rows: &DrawerRows, form: &DrawerOn) -> Option<Rule>
    ensures first { result ≡ first_against_drawer_on rows.now form.now }
    ensures drawer { IsNone result → IfSome rows.now.teller (λ teller. IsCents (teller.cash +ℤ into_drawer form.now)) }
    ensures vault { IsNone result → IfSome rows.now.vault (λ vault. IsCents (vault +ℤ from_vault form.now)) }
    ensures room { IsNone result → IfSome rows.now.cash_book (λ book. book.lines + 2 ≤ max_key) }
{
    first_denial(&[
        (Rule::Unknown, rows.is_unknown()),
        (Rule::Branch, !teller_is_of(rows.teller, form.branch)),
        (Rule::Drawer, drawer_is_held(rows.teller)),
        (Rule::Cash, !is_covered(rows, form)),
        (Rule::Range, !is_in_range(rows, form)),
        (Rule::Full, cash_book_is_full(rows.cash_book, 2)),
    ])
}

/// Whether the vault has the cash that goes into the drawer.
fn is_covered(rows: &DrawerRows, form: &DrawerOn) -> bool
    ensures { result ≡ vault_covers rows.now.vault (from_vault form.now) }
{
    vault_covers(rows.vault, -i64::from(form.cash))
}

fn is_in_range(rows: &DrawerRows, form: &DrawerOn) -> bool
    ensures { result ≡ is_in_range rows.now form.now }
{
    let cash = i64::from(form.cash);
    vault_in_range(rows.vault, -cash)
        && drawer_in_range(rows.teller, cash)
        && drawers_in_range(rows.cash_book, cash)
}

/// The two lines of a drawer put on that no rule denies.
fn put_on_plan(
    alloc: Global,
    book: &CashBook,
    form: &DrawerOn,
    by: Signature,
) -> Result<Plan, Fault>
    requires { book.now.lines + 2 ≤ max_key }
    ensures lines { IfOk result (λ plan. plan.items ≡ RowWrite.Line (given_line book.now form.now by) ∷ RowWrite.Line (taken_line book.now form.now by) ∷ []) }
    ensures memory { IsOkUnless result Fault.Memory }
{
    let mut plan = Vec::new(alloc);
    plan.push(RowWrite::Line(given_line(book, form, by)))?;
    plan.push(RowWrite::Line(taken_line(book, form, by)))?;
    Ok(plan)
}

/// The line at the vault.
fn given_line(book: &CashBook, form: &DrawerOn, by: Signature) -> CashLine
    requires { book.now.lines + 2 ≤ max_key }
    ensures { result ≡ given_line book.now form.now by }
{
    CashLine {
        branch: form.branch,
        number: (book.lines + 1) as u32,
        place: 0,
        amount: less_by(form.cash),
        form: LineForm::On,
        moment: by.moment,
        day: book.day,
        user: by.user,
    }
}

/// The line at the drawer, whose user holds it from now on.
fn taken_line(book: &CashBook, form: &DrawerOn, by: Signature) -> CashLine
    requires { book.now.lines + 2 ≤ max_key }
    ensures { result ≡ taken_line book.now form.now by }
{
    CashLine {
        branch: form.branch,
        number: (book.lines + 2) as u32,
        place: form.teller,
        amount: more_by(form.cash),
        form: LineForm::On,
        moment: by.moment,
        day: book.day,
        user: by.user,
    }
}

/// What a drawer put on leaves that no rule denies.
fn put_on(form: &DrawerOn, teller: &TellerRecord, vault: i128) -> PutOn
    requires cash { IsCents (teller.now.cash +ℤ into_drawer form.now) }
    requires vault { IsCents (vault +ℤ from_vault form.now) }
    ensures { result ≡ put_on form.now teller.now vault }
{
    let added = i64::from(form.cash);
    PutOn {
        cash: sum_of(teller.cash, added),
        teller: form.teller,
        vault: sum_of(vault, -added),
    }
}
