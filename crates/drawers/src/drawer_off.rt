//! A drawer counted and put off: the rules against it, and the three cash lines that it writes.

ghost use Rattle.std.specs.Prelude.{◌≡◌, ◌+◌, ◌≤◌, ◌+ℤ◌, [], ◌∷◌, IfOk, IfSome, IsNone, IsOkUnless, Ok, Err};
ghost use Rattle.bank_terms.specs.Limits.{max_key};
ghost use Rattle.money.specs.Range.{IsCents};
ghost use Rattle.rule_tests.specs.Planned.{IsPlanned};
ghost use Rattle.drawers.specs.DrawerOff.{book_in_range, difference, drawer_off_changes, emptied_line, first_against_drawer_off, is_in_range, put_off_of, returned_line};

use crate::amounts::{is_between, negated, sum_of};
use crate::drawer_rows::DrawerRows;
use bank_books::{CashLine, LineForm, Plan, RowWrite, Signature, TellerRecord};
use bank_terms::Rule;
use counter_ops::DrawerOff;
use money::{Cents, Fault};
use rule_tests::{
    CashBook, Planned, cash_book_is_full, cents_between, differences_in_range, drawer_is_held_by,
    first_denial, teller_is_of, vault_in_range,
};
use std::alloc::Global;

/// What a drawer that is put off leaves.
#[derive(Clone, Copy, Debug, PartialEq, Eq)]
pub struct PutOff {
    /// What was counted less what the drawer's lines came to.
    pub difference: Cents,
    /// The teller whose drawer it is.
    pub teller: u32,
    /// The cash of the vault.
    pub vault: Cents,
}

/// What carries out that a drawer is counted and put off, or the first rule of the books that denies it.
/// Only memory keeps it from an answer.
pub fn plan_drawer_off(
    alloc: Global,
    rows: &DrawerRows,
    form: &DrawerOff,
    by: Signature,
) -> Result<Result<Planned<PutOff>, Rule>, Fault>
    ensures planned { IfOk result (IsPlanned (first_against_drawer_off rows.now form.now by) (drawer_off_changes rows.now form.now by) (put_off_of rows.now form.now)) }
    ensures denied { IfSome (first_against_drawer_off rows.now form.now by) (λ rule. result ≡ Ok (Err rule)) }
    ensures memory { IsOkUnless result Fault.Memory }
{
    if let Some(rule) = rule_against_drawer_off(rows, form, by) {
        return Ok(Err(rule));
    }
    let (Some(teller), Some(book), Some(vault)) = (rows.teller, rows.cash_book, rows.vault) else {
        unreachable!();
    };
    let difference = difference(form, &teller);
    let plan = put_off_plan(alloc, &book, difference, form, by)?;
    let left = PutOff {
        difference,
        teller: form.teller,
        vault: sum_of(vault, form.counted.get()),
    };
    Ok(Ok(Planned { plan, left }))
}

/// The first rule of the books that denies that the drawer is put off, or none. It takes no memory.
pub fn rule_against_drawer_off(rows: &DrawerRows, form: &DrawerOff, by: Signature) -> Option<Rule>
    ensures first { result ≡ first_against_drawer_off rows.now form.now by }
    ensures difference { IsNone result → IfSome rows.now.teller (λ teller. IsCents (difference form.now teller)) }
    ensures vault { IsNone result → IfSome rows.now.vault (λ vault. IsCents (vault +ℤ form.now.counted)) }
    ensures room { IsNone result → IfSome rows.now.cash_book (λ book. book.lines + 3 ≤ max_key) }
{
    first_denial(&[
        (Rule::Unknown, rows.is_unknown()),
        (Rule::Branch, !teller_is_of(rows.teller, form.branch)),
        (Rule::Drawer, !drawer_is_held_by(rows.teller, by.user)),
        (Rule::Range, !is_in_range(rows, form)),
        (Rule::Full, cash_book_is_full(rows.cash_book, 3)),
    ])
}

fn is_in_range(rows: &DrawerRows, form: &DrawerOff) -> bool
    ensures { result ≡ is_in_range rows.now form.now }
{
    vault_in_range(rows.vault, form.counted.get())
        && match (rows.teller, rows.cash_book) {
            (Some(teller), Some(book)) => book_in_range(&book, &teller, form),
            _ => true,
        }
}

/// Whether the difference, and with it the sum of the branch's differences, are amounts of money, and
/// what the other drawers hold without this one.
fn book_in_range(book: &CashBook, teller: &TellerRecord, form: &DrawerOff) -> bool
    ensures { result ≡ book_in_range book.now teller.now form.now }
{
    let Some(difference) = cents_between(i128::from(form.counted.get()), teller.cash) else {
        return false;
    };
    differences_in_range(Some(*book), difference.get()) && is_between(book.drawers, teller.cash)
}

/// What the count differs by from the cash of the drawer.
fn difference(form: &DrawerOff, teller: &TellerRecord) -> Cents
    requires { IsCents (difference form.now teller.now) }
    ensures { result ≡ difference form.now teller.now }
{
    let Some(difference) = cents_between(i128::from(form.counted.get()), teller.cash) else {
        unreachable!();
    };
    difference
}

/// The three lines of a drawer put off that no rule denies.
fn put_off_plan(
    alloc: Global,
    book: &CashBook,
    difference: Cents,
    form: &DrawerOff,
    by: Signature,
) -> Result<Plan, Fault>
    requires { book.now.lines + 3 ≤ max_key }
    ensures lines { IfOk result (λ plan. plan.items ≡ RowWrite.Line (record { branch = form.now.branch; number = book.now.lines + 1; place = form.now.teller; amount = difference; form = LineForm.Difference; moment = by.moment; day = book.now.day; user = by.user }) ∷ RowWrite.Line (emptied_line book.now form.now by) ∷ RowWrite.Line (returned_line book.now form.now by) ∷ []) }
    ensures memory { IsOkUnless result Fault.Memory }
{
    let mut plan = Vec::new(alloc);
    plan.push(RowWrite::Line(difference_line(book, difference, form, by)))?;
    plan.push(RowWrite::Line(emptied_line(book, form, by)))?;
    plan.push(RowWrite::Line(returned_line(book, form, by)))?;
    Ok(plan)
}

/// The line of the difference, zero too: with it the drawer holds what was counted.
fn difference_line(book: &CashBook, difference: Cents, form: &DrawerOff, by: Signature) -> CashLine
    requires { book.now.lines + 3 ≤ max_key }
    ensures { result ≡ record { branch = form.now.branch; number = book.now.lines + 1; place = form.now.teller; amount = difference; form = LineForm.Difference; moment = by.moment; day = book.now.day; user = by.user } }
{
    CashLine {
        branch: form.branch,
        number: (book.lines + 1) as u32,
        place: form.teller,
        amount: difference,
        form: LineForm::Difference,
        moment: by.moment,
        day: book.day,
        user: by.user,
    }
}

/// The line that empties the drawer, which nobody holds from now on.
fn emptied_line(book: &CashBook, form: &DrawerOff, by: Signature) -> CashLine
    requires { book.now.lines + 3 ≤ max_key }
    ensures { result ≡ emptied_line book.now form.now by }
{
    CashLine {
        branch: form.branch,
        number: (book.lines + 2) as u32,
        place: form.teller,
        amount: negated(form.counted),
        form: LineForm::Off,
        moment: by.moment,
        day: book.day,
        user: by.user,
    }
}

/// The line of what comes back into the vault.
fn returned_line(book: &CashBook, form: &DrawerOff, by: Signature) -> CashLine
    requires { book.now.lines + 3 ≤ max_key }
    ensures { result ≡ returned_line book.now form.now by }
{
    CashLine {
        branch: form.branch,
        number: (book.lines + 3) as u32,
        place: 0,
        amount: form.counted,
        form: LineForm::Off,
        moment: by.moment,
        day: book.day,
        user: by.user,
    }
}
