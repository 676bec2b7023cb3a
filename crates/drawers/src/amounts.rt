//! Amounts of money of which it is known that they are in its range.

ghost use Rattle.std.specs.Prelude.{◌≡◌, ◌+ℤ◌, pos, neg_ℤ};
ghost use Rattle.money.specs.Range.{IsCents, is_cents};

use money::Cents;
use rule_tests::{cents_after, cents_between, cents_of};

/// Whether a number of the books is an amount of money.
pub(crate) fn is_amount(number: i128) -> bool
    ensures { result ≡ is_cents number }
{
    cents_of(number).is_some()
}

/// A number of the books.
pub(crate) fn amount_of(number: i128) -> Cents
    requires { IsCents number }
    ensures { result ≡ number }
{
    let Some(cents) = cents_of(number) else {
        unreachable!();
    };
    cents
}

/// A number of the books with an amount added to it.
pub(crate) fn sum_of(number: i128, added: i64) -> Cents
    requires { IsCents (number +ℤ added) }
    ensures { result ≡ number +ℤ added }
{
    let Some(sum) = cents_after(number, added) else {
        unreachable!();
    };
    sum
}

/// Whether a number of the books less another is an amount of money.
pub(crate) fn is_between(number: i128, taken: i128) -> bool
    ensures { result ≡ is_cents (number +ℤ neg_ℤ taken) }
{
    cents_between(number, taken).is_some()
}

/// So many cents more.
pub(crate) fn more_by(amount: u32) -> Cents
    ensures { result ≡ pos amount }
{
    let Some(cents) = Cents::new(i64::from(amount)) else {
        unreachable!();
    };
    cents
}

/// So many cents less.
pub(crate) fn less_by(amount: u32) -> Cents
    ensures { result ≡ neg_ℤ (pos amount) }
{
    negated(more_by(amount))
}

/// As many cents less.
pub(crate) fn negated(amount: Cents) -> Cents
    ensures { result ≡ neg_ℤ amount }
{
    let Some(cents) = Cents::new(-amount.get()) else {
        unreachable!();
    };
    cents
}
