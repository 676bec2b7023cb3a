//! Numbers of the books, and sums and differences of them, against their limits.

ghost use Rattle.std.specs.Prelude.{◌≡◌, ◌↔◌, ◌+ℤ◌, int_lt, neg_ℤ, IfSome, IsSome};
ghost use Rattle.money.specs.Range.{IsCents, is_cents};
ghost use Rattle.rule_tests.specs.Rules.{is_full};

use bank_terms::MAX_KEY;
use money::{Cents, MAX_CENTS};

/// A number of the books as an amount of money, or none where it is out of that range.
pub fn cents_of(number: i128) -> Option<Cents>
    ensures in_range { IsSome result ↔ IsCents number }
    ensures value { IfSome result (λ cents. cents ≡ number) }
{
    let Ok(number) = i64::try_from(number) else {
        return None;
    };
    Cents::new(number)
}

/// A number of the books with an amount added to it, or none where that would leave the range of money.
pub fn cents_after(number: i128, added: i64) -> Option<Cents>
    ensures in_range { IsSome result ↔ IsCents (number +ℤ added) }
    ensures value { IfSome result (λ after. after ≡ number +ℤ added) }
{
    cents_of(number.checked_add(i128::from(added))?)
}

/// A number of the books less another, or none where that would leave the range of money.
pub fn cents_between(number: i128, taken: i128) -> Option<Cents>
    ensures in_range { IsSome result ↔ IsCents (number +ℤ neg_ℤ taken) }
    ensures value { IfSome result (λ between. between ≡ number +ℤ neg_ℤ taken) }
{
    cents_of(number.checked_sub(taken)?)
}

/// Whether a number with an amount added to it is less than another.
pub(crate) fn is_below(number: i128, added: i64, least: i64) -> bool
    ensures { result ≡ int_lt (number +ℤ added) least }
{
    number < i128::from(least) - i128::from(added)
}

/// Whether it is more.
fn is_above(number: i128, added: i64, most: i64) -> bool
    ensures { result ≡ int_lt most (number +ℤ added) }
{
    i128::from(most) - i128::from(added) < number
}

/// Whether it is an amount of money.
pub(crate) fn is_in_range(number: i128, added: i64) -> bool
    ensures { result ≡ is_cents (number +ℤ added) }
{
    !is_below(number, added, -MAX_CENTS) && !is_above(number, added, MAX_CENTS)
}

/// Whether a count and `more` together are above the greatest number of a row.
pub(crate) fn is_full(count: u64, more: u8) -> bool
    ensures { result ≡ is_full count more }
{
    MAX_KEY as u64 - u64::from(more) < count
}
