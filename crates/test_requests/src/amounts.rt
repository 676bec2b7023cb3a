//! Amounts of money, in cents, and the greatest of them.

use money::{Cents, Delta};
use std::process::Abort;

/// The greatest amount of money, in cents.
pub(crate) const MOST: i64 = 999_999_999_999;

pub(crate) fn cents(rt: &impl Abort, value: i64) -> Cents {
    Cents::new(value).expect(rt, "an amount of money")
}

pub(crate) fn delta(rt: &impl Abort, value: i64) -> Delta {
    Delta::new(value).expect(rt, "what an entry may add")
}
