//! Synthetic rows, as a store would return them. By them the rules are judged on numbers that no bank of a test comes to.

ghost use Rattle.std.specs.Prelude.{◌≡◌};

use bank_books::{Account, AccountRecord, Signature, Teller, TellerRecord};
use bank_terms::Rule;
use money::{Cents, Delta};
use rule_tests::{CashBook, Ledger};
use std::process::Abort;

/// The greatest amount of money, in cents.
pub(crate) const MOST: i64 = 999_999_999_999;

/// What the rows of Tess's requests bear.
pub(crate) const BY_TESS: Signature = Signature {
    user: 7,
    moment: 700,
};

/// What those of Tom's bear.
pub(crate) const BY_TOM: Signature = Signature {
    user: 8,
    moment: 700,
};

/// A history with nothing in it.
pub(crate) const LEDGER: Ledger = Ledger {
    day: 1,
    balance: 0,
    entries: 0,
    history: 0,
};

/// A cash book with nothing in it.
pub(crate) const CASH_BOOK: CashBook = CashBook {
    day: 1,
    lines: 0,
    drawers: 0,
    cash_entries: 0,
    differences: 0,
};

/// A cash book that has no number left for a line, and whose lines come to nothing.
pub(crate) const FULL_CASH_BOOK: CashBook = CashBook {
    lines: 999_999_999,
    ..CASH_BOOK
};

/// How many turns, entries and lines there are, and the rule where one of them has no number left for one more.
pub(crate) const ONE_OF_EACH: [([u64; 3], Option<Rule>); 4] = [
    ([999_999_998, 999_999_998, 999_999_998], None),
    ([999_999_999, 0, 0], Some(Rule::Full)),
    ([0, 999_999_999, 0], Some(Rule::Full)),
    ([0, 0, 999_999_999], Some(Rule::Full)),
];

/// How many turns two accounts have and how many entries there are, and the rule where an account has no turn left or the
/// history has not two numbers left.
pub(crate) const TWO_ENTRIES: [([u64; 3], Option<Rule>); 4] = [
    ([999_999_998, 999_999_998, 999_999_997], None),
    ([999_999_999, 0, 0], Some(Rule::Full)),
    ([0, 999_999_999, 0], Some(Rule::Full)),
    ([0, 0, 999_999_998], Some(Rule::Full)),
];

pub(crate) fn cents(rt: &impl Abort, value: i64) -> Cents
    ensures { result ≡ value }
{
    Cents::new(value).expect(rt, "an amount of money")
}

pub(crate) fn delta(rt: &impl Abort, value: i64) -> Delta
    ensures { result ≡ value }
{
    Delta::new(value).expect(rt, "what an entry may add")
}

/// An account of branch 1 with this balance and this number of turns, which may not fall below zero.
pub(crate) fn account_with(
    rt: &impl Abort,
    account: u32,
    balance: i64,
    turns: u64,
) -> AccountRecord {
    AccountRecord {
        row: Account {
            account,
            home: 1,
            opening: cents(rt, 0),
            floor: cents(rt, 0),
        },
        balance: i128::from(balance),
        turns,
    }
}

/// Teller 11, of this branch, whose drawer has so much cash and is held by nobody.
pub(crate) fn teller_of(rt: &impl Abort, branch: u32, cash: i64) -> TellerRecord {
    TellerRecord {
        row: Teller {
            teller: 11,
            branch,
            opening: cents(rt, 0),
        },
        balance: 0,
        cash: i128::from(cash),
        holder: None,
    }
}

/// Teller 11, of branch 1, whose drawer has so much cash and is held by Tess.
pub(crate) fn teller_with(rt: &impl Abort, cash: i64) -> TellerRecord {
    TellerRecord {
        holder: Some(7),
        ..teller_of(rt, 1, cash)
    }
}
