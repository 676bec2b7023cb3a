//! Kept balances as amounts that can be added, by branch and over all rows.

ghost use Rattle.std.specs.Prelude.{◌≡◌, ◌↔◌, IsTrue};
ghost use Rattle.money.specs.Range.{IsCents};
ghost use Rattle.book_check.specs.RowConditions.{AmountsAgree, amount_of};

use bank_books::{AccountRecord, BranchRecord, TellerRecord};
use book_sums::{Kept, Part, Parts};
use keyed_rows::{Tally, sum_of};
use money::MAX_CENTS;

/// A kept number as an amount, and 0 for one that is none.
pub(crate) fn amount_of(number: i128) -> i64
    ensures value { result ≡ amount_of number }
    ensures in_range { IsCents result }
{
    if i128::from(-MAX_CENTS) <= number && number <= i128::from(MAX_CENTS) {
        number as i64
    } else {
        0
    }
}

/// The balances that are kept of tellers, in the sums of their branches.
#[derive(Clone, Copy)]
pub(crate) struct TellerBalances;

impl Parts<TellerRecord> for TellerBalances {
    ghost use Rattle.book_check.specs.RowConditions.{balance_part};

    ghost part = { λ _ t. balance_part t };

    fn part(&self, row: &TellerRecord) -> Part {
        Part {
            group: row.row.branch,
            number: 0,
            amount: amount_of(row.balance),
        }
    }
}

/// All balances.
#[derive(Clone, Copy)]
struct Balances;

impl Tally<TellerRecord> for Balances {
    ghost use Rattle.book_check.specs.RowConditions.{amount_of};

    ghost share = { λ _ t. amount_of t.balance };

    fn share(&self, row: &TellerRecord) -> i64 {
        amount_of(row.balance)
    }
}

impl Tally<AccountRecord> for Balances {
    ghost use Rattle.book_check.specs.RowConditions.{amount_of};

    ghost share = { λ _ a. amount_of a.balance };

    fn share(&self, row: &AccountRecord) -> i64 {
        amount_of(row.balance)
    }
}

impl Tally<BranchRecord> for Balances {
    ghost use Rattle.book_check.specs.RowConditions.{amount_of};

    ghost share = { λ _ b. amount_of b.balance };

    fn share(&self, row: &BranchRecord) -> i64 {
        amount_of(row.balance)
    }
}

/// Whether the sums of account, teller and branch balances are equal.
pub(crate) fn totals_agree(kept: &Kept) -> bool
    ensures { IsTrue result ↔ (AmountsAgree kept.now) }
{
    let accounts = sum_of(&Balances, kept.accounts());
    sum_of(&Balances, kept.tellers()) == accounts && sum_of(&Balances, kept.branches()) == accounts
}
