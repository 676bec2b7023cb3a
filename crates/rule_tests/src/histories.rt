//! What is asked of a teller and of the history of its branch.

ghost use Rattle.std.specs.Prelude.{◌≡◌};
ghost use Rattle.rule_tests.specs.Rules.{ledger_in_range, ledger_is_full, teller_in_range, teller_is_of};

use crate::ledger::Ledger;
use crate::ranges::{is_full, is_in_range};
use bank_books::TellerRecord;

/// Whether a teller is of a branch.
pub fn teller_is_of(row: Option<TellerRecord>, branch: u32) -> bool
    ensures { result ≡ teller_is_of row branch }
{
    match row {
        Some(teller) => teller.row.branch == branch,
        None => true,
    }
}

/// Whether the balance of a teller and `added` cents are together an amount of money.
pub fn teller_in_range(row: Option<TellerRecord>, added: i64) -> bool
    ensures { result ≡ teller_in_range row added }
{
    row.is_none_or(|teller| is_in_range(teller.balance, added))
}

/// Whether the balance of a branch and its sum of deltas are amounts of money, with `added` cents more.
pub fn ledger_in_range(row: Option<Ledger>, added: i64) -> bool
    ensures { result ≡ ledger_in_range row added }
{
    row.is_none_or(|ledger| {
        is_in_range(ledger.balance, added) && is_in_range(ledger.history, added)
    })
}

/// Whether a history has no number left for the last of `more` entries.
pub fn ledger_is_full(row: Option<Ledger>, more: u8) -> bool
    ensures { result ≡ ledger_is_full row more }
{
    row.is_some_and(|ledger| is_full(ledger.entries, more))
}
