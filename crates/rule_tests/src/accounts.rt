//! What is asked of an account.

ghost use Rattle.std.specs.Prelude.{◌≡◌};
ghost use Rattle.rule_tests.specs.Rules.{account_in_range, account_is_full, account_keeps_floor};

use crate::ranges::{is_below, is_full, is_in_range};
use bank_books::AccountRecord;

/// Whether an account with `added` cents more stays at its floor or above.
pub fn account_keeps_floor(row: Option<AccountRecord>, added: i64) -> bool
    ensures { result ≡ account_keeps_floor row added }
{
    match row {
        Some(account) => !is_below(account.balance, added, account.row.floor.get()),
        None => true,
    }
}

/// Whether its balance is an amount of money then.
pub fn account_in_range(row: Option<AccountRecord>, added: i64) -> bool
    ensures { result ≡ account_in_range row added }
{
    row.is_none_or(|account| is_in_range(account.balance, added))
}

/// Whether an account has the greatest number of turns already.
pub fn account_is_full(row: Option<AccountRecord>) -> bool
    ensures { result ≡ account_is_full row }
{
    row.is_some_and(|account| is_full(account.turns, 1))
}
