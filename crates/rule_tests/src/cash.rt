//! What is asked of a drawer, of a vault, and of the cash book of a branch. The cash of a place is never below zero, and
//! no sum of cash leaves the range of money.

ghost use Rattle.std.specs.Prelude.{◌≡◌};
ghost use Rattle.rule_tests.specs.Rules.{cash_book_is_full, cash_entries_in_range, differences_in_range, drawer_covers, drawer_in_range, drawer_is_free, drawer_is_held, drawer_is_held_by, drawers_in_range, vault_covers, vault_in_range};

use crate::cash_book::CashBook;
use crate::ranges::{is_below, is_full, is_in_range};
use bank_books::TellerRecord;

/// Whether a user holds the drawer of a teller.
pub fn drawer_is_held_by(row: Option<TellerRecord>, user: u32) -> bool
    ensures { result ≡ drawer_is_held_by row user }
{
    match row {
        Some(teller) => match teller.holder {
            Some(holder) => holder == user,
            None => false,
        },
        None => true,
    }
}

/// Whether some user holds it.
pub fn drawer_is_held(row: Option<TellerRecord>) -> bool
    ensures { result ≡ drawer_is_held row }
{
    row.is_some_and(|teller| teller.holder.is_some())
}

/// Whether nobody holds it.
pub fn drawer_is_free(row: Option<TellerRecord>) -> bool
    ensures { result ≡ drawer_is_free row }
{
    row.is_some_and(|teller| teller.holder.is_none())
}

/// Whether the cash of a drawer, with `added` cents more, is not below zero.
pub fn drawer_covers(row: Option<TellerRecord>, added: i64) -> bool
    ensures { result ≡ drawer_covers row added }
{
    row.is_none_or(|teller| !is_below(teller.cash, added, 0))
}

/// Whether it is an amount of money.
pub fn drawer_in_range(row: Option<TellerRecord>, added: i64) -> bool
    ensures { result ≡ drawer_in_range row added }
{
    row.is_none_or(|teller| is_in_range(teller.cash, added))
}

/// Whether the cash of a vault, with `added` cents more, is not below zero.
pub fn vault_covers(cash: Option<i128>, added: i64) -> bool
    ensures { result ≡ vault_covers cash added }
{
    cash.is_none_or(|cash| !is_below(cash, added, 0))
}

/// Whether it is an amount of money.
pub fn vault_in_range(cash: Option<i128>, added: i64) -> bool
    ensures { result ≡ vault_in_range cash added }
{
    cash.is_none_or(|cash| is_in_range(cash, added))
}

/// Whether the drawers of a branch, with `added` cents more, hold an amount of money.
pub fn drawers_in_range(row: Option<CashBook>, added: i64) -> bool
    ensures { result ≡ drawers_in_range row added }
{
    row.is_none_or(|book| is_in_range(book.drawers, added))
}

/// Whether the cash that came with the entries of a branch is an amount of money then.
pub fn cash_entries_in_range(row: Option<CashBook>, added: i64) -> bool
    ensures { result ≡ cash_entries_in_range row added }
{
    row.is_none_or(|book| is_in_range(book.cash_entries, added))
}

/// Whether what the counts of its drawers differed by is an amount of money then.
pub fn differences_in_range(row: Option<CashBook>, added: i64) -> bool
    ensures { result ≡ differences_in_range row added }
{
    row.is_none_or(|book| is_in_range(book.differences, added))
}

/// Whether a cash book has no number left for the last of `more` lines.
pub fn cash_book_is_full(row: Option<CashBook>, more: u8) -> bool
    ensures { result ≡ cash_book_is_full row more }
{
    row.is_some_and(|book| is_full(book.lines, more))
}
