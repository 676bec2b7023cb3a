//! What the rules of the books ask of one row: the floor of an account, the range of an amount, room for
//! one more number, the branch of a teller, the holder of a drawer. Each test is exact, and passes where
//! the row is not there. `first_denial` answers the first rule of a table that denies. `cents_of`,
//! `cents_after` and `cents_between` are exact, and none exactly out of range. Nothing takes memory.
#![tactic(auto)]

mod accounts;
mod cash;
mod cash_book;
mod denial;
mod histories;
mod ledger;
mod planned;
mod ranges;

pub use accounts::{account_in_range, account_is_full, account_keeps_floor};
pub use cash::{
    cash_book_is_full, cash_entries_in_range, differences_in_range, drawer_covers, drawer_in_range,
    drawer_is_free, drawer_is_held, drawer_is_held_by, drawers_in_range, vault_covers,
    vault_in_range,
};
pub use cash_book::CashBook;
pub use denial::first_denial;
pub use histories::{ledger_in_range, ledger_is_full, teller_in_range, teller_is_of};
pub use ledger::Ledger;
pub use planned::Planned;
pub use ranges::{cents_after, cents_between, cents_of};
