//! The part that each row has in the sums: its group, its number and its amount.

use crate::shares::{Part, Parts};
use bank_books::{Account, CashLine, Entry, Release, Slip};

/// Entries in the sums of their tellers, by branch.
#[derive(Clone, Copy)]
pub(crate) struct ByTeller;

impl Parts<Entry> for ByTeller {
    ghost use Rattle.book_sums.specs.Sums.{teller_part};

    ghost part = { λ _ e. teller_part e };

    fn part(&self, row: &Entry) -> Part {
        Part {
            group: row.teller,
            number: row.branch,
            amount: row.delta.get(),
        }
    }
}

/// Entries in the sums of their accounts, by turn.
#[derive(Clone, Copy)]
pub(crate) struct ByTurn;

impl Parts<Entry> for ByTurn {
    ghost use Rattle.book_sums.specs.Sums.{turn_part};

    ghost part = { λ _ e. turn_part e };

    fn part(&self, row: &Entry) -> Part {
        Part {
            group: row.account,
            number: row.turn,
            amount: row.delta.get(),
        }
    }
}

/// Cash lines in the sums of their branches, by place.
#[derive(Clone, Copy)]
pub(crate) struct ByPlace;

impl Parts<CashLine> for ByPlace {
    ghost use Rattle.book_sums.specs.Sums.{place_part};

    ghost part = { λ _ l. place_part l };

    fn part(&self, row: &CashLine) -> Part {
        Part {
            group: row.branch,
            number: row.place,
            amount: row.amount.get(),
        }
    }
}

/// Accounts in the counts of their homes.
#[derive(Clone, Copy)]
pub(crate) struct ByHome;

impl Parts<Account> for ByHome {
    ghost use Rattle.book_sums.specs.Sums.{home_part};

    ghost part = { λ _ a. home_part a };

    fn part(&self, row: &Account) -> Part {
        Part {
            group: row.home,
            number: 0,
            amount: 0,
        }
    }
}

/// Releases in the counts of their users.
#[derive(Clone, Copy)]
pub(crate) struct ByUser;

impl Parts<Release> for ByUser {
    ghost use Rattle.book_sums.specs.Sums.{user_part};

    ghost part = { λ _ r. user_part r };

    fn part(&self, row: &Release) -> Part {
        Part {
            group: row.user,
            number: 0,
            amount: 0,
        }
    }
}

/// Slips in the counts of their users.
#[derive(Clone, Copy)]
pub(crate) struct BySlipUser;

impl Parts<Slip> for BySlipUser {
    ghost use Rattle.book_sums.specs.Sums.{slip_part};

    ghost part = { λ _ s. slip_part s };

    fn part(&self, row: &Slip) -> Part {
        Part {
            group: row.user(),
            number: 0,
            amount: 0,
        }
    }
}
