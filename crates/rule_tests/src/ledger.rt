//! The balance and the totals of a branch's history, as the rules on entries judge them.

ghost use Rattle.std.specs.Prelude.{◌≡◌};
ghost use Rattle.rule_tests.specs.BranchParts.{ledger_of};

use bank_books::BranchRecord;

/// The sums of a branch's history, without its cash.
#[derive(Clone, Copy, Debug, PartialEq, Eq)]
pub struct Ledger {
    /// The present day of the branch.
    pub day: u32,
    /// Its balance in cents.
    pub balance: i128,
    /// How many entries its history has.
    pub entries: u64,
    /// The sum of the deltas of its entries, in cents.
    pub history: i128,
}

impl Ledger {
    /// That of a branch.
    pub fn of(branch: &BranchRecord) -> Ledger
        ensures { result ≡ ledger_of branch.now }
    {
        Ledger {
            day: branch.row.day,
            balance: branch.balance,
            entries: branch.entries,
            history: branch.history,
        }
    }
}
