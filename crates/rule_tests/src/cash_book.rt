//! The sums of a branch's cash lines, as the rules on cash judge them.

ghost use Rattle.std.specs.Prelude.{◌≡◌};
ghost use Rattle.rule_tests.specs.BranchParts.{cash_book_of};

use bank_books::BranchRecord;

/// What a branch's cash lines come to, and none of its vault or its history. All sums are in cents.
#[derive(Clone, Copy, Debug, PartialEq, Eq)]
pub struct CashBook {
    /// The present day of the branch.
    pub day: u32,
    /// How many lines its cash book has.
    pub lines: u64,
    /// The sum of the cash of its drawers.
    pub drawers: i128,
    /// The sum of its cash lines that came with entries.
    pub cash_entries: i128,
    /// The sum of its cash lines that record what counts of drawers differed by.
    pub differences: i128,
}

impl CashBook {
    /// That of a branch.
    pub fn of(branch: &BranchRecord) -> CashBook
        ensures { result ≡ cash_book_of branch.now }
    {
        CashBook {
            day: branch.row.day,
            lines: branch.lines,
            drawers: branch.drawers,
            cash_entries: branch.cash_entries,
            differences: branch.differences,
        }
    }
}
