//! The condition on the numbers of a branch's entries or cash lines, and the least branch that fails it.

ghost use Rattle.std.specs.List.Sorted.{IsNonDecreasingBy};
ghost use Rattle.book_check.specs.Least.{IsFirstFailing};
ghost use Rattle.book_range.specs.Numbers.{BranchesBearNumbers};

use crate::least::{Condition, least_failing};
use bank_books::BranchRecord;
use book_range::{Numbered, bear_numbers};
use book_sums::{Kept, rows_of_group};
use keyed_rows::Keyed;

/// The least branch with a row whose number is not from 1 to how many rows the branch has, or none.
pub(crate) fn first_of_other_numbers<T: Keyed + Numbered>(kept: &Kept, rows: &[T]) -> Option<u32>
    requires { IsNonDecreasingBy T.key rows.now }
    ensures { IsFirstFailing (BranchesBearNumbers T.key T.number rows.now kept.now) result }
{
    least_failing(&BranchNumbers { rows }, kept.branches(), kept.branches())
}

/// That each of the rows of a branch bears a number from 1 to how many they are.
#[derive(Drop)]
struct BranchNumbers<'r, T: Keyed + Numbered> {
    rows: &'r [T],
    ghost in_order: { IsNonDecreasingBy T.key rows.now },
}

impl<'r, T: Keyed + Numbered> Condition<BranchRecord> for BranchNumbers<'r, T> {
    ghost use Rattle.book_range.specs.Numbers.{BearNumbers};
    ghost use Rattle.book_sums.specs.Groups.{rows_of_group};

    ghost holds = { λ q kept _. BearNumbers T.number (rows_of_group T.key kept.row.branch q.rows.now) };

    ghost branch_of = { λ _ kept. kept.row.branch };

    fn holds(&self, row: &BranchRecord, _: &BranchRecord) -> bool {
        bear_numbers(rows_of_group(self.rows, row.row.branch))
    }

    fn branch_of(&self, row: &BranchRecord) -> u32 {
        row.row.branch
    }
}
