//! The check of the books from the first condition to the last, and the faults that it returns.

ghost use Rattle.std.specs.Prelude.{◌↔◌, IfOk, IsOkUnless, IsTrue, map};
ghost use Rattle.std.specs.List.Sorted.{IsPermutation};
ghost use Rattle.book_check.specs.Verdict.{IsVerdict};
ghost use Rattle.bank_books.specs.Conditions.{TellersAgree, TotalsAgree};
ghost use Rattle.book_check.specs.Least.{IsFirstFailing};
ghost use Rattle.bank_books.specs.Range.{IsInRange};
ghost use Rattle.book_check.specs.RowConditions.{balance_part};
ghost use Rattle.book_check.specs.Turns.{turn_balance};
ghost use Rattle.book_sums.specs.Records.{AreRecordsOf};
ghost use Rattle.book_sums.specs.Sums.{AreSumsOf};

use crate::amounts::{TellerBalances, totals_agree};
use crate::cash_book::first_of_other_cash;
use crate::history::first_of_other_history;
use crate::least::{Condition, least_failing};
use crate::turns::TurnBalances;
use bank_books::{BranchRecord, World};
use book_range::is_in_range;
use book_sums::{Kept, Records, Shares, Sums};
use money::Fault;
use std::alloc::Global;
use thiserror::Error;

/// Why the books of a bank do not hold.
#[derive(Clone, Copy, Debug, PartialEq, Eq, Error)]
pub enum BooksFault {
    /// The sums of account, teller and branch balances are not equal.
    #[error("condition A")]
    ConditionA,
    /// The balance of a branch is not the sum of its tellers' balances.
    #[error("condition B, branch {branch}")]
    ConditionB {
        /// The branch, by number.
        branch: u32,
    },
    /// The history of a branch does not give its balance or its counts, or those of a teller or an
    /// account of it, or its entries or the turns of its accounts are not numbered 1, 2, 3 and so on.
    #[error("condition C, branch {branch}")]
    ConditionC {
        /// The branch, by number.
        branch: u32,
    },
    /// The cash book of a branch does not give its cash or who holds its drawers, its lines are not
    /// numbered 1, 2, 3 and so on, or its cash does not add up.
    #[error("cash, branch {branch}")]
    Cash {
        /// The branch, by number.
        branch: u32,
    },
    /// A number is out of its limits, below a floor, or cash below zero; a key stands twice; a row
    /// names one that isn't there, or a teller or an entry of another branch; or releases or proofs
    /// are not numbered as they have to be.
    #[error("range")]
    Range,
}

/// Checks a World and the numbers that are kept beside it: whether every condition holds of them,
/// and the kept numbers are those that the World gives, or else the first fault. The faults are
/// looked for in this order: the range, the sums of tellers (condition B), the history (condition
/// C), the cash, and the totals (condition A); where a branch is returned, it is the least that fails.
/// Only memory keeps it from an answer.
pub fn check_books(
    alloc: Global,
    world: &World,
    kept: &Kept,
) -> Result<Result<(), BooksFault>, Fault>
    ensures verdict { IfOk result (IsVerdict world.now kept.now) }
    ensures memory { IsOkUnless result Fault.Memory }
{
    let sums = Sums::of(alloc, world)?;
    let computed = Records::of(alloc, world, &sums)?;
    let tellers = Shares::of(alloc, &TellerBalances, kept.tellers())?;
    let balances = Shares::of(alloc, &TurnBalances, kept.entries())?;
    Ok(verdict(world, kept, &computed, &sums, &tellers, &balances))
}

/// The verdict, beside the numbers that the World gives.
fn verdict(
    world: &World,
    kept: &Kept,
    computed: &Records,
    sums: &Sums,
    tellers: &Shares,
    balances: &Shares,
) -> Result<(), BooksFault>
    requires computed { AreRecordsOf world.now computed.now }
    requires sums { AreSumsOf world.now sums.now }
    requires tellers { IsPermutation (map balance_part kept.now.tellers) tellers.now }
    requires balances { IsPermutation (map turn_balance kept.now.entries) balances.now }
    ensures { IsVerdict world.now kept.now result }
{
    if !is_in_range(world, kept, computed, sums) {
        return Err(BooksFault::Range);
    }
    if let Some(branch) = first_of_other_tellers(world, kept, tellers) {
        return Err(BooksFault::ConditionB { branch });
    }
    if let Some(branch) = first_of_other_history(world, kept, computed, sums, balances) {
        return Err(BooksFault::ConditionC { branch });
    }
    if let Some(branch) = first_of_other_cash(world, kept, computed) {
        return Err(BooksFault::Cash { branch });
    }
    if !have_equal_totals(world, kept) {
        return Err(BooksFault::ConditionA);
    }
    Ok(())
}

/// The least branch whose balance is not the sum of its tellers' balances, or none.
fn first_of_other_tellers(world: &World, kept: &Kept, tellers: &Shares) -> Option<u32>
    requires in_range { IsInRange world.now kept.now }
    requires tellers { IsPermutation (map balance_part kept.now.tellers) tellers.now }
    ensures { IsFirstFailing (TellersAgree kept.now) result }
{
    least_failing(&TellerSums { tellers }, kept.branches(), kept.branches())
}

/// Whether the sums of account, teller and branch balances are equal.
fn have_equal_totals(world: &World, kept: &Kept) -> bool
    requires { IsInRange world.now kept.now }
    ensures { IsTrue result ↔ TotalsAgree kept.now }
{
    totals_agree(kept)
}

/// That the balance of a branch is the sum of its tellers' balances.
#[derive(Clone, Copy)]
struct TellerSums<'t> {
    tellers: &'t Shares,
}

impl<'t> Condition<BranchRecord> for TellerSums<'t> {
    ghost use Rattle.book_check.specs.RowConditions.{IsSumOfParts};

    ghost holds = { λ q kept _. IsSumOfParts q.tellers.now kept };

    ghost branch_of = { λ _ kept. kept.row.branch };

    fn holds(&self, row: &BranchRecord, _: &BranchRecord) -> bool {
        row.balance == self.tellers.total_of(row.row.branch)
    }

    fn branch_of(&self, row: &BranchRecord) -> u32 {
        row.row.branch
    }
}
