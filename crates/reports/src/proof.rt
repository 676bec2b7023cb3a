//! The proof of a branch: the lines of its tellers, read from a store and added up, and then its totals.

ghost use Rattle.std.specs.Prelude.{◌≡◌, ◌≤◌, IfOk, IfSome, MatchOption, option_map};
ghost use Rattle.arrayvec.specs.ArrayVec.{array_vec_len};
ghost use Rattle.store_rows.specs.Status.{MayRead, mark_of};
ghost use Rattle.reports.specs.Cause.{CountsWhere};
ghost use Rattle.reports.specs.Listing.{listed_teller, listed_total, numbers_of, total_of};
ghost use Rattle.reports.specs.Room.{HasRoom, HasSumRoom};
ghost use Rattle.reports.specs.Step.{IsNext, seen};

use crate::listing::{Listed, Listing};
use bank_books::{BranchRecord, TellerRecord};
use money::Fault;
use report_lines::{Total, teller_line, total_line};
use std::alloc::Global;
use store_rows::ReportReads;

/// What the proof of a branch shows beside its tellers: the branch as it was read. All amounts are in cents.
#[derive(Clone, Copy, Debug, PartialEq, Eq)]
pub struct BranchNumbers {
    /// Its number.
    pub branch: u32,
    /// Its present day.
    pub day: u32,
    /// Its balance.
    pub balance: i128,
    /// What the deltas of its entries come to.
    pub history: i128,
    /// The balance that it opened with.
    pub opening: i128,
    /// The cash in its vault.
    pub vault: i128,
    /// The cash in its drawers.
    pub drawers: i128,
    /// The cash that it opened with.
    pub opening_cash: i128,
    /// The cash that came with entries.
    pub cash_entries: i128,
    /// What counts of drawers differed by.
    pub differences: i128,
}

impl BranchNumbers {
    /// Those of a branch.
    pub fn of(branch: &BranchRecord) -> BranchNumbers
        ensures { result ≡ numbers_of branch.now }
    {
        BranchNumbers {
            branch: branch.row.branch,
            day: branch.row.day,
            balance: branch.balance,
            history: branch.history,
            opening: branch.row.opening.get() as i128,
            vault: branch.vault,
            drawers: branch.drawers,
            opening_cash: branch.row.cash.get() as i128,
            cash_entries: branch.cash_entries,
            differences: branch.differences,
        }
    }
}

/// The tellers of a branch above a number, and after them the totals of its proof.
#[derive(Clone, Copy, Debug, PartialEq, Eq)]
pub struct AfterTeller {
    /// The branch, as it was read.
    pub branch: BranchNumbers,
    /// The number above which they lie.
    pub after: u32,
    /// What the balances of the tellers before them come to.
    pub tellers: i128,
}

/// The totals of the proof of a branch, from one on.
#[derive(Clone, Copy, Debug, PartialEq, Eq)]
pub struct FromTotal {
    /// The branch, as it was read.
    pub branch: BranchNumbers,
    /// What the balances of its tellers come to.
    pub tellers: i128,
    /// The next one, or none after the last.
    pub next: Option<Total>,
}

/// The line of the next teller of a branch, or of the first total after the last teller.
pub(crate) fn next_teller<S: ReportReads>(
    alloc: Global,
    store: &mut S,
    from: AfterTeller,
) -> Result<Option<Listed>, Fault>
    ensures read { MayRead (S.status store.old) (S.status store.new) result (IsNext (Listing.Tellers from)) }
    ensures cause { CountsWhere (S.status store.old) (S.status store.new) (mark_of result) (λ w. HasRoom w (Listing.Tellers from)) }
    ensures short { IfOk result (λ next. IfSome next (λ listed. array_vec_len listed.line ≤ 256)) }
{
    let Some(teller) = store.next_teller(alloc, from.branch.branch, from.after)? else {
        return Ok(Some(listed_total(from.branch, from.tellers, Total::Tellers)));
    };
    let Some(listed) = listed_teller(&from, &teller) else {
        return Err(Fault::Memory);
    };
    Ok(Some(listed))
}

/// The line of a teller, or none where what the balances come to then is out of the range of `i128`.
fn listed_teller(from: &AfterTeller, teller: &TellerRecord) -> Option<Listed>
    ensures room { MatchOption result (¬ HasSumRoom from.now teller.now) (λ listed. HasSumRoom from.now teller.now) }
    ensures listed { IfSome result (λ listed. seen listed ≡ listed_teller from.now teller.now) }
    ensures short { IfSome result (λ listed. array_vec_len listed.line ≤ 256) }
{
    let tellers = from.tellers.checked_add(teller.balance)?;
    Some(Listed {
        line: teller_line(teller),
        rest: Listing::Tellers(AfterTeller {
            branch: from.branch,
            after: teller.row.teller,
            tellers,
        }),
    })
}

/// The line of the next total.
pub(crate) fn next_total(from: FromTotal) -> Option<Listed>
    ensures listed { option_map seen result ≡ option_map (listed_total from.branch from.tellers) from.next }
    ensures short { IfSome result (λ listed. array_vec_len listed.line ≤ 256) }
{
    match from.next {
        Some(total) => Some(listed_total(from.branch, from.tellers, total)),
        None => None,
    }
}

/// The line of a total, where the balances of the tellers come to this.
fn listed_total(branch: BranchNumbers, tellers: i128, total: Total) -> Listed
    ensures listed { seen result ≡ listed_total branch tellers total }
    ensures short { array_vec_len result.line ≤ 256 }
{
    let amount = total_of(&branch, tellers, total);
    Listed {
        line: total_line(total, amount),
        rest: Listing::Totals(FromTotal {
            branch,
            tellers,
            next: total.next(),
        }),
    }
}

/// The sum of a total.
fn total_of(branch: &BranchNumbers, tellers: i128, total: Total) -> i128
    ensures { result ≡ total_of branch.now tellers total }
{
    match total {
        Total::Tellers => tellers,
        Total::Balance => branch.balance,
        Total::History => branch.history,
        Total::Opening => branch.opening,
        Total::Vault => branch.vault,
        Total::Drawers => branch.drawers,
        Total::OpeningCash => branch.opening_cash,
        Total::CashEntries => branch.cash_entries,
        Total::Differences => branch.differences,
    }
}
