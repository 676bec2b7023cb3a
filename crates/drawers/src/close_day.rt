//! The closing of a branch's day: the rules against it, and the proof and the next day that it writes.

ghost use Rattle.std.specs.Prelude.{◌≡◌, ◌+◌, ◌<◌, ◌≤◌, ◌&&◌, [], ◌∷◌, is_some, not, nat_le, true, false, pos, int_lt, option_map, IfOk, IfSome, IsNone, IsOkUnless, Ok, Err};
ghost use Rattle.std.specs.List.{list_any};
ghost use Rattle.std.specs.Option.{option_map_or};
ghost use Rattle.bank_terms.specs.Limits.{max_day, max_key};
ghost use Rattle.money.specs.Range.{IsCents, is_cents};
ghost use Rattle.rule_tests.specs.BranchParts.{ledger_of};
ghost use Rattle.rule_tests.specs.Planned.{IsPlanned};
ghost use Rattle.drawers.specs.CloseDay.{close_day_changes, closed, closed_of, first_against_close_day, is_in_range, is_unknown};

use crate::amounts::{amount_of, is_amount};
use bank_books::{BranchDay, BranchRecord, Plan, Proof, RowWrite, TellerRecord};
use bank_terms::{MAX_DAY, MAX_KEY, Rule};
use counter_ops::CloseDay;
use money::{Cents, Fault};
use rule_tests::{Ledger, Planned, first_denial};
use std::alloc::Global;

/// The rows that the closing of a day is judged on, as far as they are there.
#[derive(Clone, Copy, Debug, PartialEq, Eq)]
pub struct ClosingRows {
    /// The history of the branch.
    pub ledger: Option<Ledger>,
    /// The cash of its vault in cents.
    pub vault: Option<i128>,
    /// Whether a drawer of the branch is held.
    pub holds_a_drawer: bool,
}

impl ClosingRows {
    /// Of the rows as a store answers them: the branch, and its tellers.
    pub fn of(branch: Option<BranchRecord>, roster: &[TellerRecord]) -> ClosingRows
        ensures { result ≡ record { ledger = option_map ledger_of branch; vault = option_map (λ b. b.vault) branch; holds_a_drawer = list_any (λ t. is_some t.holder) roster.now } }
    {
        let (ledger, vault) = match branch {
            Some(branch) => (Some(Ledger::of(&branch)), Some(branch.vault)),
            None => (None, None),
        };
        ClosingRows {
            ledger,
            vault,
            holds_a_drawer: holds_a_drawer(roster),
        }
    }
}

/// Whether the drawer of some of these tellers is held.
fn holds_a_drawer(roster: &[TellerRecord]) -> bool
    ensures { result ≡ list_any (λ t. is_some t.holder) roster.now }
{
    roster.iter().any(|teller| teller.holder.is_some())
}

/// What the proof of a day that is closed holds.
#[derive(Clone, Copy, Debug, PartialEq, Eq)]
pub struct Closed {
    /// The balance of the branch.
    pub balance: Cents,
    /// The cash of its vault.
    pub cash: Cents,
    /// The day.
    pub closed: u32,
    /// How many entries the history of the branch has.
    pub entries: u32,
}

/// What carries the closing of a day out, or the first rule of the books that denies it. Only memory
/// keeps it from an answer.
pub fn plan_close_day(
    alloc: Global,
    rows: &ClosingRows,
    form: &CloseDay,
) -> Result<Result<Planned<Closed>, Rule>, Fault>
    ensures planned { IfOk result (IsPlanned (first_against_close_day rows.now) (close_day_changes rows.now form.now) (closed_of rows.now)) }
    ensures denied { IfSome (first_against_close_day rows.now) (λ rule. result ≡ Ok (Err rule)) }
    ensures memory { IsOkUnless result Fault.Memory }
{
    if let Some(rule) = rule_against_close_day(rows) {
        return Ok(Err(rule));
    }
    let (Some(ledger), Some(vault)) = (rows.ledger, rows.vault) else {
        unreachable!();
    };
    let left = closed_on(&ledger, vault);
    let plan = closing_plan(alloc, &left, form)?;
    Ok(Ok(Planned { plan, left }))
}

/// The first rule of the books that denies that the day is closed, or none. It takes no memory.
pub fn rule_against_close_day(rows: &ClosingRows) -> Option<Rule>
    ensures first { result ≡ first_against_close_day rows.now }
    ensures balance { IsNone result → IfSome rows.now.ledger (λ ledger. IsCents ledger.balance) }
    ensures entries { IsNone result → IfSome rows.now.ledger (λ ledger. ledger.entries ≤ max_key) }
    ensures day { IsNone result → IfSome rows.now.ledger (λ ledger. ledger.day < max_day) }
    ensures cash { IsNone result → IfSome rows.now.vault (λ cash. IsCents cash) }
{
    first_denial(&[
        (Rule::Unknown, is_unknown(rows)),
        (Rule::Range, !is_in_range(rows)),
        (Rule::Day, rows.holds_a_drawer),
        (Rule::Full, is_on_last_day(rows)),
    ])
}

fn is_unknown(rows: &ClosingRows) -> bool
    ensures { result ≡ is_unknown rows.now }
{
    rows.ledger.is_none() || rows.vault.is_none()
}

fn is_in_range(rows: &ClosingRows) -> bool
    ensures { result ≡ is_in_range rows.now }
{
    history_in_range(rows.ledger) && cash_in_range(rows.vault)
}

/// Whether the numbers of a history fit a proof.
fn history_in_range(row: Option<Ledger>) -> bool
    ensures { result ≡ option_map_or (λ ledger. is_cents ledger.balance && nat_le ledger.entries max_key) row true }
{
    match row {
        Some(ledger) => is_amount(ledger.balance) && ledger.entries <= MAX_KEY as u64,
        None => true,
    }
}

/// Whether the cash of a vault does.
fn cash_in_range(row: Option<i128>) -> bool
    ensures { result ≡ option_map_or (λ cash. is_cents cash && not (int_lt cash (pos 0))) row true }
{
    row.is_none_or(|cash| is_amount(cash) && 0 <= cash)
}

/// Whether the branch has no day after its present one.
fn is_on_last_day(rows: &ClosingRows) -> bool
    ensures { result ≡ option_map_or (λ ledger. nat_le max_day ledger.day) rows.now.ledger false }
{
    rows.ledger.is_some_and(|ledger| MAX_DAY <= ledger.day)
}

/// What the proof holds of a day that no rule keeps open.
fn closed_on(ledger: &Ledger, vault: i128) -> Closed
    requires balance { IsCents ledger.now.balance }
    requires entries { ledger.now.entries ≤ max_key }
    requires cash { IsCents vault }
    ensures { result ≡ closed ledger.now vault }
{
    Closed {
        balance: amount_of(ledger.balance),
        cash: amount_of(vault),
        closed: ledger.day,
        entries: ledger.entries as u32,
    }
}

/// The proof of the day that ends, and the next day of the branch.
fn closing_plan(alloc: Global, left: &Closed, form: &CloseDay) -> Result<Plan, Fault>
    requires { left.now.closed < max_day }
    ensures rows { IfOk result (λ plan. plan.items ≡ RowWrite.Proof (record { branch = form.now.branch; day = left.now.closed; entries = left.now.entries; balance = left.now.balance; cash = left.now.cash }) ∷ RowWrite.Day (record { branch = form.now.branch; day = left.now.closed + 1 }) ∷ []) }
    ensures memory { IsOkUnless result Fault.Memory }
{
    let mut plan = Vec::new(alloc);
    plan.push(RowWrite::Proof(Proof {
        branch: form.branch,
        day: left.closed,
        entries: left.entries,
        balance: left.balance,
        cash: left.cash,
    }))?;
    plan.push(RowWrite::Day(BranchDay {
        branch: form.branch,
        day: left.closed + 1,
    }))?;
    Ok(plan)
}
